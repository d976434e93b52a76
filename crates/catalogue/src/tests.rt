// Files that are refused.
use super::list::list;
use std::process::Abort;
use std::test::Fail;

// What is listed of some bytes.
fn says(rt: &(impl Abort + AllocGlobal), bytes: &[u8], line: &[u8]) -> Result<(), Fail> {
    let mut out = Vec::new(rt.alloc());
    list(bytes, &mut out)?;
    assert!(rt; out.as_slice() == line);
    Ok(())
}

#[test]
fn a_file_of_less_than_two_pages(rt: HostRuntime) -> Result<(), Fail> {
    says(&rt, &[], b"refused 2 page 0\n")?;
    says(&rt, &[0; 2047], b"refused 2 page 0\n")
}

#[test]
fn a_first_page_of_another_form(rt: HostRuntime) -> Result<(), Fail> {
    says(&rt, &[0; 2048], b"refused 3 page 0\n")
}

#[test]
fn a_page_that_is_not_sound(rt: HostRuntime) -> Result<(), Fail> {
    let mut file = [0; 4096];
    file[3] = 1;
    file[7] = 4;
    says(&rt, &file, b"file 4 pages counter 0 cleared 0 records 0\n")?;
    // a number above the counter by more than one, on page 2
    file[2048 + 3] = 2;
    says(&rt, &file, b"refused 4 page 2\n")
}
