// Small pages, read and checked.
use layout::{FirstPage, Side, find, is_sound, pending, valid};
use octets::{Width, write_number};
use std::test::Fail;

// Puts a header over one record of a key and no value, at an offset in the content.
fn put_header(page: &mut [u8; 1024], side: Side, number: u32, count: u16, offset: u16, key: u32) {
    let start = side.start();
    if start <= 104 && offset <= 1020 {
        write_number(page, start, Width::Four, number);
        write_number(page, start + 4, Width::Two, count as u32);
        write_number(page, start + 8, Width::Two, offset as u32);
        write_number(page, start + 10, Width::Two, 4);
        write_number(page, offset as usize, Width::Four, key);
    }
}

fn first_page(pages: u32, counter: u32, count: usize) -> Option<FirstPage> {
    let mut page = [0; 1024];
    write_number(&mut page, 0, Width::Four, 1);
    write_number(&mut page, 4, Width::Four, pages);
    write_number(&mut page, 8, Width::Four, counter);
    FirstPage::read(&page, count)
}

// The key of the record that is found.
fn found(page: &[u8; 1024], counter: u32, key: u32) -> Option<u32> {
    find(page, counter, key).map(|record| record.key)
}

#[test]
fn the_greater_number_that_counts_is_read(rt: HostRuntime) {
    let mut page = [0; 1024];
    put_header(&mut page, Side::A, 3, 1, 1000, 30);
    put_header(&mut page, Side::B, 4, 1, 900, 40);
    assert_eq!(rt; found(&page, 3, 30), Some(30));
    assert_eq!(rt; found(&page, 3, 40), None);
    assert_eq!(rt; found(&page, 4, 40), Some(40));
    assert_eq!(rt; found(&page, 2, 30), None);
    assert!(rt; valid(&page, 2).is_none());
    assert_eq!(rt; pending(&page, 3), 1);
    assert_eq!(rt; pending(&page, 4), 0);
}

#[test]
fn the_first_page_is_read_or_refused(rt: HostRuntime) {
    assert!(rt; first_page(1, 0, 9).is_none());
    assert!(rt; first_page(2, 0, 2).is_some());
    assert!(rt; first_page(4096, 0, 4096).is_some());
    assert!(rt; first_page(4097, 0, 5000).is_none());
    assert!(rt; first_page(3, 0, 2).is_none());
    assert!(rt; FirstPage::read(&[], 9).is_none());
}

#[test]
fn a_page_is_sound_or_not(rt: HostRuntime) -> Result<(), Fail> {
    let first = first_page(2, 3, 2).ok_or("no first page")?;
    let mut page = [0; 1024];
    assert!(rt; is_sound(&page, first, 1));
    put_header(&mut page, Side::A, 3, 1, 1020, 7);
    assert!(rt; is_sound(&page, first, 1));
    // a slot that begins before the content
    put_header(&mut page, Side::A, 3, 1, 207, 7);
    assert!(rt; !is_sound(&page, first, 1));
    // 25 records
    put_header(&mut page, Side::A, 3, 25, 1020, 7);
    assert!(rt; !is_sound(&page, first, 1));
    // the header that is not valid may hold anything
    put_header(&mut page, Side::B, 4, 65535, 1020, 7);
    put_header(&mut page, Side::A, 3, 0, 1020, 7);
    assert!(rt; is_sound(&page, first, 1));
    Ok(())
}

#[test]
fn the_greatest_counter_has_no_next(rt: HostRuntime) -> Result<(), Fail> {
    let first = first_page(2, 4_294_967_295, 2).ok_or("no first page")?;
    let mut page = [0; 1024];
    assert_eq!(rt; pending(&page, 4_294_967_295), 0);
    put_header(&mut page, Side::B, 4_294_967_295, 1, 1000, 8);
    assert!(rt; is_sound(&page, first, 1));
    assert_eq!(rt; found(&page, 4_294_967_295, 8), Some(8));
    Ok(())
}

#[test]
fn a_key_has_its_page(rt: HostRuntime) -> Result<(), Fail> {
    let first = first_page(4096, 0, 4096).ok_or("no first page")?;
    assert_eq!(rt; first.page_of(4095), 1);
    assert_eq!(rt; first.page_of(4094), 4095);
    assert_eq!(rt; first.page_of(0), 1);
    Ok(())
}
