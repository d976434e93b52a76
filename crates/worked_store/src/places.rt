// Where records lie.
use super::edits::{lay_and_open, lies, make, make_and_save, number_of, shut};
use medium::Medium;
use std::process::Abort;
use std::test::Fail;
use store::{Change, Refusal, Store};

fn four_edits<M: Medium>(rt: &impl Abort, store: &mut Store<M>) -> Result<(), Fail> {
    assert!(rt; lay_and_open(store));
    assert!(rt; make_and_save(store, Change::Put, 7, &[0x41, 0x42]).is_ok());
    assert!(rt; lies(store, 7, 1022, &[0x41, 0x42]));
    assert!(rt; make_and_save(store, Change::Put, 3, &[]).is_ok());
    assert!(rt; lies(store, 3, 1018, &[]));
    // the saved record of the key is not free until the next save
    assert!(rt; make_and_save(store, Change::Replace, 7, &[0x43, 0x44, 0x45]).is_ok());
    assert!(rt; lies(store, 7, 1011, &[0x43, 0x44, 0x45]));
    assert!(rt; make_and_save(store, Change::Put, 9, &[0x46, 0x47]).is_ok());
    assert!(rt; lies(store, 9, 1022, &[0x46, 0x47]));
    // and the others are where they were
    assert!(rt; lies(store, 3, 1018, &[]) && lies(store, 7, 1011, &[0x43, 0x44, 0x45]));
    Ok(())
}

#[test]
fn four_edits_of_a_fresh_file(rt: HostRuntime) -> Result<(), Fail> {
    let mut bytes = [0; 2048];
    let mut store = shut(&mut bytes);
    let done = four_edits(&rt, &mut store);
    let _ = store.into_medium().into_bytes();
    done
}

// With what a fifth put, and then a change of another key, is refused.
#[derive(Clone, Copy)]
struct Fifth {
    put: Option<u8>,
    change: Option<u8>,
}

// Fills a page in one edit, tries a fifth put and a change, and saves.
fn fill<M: Medium>(store: &mut Store<M>) -> Result<Fifth, Refusal> {
    let slip = store.begin()?;
    let filled = (1u32..5).try_for_each(|key| make(store, &slip, Change::Put, key, &[1; 200]));
    let put = number_of(make(store, &slip, Change::Put, 5, &[1; 200]));
    let change = number_of(make(store, &slip, Change::Replace, 2, &[2; 200]));
    store.save(slip)?;
    filled?;
    Ok(Fifth { put, change })
}

fn full_page<M: Medium>(rt: &impl Abort, store: &mut Store<M>) -> Result<(), Fail> {
    assert!(rt; lay_and_open(store));
    let fifth = fill(store)?;
    assert_eq!(rt; fifth.put, Some(15));
    // a record of the same edit makes room for its change
    assert_eq!(rt; fifth.change, None);
    assert!(rt; lies(store, 1, 824, &[1; 200]) && lies(store, 2, 620, &[2; 200]));
    assert!(rt; lies(store, 3, 416, &[1; 200]) && lies(store, 4, 212, &[1; 200]));
    // a saved one does not
    let again = make_and_save(store, Change::Replace, 2, &[3; 200]);
    assert_eq!(rt; number_of(again), Some(15));
    assert!(rt; lies(store, 2, 620, &[2; 200]));
    Ok(())
}

#[test]
fn four_long_values_fill_a_page(rt: HostRuntime) -> Result<(), Fail> {
    let mut bytes = [0; 2048];
    let mut store = shut(&mut bytes);
    let done = full_page(&rt, &mut store);
    let _ = store.into_medium().into_bytes();
    done
}
