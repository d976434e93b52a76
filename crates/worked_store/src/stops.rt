// A medium that stops: what was saved is there whole.
use super::edits::{lay_and_open, make, make_and_save, shut};
use medium::{Medium, Trial};
use std::process::Abort;
use std::test::Fail;
use store::{Change, Refusal, Slip, Store, value_at};

// A file in which key 7 has eight bytes of zero, and key 3 is not there.
fn lay_old(bytes: &mut [u8]) -> bool {
    let mut store = shut(bytes);
    let laid = lay_and_open(&mut store)
        && make_and_save(&mut store, Change::Put, 7, &[0; 8]).is_ok();
    let _ = store.into_medium().into_bytes();
    laid
}

// Gives both keys the edit's number in each byte.
fn make_both<M: Medium>(store: &mut Store<M>, slip: &Slip, edit: u8) -> Result<(), Refusal> {
    let three = if edit == 1 {
        Change::Put
    } else {
        Change::Replace
    };
    make(store, slip, Change::Replace, 7, &[edit; 8])?;
    make(store, slip, three, 3, &[edit; 4])
}

// The same in an edit of its own, which is saved, or abandoned where a change is refused.
fn edit_both<M: Medium>(store: &mut Store<M>, edit: u8) -> Result<(), Refusal> {
    let slip = store.begin()?;
    let made = make_both(store, &slip, edit);
    if made.is_err() {
        let _ = store.abandon(slip);
        return made;
    }
    store.save(slip)?;
    Ok(())
}

// Opens, and makes two edits. Answers how many were saved.
fn use_until_stopped<M: Medium>(store: &mut Store<M>) -> u8 {
    let mut work = [0; 1024];
    let mut saved = 0;
    if store.open(&mut work).is_err() {
        return saved;
    }
    for edit in 1u8..3 {
        if edit_both(store, edit).is_err() {
            return saved;
        }
        saved = edit;
    }
    saved
}

// The same over a trial medium.
fn try_use(bytes: &mut [u8], stop: u32, pattern: u64) -> u8 {
    let mut store = Store::new(Trial::new(bytes, stop, pattern));
    let saved = use_until_stopped(&mut store);
    let _ = store.into_medium().into_bytes();
    saved
}

// The edit that a saved value is of, which is what all its bytes are, if there is such a key.
fn edit_of<M: Medium>(store: &Store<M>, key: u32, length: usize) -> Result<Option<u8>, Fail> {
    let mut work = [0; 1024];
    let Ok(place) = store.look(&mut work, key) else {
        return Ok(None);
    };
    let value = value_at(&work, place);
    match value.first() {
        Some(edit) if value.len() == length && value.iter().all(|byte| byte == edit) => {
            Ok(Some(*edit))
        }
        _ => Err(Fail::new("a value is not whole")),
    }
}

// What is left opens, under the counter of the edit that both keys are of: the last that was saved, or the next.
fn whole<M: Medium>(rt: &impl Abort, store: &mut Store<M>, saved: u8) -> Result<(), Fail> {
    let mut work = [0; 1024];
    let opened = store.open(&mut work)?;
    let edit = edit_of(store, 7, 8)?.ok_or("key 7 is not there")?;
    assert!(rt; edit == saved || (saved < 2 && edit == saved + 1));
    // key 3 came with the first edit
    let three = if edit == 0 { None } else { Some(edit) };
    assert_eq!(rt; edit_of(store, 3, 4)?, three);
    assert!(rt; opened.counter == 1 + edit as u32);
    Ok(())
}

#[test]
fn a_stopped_medium_has_what_was_saved(rt: HostRuntime) -> Result<(), Fail> {
    for pattern in [0, 0x5555_5555_5555_5555, u64::MAX] {
        for stop in 1u32..13 {
            let mut bytes = [0; 2048];
            assert!(rt; lay_old(&mut bytes));
            let saved = try_use(&mut bytes, stop, pattern);
            // eleven writes and settles are made in all
            assert!(rt; (saved == 2) == (stop == 12));
            let mut store = shut(&mut bytes);
            let done = whole(&rt, &mut store, saved);
            let _ = store.into_medium().into_bytes();
            done?;
        }
    }
    Ok(())
}
