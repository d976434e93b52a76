// What a store says no to, and which refusal comes first where several would do.
use super::edits::{lay_and_open, make, make_and_save, number_of, shut};
use medium::Medium;
use std::process::Abort;
use std::test::Fail;
use store::{Change, Refusal, Slip, Store};

// Begins an edit, and abandons it again.
fn begin_and_abandon<M: Medium>(store: &mut Store<M>) -> Result<(), Refusal> {
    let slip = store.begin()?;
    store.abandon(slip)
}

fn shut_and_open<M: Medium>(rt: &impl Abort, store: &mut Store<M>) -> Result<(), Fail> {
    let mut work = [0; 1024];
    let mut short = [0; 1023];
    // the work page comes first, also of a store that is shut
    assert_eq!(rt; number_of(store.lay(1, &mut short)), Some(1));
    assert_eq!(rt; number_of(store.open(&mut short)), Some(1));
    assert_eq!(rt; number_of(store.look(&mut short, 7)), Some(1));
    assert_eq!(rt; number_of(store.look(&mut work, 7)), Some(6));
    assert_eq!(rt; number_of(begin_and_abandon(store)), Some(6));
    // too few pages, and more than there are
    assert_eq!(rt; number_of(store.lay(1, &mut work)), Some(2));
    assert_eq!(rt; number_of(store.lay(3, &mut work)), Some(2));
    // nothing was laid yet
    assert_eq!(rt; number_of(store.open(&mut work)), Some(3));
    assert!(rt; lay_and_open(store));
    assert_eq!(rt; number_of(store.look(&mut short, 7)), Some(1));
    assert_eq!(rt; number_of(store.look(&mut work, 7)), Some(13));
    assert_eq!(rt; number_of(begin_and_abandon(store)), None);
    Ok(())
}

#[test]
fn a_store_is_shut_until_it_is_opened(rt: HostRuntime) -> Result<(), Fail> {
    let mut bytes = [0; 2048];
    let mut store = shut(&mut bytes);
    let done = shut_and_open(&rt, &mut store);
    let _ = store.into_medium().into_bytes();
    done
}

// How many changes a save answers, or the number with which it is refused.
fn saved<M: Medium>(store: &mut Store<M>, slip: Slip) -> Result<usize, u8> {
    store
        .save(slip)
        .map(|(_, changes)| changes)
        .map_err(|refusal| refusal.number())
}

// An edit of 64 changes. A foreign slip is one of another number.
fn long_edit<M: Medium>(
    rt: &impl Abort,
    store: &mut Store<M>,
    slip: &Slip,
    foreign: &Slip,
) -> Result<(), Fail> {
    let mut work = [0; 1024];
    let mut short = [0; 1023];
    // an edit is open
    assert_eq!(rt; number_of(begin_and_abandon(store)), Some(7));
    assert_eq!(rt; number_of(store.open(&mut work)), Some(7));
    assert_eq!(rt; number_of(store.lay(1, &mut work)), Some(7));
    // the work page, before the slip, before the length
    assert_eq!(rt;
        number_of(store.put(&mut short, foreign, 1, &[0; 201])),
        Some(1)
    );
    assert_eq!(rt;
        number_of(make(store, foreign, Change::Put, 1, &[0; 201])),
        Some(8)
    );
    assert_eq!(rt;
        number_of(make(store, slip, Change::Put, 1, &[0; 201])),
        Some(10)
    );
    assert_eq!(rt;
        number_of(make(store, slip, Change::Replace, 1, &[0; 201])),
        Some(10)
    );
    assert_eq!(rt;
        number_of(make(store, slip, Change::Replace, 1, &[])),
        Some(13)
    );
    assert_eq!(rt;
        number_of(make(store, slip, Change::Remove, 1, &[])),
        Some(13)
    );
    for key in 1u32..25 {
        assert!(rt; make(store, slip, Change::Put, key, &[]).is_ok());
    }
    // a key that is there, before a draft that is full, before a page that is full
    assert_eq!(rt;
        number_of(make(store, slip, Change::Put, 24, &[0; 200])),
        Some(12)
    );
    for key in 1u32..4 {
        assert!(rt; make(store, slip, Change::Replace, key, &[0; 200]).is_ok());
    }
    assert_eq!(rt;
        number_of(make(store, slip, Change::Put, 25, &[0; 200])),
        Some(14)
    );
    assert_eq!(rt;
        number_of(make(store, slip, Change::Replace, 4, &[0; 200])),
        Some(15)
    );
    // what was refused does not count
    for _ in 0u32..37 {
        assert!(rt; make(store, slip, Change::Replace, 24, &[1]).is_ok());
    }
    // the length, before the 65th change, before the key
    assert_eq!(rt;
        number_of(make(store, slip, Change::Put, 24, &[0; 201])),
        Some(10)
    );
    assert_eq!(rt;
        number_of(make(store, slip, Change::Put, 24, &[])),
        Some(11)
    );
    assert_eq!(rt;
        number_of(make(store, slip, Change::Remove, 99, &[])),
        Some(11)
    );
    Ok(())
}

// Begins an edit in each of two stores, and spends both slips whatever was found.
fn two_edits<M: Medium, N: Medium>(
    rt: &impl Abort,
    store: &mut Store<M>,
    other: &mut Store<N>,
) -> Result<(), Fail> {
    let slip = store.begin()?;
    // no `?`: the slip is to be spent before the test fails
    let Ok(foreign) = other.begin() else {
        let _ = store.abandon(slip);
        return Err(Fail::new("no edit"));
    };
    let differ = slip.number() != foreign.number();
    let done = long_edit(rt, store, &slip, &foreign);
    let changes = saved(store, slip);
    // no edit is open, and the foreign slip is spent all the same
    let spent = saved(store, foreign);
    done?;
    assert!(rt; differ);
    assert_eq!(rt; changes, Ok(64));
    assert_eq!(rt; spent, Err(8));
    Ok(())
}

fn two_stores<M: Medium, N: Medium>(
    rt: &impl Abort,
    store: &mut Store<M>,
    other: &mut Store<N>,
) -> Result<(), Fail> {
    assert!(rt; lay_and_open(store) && lay_and_open(other));
    // the other is an edit further, so that its slips have other numbers
    assert!(rt; make_and_save(other, Change::Put, 1, &[]).is_ok());
    two_edits(rt, store, other)
}

#[test]
fn an_edit_says_no(rt: HostRuntime) -> Result<(), Fail> {
    let mut bytes = [0; 2048];
    let mut others = [0; 2048];
    let mut store = shut(&mut bytes);
    let mut other = shut(&mut others);
    let done = two_stores(&rt, &mut store, &mut other);
    let _ = store.into_medium().into_bytes();
    let _ = other.into_medium().into_bytes();
    done
}
