// What the tests share: stores on small media, and changes with what they answer.
use medium::{Medium, Memory};
use store::{Change, Refusal, Slip, Store, value_at};

// The number of a refusal, where there is one.
pub(super) fn number_of<T: Drop>(answer: Result<T, Refusal>) -> Option<u8> {
    answer.err().map(|refusal| refusal.number())
}

// A store on lent bytes, shut.
pub(super) fn shut(bytes: &mut [u8]) -> Store<Memory<'_>> {
    Store::new(Memory::new(bytes))
}

// Makes an empty file of two pages and opens it.
pub(super) fn lay_and_open<M: Medium>(store: &mut Store<M>) -> bool {
    let mut work = [0; 1024];
    store.lay(2, &mut work).is_ok() && store.open(&mut work).is_ok()
}

// Makes a change under a slip.
pub(super) fn make<M: Medium>(
    store: &mut Store<M>,
    slip: &Slip,
    change: Change,
    key: u32,
    value: &[u8],
) -> Result<(), Refusal> {
    let mut work = [0; 1024];
    match change {
        Change::Put => store.put(&mut work, slip, key, value),
        Change::Replace => store.change(&mut work, slip, key, value),
        Change::Remove => store.remove(&mut work, slip, key),
    }
}

// Makes a change in an edit of its own and saves it.
pub(super) fn make_and_save<M: Medium>(
    store: &mut Store<M>,
    change: Change,
    key: u32,
    value: &[u8],
) -> Result<(), Refusal> {
    let slip = store.begin()?;
    let made = make(store, &slip, change, key, value);
    store.save(slip)?;
    made
}

// Whether a saved value lies at a place of its page.
pub(super) fn lies<M: Medium>(store: &Store<M>, key: u32, at: usize, value: &[u8]) -> bool {
    let mut work = [0; 1024];
    store
        .look(&mut work, key)
        .is_ok_and(|place| place.at == at && value_at(&work, place) == value)
}
