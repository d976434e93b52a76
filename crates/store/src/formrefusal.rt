// What a call under a record form says no to.
use super::refusal::Refusal;

// Why a call under a form is refused. The number of each is in front; `number` gives it.
#[derive(Clone, Copy, PartialEq, Eq, Debug)]
pub enum FormRefusal {
    // 1 to 15: the store's refusal, with the key
    Store { key: u32, refusal: Refusal },
    // 16: the record's bytes are not of the form: the key, its page, the first bad byte
    NotOfForm { key: u32, page: usize, byte: usize },
}
