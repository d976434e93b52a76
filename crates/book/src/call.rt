// The calls of a use, and their answers.
ghost use Rattle.std.specs.Prelude.{◌≡◌};
ghost use Rattle.book.specs.declared.call.Denied.TheVariants.{Store};

use form::BadByte;
use store::{Opened, Place, Refusal};

// A call. A slip is named by its place among those that were given; F has the values of the forms, and K their kinds.
#[derive(Drop, PartialEq, Eq, Debug)]
pub enum Call<F, K> {
    Open,
    Begin,
    Put {
        slip: usize,
        key: u32,
        value: Vec<u8>,
    },
    Change {
        slip: usize,
        key: u32,
        value: Vec<u8>,
    },
    Remove {
        slip: usize,
        key: u32,
    },
    Look {
        key: u32,
    },
    Next {
        least: u32,
    },
    Save {
        slip: usize,
    },
    Abandon {
        slip: usize,
    },
    // put, change and look under a form
    PutForm {
        slip: usize,
        key: u32,
        value: F,
    },
    ChangeForm {
        slip: usize,
        key: u32,
        value: F,
    },
    LookForm {
        key: u32,
        kind: K,
    },
}

// What an accepted call answers.
#[derive(Drop, PartialEq, Eq, Debug)]
pub enum Done<F> {
    Opened { opened: Opened },
    // the place of the slip among those given, and its number
    Begun { slip: usize, number: u32 },
    Changed,
    Looked { place: Place },
    Key { key: u32 },
    Saved { counter: u32, changes: usize },
    Abandoned,
    Value { value: F },
}

// Why a call is not accepted.
#[derive(Clone, Copy, PartialEq, Eq, Debug)]
pub enum Denied {
    // the slip was never given, or is spent: no call was made
    NoSlip,
    // the store's refusal
    Store { refusal: Refusal },
    // the store's refusal of a call under a form, with the key
    Form { key: u32, refusal: Refusal },
    // 16: the record's bytes are not of the form: the key, its page and the first bad byte
    NotOfForm { key: u32, page: usize, bad: BadByte },
}

impl From<Refusal> for Denied {
    ghost from_gives = { λ refusal denied. denied ≡ Store refusal };

    fn from(refusal: Refusal) -> Denied {
        Denied::Store { refusal }
    }
}
