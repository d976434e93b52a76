// What the store says no to.
use medium::MediumFault;

// What the store was doing when the medium refused.
#[derive(Clone, Copy, PartialEq, Eq, Debug)]
pub enum Step {
    Read,
    Write,
    Settle,
}

// Why a call is refused. The number of each is in front; `number` gives it.
#[derive(Clone, Copy, PartialEq, Eq, Debug)]
pub enum Refusal {
    // 1: the work page is not 1,024 bytes
    WorkPage,
    // 2: lay: the page count is below 2, above 4,096 or above the medium's; open: the medium has fewer than 2 pages
    PageCount,
    // 3: the first page is not of form 1, or its page count is out of range or above the medium's
    NotAShowFile,
    // 4: a page is not sound, the lowest
    Unsound {
        page: usize,
    },
    // 5: the medium refused, with what was being done and on which page, 0 for a settle
    Medium {
        step: Step,
        page: usize,
        fault: MediumFault,
    },
    // 6: the store is not opened
    NotOpen,
    // 7: an edit is open
    EditOpen,
    // 8: no edit is open, or its number is not the slip's
    NoEdit,
    // 9: the counter is 4,294,967,295
    LastCounter,
    // 10: the value is above 200 bytes
    TooLong,
    // 11: 64 changes were accepted in this edit
    TooMany,
    // 12: the key is in the draft
    KeyInDraft,
    // 13: there is no such key
    NoSuchKey,
    // 14: the draft has 24 slots
    DraftFull,
    // 15: there is no place for the record
    NoPlace,
}
