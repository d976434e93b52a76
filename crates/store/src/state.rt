// Where a store stands.
ghost use Rattle.std.specs.Prelude.{◌≤◌};
ghost use Rattle.arrayvec.specs.ArrayVec.{array_vec_len};

use super::touched::Touched;
use layout::FirstPage;

// A store is shut, or opened with what the first page told, or opened with an edit.
#[derive(Clone, Copy, PartialEq, Eq, Debug)]
pub enum State {
    Shut,
    Open { first: FirstPage },
    Editing { first: FirstPage },
}

// What is known of the open edit: how many changes were accepted, at most 64, and which pages they touched.
#[derive(Drop)]
pub struct Edit {
    pub(super) changes: usize,
    pub(super) touched: Touched,
    ghost most: { changes ≤ 64 },
    ghost within: { array_vec_len touched.pages ≤ changes },
}

// What an opening answers: the counter, how many pages the file has, and how many numbers were cleared.
#[derive(Clone, Copy, PartialEq, Eq, Debug)]
pub struct Opened {
    pub counter: u32,
    pub pages: usize,
    pub cleared: usize,
}

// Where a value lies in the work page.
#[derive(Clone, Copy, PartialEq, Eq, Debug)]
pub struct Place {
    pub at: usize,
    pub length: usize,
}
