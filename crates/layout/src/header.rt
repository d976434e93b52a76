// The two headers of a page and their slots.
ghost use Rattle.std.specs.Prelude.{◌≡◌, ◌+◌};
ghost use Rattle.layout.specs.Pages.{start, header_of, rank, slot_of, pending_on, valid};

use octets::{Width, number};
use std::cmp::Ordering;

// Which of a page's two headers.
#[derive(Clone, Copy, PartialEq, Eq, Debug)]
pub enum Side {
    A,
    B,
}

// Where a record lies in its page: its first byte and how many there are, its key included.
#[derive(Clone, Copy, Default, PartialEq, Eq, Debug)]
pub struct Slot {
    pub offset: u16,
    pub length: u16,
}

// A header without its slots: its edit number, 0 for none, and how many records it has.
#[derive(Clone, Copy, PartialEq, Eq, Debug)]
pub struct Header {
    pub side: Side,
    pub number: u32,
    pub count: u16,
}

impl Side {
    // The byte of the page at which the header begins.
    pub fn start(self) -> usize
        ensures { result ≡ start self }
    {
        match self {
            Side::A => 0,
            Side::B => 104,
        }
    }
}

impl Slot {
    // The byte after its last.
    pub(super) fn end(&self) -> u32
        ensures { result ≡ self.now.offset + self.now.length }
    {
        u32::from(self.offset) + u32::from(self.length)
    }
}

impl Header {
    // The header of a page on one side.
    pub fn read(page: &[u8], side: Side) -> Header
        ensures { result ≡ header_of page.now side }
    {
        let start = side.start();
        Header {
            side,
            number: number(page, start, Width::Four),
            count: number(page, start + 4, Width::Two) as u16,
        }
    }

    // The edit number if it counts, from 1 to the counter; else 0. 0 counts as none, as it does in the file.
    fn rank(&self, counter: u32) -> u32
        ensures { result ≡ rank counter self.now.number }
    {
        if self.number <= counter {
            self.number
        } else {
            0
        }
    }

    // The header's slot k, counted from 0.
    pub fn slot(&self, page: &[u8], k: u16) -> Slot
        ensures { result ≡ slot_of page.now self.now.side k }
    {
        let at = self.side.start() + 8 + 4 * usize::from(k);
        Slot {
            offset: number(page, at, Width::Two) as u16,
            length: number(page, at + 2, Width::Two) as u16,
        }
    }
}

// The header that counts under a counter: the one with the greater edit number among those from 1 to the counter.
// A page and a counter are handed in and not kept together: who has them makes one call and then writes to the page.
pub fn valid(page: &[u8], counter: u32) -> Option<Header>
    ensures { result ≡ valid counter page.now }
{
    let a = Header::read(page, Side::A);
    let b = Header::read(page, Side::B);
    match a.rank(counter).cmp(&b.rank(counter)) {
        Ordering::Greater => Some(a),
        Ordering::Less => Some(b),
        Ordering::Equal => None,
    }
}

// How many edit numbers of a page are one more than the counter.
pub fn pending(page: &[u8], counter: u32) -> usize
    ensures { result ≡ pending_on counter page.now }
{
    // one more than the counter may not fit its type
    let next = u64::from(counter) + 1;
    [Side::A, Side::B]
        .iter()
        .filter(|side| u64::from(Header::read(page, **side).number) == next)
        .count()
}
