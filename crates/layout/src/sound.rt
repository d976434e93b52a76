// Whether a page is sound.
ghost use Rattle.std.specs.Prelude.{ℕ, ◌<◌, Decides};
ghost use Rattle.layout.specs.Held.{RestsOnHeld};
ghost use Rattle.layout.specs.Pages.{slots, slot_of};
ghost use Rattle.layout.specs.Sound.{Own, Before, Fits, Numbered, Sound};
ghost use Rattle.layout.specs.Walks.{SlotFits};

use super::first::FirstPage;
use super::header::{Header, Side, Slot, valid};
use super::record::Record;

// How many slots a header has room for.
const SLOTS: u16 = 24;

// Whether no number passes the counter by more than one, and the two differ unless both are 0.
fn numbers_sound(page: &[u8], counter: u32) -> bool
    ensures { Decides result (Numbered counter page.now) }
{
    let a = Header::read(page, Side::A).number;
    let b = Header::read(page, Side::B).number;
    // one more than the counter may not fit its type
    let most = u64::from(counter) + 1;
    u64::from(a) <= most && u64::from(b) <= most && (a != b || a == 0)
}

// Whether two slots share no byte and the first holds the lesser key.
fn before(page: &[u8], s: Slot, t: Slot) -> bool
    ensures { Decides result (Before page.now s t) }
{
    (s.end() <= u32::from(t.offset) || t.end() <= u32::from(s.offset))
        && Record::read(page, s).key < Record::read(page, t).key
}

// A page with the header that counts: page q of a file that begins with this first page.
#[derive(Clone, Copy)]
struct Counted<'a> {
    page: &'a [u8],
    header: Header,
    first: FirstPage,
    q: usize,
}

impl<'a> Counted<'a> {
    // Whether a slot lies in the content and holds a key of this page.
    fn owns(&self, slot: Slot) -> bool
        ensures { Decides result (Own self.now.first.pages self.now.q self.now.page.now slot) }
    {
        slot.offset >= 208
            && (4..=204).contains(&slot.length)
            && slot.end() <= 1024
            && self.first.page_of(Record::read(self.page, slot).key) == self.q
    }

    // Whether every slot before slot k shares no byte with it and holds a lesser key.
    fn follows(&self, k: u16) -> bool
        ensures { let slot = slot_of self.now.page.now self.now.header.side in Decides result ((j : ℕ) → j < k → Before self.now.page.now (slot j) (slot k)) }
    {
        let slot = self.header.slot(self.page, k);
        (0..k).all(|j| before(self.page, self.header.slot(self.page, j), slot))
    }

    // Whether slot k is the page's own and follows those before it.
    fn slot_fits(&self, k: u16) -> bool
        ensures { Decides result (SlotFits self.now.first.pages self.now.q self.now.page.now self.now.header k) }
    {
        self.owns(self.header.slot(self.page, k)) && self.follows(k)
    }

    // Whether the header's slots fit the page.
    fn fits(&self) -> bool
        ensures { Decides result (Fits self.now.first.pages self.now.q self.now.page.now (slots self.now.page.now self.now.header)) }
    {
        // before any slot is read: slot 24 of header A would be header B's number
        self.header.count <= SLOTS && (0..self.header.count).all(|k| self.slot_fits(k))
    }
}

// Whether page q is sound. What is found, and the records of a sound page, rest on nothing but the two edit numbers, the
// valid header and the records that it holds: code that changes no such byte changes no saved record.
pub fn is_sound(page: &[u8], first: FirstPage, q: usize) -> bool
    ensures rests { RestsOnHeld }
    ensures exactly { Decides result (Sound first.counter first.pages q page.now) }
{
    numbers_sound(page, first.counter)
        && match valid(page, first.counter) {
            Some(header) => Counted {
                page,
                header,
                first,
                q,
            }
            .fits(),
            None => true,
        }
}
