// The slots of a draft, and the headers that a change reads and writes.
ghost use Rattle.std.specs.Prelude.{◌≡◌, take};
ghost use Rattle.std.specs.Option.{option_map};
ghost use Rattle.layout.specs.Pages.{header_of, slots_by};
ghost use Rattle.draft.specs.Drafts.{begun_side, draft_slots, slots_on, target};

use super::draft::Draft;
use arrayvec::ArrayVec;
use layout::{Header, Side, Slot, valid};

// Slots, of which a header has room for 24.
pub(super) type Slots = ArrayVec<Slot, 24>;

// The header that a change is written over.
pub(super) fn target(page: &[u8], counter: u32) -> Side
    ensures { result ≡ target counter page.now }
{
    match valid(page, counter) {
        Some(Header { side: Side::A, .. }) => Side::B,
        _ => Side::A,
    }
}

// Makes some slots those of a header, at most 24; none of no header. They are filled where they lie, as to hand them back
// copies them.
pub(super) fn fill(slots: &mut Slots, page: &[u8], header: Option<Header>)
    ensures { slots.new.items ≡ take 24 (slots_by page.now header) }
{
    slots.clear();
    if let Some(header) = header {
        // tried with `extend`: it answers whether there was room, to be thrown away, where `push` asks for the room
        for k in 0..header.count.min(24) {
            slots.push(header.slot(page, k));
        }
    }
}

impl Draft {
    // The header that was begun: the one numbered one more than the counter.
    fn begun(self, page: &[u8]) -> Option<Header>
        ensures { result ≡ option_map (header_of page.now) (begun_side self.counter page.now) }
    {
        let next = self.counter + 1;
        [Side::A, Side::B]
            .iter()
            .map(|side| Header::read(page, *side))
            .find(|header| header.number == next)
    }

    // The header whose slots are the draft's: the one that was begun, else the valid one.
    fn header(self, page: &[u8]) -> Option<Header>
        ensures { slots_by page.now result ≡ slots_on self.counter page.now (begun_side self.counter page.now) }
    {
        // tried with `or_else`: an opening, which calls nothing here but checks pages by `valid`, then runs 4% more instructions
        match self.begun(page) {
            Some(header) => Some(header),
            None => valid(page, self.counter),
        }
    }

    // Makes some slots those of the draft.
    #[inline]
    pub(super) fn load(self, slots: &mut Slots, page: &[u8])
        ensures { slots.new.items ≡ draft_slots self.counter page.now }
    {
        fill(slots, page, self.header(page));
    }
}
