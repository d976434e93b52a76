// Slots by the keys of their records.
ghost use Rattle.std.specs.Prelude.{◌≡◌, ◌≤◌, ◌==◌, length, nat_le, position};
ghost use Rattle.std.specs.List.{insert};
ghost use Rattle.layout.specs.Pages.{key_of};
ghost use Rattle.layout.specs.declared.header.Slot.{Slot};
ghost use Rattle.draft.specs.Drafts.{put_in};

use layout::{Record, Slot};

// The key of the record in a slot.
fn key_of(page: &[u8], slot: &Slot) -> u32
    ensures { result ≡ key_of page.now slot.now }
{
    Record::read(page, *slot).key
}

// Where the slot of a key is among some slots. They may come from a page that nobody checked, so their keys need not ascend, and
// nothing faster than going over them would find it.
pub(super) fn index_of(page: &[u8], slots: &[Slot], key: u32) -> Option<usize>
    ensures { result ≡ position (λ s. key_of page.now s == key) slots.now }
{
    slots.iter().position(|slot| key_of(page, slot) == key)
}

// The first slot that holds no lesser key.
fn first_from(page: &[u8], slots: &[Slot], key: u32) -> Option<usize>
    ensures { result ≡ position (λ s. nat_le key (key_of page.now s)) slots.now }
{
    slots.iter().position(|slot| key_of(page, slot) >= key)
}

// Where a slot for a key belongs among some slots: behind those of lesser keys.
pub(super) fn index_for(page: &[u8], slots: &[Slot], key: u32) -> usize
    ensures within { result ≤ length slots.now }
    ensures puts { (new : Slot) → put_in page.now key new slots.now ≡ insert slots.now result new }
{
    first_from(page, slots, key).unwrap_or(slots.len())
}
