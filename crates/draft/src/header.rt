// Writing a header.
ghost use Rattle.std.specs.Prelude.{◌≡◌, ◌+◌, ◌*◌, ◌≤◌, length};
ghost use Rattle.std.specs.List.{flat_map};
ghost use Rattle.octets.specs.Parts.{patched};
ghost use Rattle.draft.specs.Images.{slot_bytes, with_header};

use super::load::Slots;
use layout::{Side, Slot};
use octets::{Width, write_number};

// Writes a slot from byte `at` on.
fn write_slot(page: &mut [u8], at: usize, slot: Slot)
    requires { at + 4 ≤ length page.old }
    ensures { page.new ≡ patched page.old at (slot_bytes slot) }
{
    write_number(page, at, Width::Two, slot.offset as u32);
    write_number(page, at + 2, Width::Two, slot.length as u32);
}

// Writes slots from byte `at` on, one after another.
fn write_slots(page: &mut [u8], at: usize, slots: &[Slot])
    requires { at + 4 * length slots.now ≤ length page.old }
    ensures { page.new ≡ patched page.old at (flat_map slot_bytes slots.now) }
{
    // tried by chunks that are lent: what is written through them is not known afterwards
    for (k, slot) in slots.iter().enumerate() {
        write_slot(page, at + 4 * k, *slot);
    }
}

// Puts a header of these slots on one side of a page: zeros in all that is not used.
pub(super) fn write_header(page: &mut [u8; 1024], side: Side, number: u32, slots: &Slots)
    ensures { page.new ≡ with_header page.old side number slots.now.items }
{
    let start = side.start();
    write_number(page, start, Width::Four, number);
    write_number(page, start + 4, Width::Two, slots.len() as u32);
    write_number(page, start + 6, Width::Two, 0);
    write_slots(page, start + 8, slots);
    page[start + 8 + 4 * slots.len()..start + 104].fill(0);
}
