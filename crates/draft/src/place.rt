// The place of a record.
ghost use Rattle.std.specs.Prelude.{◌≡◌, ◌+◌, ◌≤◌, ◌++◌};
ghost use Rattle.std.specs.List.{list_any};
ghost use Rattle.draft.specs.Places.{Highest, in_way};

use layout::Slot;

// The byte at which the content begins, behind both headers.
const CONTENT: usize = 208;

// Whether a slot covers one of the n bytes from `at` on.
fn in_way(slot: &Slot, at: usize, n: usize) -> bool
    requires { at + n ≤ 1024 }
    ensures { result ≡ in_way at n slot.now }
{
    let start = slot.offset as usize;
    let length = slot.length as usize;
    length > 0 && start < at + n && at < start + length
}

// Whether one of some slots covers one of the n bytes from `at` on.
fn one_in_way(slots: &[Slot], at: usize, n: usize) -> bool
    requires { at + n ≤ 1024 }
    ensures { result ≡ list_any (in_way at n) slots.now }
{
    slots.iter().any(|slot| in_way(slot, at, n))
}

// Whether a saved slot or one of a draft covers one of the n bytes from `at` on.
fn is_taken(saved: &[Slot], slots: &[Slot], at: usize, n: usize) -> bool
    requires { at + n ≤ 1024 }
    ensures { result ≡ list_any (in_way at n) (saved.now ++ slots.now) }
{
    one_in_way(saved, at, n) || one_in_way(slots, at, n)
}

// The highest offset in the content at which n bytes are free beside the saved slots and those of a draft. Not inlined: where
// it was, the compiled loop counted three numbers more at each offset.
#[inline(never)]
pub(super) fn place(saved: &[Slot], slots: &[Slot], n: usize) -> Option<usize>
    requires { (4 ≤ n) × (n ≤ 204) }
    ensures { Highest (saved.now ++ slots.now) n result }
{
    let found = 'search: {
        for at in (CONTENT..=1024 - n).rev() {
            if !is_taken(saved, slots, at, n) {
                break 'search Some(at);
            }
        }
        None
    };
    found
}
