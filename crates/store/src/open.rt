// Checking and clearing the pages of a file.
ghost use Rattle.std.specs.Prelude.{◌≡◌, ◌≤◌, false, MatchResult};
ghost use Rattle.store.specs.Opening.{ChecksPages, Clears, ClearsUntil, later_pages};

use super::access::load;
use super::clear::clear_page;
use super::refusal::Refusal;
use layout::{FirstPage, is_sound};
use medium::Medium;

// Reads every page after the first, and finds the lowest that is not sound.
pub(super) fn check_pages<M: Medium>(
    medium: &M,
    first: FirstPage,
    work: &mut [u8; 1024],
) -> Result<(), Refusal>
    requires { (first.pages ≤ (M.Medium.meaning medium.now).pages) × ((M.Medium.meaning medium.now).stopped ≡ false) }
    ensures { ChecksPages (M.Medium.meaning medium.now) first work.new result }
{
    for q in 1..first.pages {
        load(medium, q, work)?;
        if !is_sound(work, first, q) {
            return Err(Refusal::Unsound { page: q });
        }
    }
    Ok(())
}

// Clears the pages after the first, in order, and counts the numbers that were cleared.
pub(super) fn clear_pages<M: Medium>(medium: &mut M, first: FirstPage) -> Result<usize, Refusal>
    ensures { MatchResult result (λ n. Clears M.Medium.meaning first.counter (later_pages first.pages) medium.old medium.new n) (λ e. ClearsUntil M.Medium.meaning first.counter (later_pages first.pages) medium.old medium.new e) }
{
    let mut cleared: usize = 0;
    for q in 1..first.pages {
        cleared += usize::from(clear_page(medium, q, first.counter)?);
    }
    Ok(cleared)
}
