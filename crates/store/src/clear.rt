// Clearing the numbers of changes that were never saved.
ghost use Rattle.std.specs.Prelude.{◌≡◌};
ghost use Rattle.store.specs.Clearing.{ClearsPage, begun_by};

use super::access::read_number;
use super::refusal::{Refusal, Step};
use super::refusals::at;
use layout::Side;
use medium::Medium;

// Of a page's two numbers, the side of the one that is one more than the counter.
fn begun(counter: u32, a: u32, b: u32) -> Option<Side>
    ensures { result ≡ begun_by counter a b }
{
    // one more than the counter may not fit its type
    let next = counter as u64 + 1;
    if a as u64 == next {
        Some(Side::A)
    } else if b as u64 == next {
        Some(Side::B)
    } else {
        None
    }
}

// Puts the number of a page that is one more than the counter to zero, if there is one, and says whether there was.
pub(super) fn clear_page<M: Medium>(
    medium: &mut M,
    page: usize,
    counter: u32,
) -> Result<bool, Refusal>
    ensures { ClearsPage M.Medium.meaning counter page medium.old medium.new result }
{
    let a = read_number(medium, page, Side::A)?;
    let b = read_number(medium, page, Side::B)?;
    let Some(side) = begun(counter, a, b) else {
        return Ok(false);
    };
    at(medium.write(page, side.start(), &[0; 4]), Step::Write, page)?;
    Ok(true)
}
