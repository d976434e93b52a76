// Reading pages and numbers of a medium.
ghost use Rattle.store.specs.Access.{Loads, ReadsNumber};

use super::refusal::{Refusal, Step};
use super::refusals::at;
use layout::Side;
use medium::Medium;
use octets::{Width, number};

// Reads a whole page into the work page.
pub(super) fn load<M: Medium>(medium: &M, page: usize, work: &mut [u8; 1024]) -> Result<(), Refusal>
    ensures { Loads (M.Medium.meaning medium.now) page work.old work.new result }
{
    at(medium.read(page, 0, work), Step::Read, page)
}

// Reads an edit number of a page, past the work page.
pub(super) fn read_number<M: Medium>(medium: &M, page: usize, side: Side) -> Result<u32, Refusal>
    ensures { ReadsNumber (M.Medium.meaning medium.now) page side result }
{
    let mut bytes = [0; 4];
    at(
        medium.read(page, side.start(), &mut bytes),
        Step::Read,
        page,
    )?;
    Ok(number(&bytes, 0, Width::Four))
}
