// Writing the pages of an empty file.
ghost use Rattle.std.specs.Prelude.{◌≡◌, ◌≤◌, MatchResult};
ghost use Rattle.std.specs.List.{range_with_len};
ghost use Rattle.store.specs.Lays.{Names, Writes, WritesUntil, Zeroes, named, zero_page};

use super::refusal::{Refusal, Step};
use super::refusals::at;
use medium::Medium;
use octets::{Width, write_number};

// Writes an image to so many pages, from page 0 on.
fn write_each<M: Medium>(medium: &mut M, pages: usize, image: &[u8]) -> Result<(), Refusal>
    ensures { MatchResult result (λ _. Writes M.Medium.meaning image.now (range_with_len 0 pages) medium.old medium.new) (λ e. WritesUntil M.Medium.meaning image.now (range_with_len 0 pages) medium.old medium.new e) }
{
    for q in 0..pages {
        at(medium.write(q, 0, image), Step::Write, q)?;
    }
    Ok(())
}

// Writes zeros to so many pages, and settles them.
pub(super) fn zero_pages<M: Medium>(
    medium: &mut M,
    pages: usize,
    work: &mut [u8; 1024],
) -> Result<(), Refusal>
    ensures zeroes { Zeroes M.Medium.meaning pages medium.old medium.new result }
    ensures work { work.new ≡ zero_page }
{
    work.fill(0);
    write_each(medium, pages, work)?;
    at(medium.settle(), Step::Settle, 0)
}

// Makes the work page the first page of a file, writes it and settles it.
pub(super) fn name_file<M: Medium>(
    medium: &mut M,
    pages: usize,
    work: &mut [u8; 1024],
) -> Result<(), Refusal>
    requires { pages ≤ 4096 }
    ensures names { Names M.Medium.meaning (named work.old pages) medium.old medium.new result }
    ensures work { work.new ≡ named work.old pages }
{
    write_number(work, 0, Width::Four, 1);
    write_number(work, 4, Width::Four, pages as u32);
    at(medium.write(0, 0, work), Step::Write, 0)?;
    at(medium.settle(), Step::Settle, 0)
}
