// Going over the saved keys.
ghost use Rattle.layout.specs.Pages.{records};
ghost use Rattle.store.specs.Nexts.{Least, Nexts, Offered, Sweeps};

use super::access::load;
use super::refusal::Refusal;
use super::store::Store;
use layout::{FirstPage, Records};
use medium::Medium;

// The least of the best so far and of a page's keys that are not below a given one.
fn nearest_on(page: &[u8], counter: u32, least: u32, best: Option<u32>) -> Option<u32>
    ensures { Least (Offered least best (records counter page.now)) result }
{
    Records::new(page, counter)
        .map(|record| record.key)
        .filter(|key| *key >= least)
        .chain(best)
        .min()
}

// The least key of all pages that is not below a given one.
fn nearest<M: Medium>(
    medium: &M,
    first: FirstPage,
    work: &mut [u8; 1024],
    least: u32,
) -> Result<Option<u32>, Refusal>
    ensures { Sweeps (M.Medium.meaning medium.now) first least work.old work.new result }
{
    let mut best = None;
    for q in 1..first.pages {
        load(medium, q, work)?;
        best = nearest_on(work, first.counter, least, best);
    }
    Ok(best)
}

impl<M: Medium> Store<M> {
    // Finds the least saved key that is not below a given one.
    pub fn next(&self, work: &mut [u8], least: u32) -> Result<u32, Refusal>
        ensures { Nexts (M.Medium.meaning self.now.medium) self.now.state least work.old work.new result }
    {
        // tried with `ok_or`: past it the proof has to find again that the page is all of `work`
        let Some(page) = work.as_mut_array::<1024>() else {
            return Err(Refusal::WorkPage);
        };
        let first = self.readable()?;
        nearest(&self.medium, first, page, least)?.ok_or(Refusal::NoSuchKey)
    }
}
