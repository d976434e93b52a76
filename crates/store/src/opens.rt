// Opening a file.
ghost use Rattle.std.specs.Prelude.{◌≡◌};
ghost use Rattle.store.specs.Laws.{OpensSound};
ghost use Rattle.store.specs.Opens.{Opens};

use super::access::load;
use super::open::{check_pages, clear_pages};
use super::refusal::{Refusal, Step};
use super::refusals::at;
use super::state::{Opened, State};
use super::store::Store;
use layout::FirstPage;
use medium::Medium;

impl<M: Medium> Store<M> {
    // Opens the file: reads and checks all of it, clears the numbers of changes that were never saved, and settles.
    pub fn open(&mut self, work: &mut [u8]) -> Result<Opened, Refusal>
        ensures opens { Opens M.Medium.meaning self.old.medium self.new.medium self.old.state self.new.state work.old work.new result }
        ensures sound { OpensSound (M.Medium.meaning self.old.medium) result }
        ensures edit { self.new.edit ≡ self.old.edit }
    {
        // tried with `ok_or`: past it the proof has to find again that the page is all of `work`
        let Some(page) = work.as_mut_array::<1024>() else {
            return Err(Refusal::WorkPage);
        };
        self.state.idle()?;
        self.state = State::Shut;
        let pages = self.medium.pages();
        if pages < 2 {
            return Err(Refusal::PageCount);
        }
        load(&self.medium, 0, page)?;
        let first = FirstPage::read(page, pages).ok_or(Refusal::NotAShowFile)?;
        check_pages(&self.medium, first, page)?;
        let cleared = clear_pages(&mut self.medium, first)?;
        at(self.medium.settle(), Step::Settle, 0)?;
        self.state = State::Open { first };
        Ok(Opened {
            counter: first.counter,
            pages: first.pages,
            cleared,
        })
    }
}
