// Laying an empty file.
ghost use Rattle.std.specs.Prelude.{◌≡◌, OnOk};
ghost use Rattle.store.specs.Laws.{Laid};
ghost use Rattle.store.specs.Lays.{Lays};

use super::lay::{name_file, zero_pages};
use super::refusal::Refusal;
use super::state::State;
use super::store::Store;
use medium::Medium;

impl<M: Medium> Store<M> {
    // Makes an empty file of so many pages over whatever the medium has. The store is shut afterwards.
    pub fn lay(&mut self, pages: usize, work: &mut [u8]) -> Result<(), Refusal>
        ensures lays { Lays M.Medium.meaning pages self.old.medium self.new.medium self.old.state self.new.state work.old work.new result }
        ensures laid { OnOk result (Laid (M.Medium.meaning self.old.medium) (M.Medium.meaning self.new.medium) pages) }
        ensures edit { self.new.edit ≡ self.old.edit }
    {
        // tried with `ok_or`: past it the proof has to find again that the page is all of `work`
        let Some(page) = work.as_mut_array::<1024>() else {
            return Err(Refusal::WorkPage);
        };
        self.state.idle()?;
        if pages < 2 || pages > 4096 || pages > self.medium.pages() {
            return Err(Refusal::PageCount);
        }
        self.state = State::Shut;
        zero_pages(&mut self.medium, pages, page)?;
        name_file(&mut self.medium, pages, page)
    }
}
