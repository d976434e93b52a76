// Beginning an edit, and what its changes share.
ghost use Rattle.std.specs.Prelude.{◌≡◌, ◌<◌, [], MatchOption};
ghost use Rattle.store.specs.Opens.{IdleOr};
ghost use Rattle.store.specs.Edits.{Begins, Matches, Noted, Offers, Ready, touched_by};

use super::refusal::{Refusal, Step};
use super::refusals::at;
use super::slip::Slip;
use super::state::{Edit, State};
use super::store::Store;
use super::touched::Touched;
use layout::FirstPage;
use medium::Medium;

impl Edit {
    // The pages that were touched, ascending.
    pub(super) fn pages(&self) -> &[usize]
        ensures { result.now ≡ touched_by self.now }
    {
        self.touched.pages.as_slice()
    }

    // Nothing is changed yet.
    fn reset(&mut self)
        ensures { (self.new.changes ≡ 0) × (self.new.touched.pages.items ≡ []) }
    {
        self.touched = Touched::new();
        self.changes = 0;
    }

    // One change more, on a page.
    fn note(&mut self, page: usize)
        requires { self.old.changes < 64 }
        ensures { Noted self.old self.new page }
    {
        self.touched.add(page);
        self.changes += 1;
    }
}

impl State {
    // What the first page told, if an edit of this number is open.
    pub(super) fn editing(&self, number: u32) -> Option<FirstPage>
        ensures { MatchOption result ((first : FirstPage) → Matches self.now number first → ⊥) (λ first. Matches self.now number first) }
    {
        match self {
            State::Editing { first } if number as u64 == first.counter as u64 + 1 => Some(*first),
            _ => None,
        }
    }

    // Refuses while an edit is open.
    pub(super) fn idle(&self) -> Result<(), Refusal>
        ensures { IdleOr self.now result }
    {
        match self {
            State::Editing { .. } => Err(Refusal::EditOpen),
            _ => Ok(()),
        }
    }
}

impl<M: Medium> Store<M> {
    // Begins an edit, and gives its slip.
    pub fn begin(&mut self) -> Result<Slip, Refusal>
        ensures begins { Begins self.old.state self.new.state self.old.edit self.new.edit result }
        ensures medium { self.new.medium ≡ self.old.medium }
    {
        let first = match self.state {
            State::Shut => return Err(Refusal::NotOpen),
            State::Editing { .. } => return Err(Refusal::EditOpen),
            State::Open { first } => first,
        };
        if first.counter == u32::MAX {
            return Err(Refusal::LastCounter);
        }
        self.edit.reset();
        self.state = State::Editing { first };
        Ok(Slip {
            number: first.counter + 1,
        })
    }

    // Whether a change can be taken up once the work page is one.
    pub(super) fn ready(&self, slip: &Slip, long: bool) -> Result<FirstPage, Refusal>
        ensures { Ready self.now.state self.now.edit.changes 1024 slip.now.number long result }
    {
        let first = self.state.editing(slip.number).ok_or(Refusal::NoEdit)?;
        if long {
            return Err(Refusal::TooLong);
        }
        if self.edit.changes >= 64 {
            return Err(Refusal::TooMany);
        }
        Ok(first)
    }

    // Writes a whole page and notes the change.
    pub(super) fn offer(&mut self, page: usize, work: &[u8; 1024]) -> Result<(), Refusal>
        requires { self.old.edit.changes < 64 }
        ensures offers { Offers M.Medium.meaning self.old.medium self.new.medium self.old.edit self.new.edit page work.now result }
        ensures state { self.new.state ≡ self.old.state }
    {
        at(self.medium.write(page, 0, work), Step::Write, page)?;
        self.edit.note(page);
        Ok(())
    }
}
