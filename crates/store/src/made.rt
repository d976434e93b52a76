// Making a store, and having its medium back.
ghost use Rattle.std.specs.Prelude.{◌≡◌};
ghost use Rattle.store.specs.declared.state.State.TheVariants.{Shut};

use super::state::{Edit, State};
use super::store::Store;
use super::touched::Touched;
use medium::Medium;

impl<M: Medium> Store<M> {
    // A store over a medium, shut.
    pub fn new(medium: M) -> Store<M>
        ensures { (result.medium ≡ medium) × (result.state ≡ Shut) }
    {
        Store {
            medium,
            edit: Edit {
                changes: 0,
                touched: Touched::new(),
            },
            state: State::Shut,
        }
    }

    // The medium, to be asked and read.
    pub fn medium(&self) -> &M
        ensures { result.now ≡ self.now.medium }
    {
        &self.medium
    }

    // The medium again, as it is. An edit that is open ends here: nothing of it is saved.
    pub fn into_medium(self) -> M
        ensures { result ≡ self.medium }
    {
        let Store {
            medium,
            edit: _,
            state: _,
        } = self;
        medium
    }
}
