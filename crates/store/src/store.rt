// The store.
use super::state::{Edit, State};

// A show file on a medium that the store takes. No call allocates: what is known of an edit lies in the store.
pub struct Store<M> {
    pub(super) medium: M,
    pub(super) edit: Edit,
    pub(super) state: State,
}
