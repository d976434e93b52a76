// The slips of a use.
ghost use Rattle.std.specs.Prelude.{◌≡◌, ◌+◌, ◌<◌, ◌≤◌, [], ◌∷◌, ◌++◌, length, is_some, Some, None, vec_len, vec_capacity, MatchOption, OnOk, slice_index_or, slice_set};
ghost use Rattle.std.specs.Option.{option_map};
ghost use Rattle.store.specs.declared.state.State.TheVariants.{Shut};

use medium::Medium;
use std::alloc::{AllocError, Global};
use store::{Slip, Store};

// The slips that were given, in order; one that is spent leaves its place empty.
pub struct Slips {
    pub(super) given: Vec<Option<Slip>>,
}

impl Slips {
    // None.
    pub fn new(heap: Global) -> Slips
        ensures { result.given.items ≡ [] }
    {
        Slips {
            given: Vec::new(heap),
        }
    }

    // Has room for n more, or refuses; the slips stay.
    pub(super) fn reserve(&mut self, n: usize) -> Result<(), AllocError>
        ensures room { OnOk result (vec_len self.new.given + n ≤ vec_capacity self.new.given) }
        ensures same { self.new.given.items ≡ self.old.given.items }
    {
        self.given.reserve(n)
    }

    // Adds one that was given, and answers its place.
    pub(super) fn add(&mut self, slip: Slip) -> usize
        requires { vec_len self.old.given < vec_capacity self.old.given }
        ensures place { result ≡ length self.old.given.items }
        ensures more { self.new.given.items ≡ self.old.given.items ++ Some slip ∷ [] }
        ensures room { (vec_capacity self.new.given ≡ vec_capacity self.old.given) × (vec_len self.new.given ≡ vec_len self.old.given + 1) }
    {
        let place = self.given.len();
        self.given.push_reserved(Some(slip));
        place
    }

    // The slip at a place, if it was given and is not spent.
    pub(super) fn get(&self, at: usize) -> Option<&Slip>
        ensures { option_map (λ x. x.now) result ≡ slice_index_or self.now.given.items at None }
    {
        self.given.get(at)?.as_ref()
    }

    // Whether the slip at a place was given and is not spent.
    pub fn has(&self, at: usize) -> bool
        ensures { result ≡ is_some (slice_index_or self.now.given.items at None) }
    {
        self.get(at).is_some()
    }

    // Takes the slip at a place, to be spent.
    pub(super) fn take(&mut self, at: usize) -> Option<Slip>
        ensures taken { result ≡ slice_index_or self.old.given.items at None }
        ensures left { MatchOption result (self.new.given.items ≡ self.old.given.items) (λ _. self.new.given.items ≡ slice_set self.old.given.items at None) }
        ensures room { (vec_capacity self.new.given ≡ vec_capacity self.old.given) × (vec_len self.new.given ≡ vec_len self.old.given) }
    {
        self.given.get_mut(at)?.take()
    }

    // Ends the slips: every one that is left is spent on an abandon at a store, which refuses them all if it is shut.
    pub fn end<M: Medium>(self, store: &mut Store<M>)
        ensures { store.old.state ≡ Shut → (store.new.state ≡ Shut) × (store.new.medium ≡ store.old.medium) }
    {
        let Slips { mut given } = self;
        // tried with a `for`: it asks that what it owns can be dropped, which a slip cannot
        while let Some(place) = given.pop() {
            if let Some(slip) = place {
                let _ = store.abandon(slip);
            }
        }
        given.destroy_empty();
    }
}
