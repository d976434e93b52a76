// The two ends of an edit. Both spend the slip, however they end.
ghost use Rattle.std.specs.Prelude.{◌≡◌, ℕ, MatchResult};
ghost use Rattle.store.specs.Ends.{Abandons, Commits, CountsOr, Saves, SettlesOr, SpendsOr};
ghost use Rattle.store.specs.Opening.{Clears, ClearsUntil};

use super::clear::clear_page;
use super::refusal::{Refusal, Step};
use super::refusals::at;
use super::slip::Slip;
use super::state::State;
use super::store::Store;
use layout::FirstPage;
use medium::Medium;
use octets::{Width, write_number};

// Settles, and names the step where the medium refuses.
fn settle<M: Medium>(medium: &mut M) -> Result<(), Refusal>
    ensures { SettlesOr (M.Medium.meaning medium.old) (M.Medium.meaning medium.new) result }
{
    at(medium.settle(), Step::Settle, 0)
}

// Writes the counter into the first page.
fn count<M: Medium>(medium: &mut M, number: u32) -> Result<(), Refusal>
    ensures { CountsOr number (M.Medium.meaning medium.old) (M.Medium.meaning medium.new) result }
{
    let mut counter = [0; 4];
    write_number(&mut counter, 0, Width::Four, number);
    at(medium.write(0, 8, &counter), Step::Write, 0)
}

// Writes the counter between two settles.
fn commit<M: Medium>(medium: &mut M, number: u32) -> Result<(), Refusal>
    ensures { Commits M.Medium.meaning number medium.old medium.new result }
{
    settle(medium)?; // all drafts come down before the counter that makes them count
    count(medium, number)?;
    settle(medium)
}

// Clears some pages, in order.
fn clear_each<M: Medium>(medium: &mut M, pages: &[usize], counter: u32) -> Result<(), Refusal>
    ensures { MatchResult result (λ _. (n : ℕ) × Clears M.Medium.meaning counter pages.now medium.old medium.new n) (λ e. ClearsUntil M.Medium.meaning counter pages.now medium.old medium.new e) }
{
    for page in pages {
        clear_page(medium, *page, counter)?;
    }
    Ok(())
}

impl State {
    // Spends a slip: if it is that of the open edit, the store is shut.
    fn spend(&mut self, slip: Slip) -> Result<FirstPage, Refusal>
        ensures { SpendsOr slip.number self.old self.new result }
    {
        let Slip { number } = slip;
        let first = self.editing(number).ok_or(Refusal::NoEdit)?;
        *self = State::Shut;
        Ok(first)
    }
}

impl<M: Medium> Store<M> {
    // Saves the edit: its drafts are the saved records from now on. Answers the new counter and how many changes were accepted.
    pub fn save(&mut self, slip: Slip) -> Result<(u32, usize), Refusal>
        ensures saves { Saves M.Medium.meaning slip.number self.old.medium self.new.medium self.old.state self.new.state self.old.edit result }
        ensures edit { self.new.edit ≡ self.old.edit }
    {
        let counter = slip.number;
        let first = self.state.spend(slip)?;
        commit(&mut self.medium, counter)?;
        self.state = State::Open {
            first: FirstPage {
                pages: first.pages,
                counter,
            },
        };
        Ok((counter, self.edit.changes))
    }

    // Abandons the edit: its drafts are taken back.
    pub fn abandon(&mut self, slip: Slip) -> Result<(), Refusal>
        ensures abandons { Abandons M.Medium.meaning slip.number self.old.medium self.new.medium self.old.state self.new.state self.old.edit result }
        ensures edit { self.new.edit ≡ self.old.edit }
    {
        let first = self.state.spend(slip)?;
        clear_each(&mut self.medium, self.edit.pages(), first.counter)?;
        self.state = State::Open { first };
        Ok(())
    }
}
