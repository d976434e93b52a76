// What changes keep of a page: the laws on which the store's safety rests.
#![tactic(auto)]

ghost use Rattle.std.specs.Prelude.{◌≡◌};
ghost use Rattle.guard.specs.Guard.{Guards};
ghost use Rattle.guard.specs.Clears.{Clears};
ghost use Rattle.guard.specs.Changes.{Begins, Puts, Replaces, Removes, TakesBack, TakesDraftBack, Saves};

// Whatever an open edit has left of a page, word by word, reads as last saved.
pub fn guards()
    ensures { Guards }
{}

// Clearing a number that was never saved keeps what is saved.
pub fn clears()
    ensures { Clears }
{}

// What beginning, changing, taking back and saving do to a page's draft.
pub fn changes()
    ensures begins { Begins }
    ensures puts { Puts }
    ensures replaces { Replaces }
    ensures removes { Removes }
    ensures takes_back { TakesBack }
    ensures takes_draft_back { TakesDraftBack }
    ensures saves { Saves }
{}

// The clauses of the three above, once more together: each is public, and its theorems stay where they can be named.
// How many laws stand here: whatever an open edit has left of a page, word by word, reads as last saved; clearing a number
// that was never saved keeps what is saved; and what beginning, changing, taking back and saving do to a page's draft. Of taking
// back there are two clauses, of the header and of the draft: they count as one.
pub fn laws() -> usize
    ensures guards { Guards }
    ensures clears { Clears }
    ensures begins { Begins }
    ensures puts { Puts }
    ensures replaces { Replaces }
    ensures removes { Removes }
    ensures takes_back { TakesBack }
    ensures takes_draft_back { TakesDraftBack }
    ensures saves { Saves }
    ensures count { result ≡ 8 }
{
    let laws = 8;
    laws
}
