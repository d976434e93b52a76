// What goes along with the uses of a script.
ghost use Rattle.std.specs.Prelude.{◌≡◌, [], string_bytes, IfSome, OnOk};
ghost use Rattle.store.specs.declared.state.State.TheVariants.{Shut};
ghost use Rattle.stage.specs.Steps.{with_bad, with_line};

use book::Slips;
use medium::Medium;
use std::alloc::{AllocError, Global};
use std::fmt::Display;
use store::Store;

// The slips that were given so far, the text that was printed, and where memory comes from.
pub(super) struct Stage {
    pub(super) slips: Slips,
    pub(super) out: String,
    pub(super) heap: Global,
}

impl Stage {
    // No slips yet, and the text that is there.
    pub(super) fn new(out: String, heap: Global) -> Stage
        ensures text { string_bytes result.out ≡ string_bytes out }
        ensures slips { result.slips.given.items ≡ [] }
    {
        Stage {
            slips: Slips::new(heap),
            out,
            heap,
        }
    }

    // Adds a line to the text.
    pub(super) fn tell<D: Display + Drop>(&mut self, line: D) -> Result<(), AllocError>
        ensures text { OnOk result (IfSome (D.output line) (λ text. string_bytes self.new.out ≡ with_line (string_bytes self.old.out) text)) }
        ensures slips { self.new.slips ≡ self.old.slips }
    {
        writeln!(self.out, "{line}")
    }

    // Tells the line that is not of the grammar, if there is one.
    pub(super) fn tell_bad(&mut self, bad: Option<usize>) -> Result<(), AllocError>
        ensures text { OnOk result (string_bytes self.new.out ≡ with_bad (string_bytes self.old.out) bad) }
        ensures slips { self.new.slips ≡ self.old.slips }
    {
        match bad {
            Some(n) => writeln!(self.out, "bad line {n}"),
            None => Ok(()),
        }
    }

    // Abandons every slip that is left at a store, which refuses them all if it is shut, and gives the text.
    pub(super) fn end<M: Medium>(self, store: &mut Store<M>) -> String
        ensures text { string_bytes result ≡ string_bytes self.out }
        ensures shut { store.old.state ≡ Shut → (store.new.state ≡ Shut) × (store.new.medium ≡ store.old.medium) }
    {
        let Stage {
            slips,
            out,
            heap: _heap,
        } = self;
        slips.end(store);
        out
    }
}
