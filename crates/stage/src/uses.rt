// Running a script from its first use to its last.
ghost use Rattle.std.specs.Prelude.{◌≡◌, [], string_bytes, OnOk};
ghost use Rattle.stage.specs.Scripts.{LayersMade, MemoryMade, NamedMade, ScriptMade, TrialMade, UsesMade, begun};

use super::lend::{put_pokes, refit};
use super::stage::Stage;
use medium::{Medium, Memory, Trial};
use script::{Card, Layers, Named, Script, Step, Use};
use std::alloc::{AllocError, Global};
use std::mem;
use store::Store;

impl Stage {
    // Makes steps on a memory medium over bytes.
    fn on_memory(&mut self, bytes: &mut [u8], steps: &[Step]) -> Result<(), AllocError>
        ensures { OnOk result (MemoryMade steps.now self.old.slips self.new.slips (string_bytes self.old.out) (string_bytes self.new.out) bytes.old) }
    {
        let (memory, done) = self.over(Memory::new(bytes), steps);
        let _ = memory.into_bytes();
        done
    }

    // Makes steps on a trial medium over bytes, under the layers that are named.
    fn on_trial(
        &mut self,
        bytes: &mut [u8],
        card: Card,
        under: Layers,
        steps: &[Step],
    ) -> Result<(), AllocError>
        ensures { OnOk result (TrialMade card under steps.now self.old.slips self.new.slips (string_bytes self.old.out) (string_bytes self.new.out) bytes.old) }
    {
        let trial = Trial::new(bytes, card.stop, card.pattern);
        let (trial, done) = self.under_layers(trial, under, steps);
        let _ = trial.into_bytes();
        done
    }

    // Runs a use over bytes.
    fn make_use(&mut self, bytes: &mut [u8], of: &Use) -> Result<(), AllocError>
        ensures { OnOk result (NamedMade of.now.named of.now.steps.items self.old.slips self.new.slips (string_bytes self.old.out) (string_bytes self.new.out) bytes.old) }
    {
        let steps = of.steps.as_slice();
        match of.named {
            Named::Memory { .. } => self.on_memory(bytes, steps),
            Named::Trial { card, under } => self.on_trial(bytes, card, under, steps),
        }
    }

    // Runs the uses in order, each with the bytes that the one before left or with fresh ones.
    fn make_uses(&mut self, uses: &[Use]) -> Result<(), AllocError>
        ensures { OnOk result (UsesMade uses.now self.old.slips self.new.slips (string_bytes self.old.out) (string_bytes self.new.out)) }
    {
        let mut bytes = Vec::new(self.heap);
        for of in uses {
            begin_bytes(&mut bytes, of)?;
            self.make_use(&mut bytes, of)?;
            put_pokes(&mut bytes, &of.pokes);
        }
        Ok(())
    }

    // Runs a script.
    fn make_script(&mut self, script: &Script) -> Result<(), AllocError>
        requires { self.old.slips.given.items ≡ [] }
        ensures { OnOk result (ScriptMade script.now (string_bytes self.old.out) (string_bytes self.new.out)) }
    {
        self.make_uses(&script.uses)?;
        self.tell_bad(script.bad)
    }
}

// Makes bytes those that a use begins with.
fn begin_bytes(bytes: &mut Vec<u8>, of: &Use) -> Result<(), AllocError>
    ensures { OnOk result (bytes.new.items ≡ begun of.now bytes.old.items) }
{
    if !of.again {
        bytes.clear();
    }
    refit(bytes, of.named.pages().saturating_mul(1024))
}

// Runs a script, with a store over a medium at which every slip left is abandoned in the end.
fn perform_at<M: Medium>(
    medium: M,
    script: &Script,
    out: &mut String,
    heap: Global,
) -> (M, Result<(), AllocError>)
    ensures { OnOk result.1 (ScriptMade script.now (string_bytes out.old) (string_bytes out.new)) }
{
    let mut last = Store::new(medium);
    let text = mem::replace(out, String::new(heap));
    let mut stage = Stage::new(text, heap);
    let done = stage.make_script(script);
    *out = stage.end(&mut last);
    (last.into_medium(), done)
}

// Runs a script, and adds what it prints to the text.
pub fn perform(script: &Script, out: &mut String, heap: Global) -> Result<(), AllocError>
    ensures { OnOk result (ScriptMade script.now (string_bytes out.old) (string_bytes out.new)) }
{
    let mut none = [];
    let (memory, done) = perform_at(Memory::new(&mut none), script, out, heap);
    let _ = memory.into_bytes();
    done
}
