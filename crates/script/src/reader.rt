// Reading a script.
ghost use Rattle.std.specs.Prelude.{◌≡◌, ◌+◌, ◌≤◌, length, IfSome, IfOk, vec_len, OnOk};

use super::fault::Fault;
use super::lines::{Line, begins_use, read_line};
use super::script::{Named, Poke, Script, Step, Use};
use super::words::Lines;
use std::alloc::{AllocError, Global};

// Begins a use. The first of a script has none before it whose bytes it could take over.
fn begin_use(uses: &mut Vec<Use>, again: bool, named: Named, heap: Global) -> Result<(), Fault>
    ensures { OnOk result (vec_len uses.new ≡ vec_len uses.old + 1) }
{
    let again = again && !uses.is_empty();
    uses.push(Use {
        again,
        named,
        steps: Vec::new(heap),
        pokes: Vec::new(heap),
    })?;
    Ok(())
}

// Adds a line to the last use, which has no pokes yet.
fn add_step(uses: &mut Vec<Use>, step: Step) -> Result<(), Fault>
    ensures { vec_len uses.new ≡ vec_len uses.old }
{
    let last = uses.last_mut().ok_or(Fault::Bad)?;
    if !last.pokes.is_empty() {
        return Err(Fault::Bad);
    }
    last.steps.push(step)?;
    Ok(())
}

// Adds a poke to the last use.
fn add_poke(uses: &mut Vec<Use>, poke: Poke) -> Result<(), Fault>
    ensures { vec_len uses.new ≡ vec_len uses.old }
{
    let last = uses.last_mut().ok_or(Fault::Bad)?;
    last.pokes.push(poke)?;
    Ok(())
}

// Reads a line, and adds what it says.
fn add_line(uses: &mut Vec<Use>, line: &[u8], heap: Global) -> Result<(), Fault>
    ensures { OnOk result (vec_len uses.old ≤ vec_len uses.new) }
{
    match read_line(line, heap)? {
        None => Ok(()),
        Some(Line::Begin { again, named }) => begin_use(uses, again, named, heap),
        Some(Line::Step { step }) => add_step(uses, step),
        Some(Line::Poke { poke }) => add_poke(uses, poke),
    }
}

// Reads a script up to its first bad line, whose use is dropped. A line has a byte at least, so there are no more lines than bytes.
pub fn parse(text: &[u8], heap: Global) -> Result<Script, AllocError>
    ensures { IfOk result (λ s. IfSome s.bad (λ n. (1 ≤ n) × (n ≤ length text.now))) }
{
    let mut uses = Vec::new(heap);
    for (k, line) in Lines::new(text).enumerate() {
        match add_line(&mut uses, line, heap) {
            Ok(()) => {}
            Err(Fault::Memory(error)) => return Err(error),
            Err(Fault::Bad) => {
                if !begins_use(line) {
                    let _ = uses.pop();
                }
                return Ok(Script {
                    uses,
                    bad: Some(k + 1),
                });
            }
        }
    }
    Ok(Script { uses, bad: None })
}
