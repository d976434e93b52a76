// A script's lines.
ghost use Rattle.std.specs.Prelude.{◌≡◌, IfOk, IfSome};
ghost use Rattle.script.specs.Kept.{Keeps};
ghost use Rattle.script.specs.Parting.{begins_use, left_of};
ghost use Rattle.script.specs.Readings.{PokeAt};

use super::calls::step;
use super::fault::Fault;
use super::media::medium;
use super::numbers::hex;
use super::script::{Named, Poke, Step};
use super::words::{Words, check_end, next_number, next_word};
use std::alloc::Global;

// What a line says.
#[derive(Drop, PartialEq, Eq, Debug)]
pub enum Line {
    Begin { again: bool, named: Named },
    Step { step: Step },
    Poke { poke: Poke },
}

// A poke, after its name.
fn next_poke(words: &mut Words, heap: Global) -> Result<Poke, Fault>
    ensures { IfOk result (PokeAt (left_of words.old)) }
{
    let page = next_number(words)? as usize;
    let offset = next_number(words)? as usize;
    let word = next_word(words)?;
    let bytes = hex(word, heap)?;
    check_end(words)?;
    Ok(Poke {
        page,
        offset,
        bytes,
    })
}

// Whether a line has the name of one that begins a use, good or bad.
pub fn begins_use(line: &[u8]) -> bool
    ensures { result ≡ begins_use line.now }
{
    matches!(Words::new(line).next(), Some(b"use" | b"again"))
}

// A line that says something, read.
fn read_words(line: &[u8], heap: Global) -> Result<Line, Fault>
    ensures { IfOk result Keeps }
{
    let mut words = Words::new(line);
    match next_word(&mut words)? {
        b"use" => Ok(Line::Begin {
            again: false,
            named: medium(&mut words)?,
        }),
        b"again" => Ok(Line::Begin {
            again: true,
            named: medium(&mut words)?,
        }),
        b"poke" => Ok(Line::Poke {
            poke: next_poke(&mut words, heap)?,
        }),
        name => Ok(Line::Step {
            step: step(name, &mut words, heap)?,
        }),
    }
}

// A line, read; none where it is blank, or a remark.
pub fn read_line(line: &[u8], heap: Global) -> Result<Option<Line>, Fault>
    ensures { IfOk result (λ said. IfSome said Keeps) }
{
    match line {
        [] | [b'#', ..] => Ok(None),
        _ => Ok(Some(read_words(line, heap)?)),
    }
}
