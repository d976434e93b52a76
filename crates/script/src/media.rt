// A medium's words.
ghost use Rattle.std.specs.Prelude.{◌≡◌, ◌≤◌, codes, IfOk, OnOk, Some};
ghost use Rattle.script.specs.Parting.{after_word, left_of, next_of, word_number};
ghost use Rattle.script.specs.Ranges.{pages_of};
ghost use Rattle.script.specs.Readings.{LayersAt, SpanAt};

use super::fault::Fault;
use super::numbers::pattern;
use super::script::{Card, Layers, Named, Span};
use super::words::{Words, check_end, next_number, next_size, next_word};

// A trial medium, after its name.
fn card(words: &mut Words) -> Result<Card, Fault>
    ensures { IfOk result (λ c. c.pages ≤ 4096) }
{
    let pages = next_size(words)?;
    let stop = next_number(words)?;
    let word = next_word(words)?;
    let pattern = pattern(word).ok_or(Fault::Bad)?;
    Ok(Card {
        pages,
        stop,
        pattern,
    })
}

// That the next word names a trial medium.
fn trial(words: &mut Words) -> Result<(), Fault>
    ensures word { OnOk result (next_of (left_of words.old) ≡ Some (codes "trial")) }
    ensures left { left_of words.new ≡ after_word (left_of words.old) }
{
    match next_word(words)? {
        b"trial" => Ok(()),
        _ => Err(Fault::Bad),
    }
}

// A window's two numbers.
fn span(words: &mut Words) -> Result<Span, Fault>
    ensures numbers { IfOk result (SpanAt (left_of words.old)) }
    ensures left { OnOk result (left_of words.new ≡ after_word (after_word (left_of words.old))) }
{
    let first = next_number(words)?;
    let count = next_number(words)?;
    Ok(Span {
        first: first as usize,
        count: count as usize,
    })
}

// The layers over a trial medium from a window on, up to the medium's name.
fn window(words: &mut Words) -> Result<Layers, Fault>
    ensures { IfOk result (λ under. LayersAt (codes "window") (left_of words.old) under (left_of words.new)) }
{
    let span = span(words)?;
    match next_word(words)? {
        b"trial" => Ok(Layers::Window { span }),
        b"hold" => {
            trial(words)?;
            Ok(Layers::WindowHold { span })
        }
        _ => Err(Fault::Bad),
    }
}

// The same from a holding layer on.
fn hold(words: &mut Words) -> Result<Layers, Fault>
    ensures { IfOk result (λ under. LayersAt (codes "hold") (left_of words.old) under (left_of words.new)) }
{
    match next_word(words)? {
        b"trial" => Ok(Layers::Hold),
        b"window" => {
            let span = span(words)?;
            trial(words)?;
            Ok(Layers::HoldWindow { span })
        }
        _ => Err(Fault::Bad),
    }
}

// The layers over a trial medium, up to its name; the first word is `name`.
fn layers(name: &[u8], words: &mut Words) -> Result<Layers, Fault>
    ensures { IfOk result (λ under. LayersAt name.now (left_of words.old) under (left_of words.new)) }
{
    match name {
        b"trial" => Ok(Layers::Bare),
        b"window" => window(words),
        b"hold" => hold(words),
        _ => Err(Fault::Bad),
    }
}

// A medium of any kind.
fn named(words: &mut Words) -> Result<Named, Fault>
    ensures { IfOk result (λ m. pages_of m ≤ 4096) }
{
    match next_word(words)? {
        b"memory" => Ok(Named::Memory {
            pages: next_size(words)?,
        }),
        name => {
            let under = layers(name, words)?;
            Ok(Named::Trial {
                card: card(words)?,
                under,
            })
        }
    }
}

// The medium that the rest of a line names.
pub fn medium(words: &mut Words) -> Result<Named, Fault>
    ensures { IfOk result (λ m. pages_of m ≤ 4096) }
{
    let named = named(words)?;
    check_end(words)?;
    Ok(named)
}
