// The words of a use's calls.
ghost use Rattle.std.specs.Prelude.{◌≡◌, ℕ, ◌≤◌, List, Option, None, if◌then◌else◌, is_some, codes, IfOk, OnOk};
ghost use Rattle.form.specs.Fields.{Makes};
ghost use Rattle.script.specs.Parting.{after_word, left_of};
ghost use Rattle.script.specs.Ranges.{work_of};
ghost use Rattle.script.specs.Readings.{PlainAt};

use super::fault::Fault;
use super::numbers::{hex, number};
use super::script::Step;
use super::words::{Words, check_end, next_number, next_size, next_word};
use book::Call;
use form::{BadField, Cue, Fielded, Item, ItemKind, Still, from_values};
use std::alloc::Global;

// A record's value as a line gives it: bytes, or a form's value.
#[derive(Drop, PartialEq, Eq, Debug)]
enum Said {
    Bytes { bytes: Vec<u8> },
    Item { item: Item },
}

// The number of a field, where the next word is that field's name, `=` and a number.
fn field(words: &mut Words, name: &str) -> Result<Option<u32>, Fault>
    ensures { IfOk result (λ n. left_of words.new ≡ if is_some n then after_word (left_of words.old) else left_of words.old) }
{
    let digits = words
        .peek()
        .and_then(|word| word.strip_prefix(name.as_bytes()))
        .and_then(|rest| rest.strip_prefix(b"="));
    let Some(digits) = digits else {
        return Ok(None);
    };
    let n = number(digits).ok_or(Fault::Bad)?;
    next_word(words)?;
    Ok(Some(n))
}

// A form's fields in their order, and what is made of them.
fn fields<V: Fielded>(words: &mut Words) -> Result<Result<V, BadField>, Fault>
    ensures { IfOk result (λ made. (numbers : List (Option ℕ)) × Makes V.FIELDS V.values numbers made) }
{
    let mut numbers = [None; 4];
    for (number, name) in numbers.iter_mut().zip(V::names()) {
        *number = field(words, name)?;
    }
    Ok(from_values(numbers))
}

// A value to the line's end, or a form's field outside its range.
fn value(words: &mut Words, heap: Global) -> Result<Result<Said, BadField>, Fault>
    ensures { OnOk result (left_of words.new ≡ None) }
{
    let value = match next_word(words)? {
        b"cue" => fields::<Cue>(words)?.map(|cue| Said::Item { item: cue.into() }),
        b"still" => fields::<Still>(words)?.map(|still| Said::Item { item: still.into() }),
        word => Ok(Said::Bytes {
            bytes: hex(word, heap)?,
        }),
    };
    check_end(words)?;
    Ok(value)
}

// A call that gives a key a value under a slip, made of bytes or of a form's value.
fn giving<
    B: FnOnce(usize, u32, Vec<u8>) -> Call<Item, ItemKind>,
    I: FnOnce(usize, u32, Item) -> Call<Item, ItemKind>,
>(words: &mut Words, heap: Global, of_bytes: B, of_item: I) -> Result<Step, Fault>
    requires bytes { B.IsAlwaysCallable of_bytes }
    requires item { I.IsAlwaysCallable of_item }
    ensures { IfOk result (λ s. work_of s ≤ 4096) }
{
    let slip = next_number(words)? as usize;
    let key = next_number(words)?;
    match value(words, heap)? {
        Ok(Said::Bytes { bytes }) => Ok(Step::Call {
            call: of_bytes(slip, key, bytes),
        }),
        Ok(Said::Item { item }) => Ok(Step::Call {
            call: of_item(slip, key, item),
        }),
        Err(bad) => Ok(Step::BadField { slip, bit: bad.bit }),
    }
}

// A put.
fn put(words: &mut Words, heap: Global) -> Result<Step, Fault>
    ensures { IfOk result (λ s. work_of s ≤ 4096) }
{
    giving(
        words,
        heap,
        |slip, key, value| Call::Put { slip, key, value },
        |slip, key, value| Call::PutForm { slip, key, value },
    )
}

// A change.
fn change(words: &mut Words, heap: Global) -> Result<Step, Fault>
    ensures { IfOk result (λ s. work_of s ≤ 4096) }
{
    giving(
        words,
        heap,
        |slip, key, value| Call::Change { slip, key, value },
        |slip, key, value| Call::ChangeForm { slip, key, value },
    )
}

// A look, of bytes or under a form.
fn look(words: &mut Words) -> Result<Call<Item, ItemKind>, Fault>
    ensures { IfOk result (PlainAt (codes "look") (left_of words.old)) }
{
    let key = next_number(words)?;
    match words.next() {
        None => Ok(Call::Look { key }),
        Some(b"cue") => Ok(Call::LookForm {
            key,
            kind: ItemKind::Cue,
        }),
        Some(b"still") => Ok(Call::LookForm {
            key,
            kind: ItemKind::Still,
        }),
        Some(_) => Err(Fault::Bad),
    }
}

// A call that has numbers only.
fn plain(name: &[u8], words: &mut Words) -> Result<Call<Item, ItemKind>, Fault>
    ensures { IfOk result (PlainAt name.now (left_of words.old)) }
{
    match name {
        b"open" => Ok(Call::Open),
        b"begin" => Ok(Call::Begin),
        b"remove" => {
            let slip = next_number(words)? as usize;
            Ok(Call::Remove {
                slip,
                key: next_number(words)?,
            })
        }
        b"look" => look(words),
        b"next" => Ok(Call::Next {
            least: next_number(words)?,
        }),
        b"save" => Ok(Call::Save {
            slip: next_number(words)? as usize,
        }),
        b"abandon" => Ok(Call::Abandon {
            slip: next_number(words)? as usize,
        }),
        _ => Err(Fault::Bad),
    }
}

// The bytes of a work page.
fn work(words: &mut Words) -> Result<Step, Fault>
    ensures { IfOk result (λ s. work_of s ≤ 4096) }
{
    Ok(Step::Work {
        bytes: next_size(words)?,
    })
}

// What is to be dumped.
fn dump(words: &mut Words) -> Result<Step, Fault>
    ensures { IfOk result (λ s. work_of s ≤ 4096) }
{
    match next_word(words)? {
        b"work" => Ok(Step::DumpWork),
        b"page" => Ok(Step::DumpPage {
            page: next_number(words)? as usize,
        }),
        _ => Err(Fault::Bad),
    }
}

// A line of a use that gives no bytes.
fn short_step(name: &[u8], words: &mut Words) -> Result<Step, Fault>
    ensures { IfOk result (λ s. work_of s ≤ 4096) }
{
    match name {
        b"work" => work(words),
        b"lay" => Ok(Step::Lay {
            pages: next_number(words)? as usize,
        }),
        b"ask" => Ok(Step::Ask),
        b"dump" => dump(words),
        _ => Ok(Step::Call {
            call: plain(name, words)?,
        }),
    }
}

// A line of a use: its first word is `name`.
pub fn step(name: &[u8], words: &mut Words, heap: Global) -> Result<Step, Fault>
    ensures { IfOk result (λ s. work_of s ≤ 4096) }
{
    let step = match name {
        b"put" => put(words, heap)?,
        b"change" => change(words, heap)?,
        _ => short_step(name, words)?,
    };
    check_end(words)?;
    Ok(step)
}
