// What is printed for each call.
ghost use Rattle.std.specs.Prelude.{◌≡◌, Some};
ghost use Rattle.stage.specs.Lines.{answer_line, bytes_line, done_line, field_line, laid_line, plain, plain_done};

use book::{Denied, Done};
use form::{ByNumber, Item};
use medium::MediumFault;
use std::fmt;
use store::{Refusal, value_at};
use text::Hex;

// What an accepted call answered; a value that was looked at is in the work page.
#[derive(Clone, Copy)]
struct Accepted<'a> {
    done: &'a Done<Item>,
    work: &'a [u8],
}

impl fmt::Display for Accepted<'_> {
    ghost output = { λ x. Some (done_line x.work.now x.done.now) };

    fn fmt<W: fmt::Write>(&self, f: &mut fmt::Formatter<W>) -> fmt::Result {
        let done = self.done;
        match done {
            Done::Opened { opened } => {
                let counter = opened.counter;
                let pages = opened.pages;
                let cleared = opened.cleared;
                write!(f, "ok counter {counter} pages {pages} cleared {cleared}")
            }
            Done::Begun { slip, number } => write!(f, "ok slip {slip} number {number}"),
            Done::Changed => write!(f, "ok"),
            Done::Looked { place } => {
                let at = place.at;
                let length = place.length;
                let value = Hex(value_at(self.work, *place));
                write!(f, "ok place {at} length {length} value {value}")
            }
            Done::Key { key } => write!(f, "ok key {key}"),
            Done::Saved { counter, changes } => write!(f, "ok counter {counter} changes {changes}"),
            Done::Abandoned => write!(f, "ok"),
            Done::Value { value } => write!(f, "ok {value}"),
        }
    }
}

// What a call answered.
#[derive(Clone, Copy)]
pub(super) struct Answer<'a> {
    pub(super) answer: &'a Result<Done<Item>, Denied>,
    pub(super) work: &'a [u8],
}

impl fmt::Display for Answer<'_> {
    ghost output = { λ x. Some (answer_line x.work.now x.answer.now) };

    fn fmt<W: fmt::Write>(&self, f: &mut fmt::Formatter<W>) -> fmt::Result {
        let work = self.work;
        match self.answer {
            Ok(done) => write!(f, "{}", Accepted { done, work }),
            Err(denied) => write!(f, "{denied}"),
        }
    }
}

// What a call accepted under numbers answered, its value by itself.
fn plain_done(done: &Done<ByNumber<Item>>) -> Done<Item>
    ensures { result ≡ plain_done done.now }
{
    match done {
        Done::Opened { opened } => Done::Opened { opened: *opened },
        Done::Begun { slip, number } => Done::Begun {
            slip: *slip,
            number: *number,
        },
        Done::Changed => Done::Changed,
        Done::Looked { place } => Done::Looked { place: *place },
        Done::Key { key } => Done::Key { key: *key },
        Done::Saved { counter, changes } => Done::Saved {
            counter: *counter,
            changes: *changes,
        },
        Done::Abandoned => Done::Abandoned,
        Done::Value { value } => Done::Value { value: value.0 },
    }
}

// And so what a call answered.
pub(super) fn plain(answer: &Result<Done<ByNumber<Item>>, Denied>) -> Result<Done<Item>, Denied>
    ensures { result ≡ plain answer.now }
{
    match answer {
        Ok(done) => Ok(plain_done(done)),
        Err(denied) => Err(*denied),
    }
}

// What laying a file answered.
#[derive(Clone, Copy)]
pub(super) struct Laid(pub(super) Result<(), Refusal>);

impl fmt::Display for Laid {
    ghost output = { λ x. Some (laid_line x.0) };

    fn fmt<W: fmt::Write>(&self, f: &mut fmt::Formatter<W>) -> fmt::Result {
        match self.0 {
            Ok(()) => write!(f, "ok"),
            Err(refusal) => write!(f, "{refusal}"),
        }
    }
}

// A field of a form outside its range, under a slip that is there or not: two facts of a line, neither the other's flag.
#[derive(Clone, Copy)]
pub(super) struct Field {
    pub(super) slip: bool,
    pub(super) bit: usize,
}

impl fmt::Display for Field {
    ghost output = { λ x. Some (field_line x.slip x.bit) };

    fn fmt<W: fmt::Write>(&self, f: &mut fmt::Formatter<W>) -> fmt::Result {
        if self.slip {
            let bit = self.bit;
            write!(f, "refused 17 bit {bit}")
        } else {
            write!(f, "no slip")
        }
    }
}

// Bytes, or why a medium refused to read them.
#[derive(Clone, Copy)]
pub(super) struct Dump<'a> {
    pub(super) answer: Result<(), MediumFault>,
    pub(super) bytes: &'a [u8],
}

impl fmt::Display for Dump<'_> {
    ghost output = { λ x. Some (bytes_line x.bytes.now x.answer) };

    fn fmt<W: fmt::Write>(&self, f: &mut fmt::Formatter<W>) -> fmt::Result {
        match self.answer {
            Ok(()) => write!(f, "{}", Hex(self.bytes)),
            Err(fault) => write!(f, "refused {fault}"),
        }
    }
}
