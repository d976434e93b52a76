// Raw calls on a medium, printed as they are made.
ghost use Rattle.std.specs.Prelude.{Some};
ghost use Rattle.piles.specs.Texts.{said_text};

use medium::{Medium, MediumFault};
use std::io::Write;
use std::{fmt, io};
use text::Hex;

// A call: a run of words that is read, or filled with a byte, or a settle.
#[derive(Clone, Copy, PartialEq, Eq, Debug)]
pub enum Call {
    Read {
        page: usize,
        at: usize,
        words: usize,
    },
    Write {
        page: usize,
        at: usize,
        words: usize,
        fill: u8,
    },
    Settle,
}

// What a call answered: `ok`, or why the medium refused.
#[derive(Clone, Copy)]
struct Said(Result<(), MediumFault>);

impl fmt::Display for Said {
    ghost output = { λ s. Some (said_text s.0) };

    fn fmt<W: fmt::Write>(&self, f: &mut fmt::Formatter<W>) -> fmt::Result {
        match self.0 {
            Ok(()) => f.write_str("ok"),
            Err(fault) => write!(f, "{fault}"),
        }
    }
}

// Reads a run and prints what was asked and answered.
fn make_read<M: Medium, W: Write>(
    medium: &M,
    page: usize,
    at: usize,
    bytes: &mut [u8],
    out: &mut W,
) -> io::Result<()> {
    let answer = Said(medium.read(page, at, bytes));
    let hex = Hex(bytes);
    writeln!(out, "  read page {page} byte {at}: {answer} {hex}")
}

// Writes a run and prints what was asked and answered.
fn make_write<M: Medium, W: Write>(
    medium: &mut M,
    page: usize,
    at: usize,
    bytes: &[u8],
    out: &mut W,
) -> io::Result<()> {
    let answer = Said(medium.write(page, at, bytes));
    let hex = Hex(bytes);
    writeln!(out, "  write page {page} byte {at} {hex}: {answer}")
}

// Makes one call and prints it with its answer. A run has at most four words.
fn make<M: Medium, W: Write>(medium: &mut M, call: Call, out: &mut W) -> io::Result<()> {
    match call {
        Call::Read { page, at, words } => make_read(
            medium,
            page,
            at,
            &mut [0; 16][0..4 * words.min(4)],
            out,
        ),
        Call::Write {
            page,
            at,
            words,
            fill,
        } => make_write(medium, page, at, &[fill; 16][0..4 * words.min(4)], out),
        Call::Settle => {
            let answer = Said(medium.settle());
            writeln!(out, "  settle: {answer}")
        }
    }
}

// Makes calls one after the other.
pub fn run<M: Medium, W: Write>(medium: &mut M, calls: &[Call], out: &mut W) -> io::Result<()> {
    for call in calls {
        make(medium, *call, out)?;
    }
    Ok(())
}

// Prints the first six words of the first two pages as they are shown.
pub fn show<M: Medium, W: Write>(medium: &M, out: &mut W) -> io::Result<()> {
    make_read(medium, 0, 0, &mut [0; 24], out)?;
    make_read(medium, 1, 0, &mut [0; 24], out)
}
