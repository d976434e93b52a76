// Runs a fixed list of raw calls on a pile of layers, stops it in the middle, cuts it, and prints what is there before and after.
#![tactic(auto)]

mod calls;
#[cfg(test)]
mod tests;

use calls::{Call, run, show};
use layer::{holding_back, through};
use medium::{Cut, Trial};
use std::io;
use std::io::{BufWriter, Write};

// What is done on each pile: two writes that are settled, then three that are not, one of them to another page.
const CALLS: [Call; 7] = [
    Call::Write {
        page: 0,
        at: 0,
        words: 2,
        fill: 0x11,
    },
    Call::Write {
        page: 1,
        at: 8,
        words: 4,
        fill: 0x22,
    },
    Call::Settle,
    Call::Write {
        page: 0,
        at: 4,
        words: 2,
        fill: 0x33,
    },
    Call::Read {
        page: 0,
        at: 0,
        words: 4,
    },
    Call::Settle,
    Call::Write {
        page: 5,
        at: 0,
        words: 1,
        fill: 0x44,
    },
];

// Runs the calls on a medium, shows what is there, cuts it, and shows what is left.
fn try_calls<M: Cut, W: Write>(medium: &mut M, out: &mut W) -> io::Result<()> {
    run(medium, &CALLS, out)?;
    show(medium, out)?;
    medium.cut();
    writeln!(out, "  cut")?;
    show(medium, out)
}

// The same through a window, onto the pages from the second on, onto a layer that holds pages back.
fn try_layers<M: Cut, W: Write>(medium: M, out: &mut W) -> (M, io::Result<()>) {
    holding_back(medium, out, |hold, out| {
        through(hold, 1, 4, out, |mut window, out| {
            let done = try_calls(&mut window, out);
            (window, done)
        })
    })
}

// The pile over a trial medium of five pages that stops in call `stop`.
fn try_pile<W: Write>(out: &mut W, stop: u32, pattern: u64) -> io::Result<()> {
    let mut bytes = [0; 5120];
    writeln!(out, "window 1 4 hold trial 5 {stop} {pattern}")?;
    let (trial, done) = try_layers(Trial::new(&mut bytes, stop, pattern), out);
    let _ = trial.into_bytes();
    done
}

fn try_all(rt: &HostRuntime) -> io::Result<()> {
    let mut out = BufWriter::new(rt.alloc(), rt.stdout())?;
    for (stop, pattern) in [(0, 0), (2, 0), (4, 3), (5, 0)] {
        try_pile(&mut out, stop, pattern)?;
    }
    out.flush()
}

fn main(rt: HostRuntime) -> io::Result<()> {
    try_all(&rt)
}
