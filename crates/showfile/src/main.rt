// Runs a script of calls that comes on standard input, and prints one line for each.
#![tactic(auto)]

use script::parse;
use stage::perform;
use std::io::{Read, Write};

fn run(rt: &HostRuntime) -> anyhow::Result<()> {
    let mut text = Vec::new(rt.alloc());
    rt.stdin().read_to_end(&mut text)?;
    let script = parse(text.as_slice(), rt.alloc())?;
    let mut out = String::new(rt.alloc());
    let done = perform(&script, &mut out, rt.alloc());
    // where memory runs out, the lines up to there are printed all the same
    rt.stdout().write_all(out.as_bytes())?;
    done?;
    Ok(())
}

fn main(rt: HostRuntime) -> anyhow::Result<()> {
    run(&rt)
}
