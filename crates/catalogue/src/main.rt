// Lists the records of a show file that comes on standard input.
#![tactic(auto)]

mod list;
#[cfg(test)]
mod tests;

use list::list;
use std::io::{BufWriter, Read, Write};

// The most bytes that a show file has, 4,096 pages: what comes after is no part of it.
const MOST: u64 = 4_194_304;

fn run(rt: &HostRuntime) -> anyhow::Result<()> {
    let mut bytes = Vec::new(rt.alloc());
    rt.stdin().take(MOST).read_to_end(&mut bytes)?;
    let mut out = BufWriter::new(rt.alloc(), rt.stdout())?;
    list(bytes.as_slice(), &mut out)?;
    out.flush()?;
    Ok(())
}

fn main(rt: HostRuntime) -> anyhow::Result<()> {
    run(&rt)
}
