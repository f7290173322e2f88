//! Reads one run file from standard input and prints its listing.

#![tactic(auto)]

use report::report;
use runfile::input::bytes_of;
use std::io::Write;

fn main(rt: HostRuntime) -> anyhow::Result<()> {
    let bytes = bytes_of(rt.alloc(), rt.stdin())?;
    let text = report(rt.alloc(), bytes.as_slice())?;
    rt.stdout().write_all(text.as_slice())?;
    Ok(())
}
