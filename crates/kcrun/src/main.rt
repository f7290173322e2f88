//! Reads one run file from standard input and prints its report.

#![tactic(auto)]

use runfile::file::{Fault, RunFile};
use runfile::input::bytes_of;
use runfile::reader::read;
use std::io;

fn report(rt: &HostRuntime, file: &RunFile) -> io::Result<()> {
    println!(rt; "records {}", file.records.len())?;
    println!(rt; "calls {}", file.calls.len())
}

fn main(rt: HostRuntime) -> anyhow::Result<()> {
    let bytes = bytes_of(rt.alloc(), rt.stdin())?;
    match read(rt.alloc(), bytes.as_slice()) {
        Ok(file) => report(&rt, &file)?,
        Err(fault @ Fault::At(_)) => println!(rt; "{fault}")?,
        Err(fault) => return Err(fault.into()),
    }
    Ok(())
}
