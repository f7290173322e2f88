//! Two machines that are opened and closed: every receipt goes to a close, and every close to an open machine.

#![tactic(auto)]

ghost use Rattle.std.specs.Prelude.{◌≡◌, true, IfOk};

use bank::{Bank, WordBank};
use cores::table::{Refusal, Setting};
use machine::{Machine, Receipt};
use std::io;

/// Closes an open machine. No `unwrap`: an error would hold a receipt, which cannot be let go.
fn close<B: Bank>(machine: &mut Machine<B>, receipt: Receipt) -> u64
    requires { machine.old.table.running ≡ true }
    ensures { result ≡ 0 }
{
    match machine.close(receipt) {
        Ok(answer) => answer,
        Err(_) => unreachable(),
    }
}

/// Opens and closes one machine, and then another: what the closes answered.
fn close_both<B: Bank>(
    one: &mut Machine<B>,
    other: &mut Machine<B>,
    setting: Setting,
) -> Result<(u64, u64), Refusal>
    ensures { IfOk result (λ x. x ≡ (0, 0)) }
{
    let first = one.open(setting)?;
    let closed = close(one, first);
    let second = other.open(setting)?;
    let again = close(other, second);
    Ok((closed, again))
}

fn main(rt: HostRuntime) -> io::Result<()> {
    let mut words = [0u64; 2];
    let mut more = [0u64; 2];
    let mut one = Machine::over(WordBank::over(&mut words));
    let mut other = Machine::over(WordBank::over(&mut more));
    let setting = Setting {
        cores: 1,
        first: 1,
        protected: 0,
        rights: 0,
    };
    match close_both(&mut one, &mut other, setting) {
        Ok((closed, again)) => println!(rt; "closed {closed}, and {again}"),
        Err(refusal) => println!(rt; "refused with {}", refusal.number()),
    }
}
