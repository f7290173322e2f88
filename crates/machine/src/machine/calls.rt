//! The calls that name a core. Each public call has a private half, which has the equations; the call adds what it keeps.
ghost use Rattle.std.specs.Prelude.{◌≡◌, false, is_ok};
ghost use Rattle.cores.specs.Cores.{halted, collection, after_collect};
ghost use Rattle.model.specs.World.{core_at, with_core};
ghost use Rattle.model.specs.Calls.{steps, halts, collects};
ghost use Rattle.model.specs.Perform.{perform};
ghost use Rattle.machine.specs.Keeps.{Keeps};
ghost use Rattle.machine.specs.View.{view};

use super::super::index::CoreIndex;
use super::{Machine, admitted};
use bank::Bank;
use cores::table::Refusal;

impl<B: Bank> Machine<B> {
    /// One atomic step of the core: 1 where its operation is finished then, and otherwise 0. Every call answers a number, as a history and a
    /// listing have it.
    pub fn step(&mut self, core: u8) -> Result<u64, Refusal>
        ensures answer { result ≡ (perform (view B.Bank.words self.old) (steps core)).answer }
        ensures after { view B.Bank.words self.new ≡ (perform (view B.Bank.words self.old) (steps core)).world }
        ensures refused { is_ok result ≡ false → self.new ≡ self.old }
        ensures keeps { Keeps (view B.Bank.words self.old) (steps core) (view B.Bank.words self.new) }
    {
        self.take_step(core)
    }

    fn halt_core(&mut self, core: CoreIndex)
        ensures after { view B.Bank.words self.new ≡ with_core (view B.Bank.words self.old) core.number (halted (core_at (view B.Bank.words self.old) core.number)) }
        ensures bank { self.new.bank ≡ self.old.bank }
    {
        self.table.cores[core.place()].halt();
    }

    fn take_halt(&mut self, core: u8) -> Result<u64, Refusal>
        ensures answer { result ≡ (perform (view B.Bank.words self.old) (halts core)).answer }
        ensures after { view B.Bank.words self.new ≡ (perform (view B.Bank.words self.old) (halts core)).world }
        ensures bank { self.new.bank ≡ self.old.bank }
    {
        let core = admitted(&self.table, core)?;
        self.halt_core(core);
        Ok(0)
    }

    /// Stops the core for the rest of the run, and answers 0; others may still help its operation.
    pub fn halt(&mut self, core: u8) -> Result<u64, Refusal>
        ensures answer { result ≡ (perform (view B.Bank.words self.old) (halts core)).answer }
        ensures after { view B.Bank.words self.new ≡ (perform (view B.Bank.words self.old) (halts core)).world }
        ensures refused { is_ok result ≡ false → self.new ≡ self.old }
        ensures bank { self.new.bank ≡ self.old.bank }
        ensures keeps { Keeps (view B.Bank.words self.old) (halts core) (view B.Bank.words self.new) }
    {
        self.take_halt(core)
    }

    fn collect_core(&mut self, core: CoreIndex) -> Option<u64>
        ensures answer { result ≡ collection (core_at (view B.Bank.words self.old) core.number) }
        ensures after { view B.Bank.words self.new ≡ with_core (view B.Bank.words self.old) core.number (after_collect (core_at (view B.Bank.words self.old) core.number)) }
        ensures bank { self.new.bank ≡ self.old.bank }
    {
        self.table.cores[core.place()].collect()
    }

    fn take_answer(&mut self, core: u8) -> Result<u64, Refusal>
        ensures answer { result ≡ (perform (view B.Bank.words self.old) (collects core)).answer }
        ensures after { view B.Bank.words self.new ≡ (perform (view B.Bank.words self.old) (collects core)).world }
        ensures bank { self.new.bank ≡ self.old.bank }
    {
        let core = admitted(&self.table, core)?;
        self.collect_core(core).ok_or(Refusal::NoAnswer)
    }

    /// Takes the answer of a finished core, which is idle then: the value of a read, and for a k-CAS 0, or the failed entry counted from 1.
    pub fn collect(&mut self, core: u8) -> Result<u64, Refusal>
        ensures answer { result ≡ (perform (view B.Bank.words self.old) (collects core)).answer }
        ensures after { view B.Bank.words self.new ≡ (perform (view B.Bank.words self.old) (collects core)).world }
        ensures refused { is_ok result ≡ false → self.new ≡ self.old }
        ensures bank { self.new.bank ≡ self.old.bank }
        ensures keeps { Keeps (view B.Bank.words self.old) (collects core) (view B.Bank.words self.new) }
    {
        self.take_answer(core)
    }
}
