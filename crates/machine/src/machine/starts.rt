//! Starting an operation on an idle core.
ghost use Rattle.std.specs.Prelude.{◌≡◌, ◌/◌, ◌%◌, ◌^◌, false, is_ok, IfOk, ◌==◌, nat_le, nat_lt};
ghost use Rattle.std.specs.List.{list_any};
ghost use Rattle.descriptor.specs.Descriptors.{creation};
ghost use Rattle.model.specs.World.{core_at};
ghost use Rattle.model.specs.Calls.{starts, reads, words_of};
ghost use Rattle.model.specs.Perform.{perform};
ghost use Rattle.cores.specs.Refusals.{refusal_in};
ghost use Rattle.machine.specs.Admission.{named_of, start_refusal};
ghost use Rattle.machine.specs.Starts.{call_for, begun};
ghost use Rattle.machine.specs.Keeps.{Keeps};
ghost use Rattle.machine.specs.View.{view};

use super::super::index::CoreIndex;
use super::{Machine, admitted};
use bank::Bank;
use cores::table::{Refusal, Table};
use descriptor::UsedUp;
use entries::{Entries, Entry};

/// What a core is to start.
#[derive(Clone, Copy)]
enum Task<'a> {
    /// The k-CAS of a list.
    List(&'a Entries),
    /// A read of this word.
    Read(u64),
}

/// What the words of a start are: whether one of them is not there, and whether one is protected.
#[derive(Clone, Copy)]
struct Named {
    missing: bool,
    protected: bool,
}

impl Named {
    /// Of the words that these entries name.
    fn of_entries(entries: &[Entry], size: u64, protected: u64) -> Named
        ensures missing { result.missing ≡ list_any (λ (e : Entry). nat_le size e.word) entries.now }
        ensures protected { result.protected ≡ list_any (λ (e : Entry). nat_lt e.word protected) entries.now }
    {
        Named {
            missing: entries.iter().any(|entry| size <= entry.word),
            protected: entries.iter().any(|entry| entry.word < protected),
        }
    }

    /// Of the words of a task, where there are `size` words, the first `protected` of them protected.
    fn of(task: Task<'_>, size: u64, protected: u64) -> Named
        ensures { result ≡ named_of size protected (words_of (call_for 0 task.entry)) }
    {
        match task {
            Task::List(list) => Named::of_entries(list.as_slice(), size, protected),
            Task::Read(word) => Named {
                missing: word >= size,
                protected: word < protected,
            },
        }
    }
}

/// Whether the core has the right to protected words.
fn may(rights: u8, core: CoreIndex) -> bool
    ensures { result ≡ (rights / 2 ^ core.number % 2 == 1) }
{
    (rights >> core.number) & 1 == 1
}

/// The core of this number, unless a start on it is refused before a number is taken.
fn startable(table: &Table, core: u8, named: Named) -> Result<CoreIndex, Refusal>
    ensures refusal { refusal_in result ≡ start_refusal table.now core named }
    ensures core { IfOk result (λ k. k.number ≡ core) }
{
    let core = admitted(table, core)?;
    if !core.core(table).is_idle() {
        return Err(Refusal::Busy);
    }
    if named.missing {
        return Err(Refusal::NoWord);
    }
    if named.protected && !may(table.rights, core) {
        return Err(Refusal::NoRight);
    }
    Ok(core)
}

impl<B: Bank> Machine<B> {
    /// Starts the task on the core, unless every number is taken.
    fn start_on(&mut self, core: CoreIndex, task: Task<'_>) -> Result<u64, UsedUp>
        ensures answer { result ≡ creation (core_at (view B.Bank.words self.old) core.number).operation }
        ensures after { view B.Bank.words self.new ≡ begun (view B.Bank.words self.old) core.number task.entry }
        ensures bank { self.new.bank ≡ self.old.bank }
    {
        let record = &mut self.table.cores[core.place()];
        match task {
            Task::List(list) => record.start_list(core.number, *list),
            Task::Read(word) => record.start_read(word),
        }
    }

    fn take_start(&mut self, core: u8, task: Task<'_>) -> Result<u64, Refusal>
        ensures answer { result ≡ (perform (view B.Bank.words self.old) (call_for core task.entry)).answer }
        ensures after { view B.Bank.words self.new ≡ (perform (view B.Bank.words self.old) (call_for core task.entry)).world }
        ensures bank { self.new.bank ≡ self.old.bank }
    {
        let named = Named::of(task, self.bank.size(), self.table.protected);
        let core = startable(&self.table, core, named)?;
        Ok(self.start_on(core, task)?)
    }

    /// Starts the list on an idle core, and answers the number taken.
    pub fn start(&mut self, core: u8, list: &Entries) -> Result<u64, Refusal>
        ensures answer { result ≡ (perform (view B.Bank.words self.old) (starts core list.now)).answer }
        ensures after { view B.Bank.words self.new ≡ (perform (view B.Bank.words self.old) (starts core list.now)).world }
        ensures refused { is_ok result ≡ false → self.new ≡ self.old }
        ensures bank { self.new.bank ≡ self.old.bank }
        ensures keeps { Keeps (view B.Bank.words self.old) (starts core list.now) (view B.Bank.words self.new) }
    {
        self.take_start(core, Task::List(list))
    }

    /// Starts a read of a word on an idle core, and answers the number taken.
    pub fn start_read(&mut self, core: u8, word: u64) -> Result<u64, Refusal>
        ensures answer { result ≡ (perform (view B.Bank.words self.old) (reads core word)).answer }
        ensures after { view B.Bank.words self.new ≡ (perform (view B.Bank.words self.old) (reads core word)).world }
        ensures refused { is_ok result ≡ false → self.new ≡ self.old }
        ensures bank { self.new.bank ≡ self.old.bank }
        ensures keeps { Keeps (view B.Bank.words self.old) (reads core word) (view B.Bank.words self.new) }
    {
        self.take_start(core, Task::Read(word))
    }
}
