//! The machine over any bank.
ghost use Rattle.std.specs.Prelude.{◌≡◌, false, is_ok, if◌then◌else◌, IfOk};
ghost use Rattle.descriptor.specs.Descriptors.{creation};
ghost use Rattle.cores.specs.Refusals.{refusal_in};
ghost use Rattle.cores.specs.Cores.{is_finished, begin_read, entry_read, state_read};
ghost use Rattle.model.specs.World.{core_at, word_at, operation_at, placing_at};
ghost use Rattle.model.specs.Step.{cleared_to, settled_to, step_change, change_world, arrive, swaps, decides, makes};
ghost use Rattle.model.specs.Calls.{steps};
ghost use Rattle.model.specs.Perform.{perform};
ghost use Rattle.machine.specs.Sight.{tabled, mark_made, sight};
ghost use Rattle.machine.specs.Admission.{admission, step_refusal};
ghost use Rattle.machine.specs.View.{view};

mod calls;
mod closing;
mod looks;
mod opening;
mod starts;

use super::index::CoreIndex;
use super::rules::next;
use super::seen::Seen;
use bank::Bank;
use cores::place::{Clearing, Place, Settling, Work};
use cores::table::{Core, Refusal, Table};
use descriptor::{Outcome, Overtaken, Placing, State, UsedUp};
use entries::Entry;
use word::{Mark, Word};

/// Up to 8 cores over a bank of words. What a call leaves as it was is a clause of each call: a fact on two states fits in no type. And
/// the clauses speak of the bank itself, which a `Model` of the machine as its words and table would leave out.
#[derive(Drop)]
pub struct Machine<B: Bank> {
    bank: B,
    table: Table,
}

/// What an opening answers, and a close takes: the numbers of cores and of the first creation. It cannot be let go; only a close
/// spends it.
pub struct Receipt {
    cores: u8,
    first: u64,
}

/// What Make creates for the entry.
fn placing_for(work: Work, entry: Entry) -> Placing
    ensures { result ≡ record { operation = work.operation; word = entry.word; expected = entry.expected } }
{
    Placing {
        operation: work.operation,
        word: entry.word,
        expected: entry.expected,
    }
}

/// What Clear puts back into a word. A descriptor says the like of a state; a clear has an outcome, and no state.
fn cleared(outcome: Outcome, entry: Entry) -> Word
    ensures { result ≡ cleared_to outcome entry }
{
    match outcome {
        Outcome::Succeeded => Word::Plain(entry.new),
        Outcome::Failed(_) => Word::Plain(entry.expected),
    }
}

/// What Settle puts into a word.
fn settled(undecided: bool, placing: Placing) -> Word
    ensures { result ≡ settled_to undecided placing }
{
    if undecided {
        Word::Operation(placing.operation)
    } else {
        Word::Plain(placing.expected)
    }
}

// What is read through a mark. `Table` is a type of `cores`, so as its methods these would be public there.

/// The state and count of the operation under the mark.
fn operation(table: &Table, mark: Mark) -> Result<(State, u8), Overtaken>
    ensures { result ≡ begin_read (operation_at (tabled table.now) mark) }
{
    CoreIndex::of(mark)?.core(table).operation(mark.number)
}

/// The entry that the work is on, if the operation has that many.
fn entry(table: &Table, work: Work) -> Result<Option<Entry>, Overtaken>
    ensures { result ≡ entry_read work.index (operation_at (tabled table.now) work.operation) }
{
    let mark = work.operation;
    CoreIndex::of(mark)?
        .core(table)
        .entry(mark.number, work.index)
}

/// The state of the operation under the mark.
fn state(table: &Table, mark: Mark) -> Result<State, Overtaken>
    ensures { result ≡ state_read (operation_at (tabled table.now) mark) }
{
    CoreIndex::of(mark)?.core(table).state(mark.number)
}

/// The contents of the placing under the mark.
fn placing(table: &Table, mark: Mark) -> Result<Placing, Overtaken>
    ensures { result ≡ placing_at (tabled table.now) mark }
{
    CoreIndex::of(mark)?.core(table).placing(mark.number)
}

/// The core of this number, unless a call that names it is refused before anything else is looked at.
fn admitted(table: &Table, core: u8) -> Result<CoreIndex, Refusal>
    ensures refusal { refusal_in result ≡ admission table.now core }
    ensures core { IfOk result (λ k. k.number ≡ core) }
{
    if !table.running {
        return Err(Refusal::Closed);
    }
    if core >= table.count {
        return Err(Refusal::NoCore);
    }
    let index = CoreIndex::new(core).ok_or(Refusal::NoCore)?;
    if index.core(table).halted {
        Err(Refusal::Halted)
    } else {
        Ok(index)
    }
}

/// The core of this number, unless a step of it is refused.
fn steppable(table: &Table, core: u8) -> Result<CoreIndex, Refusal>
    ensures refusal { refusal_in result ≡ step_refusal table.now core }
    ensures core { IfOk result (λ k. k.number ≡ core) }
{
    let index = admitted(table, core)?;
    index.core(table).may_step()?;
    Ok(index)
}

impl<B: Bank> Machine<B> {
    /// The word at `at`, if the bank has it.
    fn load(&self, at: u64) -> Option<Word>
        ensures { result ≡ word_at (view B.Bank.words self.now) at }
    {
        self.bank.load(at).ok().map(Word::read)
    }

    /// The word at `at`, if the bank has it; it becomes `new` where it says `old`.
    fn swap(&mut self, at: u64, old: Word, new: Word) -> Option<Word>
        ensures answer { result ≡ word_at (view B.Bank.words self.old) at }
        ensures after { view B.Bank.words self.new ≡ change_world (view B.Bank.words self.old) 0 (swaps at old new) }
    {
        self.bank
            .swap(at, old.raw(), new.raw())
            .ok()
            .map(Word::read)
    }

    /// Decides the operation under the mark, unless it is overtaken or decided; the state that it had.
    fn decide(&mut self, mark: Mark, outcome: Outcome) -> Result<State, Overtaken>
        ensures answer { result ≡ state_read (operation_at (view B.Bank.words self.old) mark) }
        ensures after { view B.Bank.words self.new ≡ change_world (view B.Bank.words self.old) 0 (decides mark outcome) }
    {
        let core = CoreIndex::of(mark)?;
        self.table.cores[core.place()].decide(mark.number, outcome)
    }

    /// Creates the core's placing descriptor anew, and answers its mark.
    fn make(&mut self, core: CoreIndex, contents: Placing) -> Result<Mark, UsedUp>
        ensures answer { result ≡ mark_made core.number (creation (core_at (view B.Bank.words self.old) core.number).placing) }
        ensures after { view B.Bank.words self.new ≡ change_world (view B.Bank.words self.old) core.number (makes contents) }
    {
        let number = self.table.cores[core.place()].make(contents)?;
        Ok(Mark {
            core: core.number,
            number,
        })
    }

    /// The one access of a step from the place.
    fn access(&mut self, core: CoreIndex, place: Place) -> Seen
        ensures answer { result ≡ sight (view B.Bank.words self.old) core.number place }
        ensures after { view B.Bank.words self.new ≡ change_world (view B.Bank.words self.old) core.number (step_change place) }
    {
        // The places are a closed set, each matched where the definition matches it.
        match place {
            Place::Idle | Place::Finished(_) => Seen::Nothing,
            Place::Look(at) => Seen::Word(self.load(at)),
            Place::Begin(mark) => Seen::Operation(operation(&self.table, mark)),
            Place::Fetch(work) | Place::Clear(work, _, Clearing::Read) => {
                Seen::Entry(entry(&self.table, work))
            }
            Place::Make(work, entry) => Seen::Made(self.make(core, placing_for(work, entry))),
            Place::Try(_, entry, mark) => Seen::Word(self.swap(
                entry.word,
                Word::Plain(entry.expected),
                Word::Placing(mark),
            )),
            Place::Decide(work, outcome) => Seen::State(self.decide(work.operation, outcome)),
            Place::Clear(_, _, Clearing::Load(entry)) => Seen::Word(self.load(entry.word)),
            Place::Clear(work, outcome, Clearing::Swap(entry)) => Seen::Word(self.swap(
                entry.word,
                Word::Operation(work.operation),
                cleared(outcome, entry),
            )),
            Place::Settle(mark, Settling::Read, _) => Seen::Placing(placing(&self.table, mark)),
            Place::Settle(_, Settling::State(placing), _) => {
                Seen::State(state(&self.table, placing.operation))
            }
            Place::Settle(mark, Settling::Swap(placing, undecided), _) => Seen::Word(self.swap(
                placing.word,
                Word::Placing(mark),
                settled(undecided, placing),
            )),
        }
    }

    /// The core arrives at the place: 1 where it is finished then, and otherwise 0.
    fn arrive(&mut self, core: CoreIndex, place: Place) -> u64
        ensures answer { result ≡ (if is_finished (core_at (arrive (view B.Bank.words self.old) core.number place) core.number).place then 1 else 0) }
        ensures after { view B.Bank.words self.new ≡ arrive (view B.Bank.words self.old) core.number place }
    {
        self.table.cores[core.place()].arrive(place);
        u64::from(matches!(place, Place::Finished(_)))
    }

    fn take_step(&mut self, core: u8) -> Result<u64, Refusal>
        ensures answer { result ≡ (perform (view B.Bank.words self.old) (steps core)).answer }
        ensures after { view B.Bank.words self.new ≡ (perform (view B.Bank.words self.old) (steps core)).world }
        ensures refused { is_ok result ≡ false → self.new ≡ self.old }
    {
        let core = steppable(&self.table, core)?;
        let Core { place, own, .. } = *core.core(&self.table);
        let seen = self.access(core, place);
        Ok(self.arrive(core, next(place, own, seen)))
    }
}
