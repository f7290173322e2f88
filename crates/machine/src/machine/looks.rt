//! Looking at a word: its shown value and its raw word.
ghost use Rattle.std.specs.Prelude.{◌≡◌};
ghost use Rattle.cores.specs.Cores.{value_read};
ghost use Rattle.model.specs.Shown.{shown_word};
ghost use Rattle.model.specs.World.{operation_at};
ghost use Rattle.model.specs.Calls.{shows, raws};
ghost use Rattle.model.specs.Perform.{perform};
ghost use Rattle.machine.specs.Keeps.{Keeps};
ghost use Rattle.machine.specs.Looks.{look, shown_of};
ghost use Rattle.machine.specs.Sight.{tabled};
ghost use Rattle.machine.specs.View.{view};

use super::super::index::CoreIndex;
use super::{Machine, placing};
use bank::Bank;
use cores::table::{Refusal, Table};
use descriptor::Overtaken;
use word::{Mark, Word};

/// What the operation under the mark gives a word that it names.
fn value_under(table: &Table, mark: Mark, at: u64) -> Result<u64, Overtaken>
    ensures { result ≡ value_read at (operation_at (tabled table.now) mark) }
{
    CoreIndex::of(mark)?.core(table).value_at(mark.number, at)
}

/// The value that word `at` shows where it says `word`: 0 where the mark is overtaken.
pub fn shown_value(table: &Table, at: u64, word: Word) -> u64
    ensures { result ≡ shown_word (tabled table.now) at word }
{
    match word {
        Word::Plain(value) => value,
        Word::Placing(mark) => placing(table, mark).map_or(0, |contents| contents.expected),
        Word::Operation(mark) => value_under(table, mark, at).unwrap_or(0),
        Word::Foreign(_) => 0,
    }
}

impl<B: Bank> Machine<B> {
    fn look(&self, at: u64) -> Result<u64, Refusal>
        ensures { result ≡ look (view B.Bank.words self.now) at }
    {
        if !self.table.running {
            return Err(Refusal::Closed);
        }
        self.bank.load(at).or(Err(Refusal::NoWord))
    }

    fn look_shown(&self, at: u64) -> Result<u64, Refusal>
        ensures { result ≡ shown_of (view B.Bank.words self.now) at (look (view B.Bank.words self.now) at) }
    {
        let raw = self.look(at)?;
        Ok(shown_value(&self.table, at, Word::read(raw)))
    }

    /// The raw word at `at`. Nothing changes.
    pub fn raw(&self, at: u64) -> Result<u64, Refusal>
        ensures answer { result ≡ (perform (view B.Bank.words self.now) (raws at)).answer }
        ensures after { (perform (view B.Bank.words self.now) (raws at)).world ≡ view B.Bank.words self.now }
        ensures keeps { Keeps (view B.Bank.words self.now) (raws at) (view B.Bank.words self.now) }
    {
        self.look(at)
    }

    /// The value that word `at` shows. Nothing changes.
    pub fn shown(&self, at: u64) -> Result<u64, Refusal>
        ensures answer { result ≡ (perform (view B.Bank.words self.now) (shows at)).answer }
        ensures after { (perform (view B.Bank.words self.now) (shows at)).world ≡ view B.Bank.words self.now }
        ensures keeps { Keeps (view B.Bank.words self.now) (shows at) (view B.Bank.words self.now) }
    {
        self.look_shown(at)
    }
}
