//! A machine over a bank, and its opening.
ghost use Rattle.std.specs.Prelude.{◌≡◌, false, is_ok};
ghost use Rattle.model.specs.Refusals.{first_tagged, setting_fits, refusal_of};
ghost use Rattle.model.specs.Calls.{opens};
ghost use Rattle.model.specs.Perform.{perform, opened_table, closed_table};
ghost use Rattle.machine.specs.Keeps.{Keeps, Begins};
ghost use Rattle.cores.specs.Refusals.{refusal_in};
ghost use Rattle.machine.specs.Opens.{plain_at, opening_refusal, receipt_for};
ghost use Rattle.machine.specs.View.{view};

use super::{Machine, Receipt};
use bank::Bank;
use cores::table::{Core, Refusal, Setting, Table};
use descriptor::LAST_NUMBER;
use word::Word;

/// Whether word `i` is there and plain.
fn holds_plain<B: Bank>(bank: &B, i: u64) -> bool
    ensures { result ≡ plain_at (B.Bank.words bank.now) i }
{
    matches!(bank.load(i).map(Word::read), Ok(Word::Plain(_)))
}

/// The first word that is not plain.
fn first_tagged<B: Bank>(bank: &B) -> Option<u64>
    ensures { result ≡ first_tagged 0 (B.Bank.words bank.now) }
{
    // By index, and it stops at the first word that is not plain: a rule of the project for every such check.
    for i in 0..bank.size() {
        if !holds_plain(bank, i) {
            return Some(i);
        }
    }
    None
}

/// Whether a machine over so many words may be opened with the setting.
fn fits(size: u64, setting: Setting) -> bool
    ensures { result ≡ setting_fits size setting }
{
    (1..=8).contains(&setting.cores)
        && (1..=LAST_NUMBER).contains(&setting.first)
        && (1..=256).contains(&size)
        && setting.protected <= size
        && u64::from(setting.rights) >> setting.cores == 0
}

/// The table of a newly opened machine.
fn opened_table(setting: Setting) -> Table
    ensures { result ≡ opened_table setting }
{
    Table {
        running: true,
        count: setting.cores,
        protected: setting.protected,
        rights: setting.rights,
        cores: [Core::new(setting.first); 8],
    }
}

/// The table of a machine that is not open.
pub fn closed_table() -> Table
    ensures { result ≡ closed_table }
{
    Table {
        running: false,
        count: 0,
        protected: 0,
        rights: 0,
        cores: [Core::new(0); 8],
    }
}

impl<B: Bank> Machine<B> {
    /// A machine over the bank, not open yet.
    pub fn over(bank: B) -> Machine<B>
        ensures { result ≡ record { bank = bank; table = closed_table } }
    {
        Machine {
            bank,
            table: closed_table(),
        }
    }

    /// Gives the bank back, as it is.
    pub fn into_bank(self) -> B
        ensures { result ≡ self.bank }
    {
        let Machine { bank, table: _ } = self;
        bank
    }

    /// Whether the machine may be opened with the setting, and why not.
    fn openable(&self, setting: Setting) -> Result<(), Refusal>
        ensures { refusal_in result ≡ opening_refusal (view B.Bank.words self.now) setting }
    {
        if self.table.running {
            return Err(Refusal::Open);
        }
        if !fits(self.bank.size(), setting) {
            return Err(Refusal::Setting);
        }
        first_tagged(&self.bank).map_or(Ok(()), |at| Err(Refusal::Tagged(at)))
    }

    fn take_open(&mut self, setting: Setting) -> Result<Receipt, Refusal>
        ensures answer { result ≡ receipt_for setting (perform (view B.Bank.words self.old) (opens setting)).answer }
        ensures after { view B.Bank.words self.new ≡ (perform (view B.Bank.words self.old) (opens setting)).world }
        ensures bank { self.new.bank ≡ self.old.bank }
    {
        self.openable(setting)?;
        self.table = opened_table(setting);
        Ok(Receipt {
            cores: setting.cores,
            first: setting.first,
        })
    }

    /// Opens the machine, with all cores idle, and answers a receipt.
    pub fn open(&mut self, setting: Setting) -> Result<Receipt, Refusal>
        ensures answer { result ≡ receipt_for setting (perform (view B.Bank.words self.old) (opens setting)).answer }
        ensures after { view B.Bank.words self.new ≡ (perform (view B.Bank.words self.old) (opens setting)).world }
        ensures refused { is_ok result ≡ false → self.new ≡ self.old }
        ensures bank { self.new.bank ≡ self.old.bank }
        ensures keeps { Keeps (view B.Bank.words self.old) (opens setting) (view B.Bank.words self.new) }
        ensures begins { Begins (view B.Bank.words self.old) setting (view B.Bank.words self.new) }
    {
        self.take_open(setting)
    }
}
