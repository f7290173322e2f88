//! Closing a machine.
ghost use Rattle.std.specs.Prelude.{◌≡◌, false, is_ok};
ghost use Rattle.model.specs.Perform.{closed, closing};
ghost use Rattle.machine.specs.Closes.{stored, closed_by};
ghost use Rattle.machine.specs.View.{view};

use super::looks::shown_value;
use super::opening::closed_table;
use super::{Machine, Receipt};
use bank::Bank;
use cores::table::Refusal;
use word::Word;

impl<B: Bank> Machine<B> {
    /// Stores the word's shown value as a plain value.
    fn store_shown(&mut self, at: u64)
        ensures { view B.Bank.words self.new ≡ stored (view B.Bank.words self.old) at }
    {
        if let Ok(raw) = self.bank.load(at) {
            let value = shown_value(&self.table, at, Word::read(raw));
            let _ = self.bank.swap(at, raw, Word::Plain(value).raw());
        }
    }

    /// Stores every word's shown value as a plain value, and drops every operation.
    fn shut(&mut self)
        ensures { view B.Bank.words self.new ≡ closed (view B.Bank.words self.old) }
    {
        // A bank's words go by their numbers alone.
        for i in 0..self.bank.size() {
            self.store_shown(i);
        }
        self.table = closed_table();
    }

    /// Closes the machine: each word holds its shown value as a plain value then, every operation is dropped, and the receipt is spent.
    /// A refused close gives the receipt back.
    pub fn close(&mut self, receipt: Receipt) -> Result<u64, (Refusal, Receipt)>
        ensures answer { result ≡ closed_by receipt (closing (view B.Bank.words self.old)).answer }
        ensures after { view B.Bank.words self.new ≡ (closing (view B.Bank.words self.old)).world }
        ensures refused { is_ok result ≡ false → self.new ≡ self.old }
    {
        if !self.table.running {
            return Err((Refusal::Closed, receipt));
        }
        let Receipt { cores: _, first: _ } = receipt;
        self.shut();
        Ok(0)
    }
}
