ghost use Rattle.std.specs.Prelude.{◌≡◌};
ghost use Rattle.bank.specs.Bank.{loaded, swapped};

use crate::{Bank, NoWord};

/// The caller's own words, lent.
#[derive(Drop)]
pub struct WordBank<'a> {
    words: &'a mut [u64],
}

impl<'a> WordBank<'a> {
    /// The bank over `words`.
    pub fn over(words: &'a mut [u64]) -> WordBank<'a>
        ensures holds { result.words.now ≡ words.old }
        ensures lender { result.words.ghost_name ≡ words.entry.ghost_name }
    {
        WordBank { words }
    }
}

impl Bank for WordBank<'_> {
    ghost words = { λ b. b.words.now };

    fn size(&self) -> u64 {
        self.words.len() as u64
    }

    fn load(&self, i: u64) -> Result<u64, NoWord> {
        self.words.get(i as usize).copied().ok_or(NoWord)
    }

    fn swap(&mut self, i: u64, old: u64, new: u64) -> Result<u64, NoWord>
        ensures answer { result ≡ loaded self.old.words.now i }
        ensures after { self.new.words.now ≡ swapped self.old.words.now i old new }
        ensures lender { self.new.words.ghost_name ≡ self.old.words.ghost_name }
    {
        let seen = self.load(i)?;
        if seen == old {
            self.words[i as usize] = new;
        }
        Ok(seen)
    }
}
