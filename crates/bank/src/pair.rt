ghost use Rattle.std.specs.Prelude.{◌≡◌};
ghost use Rattle.bank.specs.Bank.{loaded, swapped};
ghost use Rattle.bank.specs.Pairs.{first_after, paired, second_after};

use crate::{Bank, NoWord, within};

/// The most words that a pair takes of each of its banks.
const MOST: u64 = 1 << 62;

/// Two banks in turn: word `2 * j` is word `j` of the first, word `2 * j + 1` is word `j` of the second.
#[derive(Drop)]
pub struct Pair<A: Bank, B: Bank> {
    first: A,
    second: B,
}

impl<A: Bank, B: Bank> Pair<A, B> {
    /// The pair of the two banks.
    pub fn over(first: A, second: B) -> Pair<A, B>
        ensures { (result.first ≡ first) × (result.second ≡ second) }
    {
        Pair { first, second }
    }

    /// Gives both banks back.
    pub fn into_inner(self) -> (A, B)
        ensures { (result.0 ≡ self.first) × (result.1 ≡ self.second) }
    {
        (self.first, self.second)
    }
}

impl<A: Bank, B: Bank> Bank for Pair<A, B> {
    ghost words = { λ p. paired (A.Bank.words p.first) (B.Bank.words p.second) };

    fn size(&self) -> u64 {
        2 * self.first.size().min(self.second.size()).min(MOST)
    }

    fn load(&self, i: u64) -> Result<u64, NoWord> {
        let i = within(i, self.size())?;
        if i % 2 == 0 {
            self.first.load(i / 2)
        } else {
            self.second.load(i / 2)
        }
    }

    fn swap(&mut self, i: u64, old: u64, new: u64) -> Result<u64, NoWord>
        ensures answer { result ≡ loaded (⟦<Self as Bank>⟧.words self.old) i }
        ensures after { ⟦<Self as Bank>⟧.words self.new ≡ swapped (⟦<Self as Bank>⟧.words self.old) i old new }
        ensures first { A.Bank.words self.new.first ≡ first_after (A.Bank.words self.old.first) (B.Bank.words self.old.second) i old new }
        ensures second { B.Bank.words self.new.second ≡ second_after (A.Bank.words self.old.first) (B.Bank.words self.old.second) i old new }
    {
        let i = within(i, self.size())?;
        if i % 2 == 0 {
            self.first.swap(i / 2, old, new)
        } else {
            self.second.swap(i / 2, old, new)
        }
    }
}
