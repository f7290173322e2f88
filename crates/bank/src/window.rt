ghost use Rattle.std.specs.Prelude.{◌≡◌, ◌+◌, ◌^◌, ◌<◌, length};
ghost use Rattle.bank.specs.Bank.{loaded, swapped};
ghost use Rattle.bank.specs.Windows.{below_after, window};

use crate::{Bank, NoWord, within};

/// A part of a bank: its word `i` is word `base + i` below, for at most `count` words.
#[derive(Drop)]
pub struct Window<B: Bank> {
    below: B,
    base: u64,
    count: u64,
}

impl<B: Bank> Window<B> {
    /// The window of `count` words from `base` on; any numbers are lawful.
    pub fn over(below: B, base: u64, count: u64) -> Window<B>
        ensures { (result.below ≡ below) × (result.base ≡ base) × (result.count ≡ count) }
    {
        Window { below, base, count }
    }

    /// Gives the bank back.
    pub fn into_inner(self) -> B
        ensures { result ≡ self.below }
    {
        self.below
    }
}

impl<B: Bank> Bank for Window<B> {
    ghost words = { λ w. window w.base w.count (B.Bank.words w.below) };

    fn size(&self) -> u64
        ensures size { result ≡ length (⟦<Self as Bank>⟧.words self.now) }
        ensures fits { self.now.base + result < 2 ^ 64 }
    {
        self.count.min(self.below.size().saturating_sub(self.base))
    }

    fn load(&self, i: u64) -> Result<u64, NoWord> {
        let i = within(i, self.size())?;
        self.below.load(self.base + i)
    }

    fn swap(&mut self, i: u64, old: u64, new: u64) -> Result<u64, NoWord>
        ensures answer { result ≡ loaded (⟦<Self as Bank>⟧.words self.old) i }
        ensures after { ⟦<Self as Bank>⟧.words self.new ≡ swapped (⟦<Self as Bank>⟧.words self.old) i old new }
        ensures below { B.Bank.words self.new.below ≡ below_after self.old.base self.old.count (B.Bank.words self.old.below) i old new }
        ensures place { (self.new.base ≡ self.old.base) × (self.new.count ≡ self.old.count) }
    {
        let i = within(i, self.size())?;
        self.below.swap(self.base + i, old, new)
    }
}
