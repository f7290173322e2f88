//! Banks of words: numbered 64-bit words that are read and swapped one at a time.

#![tactic(auto)]

ghost use Rattle.std.specs.Prelude.{◌≡◌, ℕ, List, Ok, Err, if◌then◌else◌, length, nat_lt};
ghost use Rattle.bank.specs.Bank.{OnlySwap, Swaps, loaded, swapped};

mod bytes;
mod pair;
#[cfg(test)]
mod tests;
mod window;
mod words;

pub use bytes::ByteBank;
pub use pair::Pair;
pub use window::Window;
pub use words::WordBank;

/// Refusal 10: the bank has no word of that number.
#[derive(Clone, Copy, PartialEq, Eq, Debug)]
pub struct NoWord;

// Between usize and u64 there is no `From`, so the banks go by `as`, which is proved to lose nothing.

/// Words that are numbered from 0 on.
pub trait Bank {
    ghost words: { Self → List ℕ };

    /// How many words there are.
    fn size(&self) -> u64
        ensures { result ≡ length (words self.now) };

    /// Word `i`.
    fn load(&self, i: u64) -> Result<u64, NoWord>
        ensures { result ≡ loaded (words self.now) i };

    /// Makes word `i` `new` where it is `old`, and answers the word that it saw.
    fn swap(&mut self, i: u64, old: u64, new: u64) -> Result<u64, NoWord>
        ensures answer { result ≡ loaded (words self.old) i }
        ensures after { words self.new ≡ swapped (words self.old) i old new };
}

/// The number again, if a bank of that size has a word of that number.
fn within(i: u64, size: u64) -> Result<u64, NoWord>
    ensures { result ≡ (if nat_lt i size then Ok i else Err (record {})) }
{
    if i < size { Ok(i) } else { Err(NoWord) }
}

/// Swaps word `i` of any bank. The clauses say what a swap does, and that nothing else does the same.
pub fn compare_and_swap<B: Bank>(bank: &mut B, i: u64, old: u64, new: u64) -> Result<u64, NoWord>
    ensures does { Swaps (B.Bank.words bank.old) i old new result (B.Bank.words bank.new) }
    ensures only { OnlySwap (B.Bank.words bank.old) i old new result (B.Bank.words bank.new) }
{
    bank.swap(i, old, new)
}
