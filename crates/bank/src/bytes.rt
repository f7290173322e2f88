ghost use Rattle.std.specs.Prelude.{◌≡◌, ◌+◌, ◌*◌, ◌/◌, ◌<◌, ◌≤◌, length};
ghost use Rattle.bank.specs.Bank.{loaded, swapped};
ghost use Rattle.bank.specs.ByteWords.{byte_words, bytes_after, leftover, with_word, word_from};

use crate::{Bank, NoWord};

/// The caller's own bytes, lent: eight to a word, the most significant first. Up to seven bytes
/// past the last whole word are no part of it.
#[derive(Drop)]
pub struct ByteBank<'a> {
    bytes: &'a mut [u8],
}

impl<'a> ByteBank<'a> {
    /// The bank over `bytes`.
    pub fn over(bytes: &'a mut [u8]) -> ByteBank<'a>
        ensures holds { result.bytes.now ≡ bytes.old }
        ensures lender { result.bytes.ghost_name ≡ bytes.entry.ghost_name }
    {
        ByteBank { bytes }
    }
}

/// Writes `word` into the eight bytes from `at` on.
// By a range: nothing is known of the bytes after a write through `as_chunks_mut`.
fn store(bytes: &mut [u8], at: usize, word: u64)
    requires { at + 8 ≤ length bytes.old }
    ensures { bytes.new ≡ with_word bytes.old at word }
{
    bytes[at..at + 8].copy_from_slice(&word.to_be_bytes());
}

impl Bank for ByteBank<'_> {
    ghost words = { λ b. byte_words b.bytes.now };

    fn size(&self) -> u64
        ensures size { result ≡ length (byte_words self.now.bytes.now) }
        ensures whole { result ≡ length self.now.bytes.now / 8 }
    {
        self.bytes.len() as u64 / 8
    }

    fn load(&self, i: u64) -> Result<u64, NoWord> {
        let (words, _) = self.bytes.as_chunks::<8>();
        let word = words.get(i as usize).copied().ok_or(NoWord)?;
        Ok(u64::from_be_bytes(word))
    }

    fn swap(&mut self, i: u64, old: u64, new: u64) -> Result<u64, NoWord>
        ensures answer { result ≡ loaded (byte_words self.old.bytes.now) i }
        ensures after { byte_words self.new.bytes.now ≡ swapped (byte_words self.old.bytes.now) i old new }
        ensures bytes { self.new.bytes.now ≡ bytes_after self.old.bytes.now i old new }
        ensures kept { leftover self.new.bytes.now ≡ leftover self.old.bytes.now }
        ensures length { length self.new.bytes.now ≡ length self.old.bytes.now }
        ensures lender { self.new.bytes.ghost_name ≡ self.old.bytes.ghost_name }
    {
        let seen = self.load(i)?;
        if seen == old {
            store(self.bytes, 8 * i as usize, new);
        }
        Ok(seen)
    }
}
