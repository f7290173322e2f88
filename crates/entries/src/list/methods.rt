ghost use Rattle.std.specs.Prelude.{◌≡◌, ◌<◌, ◌≤◌, false, [], ◌∷◌, length, take, is_ok, if◌then◌else◌, Decides};
ghost use Rattle.entries.specs.Lists.{zero_entry, may_stand, lawful, Lawful};
ghost use Rattle.entries.specs.Listed.{listed, entry_of, filling, TestIsLaw, AlwaysLawful};

use super::super::{Entry, Unlawful};
use super::Entries;

const MOST: usize = 8;

const ZERO: Entry = Entry {
    word: 0,
    expected: 0,
    new: 0,
};

const VALUE_LIMIT: u64 = 1 << 61;

/// Whether the entry at `i` may stand there: its values fit, and its word is above that of the entry before it.
fn fits(entries: &[Entry], i: usize) -> bool
    requires { i < length entries.now }
    ensures { result ≡ may_stand entries.entry.now i }
{
    let entry = entries[i];
    let values = entry.expected < VALUE_LIMIT && entry.new < VALUE_LIMIT;
    values && (i == 0 || entries[i - 1].word < entry.word)
}

/// Whether the entries are a lawful list.
fn is_lawful(entries: &[Entry]) -> bool
    ensures { result ≡ lawful entries.entry.now }
{
    if !(1..=MOST).contains(&entries.len()) {
        return false;
    }
    // By index, and it stops at the first entry that may not stand where it is: a rule of the project for every such check.
    for i in 0..entries.len() {
        if !fits(entries, i) {
            return false;
        }
    }
    true
}

/// The entries, and zero entries after them.
fn padded(entries: &[Entry]) -> [Entry; MOST]
    requires { length entries.now ≤ 8 }
    ensures full { length result ≡ 8 }
    ensures starts { take (length entries.entry.now) result ≡ entries.entry.now }
{
    let mut all = [ZERO; MOST];
    all[..entries.len()].copy_from_slice(entries);
    all
}

impl Entries {
    /// A new list: the entry (0, 0, 0).
    pub fn new() -> Entries
        ensures { listed result ≡ zero_entry ∷ [] }
    {
        Entries {
            entries: [ZERO; MOST],
            count: 1,
        }
    }

    /// Fills the list with these entries, or refuses them and leaves it as it was.
    pub fn fill(&mut self, from: &[Entry]) -> Result<(), Unlawful>
        ensures answer { result ≡ filling from.entry.now }
        ensures law { Decides (is_ok result) (Lawful from.entry.now) }
        ensures filled { listed self.new ≡ (if lawful from.entry.now then from.entry.now else listed self.old) }
        ensures refused { is_ok result ≡ false → self.new ≡ self.old }
    {
        if !is_lawful(from) {
            return Err(Unlawful);
        }
        *self = Entries {
            entries: padded(from),
            // Proved to fit: 8 at most.
            count: from.len() as u8,
        };
        Ok(())
    }

    /// The entries, in order.
    pub fn as_slice(&self) -> &[Entry]
        ensures { result.now ≡ listed self.now }
    {
        &self.entries[..usize::from(self.count)]
    }

    /// How many entries there are.
    pub fn len(&self) -> usize
        ensures { result ≡ length (listed self.now) }
    {
        self.as_slice().len()
    }

    /// The entry at `i`, if there are that many.
    pub fn get(&self, i: usize) -> Option<Entry>
        ensures { result ≡ entry_of self.now i }
    {
        self.as_slice().get(i).copied()
    }
}

/// The test that `fill` makes is the law itself, and every list that can be had is lawful.
pub fn law_stands()
    ensures test { TestIsLaw }
    ensures lists { AlwaysLawful }
{}
