//! Raw 64-bit words and their one reading: a plain value, a mark of one of two kinds, or foreign.

#![tactic(auto)]

ghost use Rattle.std.specs.Prelude.{◌≡◌, ℕ, ◌/◌, ◌%◌, ◌<◌, ◌&&◌, Some, None, if◌then◌else◌, nat_lt};
ghost use Rattle.word.specs.Word.{decoding, mark_in, reading_of, raw_of, packed_of, Says, Writable};

/// The name of one creation of a descriptor: the core it was made for and the sequence number it took.
#[derive(Clone, Copy, PartialEq, Eq, Debug)]
pub struct Mark {
    pub core: u8,
    pub number: u64,
}

/// What a raw word says.
#[derive(Clone, Copy, PartialEq, Eq, Debug)]
pub enum Word {
    /// A value, at most 2^61 - 1.
    Plain(u64),
    /// A placing mark: a DCSS descriptor stands in for the word.
    Placing(Mark),
    /// An operation mark: a k-CAS descriptor stands in for the word.
    Operation(Mark),
    /// A raw word that is none of these, kept as it is.
    Foreign(u64),
}

// The tags, in bits 0 and 1.
const PLAIN: u64 = 0;

const PLACING: u64 = 1;

const OPERATION: u64 = 2;

/// The mark in bits 2 to 62, if its core is one of eight and its number is above 0.
fn marked(raw: u64) -> Option<Mark>
    ensures { result ≡ (if nat_lt (raw / 4 % 16384) 8 && nat_lt 0 (raw / 65536) then Some (mark_in raw) else None) }
{
    let core = (raw >> 2) % 16384;
    let number = raw >> 16;
    if core > 7 || number == 0 {
        return None;
    }
    // As `u8`: proved to fit, where `try_from` would test it again.
    Some(Mark {
        core: core as u8,
        number,
    })
}

/// The word that the bits spell out: tag in bits 0 and 1, core in bits 2 to 15, number in bits 16 to 62.
fn decoded(raw: u64) -> Word
    ensures { result ≡ decoding raw }
{
    if raw >> 63 != 0 {
        return Word::Foreign(raw);
    }
    let tag = raw % 4;
    // Before the mark is looked for: most words are plain.
    if tag == PLAIN {
        return Word::Plain(raw >> 2);
    }
    match (tag, marked(raw)) {
        (PLACING, Some(mark)) => Word::Placing(mark),
        (OPERATION, Some(mark)) => Word::Operation(mark),
        _ => Word::Foreign(raw),
    }
}

/// A mark and its tag in one raw word.
fn packed(tag: u64, mark: Mark) -> u64
    requires { tag < 4 }
    ensures { result ≡ packed_of tag mark }
{
    (mark.number << 16) + (u64::from(mark.core) << 2) + tag
}

fn encoded(word: Word) -> u64
    ensures { result ≡ raw_of word }
{
    match word {
        Word::Plain(value) => value << 2,
        Word::Placing(mark) => packed(PLACING, mark),
        Word::Operation(mark) => packed(OPERATION, mark),
        Word::Foreign(raw) => raw,
    }
}

impl Word {
    /// What the raw word says: its only reading, from which it comes back. It is no `From`, which has one relation to promise and not four
    /// facts, and `raw` can be none, since a word out of range loses bits there.
    pub fn read(raw: u64) -> Word
        ensures is { result ≡ reading_of raw }
        ensures says { Says raw result }
        ensures only { (w : Word) → Says raw w → w ≡ result }
        ensures back { raw_of result ≡ raw }
    {
        decoded(raw)
    }

    /// The raw word that says this; every value and mark in range reads back from it.
    pub fn raw(self) -> u64
        ensures is { result ≡ raw_of self }
        ensures says { Writable self → Says result self }
        ensures back { Writable self → reading_of result ≡ self }
    {
        encoded(self)
    }
}

#[cfg(test)]
mod tests {
    use super::*;

    #[test]
    fn words_and_raw_words_agree(rt: HostRuntime) {
        let low = Mark { core: 0, number: 1 };
        let high = Mark {
            core: 7,
            number: 140737488355327,
        };
        let table = [
            (28, Word::Plain(7)),
            (0, Word::Plain(0)),
            (9223372036854775804, Word::Plain(2305843009213693951)),
            (327694, Word::Operation(Mark { core: 3, number: 5 })),
            (65537, Word::Placing(low)),
            (65538, Word::Operation(low)),
            (9223372036854710301, Word::Placing(high)),
            (9223372036854710302, Word::Operation(high)),
        ];
        for (raw, word) in table {
            assert_eq!(rt; Word::read(raw), word);
            assert_eq!(rt; word.raw(), raw);
        }
    }

    #[test]
    fn foreign_words_come_back(rt: HostRuntime) {
        // tag 3; no number; a core above 7, low and high bits; bit 63, alone and with all others
        let table = [3, 65539, 2, 29, 65569, 65538 + 32768, 1 << 63, u64::MAX];
        for raw in table {
            assert_eq!(rt; Word::read(raw), Word::Foreign(raw));
            assert_eq!(rt; Word::Foreign(raw).raw(), raw);
        }
    }
}
