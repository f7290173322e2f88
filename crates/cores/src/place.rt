//! Where a core stands between two of its steps.
ghost use Rattle.std.specs.Prelude.{◌≡◌};
ghost use Rattle.cores.specs.Cores.{home};

use descriptor::{Outcome, Placing};
use entries::Entry;
use word::Mark;

/// Work on one entry of an operation.
#[derive(Clone, Copy, PartialEq, Eq, Debug)]
pub struct Work {
    /// The operation's mark, T in the rules.
    pub operation: Mark,
    /// The entry, counted from 0.
    pub index: u8,
    /// How many entries the operation has.
    pub count: u8,
}

/// Where a core goes on once a placing mark is settled.
#[derive(Clone, Copy, PartialEq, Eq, Debug)]
pub enum Then {
    /// Look at this word again.
    Look(u64),
    /// Its own mark is placed: go on to the next entry.
    Next(Work),
    /// Try again to place its own mark.
    Try(Work, Entry, Mark),
    /// Go on to the swap that clears the entry.
    Clear(Work, Outcome, Entry),
}

/// The three steps of Clear.
#[derive(Clone, Copy, PartialEq, Eq, Debug)]
pub enum Clearing {
    /// Read the entry.
    Read,
    /// Load its word, to settle any placing mark there.
    Load(Entry),
    /// Swap the word from the operation's mark to a plain value.
    Swap(Entry),
}

/// The three steps of Settle.
#[derive(Clone, Copy, PartialEq, Eq, Debug)]
pub enum Settling {
    /// Read the contents of the placing mark.
    Read,
    /// Read the state of the operation that the contents name.
    State(Placing),
    /// Swap the word from the placing mark; `true` where that operation was read undecided. The contents stand in both cases.
    Swap(Placing, bool),
}

/// Where a core stands: the rule that its next step follows.
#[derive(Clone, Copy, PartialEq, Eq, Debug)]
pub enum Place {
    /// No operation.
    Idle,
    /// The operation is finished with this answer, which is not collected yet.
    Finished(u64),
    /// A read: load the word.
    Look(u64),
    /// Read the operation's state and count.
    Begin(Mark),
    /// Read the entry.
    Fetch(Work),
    /// Create the core's placing descriptor for the entry.
    Make(Work, Entry),
    /// Swap the entry's word from its expected value to the core's placing mark.
    Try(Work, Entry, Mark),
    /// Change the operation's state from undecided to the outcome.
    Decide(Work, Outcome),
    /// Take the operation's mark out of the entry's word.
    Clear(Work, Outcome, Clearing),
    /// Take a placing mark out of its word.
    Settle(Mark, Settling, Then),
}

/// What a core runs itself. Its home, the first place of that operation, follows from it. `Nothing` is one of three cases that are told apart
/// together: under an `Option` the other two would stand a layer deeper, and no method of an `Option` would be used.
#[derive(Clone, Copy, PartialEq, Eq, Debug)]
pub enum Own {
    Nothing,
    /// A read of this word.
    Read(u64),
    /// The k-CAS of this mark, M in the rules.
    List(Mark),
}

impl Own {
    /// Home: the first place of the operation.
    pub fn home(self) -> Place
        ensures { result ≡ home self }
    {
        match self {
            Own::Nothing => Place::Idle,
            Own::Read(word) => Place::Look(word),
            Own::List(mark) => Place::Begin(mark),
        }
    }
}
