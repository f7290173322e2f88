//! What the one access of a step saw.
use descriptor::{Overtaken, Placing, State, UsedUp};
use entries::Entry;
use word::{Mark, Word};

/// What a step's access saw, and no more than its rule reads.
#[derive(Clone, Copy)]
pub enum Seen {
    /// Nothing: a core at rest makes no access.
    Nothing,
    /// A word, loaded or found by a swap, if the bank has it.
    Word(Option<Word>),
    /// An operation's state and count.
    Operation(Result<(State, u8), Overtaken>),
    /// One entry of an operation, if it has that many.
    Entry(Result<Option<Entry>, Overtaken>),
    /// An operation's state.
    State(Result<State, Overtaken>),
    /// A placing's contents.
    Placing(Result<Placing, Overtaken>),
    /// The mark that a creation made.
    Made(Result<Mark, UsedUp>),
}
