//! The two kinds of contents: what a k-CAS or a read keeps in its descriptor, and what a DCSS keeps.
ghost use Rattle.std.specs.Prelude.{◌≡◌, ◌==◌};
ghost use Rattle.std.specs.List.{find};
ghost use Rattle.std.specs.Option.{option_map, unwrap_or};
ghost use Rattle.descriptor.specs.Contents.{undecided, count_of, entry_in, value_by, value_in, decided, with_outcome, DecidedOnce};

use super::Change;
use entries::{Entries, Entry};
use word::Mark;

/// What an operation is decided to: success, or failure at the entry of an index, counted from 0. It is no `Result`: a k-CAS that fails
/// is no error of a call, and the rules say the two words.
#[derive(Clone, Copy, PartialEq, Eq, Debug)]
pub enum Outcome {
    Succeeded,
    Failed(u8),
}

/// How far an operation is: what it is decided to, and nothing while it is undecided.
pub type State = Option<Outcome>;

/// An operation's contents: its entries, which a read has none of, and its state.
#[derive(Clone, Copy)]
pub struct Operation {
    list: Option<Entries>,
    state: State,
}

/// A placing's contents: the operation that it is made for, and the word with the value expected there.
#[derive(Clone, Copy, PartialEq, Eq, Debug)]
pub struct Placing {
    pub operation: Mark,
    pub word: u64,
    pub expected: u64,
}

impl Operation {
    /// An operation that is not yet decided.
    pub fn new(list: Option<Entries>) -> Operation
        ensures { result ≡ undecided list }
    {
        Operation { list, state: None }
    }

    /// The number of entries, 0 for a read.
    pub fn count(&self) -> u8
        ensures { result ≡ count_of self.now.list }
    {
        match &self.list {
            // Proved to fit: a list has 8 entries at most.
            Some(list) => list.len() as u8,
            None => 0,
        }
    }

    /// The entry at `i`, if there are that many.
    pub fn entry(&self, i: u8) -> Option<Entry>
        ensures { result ≡ entry_in self.now.list i }
    {
        self.list.as_ref()?.get(usize::from(i))
    }

    /// The state.
    pub fn state(&self) -> State
        ensures { result ≡ self.now.state }
    {
        self.state
    }

    /// What the operation gives the word that one of its entries names: that entry's new value where it succeeded, and otherwise its
    /// expected value. It gives 0 where no entry names the word.
    pub fn value_at(&self, word: u64) -> u64
        ensures { result ≡ value_in self.now word }
    {
        let Some(list) = &self.list else {
            return 0;
        };
        value_among(self.state, list.as_slice(), word)
    }

    /// An operation is decided once, and its state never changes again.
    pub fn law_stands()
        ensures { DecidedOnce }
    {}
}

impl Outcome {
    /// The state after a decision to this outcome: only one that is undecided takes it.
    pub fn decide(self, state: State) -> State
        ensures { result ≡ decided state self }
    {
        state.or(Some(self))
    }
}

/// What the entry that names the word gives it; 0 where none does.
fn value_among(state: State, entries: &[Entry], word: u64) -> u64
    ensures { result ≡ unwrap_or (option_map (value_by state) (find (λ (e : Entry). e.word == word) entries.now)) 0 }
{
    entries
        .iter()
        .find(|entry| entry.word == word)
        .map_or(0, |entry| value_by(state, *entry))
}

/// What the entry gives its word in this state.
fn value_by(state: State, entry: Entry) -> u64
    ensures { result ≡ value_by state entry }
{
    match state {
        Some(Outcome::Succeeded) => entry.new,
        None | Some(Outcome::Failed(_)) => entry.expected,
    }
}

/// The change that decides an operation, unless it is decided.
#[derive(Clone, Copy, PartialEq, Eq, Debug)]
pub struct Decide {
    pub outcome: Outcome,
}

impl Change<Operation> for Decide {
    ghost changes = { λ d o. with_outcome o d.outcome };

    fn apply(self, contents: &mut Operation) {
        contents.state = self.outcome.decide(contents.state);
    }
}
