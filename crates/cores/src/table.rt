//! The core table, what a machine is opened with, and the refusals.
use super::place::{Own, Place};
use descriptor::{Descriptor, Operation, Placing};

/// One core: where it stands, what it runs, whether it is halted, and its two descriptors.
#[derive(Clone, Copy)]
pub struct Core {
    pub place: Place,
    pub own: Own,
    pub halted: bool,
    pub operation: Descriptor<Operation>,
    pub placing: Descriptor<Placing>,
}

/// All that a machine keeps beside its bank.
#[derive(Clone, Copy)]
pub struct Table {
    /// Whether the machine is open. A closed machine has a table too, of zeros: under an `Option` each definition that reads one of its
    /// fields would tell the two cases apart.
    pub running: bool,
    /// How many cores there are, of the eight: a fixed array, since the block is bounded and takes no memory.
    pub count: u8,
    /// How many words are protected, from word 0 up.
    pub protected: u64,
    /// Bit k is set where core k has the right to protected words.
    pub rights: u8,
    pub cores: [Core; 8],
}

/// What a machine is opened with.
#[derive(Clone, Copy, PartialEq, Eq, Debug)]
pub struct Setting {
    pub cores: u8,
    /// The first sequence number, of both kinds on every core.
    pub first: u64,
    /// How many words are protected, from word 0 up.
    pub protected: u64,
    /// Bit k is set where core k has the right to protected words.
    pub rights: u8,
}

/// Why a call is refused, in the order in which the refusals are tested.
#[derive(Clone, Copy, PartialEq, Eq, Debug)]
pub enum Refusal {
    Closed,
    Open,
    Setting,
    /// The first word that is not plain at opening.
    Tagged(u64),
    NoCore,
    Halted,
    Busy,
    AtRest,
    List,
    NoWord,
    NoRight,
    UsedUp,
    NoAnswer,
    /// The place of a run file's fault.
    File(u64),
}
