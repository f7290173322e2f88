ghost use Rattle.std.specs.Prelude.{◌≡◌, Some};
ghost use Rattle.runfile.specs.Format.{letter, used_by};
ghost use Rattle.runfile.specs.Reading.{Decodes, fault_text};

use entries::Entry;
use std::error::Error;
use std::fmt;

/// What a start is to run: a read of one word, or a k-CAS over a list of 1 to 8 entries.
#[derive(Drop)]
pub enum Record {
    Read(u16),
    List(Vec<Entry>),
}

/// What a call asks of its core.
#[derive(Clone, Copy, Debug, PartialEq, Eq)]
pub enum Action {
    /// Start with the next record.
    Start,
    Step,
    Collect,
    Halt,
}

impl Action {
    /// How many records a call with this action uses up.
    pub fn records_used(self) -> usize
        ensures { result ≡ used_by self }
    {
        match self {
            Action::Start => 1,
            _ => 0,
        }
    }
}

/// A byte that is no action's letter.
#[derive(Clone, Copy, Debug, PartialEq, Eq)]
pub struct UnknownLetter(pub u8);

impl TryFrom<u8> for Action {
    type Error = UnknownLetter;

    ghost try_from_gives = { Decodes };

    fn try_from(letter: u8) -> Result<Action, UnknownLetter> {
        match letter {
            b'b' => Ok(Action::Start),
            b's' => Ok(Action::Step),
            b'c' => Ok(Action::Collect),
            b'h' => Ok(Action::Halt),
            _ => Err(UnknownLetter(letter)),
        }
    }
}

impl From<Action> for u8 {
    ghost from_gives = { λ action r. r ≡ letter action };

    fn from(action: Action) -> u8 {
        match action {
            Action::Start => b'b',
            Action::Step => b's',
            Action::Collect => b'c',
            Action::Halt => b'h',
        }
    }
}

#[derive(Clone, Copy, Debug, PartialEq, Eq)]
pub struct Call {
    pub action: Action,
    pub core: u8,
}

/// How the machine is to be opened.
#[derive(Clone, Copy, Debug, PartialEq, Eq)]
pub struct Setting {
    /// The number of words in the bank.
    pub words: u16,
    pub cores: u8,
    /// A bit for each core that has the right to protected words.
    pub rights: u8,
    /// How many words are protected, from word 0 up.
    pub protected: u16,
    /// The first sequence number.
    pub first: u32,
}

/// A sound run file.
#[derive(Drop)]
pub struct RunFile {
    pub records: Vec<Record>,
    pub calls: Vec<Call>,
    pub setting: Setting,
}

/// Why a run file was not read.
#[derive(Clone, Copy, Debug, PartialEq, Eq)]
pub enum Fault {
    /// The place, in bytes from the start, of the first offender.
    At(usize),
    /// There was no memory for the records or the calls.
    Memory,
}

impl fmt::Display for Fault {
    ghost output = { λ fault. Some (fault_text fault) };

    fn fmt<W: fmt::Write>(&self, f: &mut fmt::Formatter<W>) -> fmt::Result {
        match self {
            Fault::At(place) => write!(f, "f {place}"),
            Fault::Memory => write!(f, "no memory for the run file"),
        }
    }
}

impl Error for Fault {}
