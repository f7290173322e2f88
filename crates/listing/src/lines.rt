//! The lines of a listing.
ghost use Rattle.std.specs.Prelude.{Some};
ghost use Rattle.listing.specs.Lines.{refusal_text, opening_line, answer_text, call_line, words_line, fault_line};

use cores::table::Refusal;
use runfile::file::{Call, Fault};
use std::fmt;

/// A refusal, as a line has it.
#[derive(Clone, Copy)]
struct Refused(Refusal);

impl fmt::Display for Refused {
    ghost output = { λ x. Some (refusal_text x.0) };

    fn fmt<W: fmt::Write>(&self, f: &mut fmt::Formatter<W>) -> fmt::Result {
        write!(f, "r{}", self.0.number())
    }
}

/// What a call answered, as a line has it.
#[derive(Clone, Copy)]
struct Answer(Result<u64, Refusal>);

impl fmt::Display for Answer {
    ghost output = { λ x. Some (answer_text x.0) };

    fn fmt<W: fmt::Write>(&self, f: &mut fmt::Formatter<W>) -> fmt::Result {
        match self.0 {
            Ok(value) => write!(f, "{value}"),
            Err(refusal) => write!(f, "{}", Refused(refusal)),
        }
    }
}

/// The line of an opening.
#[derive(Clone, Copy)]
pub struct OpeningLine(pub Result<(), Refusal>);

impl fmt::Display for OpeningLine {
    ghost output = { λ x. Some (opening_line x.0) };

    fn fmt<W: fmt::Write>(&self, f: &mut fmt::Formatter<W>) -> fmt::Result {
        match self.0 {
            Ok(()) => write!(f, "o 0"),
            Err(refusal) => write!(f, "o {}", Refused(refusal)),
        }
    }
}

/// The line of a call.
#[derive(Clone, Copy)]
pub struct CallLine {
    pub call: Call,
    pub answer: Result<u64, Refusal>,
}

impl fmt::Display for CallLine {
    ghost output = { λ x. Some (call_line x.call x.answer) };

    #[tactic(auto, using(crate::proofs::Letters::encode_letter))]
    fn fmt<W: fmt::Write>(&self, f: &mut fmt::Formatter<W>) -> fmt::Result {
        write!(
            f,
            "{} {} {}",
            char::from(u8::from(self.call.action)),
            self.call.core,
            Answer(self.answer)
        )
    }
}

/// The line of the words' values.
#[derive(Clone, Copy)]
pub struct WordsLine<'a>(pub &'a [u64]);

impl fmt::Display for WordsLine<'_> {
    ghost output = { λ x. Some (words_line x.0.now) };

    fn fmt<W: fmt::Write>(&self, f: &mut fmt::Formatter<W>) -> fmt::Result {
        write!(f, "w")?;
        for value in self.0 {
            write!(f, " {value}")?;
        }
        Ok(())
    }
}

/// The line of a faulty file, which `Fault::At` prints; the lines of a listing have their types here.
#[derive(Clone, Copy)]
pub struct FaultLine {
    pub place: usize,
}

impl fmt::Display for FaultLine {
    ghost output = { λ x. Some (fault_line x.place) };

    fn fmt<W: fmt::Write>(&self, f: &mut fmt::Formatter<W>) -> fmt::Result {
        write!(f, "{}", Fault::At(self.place))
    }
}
