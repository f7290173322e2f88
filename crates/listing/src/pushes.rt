//! The bytes of a listing, made line by line.
ghost use Rattle.std.specs.Prelude.{◌≡◌, ◌<◌, ◌++◌, [], Ok, OnOk, IfOk, IfSome, decimal};
ghost use Rattle.listing.specs.Lines.{call_line, called, refusal_text};
ghost use Rattle.listing.specs.Listing.{Adds, ended, call_lines};

use cores::table::Refusal;
use runfile::file::Call;
use std::alloc::{AllocError, Global};
use std::fmt::Display;

/// The line of a call whose core and answer have one digit each.
#[tactic(auto, using(std::proofs::lemmas::Fmt::decimal_digit))]
fn short_line(call: Call, value: u64) -> [u8; 6]
    requires { (call.core < 10) × (value < 10) }
    ensures { result ≡ ended (call_line call (Ok value)) }
{
    // `value as u8` is proved to fit.
    [
        u8::from(call.action),
        b' ',
        b'0' + call.core,
        b' ',
        b'0' + value as u8,
        b'\n',
    ]
}

/// A number in decimal.
fn push_number(text: &mut Vec<u8>, n: u64) -> Result<(), AllocError>
    ensures { Adds result text.old.items (decimal n) text.new.items }
{
    if n >= 10 {
        push_number(text, n / 10)?;
    }
    // Proved to fit.
    text.push(b'0' + (n % 10) as u8)?;
    Ok(())
}

/// A call's letter and core, as its line begins.
fn push_called(text: &mut Vec<u8>, call: Call) -> Result<(), AllocError>
    ensures { Adds result text.old.items (called call) text.new.items }
{
    text.extend_from_slice(&[u8::from(call.action), b' '])?;
    push_number(text, u64::from(call.core))?;
    text.push(b' ')?;
    Ok(())
}

/// A refusal, which ends a line.
fn push_refusal(text: &mut Vec<u8>, refusal: Refusal) -> Result<(), AllocError>
    ensures { Adds result text.old.items (ended (refusal_text refusal)) text.new.items }
{
    text.push(b'r')?;
    push_number(text, refusal.number())?;
    text.push(b'\n')?;
    Ok(())
}

/// The bytes so far, and the text that a line is written into before it is put after them.
#[derive(Drop)]
pub(crate) struct Text {
    pub bytes: Vec<u8>,
    line: String,
}

impl Text {
    /// No bytes yet, and room for so many.
    pub fn with_room(alloc: Global, room: usize) -> Result<Text, AllocError>
        ensures { IfOk result (λ t. t.bytes.items ≡ []) }
    {
        Ok(Text {
            bytes: Vec::with_capacity(alloc, room)?,
            line: String::new(alloc),
        })
    }

    /// A line with its newline.
    pub fn push_line<L: Display + Drop>(&mut self, line: L) -> Result<(), AllocError>
        ensures { OnOk result (IfSome (L.output line) (λ bs. self.new.bytes.items ≡ self.old.bytes.items ++ ended bs)) }
    {
        self.line.clear();
        writeln!(self.line, "{line}")?;
        self.bytes.extend_from_slice(self.line.as_bytes())
    }

    /// The line of any call.
    fn push_any_call(&mut self, call: Call, answer: Result<u64, Refusal>) -> Result<(), AllocError>
        ensures { Adds result self.old.bytes.items (ended (call_line call answer)) self.new.bytes.items }
    {
        push_called(&mut self.bytes, call)?;
        match answer {
            Ok(value) => self.push_line(value),
            Err(refusal) => push_refusal(&mut self.bytes, refusal),
        }
    }

    /// The line of a call. Most have one digit for the core and one for the answer, and are put there at once.
    fn push_call(&mut self, call: Call, answer: Result<u64, Refusal>) -> Result<(), AllocError>
        ensures { Adds result self.old.bytes.items (ended (call_line call answer)) self.new.bytes.items }
    {
        // Tried: with every line by `Display` the largest run file takes 1.65 times the plain program's time, and with all but the short ones a file
        // of refused calls 2.1 times, over the bar of 1.5.
        match answer {
            Ok(value) if value < 10 && call.core < 10 => {
                self.bytes.extend_from_slice(&short_line(call, value))
            }
            _ => self.push_any_call(call, answer),
        }
    }

    /// The lines of the calls that have an answer.
    pub fn push_calls(
        &mut self,
        calls: &[Call],
        answers: &[Result<u64, Refusal>],
    ) -> Result<(), AllocError>
        ensures { Adds result self.old.bytes.items (call_lines calls.now answers.now) self.new.bytes.items }
    {
        for (call, answer) in calls.iter().zip(answers) {
            self.push_call(*call, *answer)?;
        }
        Ok(())
    }
}
