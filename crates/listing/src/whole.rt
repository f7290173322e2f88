//! The whole listing.
ghost use Rattle.std.specs.Prelude.{◌≡◌, IfOk};
ghost use Rattle.listing.specs.Listing.{listing};

use super::lines::{OpeningLine, WordsLine};
use super::pushes::Text;
use cores::table::Refusal;
use runfile::file::Call;
use std::alloc::{AllocError, Global};

/// The bytes set aside for a call's line. Most have 6, and the longest of a refused call 10: letter, core, refusal, two spaces and the newline.
const LINE_ROOM: usize = 10;

/// What a run answered: its opening, its calls with their answers in order, and the words at its end.
/// The calls stand in the file and the answers come from the run, so they are two slices, and neither is copied.
#[derive(Clone, Copy)]
pub struct Listing<'a> {
    pub opened: Result<(), Refusal>,
    pub calls: &'a [Call],
    pub answers: &'a [Result<u64, Refusal>],
    pub words: &'a [u64],
}

impl Listing<'_> {
    /// The bytes of the listing's text, unless memory is wanting.
    pub fn bytes(&self, alloc: Global) -> Result<Vec<u8>, AllocError>
        ensures { IfOk result (λ v. v.items ≡ listing self.now.opened self.now.calls.now self.now.answers.now self.now.words.now) }
    {
        let room = self.answers.len().saturating_mul(LINE_ROOM);
        let mut text = Text::with_room(alloc, room)?;
        text.push_line(OpeningLine(self.opened))?;
        if self.opened.is_ok() {
            text.push_calls(self.calls, self.answers)?;
            text.push_line(WordsLine(self.words))?;
        }
        Ok(text.bytes)
    }
}
