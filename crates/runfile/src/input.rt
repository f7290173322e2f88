//! The bytes of a run file, from where they stand.
ghost use Rattle.std.specs.Prelude.{◌≡◌, ◌+◌, IfOk, IfSome, take};
ghost use Rattle.runfile.specs.declared.reader.TheConstants.{MOST_BYTES};

use super::reader::MOST_BYTES;
use std::alloc::Global;
use std::io;
use std::io::Read;

/// What the input has left, up to one byte more than a run file may have: one too many shows that it is too long.
pub fn bytes_of<R: Read + Drop>(alloc: Global, input: R) -> io::Result<Vec<u8>>
    ensures { IfOk result (λ v. IfSome (R.remaining input) (λ bs. v.items ≡ take (MOST_BYTES + 1) bs)) }
{
    let mut bytes = Vec::new(alloc);
    // From `usize` to `u64` there is no `From`.
    input.take(MOST_BYTES as u64 + 1).read_to_end(&mut bytes)?;
    Ok(bytes)
}
