ghost use Rattle.std.specs.Prelude.{◌≡◌, true};
ghost use Rattle.entries.specs.Lists.{holds};

mod methods;

use super::Entry;
pub use methods::law_stands;

/// A lawful list: 1 to 8 entries, their words strictly ascending, their values at most 2^61 - 1.
// No `Model`: a call of a history holds an `Entries`, which is lawful by its type. An array and a count,
// since the block is bounded and takes no memory.
#[derive(Clone, Copy)]
pub struct Entries {
    entries: [Entry; 8],
    count: u8,
    ghost fit: { holds entries count ≡ true },
}
