//! Which core of the table is meant.
ghost use Rattle.std.specs.Prelude.{◌≡◌, ◌<◌, ◌≤◌, MatchOption, MatchResult};
ghost use Rattle.model.specs.World.{core_at};
ghost use Rattle.machine.specs.Sight.{tabled};

use cores::table::{Core, Table};
use descriptor::Overtaken;
use word::Mark;

/// The number of a core that the table has room for.
#[derive(Clone, Copy)]
pub(crate) struct CoreIndex {
    pub number: u8,
    ghost room: { number < 8 },
}

impl CoreIndex {
    /// The core of this number, if there is room for one.
    pub fn new(number: u8) -> Option<CoreIndex>
        ensures { MatchOption result (8 ≤ number) (λ k. (k.number ≡ number) × (number < 8)) }
    {
        if number < 8 {
            Some(CoreIndex { number })
        } else {
            None
        }
    }

    /// The core that the mark was made for. A mark of no such core is overtaken.
    pub fn of(mark: Mark) -> Result<CoreIndex, Overtaken>
        ensures { MatchResult result (λ k. (k.number ≡ mark.core) × (mark.core < 8)) (λ e. 8 ≤ mark.core) }
    {
        CoreIndex::new(mark.core).ok_or(Overtaken)
    }

    /// Its place in the table.
    pub fn place(self) -> usize
        ensures is { result ≡ self.number }
        ensures room { result < 8 }
    {
        usize::from(self.number)
    }

    /// The core itself.
    pub fn core(self, table: &Table) -> &Core
        ensures { result.now ≡ core_at (tabled table.now) self.number }
    {
        &table.cores[self.place()]
    }
}
