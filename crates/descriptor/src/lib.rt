//! The reusable descriptor, a weak descriptor: contents of any type under a sequence number. Each creation takes the next
//! number and overtakes every earlier one. (Weak descriptors: Arbel-Raviv and Brown, DISC 2017.)

#![tactic(auto)]

ghost use Rattle.std.specs.Prelude.{◌≡◌, nat_le};
ghost use Rattle.descriptor.specs.Descriptors.{last_number, fresh, creation, created, seen, reading, change_answer, changed};
ghost use Rattle.descriptor.specs.Laws.{Laws};

mod contents;

pub use contents::{Decide, Operation, Outcome, Placing, State};

/// The contents of the newest creation, under the number that it took.
#[derive(Clone, Copy)]
pub struct Descriptor<T> {
    last: u64,
    contents: T,
}

/// The last number that a creation can take, 2^47 - 1.
pub const LAST_NUMBER: u64 = 140737488355327;

/// Every number is taken (refusal 12).
#[derive(Clone, Copy, PartialEq, Eq, Debug)]
pub struct UsedUp;

/// The number is not that of the newest creation.
#[derive(Clone, Copy, PartialEq, Eq, Debug)]
pub struct Overtaken;

/// A change of contents in place. It is no closure: its ghost member is the function that it makes, so that what a change leaves is an
/// equation, and nothing is required of a caller.
pub trait Change<T> {
    ghost changes: { Self → T → T };

    fn apply(self, contents: &mut T)
        ensures { contents.new ≡ changes self contents.old };
}

impl<T> Descriptor<T> {
    /// A descriptor of which nothing is created yet. The first creation takes the number `first`.
    pub fn new(first: u64, contents: T) -> Descriptor<T>
        ensures { result ≡ fresh first contents }
    {
        Descriptor {
            last: first.saturating_sub(1),
            contents,
        }
    }

    /// The contents, if the number is that of the newest creation.
    pub fn read(&self, number: u64) -> Result<&T, Overtaken>
        ensures { seen result ≡ reading self.now number }
    {
        if number == self.last {
            Ok(&self.contents)
        } else {
            Err(Overtaken)
        }
    }

    /// Whether every number is taken, so that a creation would be refused.
    pub fn is_used_up(&self) -> bool
        ensures { result ≡ nat_le last_number self.now.last }
    {
        LAST_NUMBER <= self.last
    }

    /// Makes the change, if the number is that of the newest creation.
    pub fn change<C: Change<T> + Drop>(&mut self, number: u64, change: C) -> Result<(), Overtaken>
        ensures answer { result ≡ change_answer self.old number }
        ensures after { self.new ≡ changed (C.Change.changes change) self.old number }
    {
        if number != self.last {
            return Err(Overtaken);
        }
        change.apply(&mut self.contents);
        Ok(())
    }

    /// The laws of descriptors, for contents of any type: what each creation, read and change means for the others.
    pub fn laws_stand()
        ensures { Laws T }
    {}
}

impl<T: Drop> Descriptor<T> {
    /// Takes the next number and puts in whole new contents, unless every number is taken.
    pub fn create(&mut self, contents: T) -> Result<u64, UsedUp>
        ensures answer { result ≡ creation self.old }
        ensures after { self.new ≡ created self.old contents }
    {
        if self.last >= LAST_NUMBER {
            return Err(UsedUp);
        }
        self.last += 1;
        self.contents = contents;
        Ok(self.last)
    }
}

#[cfg(test)]
mod tests {
    use super::*;
    use std::test::Fail;

    #[test]
    fn the_last_number_is_taken_once(rt: HostRuntime) -> Result<(), Fail> {
        let mut kept = Descriptor::new(LAST_NUMBER, 5u8);
        assert_eq!(rt; kept.create(6)?, LAST_NUMBER);
        assert!(rt; kept.create(7).is_err());
        assert_eq!(rt; *kept.read(LAST_NUMBER)?, 6);
        Ok(())
    }

    #[test]
    fn overtaken_alters_nothing(rt: HostRuntime) -> Result<(), Fail> {
        let mut kept = Descriptor::new(1, Operation::new(None));
        let first = kept.create(Operation::new(None))?;
        let second = kept.create(Operation::new(None))?;
        let success = Decide {
            outcome: Outcome::Succeeded,
        };
        assert!(rt; kept.read(first).is_err());
        assert!(rt; kept.change(first, success).is_err());
        assert_eq!(rt; kept.read(second)?.state(), None);
        Ok(())
    }

    #[test]
    fn a_decided_state_stays(rt: HostRuntime) -> Result<(), Fail> {
        let mut kept = Descriptor::new(1, Operation::new(None));
        let number = kept.create(Operation::new(None))?;
        kept.change(
            number,
            Decide {
                outcome: Outcome::Failed(3),
            },
        )?;
        kept.change(
            number,
            Decide {
                outcome: Outcome::Succeeded,
            },
        )?;
        assert_eq!(rt; kept.read(number)?.state(), Some(Outcome::Failed(3)));
        Ok(())
    }
}
