//! What is done to one core's record.
ghost use Rattle.std.specs.Prelude.{◌≡◌, ◌+◌, Some, None};
ghost use Rattle.descriptor.specs.Descriptors.{reading, creation, created};
ghost use Rattle.cores.specs.declared.place.Own.TheVariants.{Read, List};
ghost use Rattle.cores.specs.Refusals.{refusal_in};
ghost use Rattle.cores.specs.Cores.{is_idle, is_finished, step_refused, new_core, with_place, with_own, with_placing, halted, collection, after_collect, after_start, after_decision, state_read, begin_read, entry_read, value_read};

use super::place::{Own, Place};
use super::table::{Core, Refusal};
use descriptor::{Decide, Descriptor, Operation, Outcome, Overtaken, Placing, State, UsedUp};
use entries::{Entries, Entry};
use word::Mark;

impl Core {
    /// A core before its first operation. Numbers of both kinds begin at `first`.
    pub fn new(first: u64) -> Core
        ensures { result ≡ new_core first }
    {
        let none = Placing {
            operation: Mark { core: 0, number: 0 },
            word: 0,
            expected: 0,
        };
        Core {
            place: Place::Idle,
            own: Own::Nothing,
            halted: false,
            operation: Descriptor::new(first, Operation::new(None)),
            placing: Descriptor::new(first, none),
        }
    }

    /// Whether the core has no operation.
    pub fn is_idle(&self) -> bool
        ensures { result ≡ is_idle self.now.place }
    {
        matches!(self.place, Place::Idle)
    }

    /// Whether its operation is finished, and the answer not collected yet.
    pub fn is_finished(&self) -> bool
        ensures { result ≡ is_finished self.now.place }
    {
        matches!(self.place, Place::Finished(_))
    }

    /// Whether a step of the core is granted. It is refused where the core is idle or finished, or a creation is due and every number is taken.
    pub fn may_step(&self) -> Result<(), Refusal>
        ensures { refusal_in result ≡ step_refused self.now }
    {
        match self.place {
            Place::Idle | Place::Finished(_) => Err(Refusal::AtRest),
            Place::Make(_, _) if self.placing.is_used_up() => Err(Refusal::UsedUp),
            _ => Ok(()),
        }
    }

    /// The core arrives at a place.
    pub fn arrive(&mut self, place: Place)
        ensures { self.new ≡ with_place self.old place }
    {
        self.place = place;
    }

    /// The core takes up an operation of its own, at its home.
    fn take_up(&mut self, own: Own)
        ensures { self.new ≡ with_own self.old own }
    {
        self.place = own.home();
        self.own = own;
    }

    /// Stops the core where it stands.
    pub fn halt(&mut self)
        ensures { self.new ≡ halted self.old }
    {
        self.halted = true;
    }

    /// Takes the answer of a finished core, which is idle then.
    pub fn collect(&mut self) -> Option<u64>
        ensures answer { result ≡ collection self.old }
        ensures after { self.new ≡ after_collect self.old }
    {
        let Place::Finished(value) = self.place else {
            return None;
        };
        self.take_up(Own::Nothing);
        Some(value)
    }

    /// Creates the placing descriptor anew.
    pub fn make(&mut self, contents: Placing) -> Result<u64, UsedUp>
        ensures answer { result ≡ creation self.old.placing }
        ensures after { self.new ≡ with_placing self.old (created self.old.placing contents) }
    {
        self.placing.create(contents)
    }

    /// The state and count of the operation of this number.
    pub fn operation(&self, number: u64) -> Result<(State, u8), Overtaken>
        ensures { result ≡ begin_read (reading self.now.operation number) }
    {
        let operation = self.operation.read(number)?;
        Ok((operation.state(), operation.count()))
    }

    /// Entry `i` of the operation of this number, if there are that many.
    pub fn entry(&self, number: u64, i: u8) -> Result<Option<Entry>, Overtaken>
        ensures { result ≡ entry_read i (reading self.now.operation number) }
    {
        Ok(self.operation.read(number)?.entry(i))
    }

    /// The state of the operation of this number.
    pub fn state(&self, number: u64) -> Result<State, Overtaken>
        ensures { result ≡ state_read (reading self.now.operation number) }
    {
        Ok(self.operation.read(number)?.state())
    }

    /// What the operation of this number gives a word that it names.
    pub fn value_at(&self, number: u64, word: u64) -> Result<u64, Overtaken>
        ensures { result ≡ value_read word (reading self.now.operation number) }
    {
        Ok(self.operation.read(number)?.value_at(word))
    }

    /// The contents of the placing of this number.
    pub fn placing(&self, number: u64) -> Result<Placing, Overtaken>
        ensures { result ≡ reading self.now.placing number }
    {
        Ok(*self.placing.read(number)?)
    }

    /// Decides the operation of this number, unless it is decided; answers the state that it had.
    pub fn decide(&mut self, number: u64, outcome: Outcome) -> Result<State, Overtaken>
        ensures answer { result ≡ state_read (reading self.old.operation number) }
        ensures after { self.new ≡ after_decision self.old number outcome }
    {
        let state = self.operation.read(number)?.state();
        self.operation.change(number, Decide { outcome })?;
        Ok(state)
    }

    /// Starts a list on core number `core`: its operation descriptor is created anew, and it stands at Begin of its own mark.
    pub fn start_list(&mut self, core: u8, list: Entries) -> Result<u64, UsedUp>
        ensures answer { result ≡ creation self.old.operation }
        ensures after { self.new ≡ after_start self.old (List (record { core = core; number = self.old.operation.last + 1 })) (Some list) }
    {
        let number = self.operation.create(Operation::new(Some(list)))?;
        self.take_up(Own::List(Mark { core, number }));
        Ok(number)
    }

    /// Starts a read of a word: an operation without entries is created, and the core stands at Look.
    pub fn start_read(&mut self, word: u64) -> Result<u64, UsedUp>
        ensures answer { result ≡ creation self.old.operation }
        ensures after { self.new ≡ after_start self.old (Read word) None }
    {
        let number = self.operation.create(Operation::new(None))?;
        self.take_up(Own::Read(word));
        Ok(number)
    }
}

#[cfg(test)]
mod tests {
    use super::*;
    use descriptor::LAST_NUMBER;
    use std::test::Fail;

    #[test]
    fn a_start_takes_the_first_number(rt: HostRuntime) -> Result<(), Fail> {
        let mut kept = Core::new(5);
        assert!(rt; kept.is_idle());
        assert_eq!(rt; kept.start_list(2, Entries::new())?, 5);
        assert!(rt; !kept.is_idle());
        assert!(rt; !kept.is_finished());
        assert_eq!(rt; kept.place, Place::Begin(Mark { core: 2, number: 5 }));
        Ok(())
    }

    #[test]
    fn an_idle_core_has_no_answer(rt: HostRuntime) {
        let mut kept = Core::new(1);
        assert_eq!(rt; kept.collect(), None);
        assert!(rt; kept.is_idle());
    }

    #[test]
    fn used_up_numbers_start_nothing(rt: HostRuntime) -> Result<(), Fail> {
        let mut kept = Core::new(LAST_NUMBER);
        assert_eq!(rt; kept.start_read(0)?, LAST_NUMBER);
        kept.arrive(Place::Finished(9));
        assert_eq!(rt; kept.collect(), Some(9));
        assert_eq!(rt; kept.start_read(0), Err(UsedUp));
        assert_eq!(rt; kept.start_list(0, Entries::new()), Err(UsedUp));
        assert!(rt; kept.is_idle());
        Ok(())
    }

    #[test]
    fn an_old_number_decides_nothing(rt: HostRuntime) -> Result<(), Fail> {
        let mut kept = Core::new(1);
        let old = kept.start_list(0, Entries::new())?;
        let newest = kept.start_list(0, Entries::new())?;
        assert_eq!(rt; kept.decide(old, Outcome::Succeeded), Err(Overtaken));
        assert_eq!(rt; kept.operation.read(newest)?.state(), None);
        Ok(())
    }

    #[test]
    fn the_first_outcome_stays(rt: HostRuntime) -> Result<(), Fail> {
        let mut kept = Core::new(1);
        let number = kept.start_list(0, Entries::new())?;
        kept.decide(number, Outcome::Failed(3))?;
        kept.decide(number, Outcome::Succeeded)?;
        assert_eq!(rt;
            kept.operation.read(number)?.state(),
            Some(Outcome::Failed(3))
        );
        Ok(())
    }
}
