//! Examples of the machine's calls, and of runs over each bank.

#![tactic(auto)]

#[cfg(test)]
mod tests {
    use bank::{Bank, ByteBank, Pair, Window, WordBank};
    use cores::table::{Refusal, Setting};
    use descriptor::LAST_NUMBER;
    use entries::{Entries, Entry};
    use machine::Machine;
    use machine::run::{NotRun, Request, run};
    use std::alloc::Global;
    use std::test::Fail;

    const SETTING: Setting = Setting {
        cores: 2,
        first: 1,
        protected: 0,
        rights: 0,
    };

    // The answer, or 100 and the refusal's number: one kind of value for the tables below.
    fn number(answer: Result<u64, Refusal>) -> u64 {
        match answer {
            Ok(value) => value,
            Err(refusal) => refusal.number().saturating_add(100),
        }
    }

    #[test]
    fn a_machine_not_open_refuses_every_call(rt: HostRuntime) {
        let mut words = [0u64; 2];
        let mut machine = Machine::over(WordBank::over(&mut words));
        assert_eq!(rt; number(machine.start(0, &Entries::new())), 101);
        assert_eq!(rt; number(machine.start_read(0, 0)), 101);
        assert_eq!(rt; number(machine.step(0)), 101);
        assert_eq!(rt; number(machine.collect(0)), 101);
        assert_eq!(rt; number(machine.halt(0)), 101);
        assert_eq!(rt; number(machine.shown(0)), 101);
        assert_eq!(rt; number(machine.raw(0)), 101);
        assert_eq!(rt; machine.into_bank().size(), 2);
    }

    // A list of two words, 0 to 5 and 0 to 6.
    fn list() -> Result<Entries, Fail> {
        let mut list = Entries::new();
        let five = Entry {
            word: 0,
            expected: 0,
            new: 5,
        };
        let six = Entry {
            word: 1,
            expected: 0,
            new: 6,
        };
        list.fill(&[five, six])?;
        Ok(list)
    }

    // The start of the list on core 0, twenty steps, a collect, and a read by core 1: the last four answers, and what two words hold.
    fn last_answers<B: Bank + Drop>(
        alloc: Global,
        bank: B,
        setting: Setting,
    ) -> Result<[u64; 6], Fail> {
        let list = list()?;
        let mut requests = [Request::Step(0); 24];
        requests[0] = Request::Start(0, Some(&list));
        requests[21] = Request::Collect(0);
        requests[22] = Request::Read(1, 1);
        requests[23] = Request::Step(1);
        let (_, ran) = run(alloc, bank, setting, &requests);
        match ran {
            Ok(report) => match (report.answers.as_slice(), report.words.as_slice()) {
                ([.., a, b, c, d], [v, w]) => Ok([
                    number(*a),
                    number(*b),
                    number(*c),
                    number(*d),
                    *v,
                    *w,
                ]),
                _ => Err(Fail::new("too few")),
            },
            Err(NotRun::Refused(refusal)) => Ok([number(Err(refusal)), 0, 0, 0, 0, 0]),
            Err(NotRun::Memory) => Err(Fail::new("no memory")),
        }
    }

    #[test]
    fn runs_over_each_bank(rt: HostRuntime) -> Result<(), Fail> {
        let same = [1, 0, 1, 1, 5, 6];
        let mut words = [0u64; 2];
        assert_eq!(rt;
            last_answers(rt.alloc(), WordBank::over(&mut words), SETTING)?,
            same
        );
        let mut bytes = [0u8; 19];
        assert_eq!(rt;
            last_answers(rt.alloc(), ByteBank::over(&mut bytes), SETTING)?,
            same
        );
        let mut more = [28u64, 0, 0, 3];
        let window = Window::over(WordBank::over(&mut more), 1, 2);
        assert_eq!(rt; last_answers(rt.alloc(), window, SETTING)?, same);
        let mut even = [0u64];
        let mut odd = [0u64, 3];
        let pair = Pair::over(WordBank::over(&mut even), WordBank::over(&mut odd));
        assert_eq!(rt; last_answers(rt.alloc(), pair, SETTING)?, same);
        assert_eq!(rt;
            (words[0], bytes[7], more[0], more[3], odd[0]),
            (20, 20, 28, 3, 24)
        );
        Ok(())
    }

    #[test]
    fn tagged_words_refuse_opening(rt: HostRuntime) -> Result<(), Fail> {
        let mut words = [28u64, 3];
        let bank = WordBank::over(&mut words);
        assert_eq!(rt; last_answers(rt.alloc(), bank, SETTING)?[0], 104);
        assert_eq!(rt; words, [28, 3]);
        Ok(())
    }

    // The second Make finds every number taken, and so does the read's start after it: core 0 is busy still, core 1 has its number.
    #[test]
    fn numbers_are_used_up(rt: HostRuntime) -> Result<(), Fail> {
        let mut words = [0u64; 2];
        let setting = Setting {
            first: LAST_NUMBER,
            ..SETTING
        };
        let answers = last_answers(rt.alloc(), WordBank::over(&mut words), setting)?;
        assert_eq!(rt; answers, [112, 113, LAST_NUMBER, 1, 0, 0]);
        Ok(())
    }
}
