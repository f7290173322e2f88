//! Examples of each line, and of a whole listing.
use super::lines::{CallLine, FaultLine, OpeningLine, WordsLine};
use super::whole::Listing;
use cores::table::Refusal;
use runfile::file::{Action, Call};
use std::test::Fail;

#[test]
fn openings(rt: HostRuntime) -> Result<(), Fail> {
    let table: [(Result<(), Refusal>, &str); 15] = [
        (Ok(()), "o 0"),
        (Err(Refusal::Closed), "o r1"),
        (Err(Refusal::Open), "o r2"),
        (Err(Refusal::Setting), "o r3"),
        (Err(Refusal::Tagged(7)), "o r4"),
        (Err(Refusal::NoCore), "o r5"),
        (Err(Refusal::Halted), "o r6"),
        (Err(Refusal::Busy), "o r7"),
        (Err(Refusal::AtRest), "o r8"),
        (Err(Refusal::List), "o r9"),
        (Err(Refusal::NoWord), "o r10"),
        (Err(Refusal::NoRight), "o r11"),
        (Err(Refusal::UsedUp), "o r12"),
        (Err(Refusal::NoAnswer), "o r13"),
        (Err(Refusal::File(9)), "o r14"),
    ];
    for (opened, line) in table {
        let text = OpeningLine(opened).to_string(rt.alloc())?;
        assert_eq!(rt; text.as_str(), line);
    }
    Ok(())
}

#[test]
fn calls_words_and_faults(rt: HostRuntime) -> Result<(), Fail> {
    let table: [(Action, u8, Result<u64, Refusal>, &str); 6] = [
        (Action::Start, 0, Ok(1), "b 0 1"),
        (Action::Step, 0, Ok(0), "s 0 0"),
        (Action::Step, 255, Ok(1), "s 255 1"),
        (Action::Step, 0, Err(Refusal::AtRest), "s 0 r8"),
        (Action::Collect, 0, Ok(0), "c 0 0"),
        (Action::Halt, 7, Ok(0), "h 7 0"),
    ];
    for (action, core, answer, line) in table {
        let call = Call { action, core };
        let text = CallLine { call, answer }.to_string(rt.alloc())?;
        assert_eq!(rt; text.as_str(), line);
    }
    let words = WordsLine(&[5, 0]).to_string(rt.alloc())?;
    assert_eq!(rt; words.as_str(), "w 5 0");
    let fault = FaultLine { place: 0 }.to_string(rt.alloc())?;
    assert_eq!(rt; fault.as_str(), "f 0");
    Ok(())
}

#[test]
fn whole_listings(rt: HostRuntime) -> Result<(), Fail> {
    let start = Call {
        action: Action::Start,
        core: 0,
    };
    let step = Call {
        action: Action::Step,
        core: 0,
    };
    let run = Listing {
        opened: Ok(()),
        calls: &[start, step, step],
        answers: &[Ok(1), Err(Refusal::UsedUp)],
        words: &[5, 18446744073709551615],
    };
    let text = run.bytes(rt.alloc())?;
    assert_eq!(rt;
        text.as_slice(),
        b"o 0\nb 0 1\ns 0 r12\nw 5 18446744073709551615\n".as_slice()
    );
    let refused = Listing {
        opened: Err(Refusal::Setting),
        ..run
    };
    assert_eq!(rt; refused.bytes(rt.alloc())?.as_slice(), b"o r3\n".as_slice());
    Ok(())
}
