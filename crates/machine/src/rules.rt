//! Where a core goes from its place, by what the access there saw. The rules are a closed set: each function takes what its definition
//! takes, and matches where that matches.
ghost use Rattle.std.specs.Prelude.{◌≡◌, cond, Some, None};
ghost use Rattle.model.specs.Rules.{has_more, entry_after, next_entry, after_look, after_begin, after_try, after_decide, after_clear_load, answer_of, after_last, after_clear_swap, resume};
ghost use Rattle.machine.specs.Next.{clear_next, settle_next, next_place};

use super::seen::Seen;
use cores::place::{Clearing, Own, Place, Settling, Then, Work};
use descriptor::{Outcome, Overtaken, State};
use entries::Entry;
use word::{Mark, Word};

/// The work on the entry after this one, if there is one.
fn entry_after(work: Work) -> Option<Work>
    ensures { result ≡ cond (has_more work) (Some (entry_after work)) None }
{
    if work.index < work.count && work.count - work.index > 1 {
        Some(Work {
            index: work.index + 1,
            ..work
        })
    } else {
        None
    }
}

/// Next: the next entry, or success after the last one.
fn advance(work: Work) -> Place
    ensures { result ≡ next_entry work }
{
    match entry_after(work) {
        Some(next) => Place::Fetch(next),
        None => Place::Decide(work, Outcome::Succeeded),
    }
}

/// Where a core goes on after a Settle.
fn go_on(then: Then) -> Place
    ensures { result ≡ resume then }
{
    match then {
        Then::Look(at) => Place::Look(at),
        Then::Next(work) => advance(work),
        Then::Try(work, entry, mark) => Place::Try(work, entry, mark),
        Then::Clear(work, outcome, entry) => Place::Clear(work, outcome, Clearing::Swap(entry)),
    }
}

fn looked(at: u64, word: Word) -> Place
    ensures { result ≡ after_look at word }
{
    match word {
        Word::Plain(value) => Place::Finished(value),
        Word::Placing(mark) => Place::Settle(mark, Settling::Read, Then::Look(at)),
        Word::Operation(mark) => Place::Begin(mark),
        Word::Foreign(_) => Place::Look(at),
    }
}

fn begun(operation: Mark, state: State, count: u8) -> Place
    ensures { result ≡ after_begin operation count state }
{
    let work = Work {
        operation,
        index: 0,
        count,
    };
    match state {
        None => Place::Fetch(work),
        Some(outcome) => Place::Clear(work, outcome, Clearing::Read),
    }
}

fn tried(work: Work, entry: Entry, mine: Mark, word: Word) -> Place
    ensures { result ≡ after_try work entry mine word }
{
    match word {
        Word::Plain(value) => {
            if value == entry.expected {
                Place::Settle(mine, Settling::Read, Then::Next(work))
            } else {
                Place::Decide(work, Outcome::Failed(work.index))
            }
        }
        Word::Placing(mark) => Place::Settle(mark, Settling::Read, Then::Try(work, entry, mine)),
        Word::Operation(mark) => {
            if mark == work.operation {
                advance(work)
            } else {
                Place::Begin(mark)
            }
        }
        Word::Foreign(_) => Place::Try(work, entry, mine),
    }
}

fn decided(work: Work, outcome: Outcome) -> Place
    ensures { result ≡ after_decide work outcome }
{
    Place::Clear(Work { index: 0, ..work }, outcome, Clearing::Read)
}

fn cleared_load(work: Work, outcome: Outcome, entry: Entry, word: Word) -> Place
    ensures { result ≡ after_clear_load work outcome entry word }
{
    match word {
        Word::Placing(mark) => Place::Settle(
            mark,
            Settling::Read,
            Then::Clear(work, outcome, entry),
        ),
        _ => Place::Clear(work, outcome, Clearing::Swap(entry)),
    }
}

/// An outcome as collect answers it. It is no `From`: an outcome is a number in that one answer only.
fn answer(outcome: Outcome) -> u64
    ensures { result ≡ answer_of outcome }
{
    match outcome {
        Outcome::Succeeded => 0,
        Outcome::Failed(index) => u64::from(index) + 1,
    }
}

/// After the last entry the core finishes if the operation is its own, and otherwise goes home.
fn ended(operation: Mark, outcome: Outcome, own: Own) -> Place
    ensures { result ≡ after_last operation outcome own }
{
    match own {
        Own::List(mine) if mine == operation => Place::Finished(answer(outcome)),
        own => own.home(),
    }
}

fn cleared_swap(work: Work, outcome: Outcome, own: Own) -> Place
    ensures { result ≡ after_clear_swap work outcome own }
{
    match entry_after(work) {
        Some(next) => Place::Clear(next, outcome, Clearing::Read),
        None => ended(work.operation, outcome, own),
    }
}

/// The three steps of Clear.
fn cleared(work: Work, outcome: Outcome, clearing: Clearing, own: Own, seen: Seen) -> Place
    ensures { result ≡ clear_next work outcome clearing own seen }
{
    match (clearing, seen) {
        (Clearing::Read, Seen::Entry(Ok(Some(entry)))) => {
            Place::Clear(work, outcome, Clearing::Load(entry))
        }
        (Clearing::Read, Seen::Entry(Err(Overtaken))) => own.home(),
        (Clearing::Load(entry), Seen::Word(Some(word))) => cleared_load(work, outcome, entry, word),
        (Clearing::Swap(_), Seen::Word(Some(_))) => cleared_swap(work, outcome, own),
        (clearing, _) => Place::Clear(work, outcome, clearing),
    }
}

/// The three steps of Settle.
fn settled(mark: Mark, settling: Settling, then: Then, seen: Seen) -> Place
    ensures { result ≡ settle_next mark settling then seen }
{
    match (settling, seen) {
        (Settling::Read, Seen::Placing(Ok(placing))) => {
            Place::Settle(mark, Settling::State(placing), then)
        }
        (Settling::Read, Seen::Placing(Err(Overtaken))) => go_on(then),
        (Settling::State(placing), Seen::State(Ok(state))) => {
            Place::Settle(mark, Settling::Swap(placing, state.is_none()), then)
        }
        (Settling::State(placing), Seen::State(Err(Overtaken))) => {
            Place::Settle(mark, Settling::Swap(placing, false), then)
        }
        (Settling::Swap(_, _), Seen::Word(Some(_))) => go_on(then),
        (settling, _) => Place::Settle(mark, settling, then),
    }
}

/// Where a core goes from its place, by what the access there saw.
pub fn next(place: Place, own: Own, seen: Seen) -> Place
    ensures { result ≡ next_place place own seen }
{
    match (place, seen) {
        (Place::Look(at), Seen::Word(Some(word))) => looked(at, word),
        (Place::Begin(mark), Seen::Operation(Ok((state, count)))) => begun(mark, state, count),
        (Place::Begin(_), Seen::Operation(Err(Overtaken))) => own.home(),
        (Place::Fetch(work), Seen::Entry(Ok(Some(entry)))) => Place::Make(work, entry),
        (Place::Fetch(_), Seen::Entry(Err(Overtaken))) => own.home(),
        (Place::Make(work, entry), Seen::Made(Ok(mark))) => Place::Try(work, entry, mark),
        (Place::Try(work, entry, mine), Seen::Word(Some(word))) => tried(work, entry, mine, word),
        (Place::Decide(work, outcome), Seen::State(Ok(state))) => {
            decided(work, state.unwrap_or(outcome))
        }
        (Place::Decide(_, _), Seen::State(Err(Overtaken))) => own.home(),
        (Place::Clear(work, outcome, clearing), seen) => {
            cleared(work, outcome, clearing, own, seen)
        }
        (Place::Settle(mark, settling, then), seen) => settled(mark, settling, then, seen),
        (place, _) => place,
    }
}
