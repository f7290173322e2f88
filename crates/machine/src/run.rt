//! A whole run: an opening, a list of calls, and a close.
ghost use Rattle.std.specs.Prelude.{◌≡◌, ◌<◌, ◌≤◌, min, true, false, [], length, is_ok, IfOk, slice_index, vec_capacity};
ghost use Rattle.word.specs.Word.{reading_of};
ghost use Rattle.model.specs.Perform.{closed};
ghost use Rattle.machine.specs.declared.run.NotRun.TheVariants.{Memory};
ghost use Rattle.machine.specs.Runs.{asked, answers_to, after_requests, value_of, values_in, HasRoom, Played, Ran, RunPromises};
ghost use Rattle.machine.specs.View.{view};

use super::machine::{Machine, Receipt};
use bank::Bank;
use cores::table::{Refusal, Setting};
use entries::Entries;
use std::alloc::{AllocError, Global};
use word::Word;

/// The most words of a bank that can be opened.
const MOST_WORDS: u64 = 256;

/// A call that a run is to make.
#[derive(Clone, Copy)]
pub enum Request<'a> {
    /// Start the core with the list. There is none where no lawful list could be made, and the start is refused with 9 then.
    Start(u8, Option<&'a Entries>),
    /// Start the core with a read of a word.
    Read(u8, u64),
    Step(u8),
    Collect(u8),
    Halt(u8),
}

/// What a run answered.
#[derive(Drop)]
pub struct Report {
    /// What each call answered, in order.
    pub answers: Vec<Result<u64, Refusal>>,
    /// The value that each word holds after the close.
    pub words: Vec<u64>,
}

/// Why a run was not made. The bank is as it was then.
#[derive(Clone, Copy, PartialEq, Eq, Debug)]
pub enum NotRun {
    /// There was no memory for the report.
    Memory,
    /// The opening was refused.
    Refused(Refusal),
}

impl From<AllocError> for NotRun {
    ghost from_gives = { λ _ r. r ≡ Memory };

    fn from(_e: AllocError) -> NotRun {
        Self::Memory
    }
}

/// Makes the call, and answers what it answers.
fn ask<B: Bank>(machine: &mut Machine<B>, request: Request<'_>) -> Result<u64, Refusal>
    ensures answer { result ≡ (asked (view B.Bank.words machine.old) request.entry).answer }
    ensures after { view B.Bank.words machine.new ≡ (asked (view B.Bank.words machine.old) request.entry).world }
{
    match request {
        Request::Start(core, Some(list)) => machine.start(core, list),
        Request::Start(_, None) => Err(Refusal::List),
        Request::Read(core, word) => machine.start_read(core, word),
        Request::Step(core) => machine.step(core),
        Request::Collect(core) => machine.collect(core),
        Request::Halt(core) => machine.halt(core),
    }
}

/// Makes every call in turn, and puts down what each answered, where there is room for it.
fn ask_all<B: Bank>(
    machine: &mut Machine<B>,
    requests: &[Request<'_>],
    answers: &mut Vec<Result<u64, Refusal>>,
)
    requires none { answers.old.items ≡ [] }
    requires room { length requests.now ≤ vec_capacity answers.old }
    ensures answers { answers.new.items ≡ answers_to (view B.Bank.words machine.old) requests.now }
    ensures after { view B.Bank.words machine.new ≡ after_requests (view B.Bank.words machine.old) requests.now }
{
    for request in requests {
        answers.push(ask(machine, *request)).unwrap();
    }
}

/// The value that word `at` holds, if it is plain.
fn value<B: Bank>(bank: &B, at: u64) -> u64
    requires { at < length (B.Bank.words bank.now) }
    ensures { result ≡ value_of (reading_of (slice_index (B.Bank.words bank.now) at)) }
{
    match bank.load(at).map(Word::read) {
        Ok(Word::Plain(value)) => value,
        _ => 0,
    }
}

/// Puts down the value that each word holds, where there is room for it.
fn read_all<B: Bank>(bank: &B, values: &mut Vec<u64>)
    requires none { values.old.items ≡ [] }
    requires room { length (B.Bank.words bank.now) ≤ vec_capacity values.old }
    ensures { values.new.items ≡ values_in (B.Bank.words bank.now) }
{
    // A bank's words go by their numbers alone.
    for at in 0..bank.size() {
        values.push(value(bank, at)).unwrap();
    }
}

/// Closes an open machine.
fn finish<B: Bank>(machine: &mut Machine<B>, receipt: Receipt)
    requires { (view B.Bank.words machine.old).table.running ≡ true }
    ensures { view B.Bank.words machine.new ≡ closed (view B.Bank.words machine.old) }
{
    // No `unwrap`: an error would hold a receipt, which cannot be let go.
    match machine.close(receipt) {
        Ok(_) => {}
        Err(_) => unreachable(),
    }
}

/// An empty report with room for so many answers and words.
fn blank(alloc: Global, answers: usize, words: usize) -> Result<Report, AllocError>
    ensures { IfOk result (λ x. HasRoom x answers words) }
{
    Ok(Report {
        answers: Vec::with_capacity(alloc, answers)?,
        words: Vec::with_capacity(alloc, words)?,
    })
}

/// Opens, makes every call and closes; the opening may be refused.
fn play<B: Bank>(
    bank: B,
    setting: Setting,
    requests: &[Request<'_>],
    answers: &mut Vec<Result<u64, Refusal>>,
) -> (B, Result<(), Refusal>)
    requires none { answers.old.items ≡ [] }
    requires room { length requests.now ≤ vec_capacity answers.old }
    ensures played { Played (B.Bank.words bank) setting requests.now result.1 answers.new.items (B.Bank.words result.0) }
    ensures unaltered { is_ok result.1 ≡ false → result.0 ≡ bank }
{
    let mut machine = Machine::over(bank);
    match machine.open(setting) {
        Ok(receipt) => {
            ask_all(&mut machine, requests, answers);
            finish(&mut machine, receipt);
            (machine.into_bank(), Ok(()))
        }
        Err(refusal) => (machine.into_bank(), Err(refusal)),
    }
}

/// The run, with room for its report.
fn run_into<B: Bank>(
    bank: B,
    setting: Setting,
    requests: &[Request<'_>],
    mut report: Report,
) -> (B, Result<Report, NotRun>)
    requires { HasRoom report (length requests.now) (min (length (B.Bank.words bank)) 256) }
    ensures ran { Ran (B.Bank.words bank) setting requests.now result.1 (B.Bank.words result.0) }
    ensures unaltered { is_ok result.1 ≡ false → result.0 ≡ bank }
{
    let (bank, played) = play(bank, setting, requests, &mut report.answers);
    match played {
        Ok(()) => {
            read_all(&bank, &mut report.words);
            (bank, Ok(report))
        }
        Err(refusal) => (bank, Err(NotRun::Refused(refusal))),
    }
}

/// A whole run: opens a machine over the bank, makes every call in turn, closes it, and gives the bank back. The memory for the report
/// is taken first, so that want of it finds nothing begun.
// The setting and the requests are passed down as they are: each clause names them, and would name the fields of a struct of both.
pub fn run<B: Bank>(
    alloc: Global,
    bank: B,
    setting: Setting,
    requests: &[Request<'_>],
) -> (B, Result<Report, NotRun>)
    ensures ran { Ran (B.Bank.words bank) setting requests.now result.1 (B.Bank.words result.0) }
    ensures unaltered { is_ok result.1 ≡ false → result.0 ≡ bank }
    ensures promises { RunPromises (B.Bank.words bank) setting requests.now }
{
    // As `usize`: there is no `From`, and it is proved to fit.
    let size = bank.size().min(MOST_WORDS) as usize;
    match blank(alloc, requests.len(), size) {
        Ok(report) => run_into(bank, setting, requests, report),
        Err(error) => (bank, Err(NotRun::from(error))),
    }
}
