//! From the bytes of a run file to its listing.

#![tactic(auto)]

ghost use Rattle.std.specs.Prelude.{◌≡◌, [], replicate, codes, IfOk, Some, Ok, Err};
ghost use Rattle.listing.specs.Listing.{listing};
ghost use Rattle.runfile.specs.Reading.{reading, contents};
ghost use Rattle.machine.specs.Runs.{RunPromises};
ghost use Rattle.report.specs.Text.{machine_setting, RanOnZeros, RunOf, TellsWhy, TellsFault, Lists, ComesTo};

mod plan;

use bank::WordBank;
use cores::table::{Refusal, Setting};
use listing::lines::FaultLine;
use listing::whole::Listing;
use machine::run::{NotRun, Report, Request, run};
use plan::{lists_of, requests_of};
use runfile::file;
use runfile::file::{Call, Fault, RunFile};
use runfile::reader::read;
use std::alloc::{AllocError, Global};
use std::error::Error;
use std::fmt;

/// There was no memory for the run. Where the run told of it, no `AllocError` is at hand any more.
#[derive(Clone, Copy, PartialEq, Eq, Debug)]
pub struct NoMemory;

impl fmt::Display for NoMemory {
    ghost output = { λ _. Some (codes "no memory for the run") };

    fn fmt<W: fmt::Write>(&self, f: &mut fmt::Formatter<W>) -> fmt::Result {
        write!(f, "no memory for the run")
    }
}

impl Error for NoMemory {}

impl From<AllocError> for NoMemory {
    fn from(_e: AllocError) -> NoMemory {
        NoMemory
    }
}

/// What the machine is opened with. A `From` would stand in the crate of one of the two types, and neither knows the other.
fn machine_setting(setting: file::Setting) -> Setting
    ensures { result ≡ machine_setting setting }
{
    Setting {
        cores: setting.cores,
        first: u64::from(setting.first),
        protected: u64::from(setting.protected),
        rights: setting.rights,
    }
}

/// Runs the requests on words that begin at 0.
fn run_on_zeros(
    alloc: Global,
    words: u16,
    setting: Setting,
    requests: &[Request<'_>],
) -> Result<Report, NotRun>
    ensures ran { RanOnZeros words setting requests.now result }
    ensures promises { RunPromises (replicate words 0) setting requests.now }
{
    let mut zeros = vec![in alloc; 0u64; usize::from(words)]?;
    let bank = WordBank::over(zeros.as_mut_slice());
    let (_, ran) = run(alloc, bank, setting, requests);
    ran
}

/// The listing of a run that was made.
fn granted_text<'a>(
    alloc: Global,
    calls: &'a [Call],
    report: &'a Report,
) -> Result<Vec<u8>, NoMemory>
    ensures { IfOk result (λ t. t.items ≡ listing (Ok tt) calls.now report.now.answers.items report.now.words.items) }
{
    let whole = Listing {
        opened: Ok(()),
        calls,
        answers: report.answers.as_slice(),
        words: report.words.as_slice(),
    };
    Ok(whole.bytes(alloc)?)
}

/// The listing of a refused opening.
fn refused_text(alloc: Global, refusal: Refusal) -> Result<Vec<u8>, NoMemory>
    ensures { IfOk result (λ t. t.items ≡ listing (Err refusal) [] [] []) }
{
    let whole = Listing {
        opened: Err(refusal),
        calls: &[],
        answers: &[],
        words: &[],
    };
    Ok(whole.bytes(alloc)?)
}

/// The listing where the run was not made.
fn not_run_text(alloc: Global, why: NotRun) -> Result<Vec<u8>, NoMemory>
    ensures { IfOk result (λ t. TellsWhy why t.items) }
{
    match why {
        NotRun::Refused(refusal) => refused_text(alloc, refusal),
        NotRun::Memory => Err(NoMemory),
    }
}

/// The run that a sound file asks for. Its lists and requests are let go before its listing is made.
fn run_of(alloc: Global, file: &RunFile) -> Result<Report, NotRun>
    ensures { RunOf (contents file.now) result }
{
    let records = file.records.as_slice();
    let lists = lists_of(alloc, records)?;
    let requests = requests_of(alloc, records, lists.as_slice(), file.calls.as_slice())?;
    let setting = machine_setting(file.setting);
    run_on_zeros(alloc, file.setting.words, setting, requests.as_slice())
}

/// The listing of the run that a sound file asks for.
fn run_text(alloc: Global, file: &RunFile) -> Result<Vec<u8>, NoMemory>
    ensures { IfOk result (λ t. Lists (contents file.now) t.items) }
{
    match run_of(alloc, file) {
        Ok(report) => granted_text(alloc, file.calls.as_slice(), &report),
        Err(why) => not_run_text(alloc, why),
    }
}

/// The line of a faulty file.
fn fault_text(alloc: Global, fault: Fault) -> Result<Vec<u8>, NoMemory>
    ensures { IfOk result (λ t. TellsFault fault t.items) }
{
    match fault {
        Fault::At(place) => {
            let line = FaultLine { place };
            Ok(format!(in alloc; "{line}\n")?.into_bytes())
        }
        Fault::Memory => Err(NoMemory),
    }
}

/// The text that the bytes of a run file come to: the listing of its run, or the line of its first fault.
pub fn report(alloc: Global, bytes: &[u8]) -> Result<Vec<u8>, NoMemory>
    ensures { IfOk result (λ t. ComesTo (reading bytes.now) t.items) }
{
    match read(alloc, bytes) {
        Ok(file) => run_text(alloc, &file),
        Err(fault) => fault_text(alloc, fault),
    }
}
