//! A run file's records and calls, as the requests of a run.
ghost use Rattle.std.specs.Prelude.{◌≡◌, List, ◌∷◌, map, IfOk, OnOk};
ghost use Rattle.std.specs.List.{AllZip};
ghost use Rattle.std.specs.Option.{option_map};
ghost use Rattle.std.specs.Slice.Iter.{iter_rest};
ghost use Rattle.entries.specs.declared.Entry.{Entry};
ghost use Rattle.runfile.specs.Format.{Recorded};
ghost use Rattle.runfile.specs.Reading.{recorded};
ghost use Rattle.report.specs.Plan.{Makes, Added, Leaves, lists_in, IsStart, IsAsked, rest_of, next_record, AsksAll};

use entries::{Entries, Entry};
use machine::run::Request;
use runfile::file::{Action, Call, Record};
use std::alloc::{AllocError, Global};
use std::slice::Iter;

/// The list of these entries, if they are a lawful one: `fill` is the one way to such a list.
fn list_of(entries: &[Entry]) -> Option<Entries>
    ensures { Makes result entries.now }
{
    let mut list = Entries::new();
    list.fill(entries).ok()?;
    Some(list)
}

/// Puts the list of the record after the others, if the record is one.
fn add_list(lists: &mut Vec<Option<Entries>>, next: &Record) -> Result<(), AllocError>
    ensures { OnOk result (Added (recorded next.now) lists.old.items lists.new.items) }
{
    if let Record::List(entries) = next {
        lists.push(list_of(entries.as_slice()))?;
    }
    Ok(())
}

/// The lists of all records that are lists, in order.
pub(crate) fn lists_of(
    alloc: Global,
    records: &[Record],
) -> Result<Vec<Option<Entries>>, AllocError>
    ensures { IfOk result (λ v. AllZip Makes v.items (lists_in (map recorded records.now))) }
{
    // Room for these alone: a read takes none.
    let count = records
        .iter()
        .filter(|record| matches!(record, Record::List(_)))
        .count();
    let mut lists = Vec::with_capacity(alloc, count)?;
    for record in records {
        add_list(&mut lists, record)?;
    }
    Ok(lists)
}

/// What the calls have not used up: the records, and the lists of those of them that are lists.
#[derive(Drop)]
struct Left<'a> {
    records: Iter<'a, Record>,
    lists: Iter<'a, Option<Entries>>,
}

impl<'a> Left<'a> {
    /// The next of the lists, if its entries make one.
    fn next_list(&mut self) -> Option<&'a Entries>
        ensures records { self.new.records ≡ self.old.records }
        ensures list { (es : List Entry) (ess : List (List Entry)) → AllZip Makes (iter_rest self.old.lists) (es ∷ ess) → Makes (option_map (λ b. b.now) result) es × AllZip Makes (iter_rest self.new.lists) ess }
    {
        self.lists.next()?.as_ref()
    }

    /// The start of the core with the next record.
    fn start(&mut self, core: u8) -> Request<'a>
        ensures { (rs : List Recorded) → Leaves self.old rs → IsStart result core rs × Leaves self.new (rest_of rs) }
    {
        match self.records.next() {
            Some(Record::Read(word)) => Request::Read(core, u64::from(*word)),
            Some(Record::List(_)) => Request::Start(core, self.next_list()),
            None => Request::Start(core, None),
        }
    }

    /// The request of the call: a start takes the next record.
    fn request(&mut self, call: Call) -> Request<'a>
        ensures { (rs : List Recorded) → Leaves self.old rs → IsAsked result call.core rs call.action × Leaves self.new (next_record rs call.action) }
    {
        let Call { action, core } = call;
        match action {
            Action::Start => self.start(core),
            Action::Step => Request::Step(core),
            Action::Collect => Request::Collect(core),
            Action::Halt => Request::Halt(core),
        }
    }
}

/// The requests of the calls, in order.
pub(crate) fn requests_of<'a>(
    alloc: Global,
    records: &'a [Record],
    lists: &'a [Option<Entries>],
    calls: &[Call],
) -> Result<Vec<Request<'a>>, AllocError>
    ensures { AllZip Makes lists.now (lists_in (map recorded records.now)) → IfOk result (λ v. AsksAll v.items (map recorded records.now) calls.now) }
{
    let mut requests = Vec::with_capacity(alloc, calls.len())?;
    let mut left = Left {
        records: records.iter(),
        lists: lists.iter(),
    };
    for call in calls {
        requests.push(left.request(*call))?;
    }
    Ok(requests)
}
