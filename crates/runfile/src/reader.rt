ghost use Rattle.std.specs.Prelude.{◌≡◌, ℕ, ◌+◌, ◌-◌, ◌*◌, ◌<◌, ◌≤◌, true, false, List, map, length, drop, Some, None, vec_items, vec_len, MatchOption, MatchResult, slice_index};
ghost use Rattle.std.specs.Option.{option_map};
ghost use Rattle.runfile.specs.declared.file.Fault.TheVariants.{At, Memory};
ghost use Rattle.runfile.specs.Format.{used_by};
ghost use Rattle.runfile.specs.Laws.{ReadOrFirst, ReadsBack};
ghost use Rattle.runfile.specs.Reading.{number_at, entry_at, entries_at, has_record, record_at, record_size, recorded, records_in, action_of, has_call, call_at, calls_in, first_call, outer_fault, records_part, calls_part, setting_of, reading, contents, Answers, FaultAt};

use super::file::{Action, Call, Fault, Record, RunFile, Setting};
use entries::Entry;
use std::alloc::{AllocError, AllocFailed, Global};

impl From<AllocError> for Fault {
    ghost from_gives = { λ _ r. r ≡ Memory };

    fn from(_e: AllocError) -> Fault {
        Fault::Memory
    }
}

impl<T: Drop> From<AllocFailed<T>> for Fault {
    ghost from_gives = { λ _ r. r ≡ Memory };

    fn from(_e: AllocFailed<T>) -> Fault {
        Fault::Memory
    }
}

/// The entry at the front, and what follows it.
fn entry(bytes: &[u8]) -> Option<(Entry, &[u8])>
    ensures { MatchOption result (length bytes.now < 18) (λ x. (18 ≤ length bytes.now) × (x.0 ≡ entry_at bytes.now) × (x.1.now ≡ drop 18 bytes.now)) }
{
    let (word, rest) = bytes.split_first_chunk::<2>()?;
    let (expected, rest) = rest.split_first_chunk::<8>()?;
    let (new, rest) = rest.split_first_chunk::<8>()?;
    Some((
        Entry {
            word: u64::from(u16::from_be_bytes(*word)),
            expected: u64::from_be_bytes(*expected),
            new: u64::from_be_bytes(*new),
        },
        rest,
    ))
}

/// The entries at the front, as many as counted, and what follows them; the fault is at the place of their record.
// `alloc`, `place` and `bytes` are passed on once, by `record`: a struct of the three would be made for that one call.
fn entries(
    alloc: Global,
    place: usize,
    count: u8,
    bytes: &[u8],
) -> Result<(Vec<Entry>, &[u8]), Fault>
    ensures { MatchResult result (λ x. (18 * count ≤ length bytes.now) × (x.0.items ≡ entries_at count bytes.now) × (x.1.now ≡ drop (18 * count) bytes.now)) (λ f. FaultAt f place (length bytes.now < 18 * count)) }
{
    let mut list = Vec::new(alloc);
    let mut rest = bytes;
    for _ in 0..count {
        let Some((first, after)) = entry(rest) else {
            return Err(Fault::At(place));
        };
        list.push(first)?;
        rest = after;
    }
    Ok((list, rest))
}

/// The record at the front, which stands at the place, and what follows it.
fn record(alloc: Global, place: usize, bytes: &[u8]) -> Result<(Record, &[u8]), Fault>
    ensures { MatchResult result (λ x. (has_record bytes.now ≡ true) × (recorded x.0 ≡ record_at bytes.now) × (x.1.now ≡ drop (record_size (slice_index bytes.now 0)) bytes.now)) (λ f. FaultAt f place (has_record bytes.now ≡ false)) }
{
    match bytes {
        [0, high, low, rest @ ..] => Ok((Record::Read(u16::from_be_bytes([*high, *low])), rest)),
        [count @ 1..=8, rest @ ..] => {
            let (list, rest) = entries(alloc, place, *count, rest)?;
            Ok((Record::List(list), rest))
        }
        _ => Err(Fault::At(place)),
    }
}

/// All records of the records part, which begins at place 0.
fn records(alloc: Global, part: &[u8]) -> Result<Vec<Record>, Fault>
    ensures { Answers (λ v. map recorded v.items) result (records_in (length part.now) 0 part.now) }
{
    let mut all = Vec::new(alloc);
    let mut rest = part;
    // A record's length is known once it is read, so there is nothing to iterate over.
    while !rest.is_empty() {
        let (next, after) = record(alloc, part.len() - rest.len(), rest)?;
        all.push(next)?;
        rest = after;
    }
    Ok(all)
}

/// The call of these bytes, which stand at the place, where so many records are left.
fn call(place: usize, left: usize, bytes: &[u8]) -> Result<Call, Fault>
    requires { length bytes.now ≤ 2 }
    ensures { MatchResult result (λ x. (has_call left bytes.now ≡ true) × (x ≡ call_at bytes.now)) (λ f. (f ≡ At place) × (has_call left bytes.now ≡ false)) }
{
    let [letter, core] = bytes else {
        return Err(Fault::At(place));
    };
    match Action::try_from(*letter) {
        Ok(action) if action.records_used() <= left => Ok(Call {
            action,
            core: *core,
        }),
        _ => Err(Fault::At(place)),
    }
}

/// All calls of the calls part, which begins at the place, where there are so many records.
fn calls(alloc: Global, place: usize, records: usize, part: &[u8]) -> Result<Vec<Call>, Fault>
    requires { place + length part.now ≤ 65536 }
    ensures { Answers vec_items result (calls_in place records part.now) }
{
    let mut all = Vec::new(alloc);
    let mut left = records;
    for (i, bytes) in part.chunks(2).enumerate() {
        let next = call(place + 2 * i, left, bytes)?;
        left -= next.action.records_used();
        all.push(next)?;
    }
    Ok(all)
}

/// A run file's parts: the bytes of its records and of its calls, and the setting from its trailer.
#[derive(Drop)]
pub struct Parts<'a> {
    pub records: &'a [u8],
    pub calls: &'a [u8],
    pub setting: Setting,
}

/// The most bytes a run file may have.
pub const MOST_BYTES: usize = 65536;

/// The place of the first call and the setting, from the last twelve bytes.
fn trailer(bytes: &[u8]) -> Option<(usize, Setting)>
    ensures { MatchOption result (length bytes.now < 12) (λ x. (12 ≤ length bytes.now) × (x.0 ≡ first_call bytes.now) × (x.1 ≡ setting_of bytes.now)) }
{
    let [.., p1, p0, w1, w0, cores, rights, c1, c0, n3, n2, n1, n0] = bytes else {
        return None;
    };
    let place = usize::from(u16::from_be_bytes([*p1, *p0]));
    let words = u16::from_be_bytes([*w1, *w0]);
    let protected = u16::from_be_bytes([*c1, *c0]);
    let first = u32::from_be_bytes([*n3, *n2, *n1, *n0]);
    Some((
        place,
        Setting {
            words,
            cores: *cores,
            rights: *rights,
            protected,
            first,
        },
    ))
}

/// The parts of a run file, or the fault of its length or its trailer.
pub fn split(bytes: &[u8]) -> Result<Parts<'_>, Fault>
    ensures { MatchResult result (λ p. (outer_fault bytes.now ≡ None) × (p.records.now ≡ records_part bytes.now) × (p.calls.now ≡ calls_part bytes.now) × (p.setting ≡ setting_of bytes.now)) (λ f. option_map At (outer_fault bytes.now) ≡ Some f) }
{
    let Some((first_call, setting)) = trailer(bytes) else {
        return Err(Fault::At(0));
    };
    if bytes.len() > MOST_BYTES {
        return Err(Fault::At(MOST_BYTES));
    }
    let place = bytes.len() - 12;
    if setting.words > 256 || first_call > place {
        return Err(Fault::At(place));
    }
    let (records, rest) = bytes.split_at(first_call);
    let (calls, _) = rest.split_at(place - first_call);
    Ok(Parts {
        records,
        calls,
        setting,
    })
}

/// The run file that the bytes hold, put together from its parts.
fn joined_parts(alloc: Global, bytes: &[u8]) -> Result<RunFile, Fault>
    ensures { Answers contents result (reading bytes.now) }
{
    let parts = split(bytes)?;
    let records = records(alloc, parts.records)?;
    let calls = calls(alloc, parts.records.len(), records.len(), parts.calls)?;
    Ok(RunFile {
        records,
        calls,
        setting: parts.setting,
    })
}

/// The run file that the bytes hold, or the place of its first fault, or want of memory.
pub fn read(alloc: Global, bytes: &[u8]) -> Result<RunFile, Fault>
    ensures answer { Answers contents result (reading bytes.now) }
    ensures told { ReadOrFirst bytes.now result }
    ensures back { ReadsBack bytes.now result }
{
    joined_parts(alloc, bytes)
}
