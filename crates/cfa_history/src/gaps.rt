// The gaps between recorded writes.
ghost use Rattle.std.specs.Prelude.{◌≡◌, ◌∷◌, ◌++◌, IfOk, OnOk};
ghost use Rattle.std.specs.FinMap as map;
ghost use Rattle.cfa_journal.specs.Stored.{record_of};
ghost use Rattle.cfa_history.specs.Instances.{ending_of};
ghost use Rattle.cfa_history.specs.Gaps.{gap_at, gap_between, gaps_on, is_gap, is_known, is_same_digest, may_leave, writes, written};

use crate::endings::{Ending, ending_of, is_repaired};
use cfa_base::{Name, NoMemory, TextMap};
use cfa_journal::{Digest, RecordRef, StoredRecord};
use std::alloc::Global;

/// A file that something else than a recorded write changed between two of them.
#[derive(Debug, Drop)]
pub struct Gap {
    pub path: Name,
    /// The moment of the run of the later write, in seconds since 1970.
    pub moment: u64,
    /// What the earlier write was to leave.
    pub expected: Digest,
    /// What the later write found.
    pub found: Digest,
}

// Where a journal is read on: the moment of the run, and how the instance ended in which the next record stands.
#[derive(Clone, Copy, Debug)]
struct Spot {
    moment: u64,
    ending: Ending,
}

// A write of an instance: what stood there, what was to stand there, and whether the instance was repaired.
#[derive(Debug, Drop)]
struct Write {
    before: Digest,
    after: Digest,
    is_repaired: bool,
}

fn is_known(digest: &Digest) -> bool
    ensures { result ≡ is_known digest.now }
{
    match digest {
        Digest::Nothing | Digest::Sha(_) => true,
        Digest::Over => false,
    }
}

fn is_same_digest(digest: &Digest, other: &Digest) -> bool
    ensures { result ≡ is_same_digest digest.now other.now }
{
    match (digest, other) {
        (Digest::Nothing, Digest::Nothing) | (Digest::Over, Digest::Over) => true,
        (Digest::Sha(key), Digest::Sha(other)) => key.digits() == other.digits(),
        _ => false,
    }
}

// Whether a write may have left this content.
fn may_leave(write: &Write, digest: &Digest) -> bool
    ensures { result ≡ may_leave write.now digest.now }
{
    is_same_digest(digest, &write.after)
        || (!write.is_repaired && is_same_digest(digest, &write.before))
}

// Whether something else changed the file between two writes.
fn is_gap(last: &Write, next: &Write) -> bool
    ensures { result ≡ is_gap last.now next.now }
{
    is_known(&last.after)
        && is_known(&last.before)
        && is_known(&next.before)
        && !may_leave(last, &next.before)
}

// The gap between the last write to a path and the next one, if there is one.
fn gap_between(
    alloc: Global,
    last: &Write,
    path: &Name,
    moment: u64,
    next: &Write,
) -> Result<Option<Gap>, NoMemory>
    ensures { IfOk result (λ gap. gap ≡ gap_between last.now path.now moment next.now) }
{
    if !is_gap(last, next) {
        return Ok(None);
    }
    Ok(Some(Gap {
        path: path.copy(alloc)?,
        moment,
        expected: last.after.share()?,
        found: next.before.share()?,
    }))
}

// Tells a write, and the gap at it, if there is one.
fn note(
    alloc: Global,
    latest: &mut TextMap<Write>,
    gaps: &mut Vec<Gap>,
    path: &Name,
    moment: u64,
    write: Write,
) -> Result<(), NoMemory>
    ensures gap { OnOk result (gaps.new.items ≡ gaps.old.items
        ++ gap_at (map.get latest.old path.now) (written path.now moment write)) }
    ensures latest { OnOk result (latest.new ≡ map.insert latest.old path.now write) }
{
    if let Some(last) = latest.get(path.as_str()) {
        if let Some(gap) = gap_between(alloc, last, path, moment, &write)? {
            gaps.push(gap)?;
        }
    }
    latest.insert(path.copy(alloc)?, write)
}

// Tells what a record writes, by those behind it, and answers where they are read on.
fn take(
    alloc: Global,
    latest: &mut TextMap<Write>,
    gaps: &mut Vec<Gap>,
    at: Spot,
    item: RecordRef<'_>,
    behind: &[StoredRecord],
) -> Result<Spot, NoMemory>
    requires { at.ending ≡ ending_of (record_of item ∷ behind.now) }
    ensures ending { IfOk result (λ next. next.ending ≡ ending_of behind.now) }
    ensures told { IfOk result (λ next.
        gaps.new.items ++ gaps_on latest.new (writes next.moment behind.now)
        ≡ gaps.old.items
        ++ gaps_on latest.old (writes at.moment (record_of item.entry ∷ behind.now))) }
{
    let moment = match item {
        RecordRef::File(_, path, before, after) => {
            let write = Write {
                before: before.share()?,
                after: after.share()?,
                is_repaired: is_repaired(at.ending),
            };
            note(alloc, latest, gaps, path, at.moment, write)?;
            return Ok(at);
        }
        RecordRef::Run(next) | RecordRef::Run2(next) => next,
        RecordRef::Open(_, _, _) | RecordRef::Repaired(_, _) => at.moment,
        RecordRef::Failed(_, _) | RecordRef::Fail(_, _, _, _) => at.moment,
    };
    let ending = ending_of(behind);
    Ok(Spot { moment, ending })
}

/// The gaps that records tell of.
pub fn gaps_of(alloc: Global, records: &[StoredRecord]) -> Result<Vec<Gap>, NoMemory>
    ensures { IfOk result (λ gaps. gaps.items ≡ gaps_on map.empty (writes 0 records.now)) }
{
    let mut latest = TextMap::new(alloc);
    let mut gaps = Vec::new(alloc);
    let mut at = Spot {
        moment: 0,
        ending: ending_of(records),
    };
    for i in 0..records.len() {
        let behind = &records[i + 1..];
        at = take(alloc, &mut latest, &mut gaps, at, records[i].get(), behind)?;
    }
    Ok(gaps)
}
