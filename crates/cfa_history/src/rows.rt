// The rows of promises.
ghost use Rattle.std.specs.Prelude.{◌≡◌, ℕ, ◌+◌, ◌<◌, ◌^◌, [], ◌∷◌, IfOk, OnOk, length};
ghost use Rattle.std.specs.Rc.{rc_str_bytes};
ghost use Rattle.cfa_base.specs.declared.places.PromiseId.{PromiseId};
ghost use Rattle.cfa_journal.specs.Stored.{record_of};
ghost use Rattle.cfa_history.specs.Instances.{instances};
ghost use Rattle.cfa_history.specs.Rows.{with_instance};
ghost use Rattle.cfa_history.specs.Tables.{AllWithin, IsRoom, by_id, counts_in, id_at, rows_in, tallied, tally};

use crate::endings::{Ending, ending_of};
use cfa_base::{Name, NoMemory, PromiseId};
use cfa_journal::{RecordRef, StoredRecord};
use std::alloc::Global;
use std::collections::BTreeMap;
use std::rc::RcStr;

/// What a journal tells of a promise.
#[derive(Debug, Drop)]
pub struct Row {
    pub id: PromiseId,
    /// Instances that were repaired, and their changes.
    pub repaired: u64,
    pub changes: u64,
    /// Instances that failed, before any change or behind one.
    pub failed: u64,
    /// Instances whose first change may have been made, and whose end isn't told.
    pub left_open: u64,
    /// The moment of the last run that tells of the promise, in seconds since 1970.
    pub last: u64,
}

// What is counted of a promise.
#[derive(Clone, Copy, Debug)]
struct Counts {
    repaired: u64,
    changes: u64,
    failed: u64,
    left_open: u64,
    last: u64,
}

// Counts by bundles, numbers and lines, in this order.
type Table = BTreeMap<((RcStr, u32), u32), Counts>;

// Counts one instance more.
fn count(counts: Counts, moment: u64, ending: Ending) -> Counts
    requires { IsRoom counts }
    ensures { result ≡ with_instance counts moment ending }
{
    let mut counts = Counts {
        last: moment,
        ..counts
    };
    match ending {
        Ending::Repaired(changes) => {
            counts.repaired += 1;
            counts.changes += u64::from(changes);
        }
        Ending::Failed => counts.failed += 1,
        Ending::LeftOpen => counts.left_open += 1,
    }
    counts
}

// What is counted of the promise of a key.
fn counts_at(table: &Table, key: &((RcStr, u32), u32)) -> Counts
    ensures { result ≡ counts_in (id_at rc_str_bytes key.now)
        (by_id rc_str_bytes table.now.entries) }
{
    match table.get(key) {
        Some(counts) => *counts,
        None => Counts {
            repaired: 0,
            changes: 0,
            failed: 0,
            left_open: 0,
            last: 0,
        },
    }
}

// Counts one instance more of a promise.
fn note(
    alloc: Global,
    table: &mut Table,
    id: &PromiseId,
    moment: u64,
    ending: Ending,
) -> Result<(), NoMemory>
    requires { IsRoom (counts_in id.now (by_id rc_str_bytes table.old.entries)) }
    ensures { OnOk result (by_id rc_str_bytes table.new.entries
        ≡ tally (by_id rc_str_bytes table.old.entries) id.now moment ending) }
{
    let bundle = id.bundle.copy(alloc)?.into_key();
    let key = ((bundle, id.number), id.line);
    let counts = count(counts_at(table, &key), moment, ending);
    table.insert(key, counts)?;
    Ok(())
}

// Counts what a record tells in a run of this moment, by those behind it, and answers the moment of the run behind it.
fn take(
    alloc: Global,
    table: &mut Table,
    moment: u64,
    item: RecordRef<'_>,
    behind: &[StoredRecord],
) -> Result<u64, NoMemory>
    requires { (id : PromiseId) → IsRoom (counts_in id (by_id rc_str_bytes table.old.entries)) }
    ensures tallied { IfOk result (λ next.
        tallied (by_id rc_str_bytes table.new.entries) (instances next behind.now)
        ≡ tallied (by_id rc_str_bytes table.old.entries)
        (instances moment (record_of item.entry ∷ behind.now))) }
    ensures within { OnOk result ((n : ℕ) → AllWithin n (by_id rc_str_bytes table.old.entries)
        → AllWithin (n + 1) (by_id rc_str_bytes table.new.entries)) }
{
    match item {
        RecordRef::Run(next) | RecordRef::Run2(next) => return Ok(next),
        RecordRef::Open(_, id, _) => note(alloc, table, id, moment, ending_of(behind))?,
        RecordRef::Fail(_, id, _, _) => note(alloc, table, id, moment, Ending::Failed)?,
        RecordRef::File(_, _, _, _) | RecordRef::Repaired(_, _) | RecordRef::Failed(_, _) => {}
    }
    Ok(moment)
}

// The rows of a table.
fn rows_in(alloc: Global, table: Table) -> Result<Vec<Row>, NoMemory>
    ensures { IfOk result (λ rows. rows.items ≡ rows_in (by_id rc_str_bytes table.entries)) }
{
    let mut rows = Vec::new(alloc);
    for (((bundle, number), line), counts) in table {
        let bundle = Name::from_text(alloc, bundle.as_str())?;
        rows.push(Row {
            id: PromiseId {
                bundle,
                number,
                line,
            },
            repaired: counts.repaired,
            changes: counts.changes,
            failed: counts.failed,
            left_open: counts.left_open,
            last: counts.last,
        })?;
    }
    Ok(rows)
}

/// The rows of the promises that records tell of.
pub fn rows_of(alloc: Global, records: &[StoredRecord]) -> Result<Vec<Row>, NoMemory>
    requires { length records.now < 2 ^ 32 }
    ensures { IfOk result (λ rows. rows.items
        ≡ rows_in (tallied [] (instances 0 records.now))) }
{
    let mut table = BTreeMap::new(alloc);
    let mut moment = 0;
    for i in 0..records.len() {
        moment = take(
            alloc,
            &mut table,
            moment,
            records[i].get(),
            &records[i + 1..],
        )?;
    }
    rows_in(alloc, table)
}
