// Histories of hosts.
ghost use Rattle.std.specs.Prelude.{◌≡◌, ◌<◌, ◌^◌, IfOk, count_by, length};
ghost use Rattle.cfa_journal.specs.Journals.{InPlace};
ghost use Rattle.cfa_history.specs.Gaps.{gaps_of};
ghost use Rattle.cfa_history.specs.Histories.{IsComplete, is_run};
ghost use Rattle.cfa_history.specs.Instances.{instances};
ghost use Rattle.cfa_history.specs.Rows.{IsTold};

use crate::gaps::{Gap, gaps_of};
use crate::rows::{Row, rows_of};
use cfa_base::{NoMemory, Parts};
use cfa_journal::{Journal, RecordRef, StoredRecord};
use std::alloc::Global;

/// What a journal tells of a host: what was done by promise, in the order of the promises, the files that changed between
/// two recorded writes, in the order of the later ones, and the number of its runs.
#[derive(Debug, Drop)]
pub struct History {
    pub rows: Parts<Row>,
    pub gaps: Parts<Gap>,
    pub runs: u64,
}

// How many of the records begin a run.
fn count_runs(records: &[StoredRecord]) -> u64
    ensures { result ≡ count_by is_run records.now }
{
    let mut runs = 0;
    for i in 0..records.len() {
        if let RecordRef::Run(_) | RecordRef::Run2(_) = records[i].get() {
            runs += 1;
        }
    }
    runs
}

/// What a journal tells of a host. No record is lost or counted twice. The time grows with the number of records and
/// that of promises by a logarithm.
pub fn history_of(alloc: Global, journal: &Journal) -> Result<History, NoMemory>
    requires in_place { InPlace journal.now.records }
    requires few { length journal.now.records < 2 ^ 32 }
    ensures rows { IfOk result (λ history.
        IsTold (instances 0 journal.now.records) history.rows) }
    ensures gaps { IfOk result (λ history. history.gaps ≡ gaps_of journal.now.records) }
    ensures runs { IfOk result (λ history. history.runs ≡ count_by is_run journal.now.records) }
    ensures complete { IfOk result (λ history. IsComplete journal.now.records history.rows) }
{
    let records = journal.records.as_slice();
    let rows = rows_of(alloc, records)?;
    let gaps = gaps_of(alloc, records)?;
    Ok(History {
        rows: Parts::from_vec(rows),
        gaps: Parts::from_vec(gaps),
        runs: count_runs(records),
    })
}
