// Audits of journals: what a journal tells of each of its runs.
ghost use Rattle.std.specs.Prelude.{◌≡◌, ◌<◌, ◌^◌, ◌-◌, IfOk, option_map};
ghost use Rattle.cfa_journal.specs.Audits.{audited, counted, is_done, past_files, runs_of, up_to_run};
ghost use Rattle.cfa_journal.specs.Stored.{record_of};

use crate::{Journal, RecordRef, StoredRecord};
use cfa_base::{NoMemory, Parts};
use std::alloc::Global;

/// A run of a journal: the moment at which it began, and how many of its records tell what.
#[derive(Clone, Copy, Debug, PartialEq, Eq)]
pub struct AuditedRun {
    /// Seconds since 1970.
    pub moment: u64,
    /// Instances that were repaired.
    pub repaired: u64,
    /// Instances that failed, before any change or behind one.
    pub failed: u64,
    /// Instances whose first change may have been made, and whose end isn't told.
    pub opened: u64,
}

// Whether a record is the `done` of this number.
fn is_done(number: u32, item: Option<RecordRef<'_>>) -> bool
    ensures { result ≡ is_done number (option_map record_of item.entry) }
{
    match item {
        Some(RecordRef::Repaired(n, _) | RecordRef::Failed(n, _)) => number == n,
        _ => false,
    }
}

// The first record that is no `file`.
fn past_files(records: &[StoredRecord]) -> Option<RecordRef<'_>>
    ensures { option_map record_of result ≡ past_files records.now }
{
    for i in 0..records.len() {
        let item = records[i].get();
        match item {
            RecordRef::File(_, _, _, _) => {}
            RecordRef::Run(_) | RecordRef::Run2(_) | RecordRef::Open(_, _, _) => return Some(item),
            RecordRef::Repaired(_, _) | RecordRef::Failed(_, _) => return Some(item),
            RecordRef::Fail(_, _, _, _) => return Some(item),
        }
    }
    None
}

// Counts one record more of a run, by those behind it.
fn count(run: &mut AuditedRun, item: RecordRef<'_>, behind: &[StoredRecord])
    requires repaired { run.old.repaired < 2 ^ 64 - 1 }
    requires failed { run.old.failed < 2 ^ 64 - 1 }
    requires opened { run.old.opened < 2 ^ 64 - 1 }
    ensures { run.new ≡ counted run.old (record_of item.entry) (past_files behind.now) }
{
    match item {
        RecordRef::Run(_) | RecordRef::Run2(_) | RecordRef::File(_, _, _, _) => {}
        RecordRef::Open(number, _, _) => {
            if !is_done(number, past_files(behind)) {
                run.opened += 1;
            }
        }
        RecordRef::Repaired(_, _) => run.repaired += 1,
        RecordRef::Failed(_, _) | RecordRef::Fail(_, _, _, _) => run.failed += 1,
    }
}

// The run of a moment, with the records behind its `run` and those of all later runs.
fn audited_run(moment: u64, behind: &[StoredRecord]) -> AuditedRun
    ensures { result ≡ audited moment (up_to_run behind.now) }
{
    let mut run = AuditedRun {
        moment,
        repaired: 0,
        failed: 0,
        opened: 0,
    };
    for i in 0..behind.len() {
        let item = behind[i].get();
        if let RecordRef::Run(_) | RecordRef::Run2(_) = item {
            return run;
        }
        count(&mut run, item, &behind[i + 1..]);
    }
    run
}

/// What a journal tells of each of its runs. Each record is looked at three times at most.
pub fn audit(alloc: Global, journal: &Journal) -> Result<Parts<AuditedRun>, NoMemory>
    ensures { IfOk result (λ runs. runs ≡ runs_of journal.now.records) }
{
    let records = journal.records.as_slice();
    let mut runs = Vec::new(alloc);
    for i in 0..records.len() {
        if let RecordRef::Run(moment) | RecordRef::Run2(moment) = records[i].get() {
            runs.push(audited_run(moment, &records[i + 1..]))?;
        }
    }
    Ok(Parts::from_vec(runs))
}
