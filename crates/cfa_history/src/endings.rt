// How instances ended.
ghost use Rattle.std.specs.Prelude.{◌≡◌, ◌<◌, ◌^◌};
ghost use Rattle.cfa_history.specs.Instances.{changes_of, ending_of, is_repaired};

use cfa_journal::{RecordRef, StoredRecord};

/// How an instance ended.
#[derive(Clone, Copy, Debug, PartialEq, Eq)]
pub enum Ending {
    /// By its last change, with so many changes.
    Repaired(u32),
    Failed,
    /// Its end isn't known.
    LeftOpen,
}

/// How an instance ended, by the records behind its `open` or behind one of its `file` records.
pub fn ending_of(records: &[StoredRecord]) -> Ending
    ensures exact { result ≡ ending_of records.now }
    ensures small { changes_of result < 2 ^ 32 }
{
    for i in 0..records.len() {
        match records[i].get() {
            RecordRef::File(_, _, _, _) => {}
            RecordRef::Repaired(_, changes) => return Ending::Repaired(changes),
            RecordRef::Failed(_, _) => return Ending::Failed,
            RecordRef::Run(_) | RecordRef::Run2(_) => return Ending::LeftOpen,
            RecordRef::Open(_, _, _) | RecordRef::Fail(_, _, _, _) => return Ending::LeftOpen,
        }
    }
    Ending::LeftOpen
}

pub fn is_repaired(ending: Ending) -> bool
    ensures { result ≡ is_repaired ending }
{
    match ending {
        Ending::Repaired(_) => true,
        Ending::Failed | Ending::LeftOpen => false,
    }
}
