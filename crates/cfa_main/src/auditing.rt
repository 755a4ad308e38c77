// The audit of a journal: its reading, and its lines.
ghost use Rattle.std.specs.Prelude.{◌≡◌, ◌++◌, IfOk, OnOk, string_bytes};
ghost use Rattle.cfa_journal.specs.Audits.{runs_of};
ghost use Rattle.cfa_output.specs.Lines.{line_of};
ghost use Rattle.cfa_main.specs.Audits.{AuditsAs, audit_text, torn_line};
ghost use Rattle.cfa_main.specs.Stages.{BytesRead, JournalTells, JournalTold};

use cfa_base::{Bytes, Name, NoMemory};
use cfa_journal::{Journal, JournalErr, MOST_JOURNAL_BYTES, audit, read};
use cfa_output::{Failure, Item, Object, Stop, line_of};
use cfa_outside::{Inputs, OutsideErr};
use std::alloc::Global;

// One byte more than a journal may have, so that a longer one shows.
const READ_LIMIT: u32 = MOST_JOURNAL_BYTES as u32 + 1;

/// The bytes of that name, of which no more is read than one byte more than a journal may have.
#[tactic(auto, unfolding(crate::specs::Audits::bytes_of))]
pub fn read_bytes<I: Inputs>(alloc: Global, name: &Name, inputs: &mut I) -> Result<Bytes, Stop>
    ensures { BytesRead name.now (I.shown inputs.old) (I.shown inputs.new) result }
{
    match inputs.read(alloc, name, READ_LIMIT) {
        Ok(bytes) => Ok(bytes),
        Err(OutsideErr::Failed) => Err(Stop::Outside(Object::Inputs)),
        Err(OutsideErr::NoMemory) => Err(Stop::Memory),
    }
}

/// The line of a journal's refusal.
pub fn refusal_line(alloc: Global, name: &Name, error: JournalErr) -> Result<Name, Stop>
    ensures { JournalTells name.now error result }
{
    let name = name.copy(alloc)?;
    match error {
        JournalErr::BadRecord(number) => {
            Ok(line_of(alloc, Item::JournalBad(name, u64::from(number)))?)
        }
        JournalErr::TooLong => Ok(line_of(alloc, Item::JournalLong(name))?),
        JournalErr::NoMemory => Err(Stop::Memory),
    }
}

/// Adds the line of an item.
pub fn append_line(alloc: Global, text: &mut String, item: Item) -> Result<(), NoMemory>
    ensures { OnOk result (string_bytes text.new ≡ string_bytes text.old ++ line_of item) }
{
    let line = line_of(alloc, item)?;
    text.push_str(line.as_str())?;
    Ok(())
}

// The lines of an audit.
fn audit_lines(alloc: Global, journal: &Journal) -> Result<Name, NoMemory>
    ensures { IfOk result (λ text.
        text ≡ audit_text (runs_of journal.now.records) journal.now.torn) }
{
    let runs = audit(alloc, journal)?;
    let mut text = String::new(alloc);
    for run in runs.as_slice() {
        let item = Item::Audit(run.moment, run.repaired, run.failed, run.opened);
        append_line(alloc, &mut text, item)?;
    }
    if journal.torn > 0 {
        append_line(alloc, &mut text, Item::Torn(journal.torn))?;
    }
    Ok(Name::from_string(text)?)
}

/// The lines of the audit of the journal of that name. It is refused with the line of its first fault.
pub fn audit_journal<I: Inputs>(alloc: Global, name: &Name, inputs: &mut I) -> Result<Name, Failure>
    ensures { JournalTold AuditsAs name.now (I.shown inputs.old) (I.shown inputs.new) result }
{
    let bytes = read_bytes(alloc, name, inputs)?;
    match read(alloc, &bytes) {
        Ok(journal) => Ok(audit_lines(alloc, &journal)?),
        Err(error) => Err(Failure::Refused(refusal_line(alloc, name, error)?)),
    }
}
