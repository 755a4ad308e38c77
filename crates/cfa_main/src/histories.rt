// The history of a host by its journal: its lines.
ghost use Rattle.std.specs.Prelude.{◌≡◌, ◌<◌, ◌^◌, ◌++◌, flat_map, length, IfOk, OnOk, string_bytes};
ghost use Rattle.cfa_journal.specs.Journals.{InPlace};
ghost use Rattle.cfa_main.specs.Histories.{gap_line, history_text, row_line, IsHistoryText, RecountsAs};
ghost use Rattle.cfa_main.specs.Stages.{JournalTold};

use crate::auditing::{append_line, read_bytes, refusal_line};
use cfa_base::{Name, NoMemory, escape};
use cfa_history::{Gap, History, Row, history_of, no_more_records};
use cfa_journal::{Journal, read};
use cfa_output::{Failure, Item};
use cfa_outside::Inputs;
use std::alloc::Global;

// Adds the lines of promises.
fn append_rows(alloc: Global, text: &mut String, rows: Vec<Row>) -> Result<(), NoMemory>
    ensures { OnOk result (string_bytes text.new
        ≡ string_bytes text.old ++ flat_map row_line rows.items) }
{
    for row in rows {
        let Row {
            id,
            repaired,
            changes,
            failed,
            left_open,
            last,
        } = row;
        let item = Item::History(id, repaired, changes, failed, left_open, last);
        append_line(alloc, text, item)?;
    }
    Ok(())
}

// Adds the lines of gaps.
fn append_gaps(alloc: Global, text: &mut String, gaps: &[Gap]) -> Result<(), NoMemory>
    ensures { OnOk result (string_bytes text.new
        ≡ string_bytes text.old ++ flat_map gap_line gaps.now) }
{
    for gap in gaps {
        let path = escape(alloc, &gap.path)?;
        append_line(alloc, text, Item::Unrecorded(path, gap.moment))?;
    }
    Ok(())
}

// The text of a history.
fn history_text(
    alloc: Global,
    rows: Vec<Row>,
    gaps: &[Gap],
    runs: u64,
    torn: u64,
) -> Result<Name, NoMemory>
    ensures { IfOk result (λ text. text ≡ history_text rows.items gaps.now runs torn) }
{
    let mut text = String::new(alloc);
    append_rows(alloc, &mut text, rows)?;
    append_gaps(alloc, &mut text, gaps)?;
    append_line(alloc, &mut text, Item::Runs(runs))?;
    if torn > 0 {
        append_line(alloc, &mut text, Item::Torn(torn))?;
    }
    Ok(Name::from_string(text)?)
}

// The lines of a history.
fn history_lines(alloc: Global, journal: &Journal) -> Result<Name, NoMemory>
    requires in_place { InPlace journal.now.records }
    requires few { length journal.now.records < 2 ^ 32 }
    ensures { IfOk result (IsHistoryText journal.now.records journal.now.torn) }
{
    let History { rows, gaps, runs } = history_of(alloc, journal)?;
    history_text(alloc, rows.into_vec(), gaps.as_slice(), runs, journal.torn)
}

/// The lines of the history that the journal of that name tells. It is refused with the line of its first fault.
pub fn recount_journal<I: Inputs>(
    alloc: Global,
    name: &Name,
    inputs: &mut I,
) -> Result<Name, Failure>
    ensures { JournalTold RecountsAs name.now (I.shown inputs.old) (I.shown inputs.new) result }
{
    let bytes = read_bytes(alloc, name, inputs)?;
    match read(alloc, &bytes) {
        Ok(journal) => {
            no_more_records();
            Ok(history_lines(alloc, &journal)?)
        }
        Err(error) => Err(Failure::Refused(refusal_line(alloc, name, error)?)),
    }
}
