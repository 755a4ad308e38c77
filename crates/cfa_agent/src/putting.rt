// The lines of a run: told as its instances end, and put behind each step.
ghost use Rattle.std.specs.Prelude.{[], ◌∷◌, OnOk, OnErr};
ghost use Rattle.cfa_base.specs.Shown.{Follows};
ghost use Rattle.cfa_outside.specs.Sinks.{adds_bytes};
ghost use Rattle.cfa_output.specs.Lines.{line_of, repaired_line, failed_line, report_line};
ghost use Rattle.cfa_output.specs.Puts.{PutsShort};
ghost use Rattle.cfa_acts.specs.Reasons.{code_of, word_of};
ghost use Rattle.cfa_agent.specs.Ran.{counts_of, text_of_lines};
ghost use Rattle.cfa_agent.specs.Runs.{last_line};
ghost use Rattle.cfa_agent.specs.Ending.{LinesTold, TextPut, lines_by, lines_ended};

use crate::actuating::Actuation;
use crate::running::Tally;
use cfa_acts::Reason;
use cfa_base::{Name, PromiseId};
use cfa_output::{Item, SinkFailed, Stop, line_of, put_all};
use cfa_outside::Sink;
use cfa_resolve::copy_id;
use std::alloc::Global;

// Tells the line of an item.
fn tell_item(alloc: Global, item: Item, lines: &mut Vec<Name>) -> Result<(), Stop>
    ensures { LinesTold (line_of item ∷ []) lines.old.items lines.new.items result }
{
    let line = line_of(alloc, item)?;
    lines.push(line)?;
    Ok(())
}

fn tell_failed(
    alloc: Global,
    id: &PromiseId,
    reason: Reason,
    lines: &mut Vec<Name>,
) -> Result<(), Stop>
    ensures { LinesTold (failed_line id.now (code_of reason) (word_of reason) ∷ [])
        lines.old.items lines.new.items result }
{
    let id = copy_id(alloc, id)?;
    let code = Name::from_text(alloc, reason.code())?;
    let word = Name::from_text(alloc, reason.word())?;
    tell_item(alloc, Item::Failed(id, code, word), lines)
}

// Without a change nothing was repaired.
fn tell_repaired(
    alloc: Global,
    id: &PromiseId,
    changes: u32,
    lines: &mut Vec<Name>,
) -> Result<(), Stop>
    ensures { LinesTold (lines_by id.now changes None) lines.old.items lines.new.items result }
{
    if changes == 0 {
        return Ok(());
    }
    let id = copy_id(alloc, id)?;
    tell_item(alloc, Item::Repaired(id, u64::from(changes)), lines)
}

/// Tells the line of an instance with acts that has ended. A kept one has none.
pub fn tell_ended(
    alloc: Global,
    id: &PromiseId,
    ended: Actuation,
    lines: &mut Vec<Name>,
) -> Result<(), Stop>
    ensures { LinesTold (lines_ended id.now ended) lines.old.items lines.new.items result }
{
    match ended.failure {
        Some(reason) => tell_failed(alloc, id, reason, lines),
        None => tell_repaired(alloc, id, ended.changes, lines),
    }
}

/// Tells the line of a report.
pub fn tell_text(alloc: Global, text: &Name, lines: &mut Vec<Name>) -> Result<(), Stop>
    ensures { LinesTold (report_line text.now ∷ []) lines.old.items lines.new.items result }
{
    let text = text.copy(alloc)?;
    tell_item(alloc, Item::Report(text), lines)
}

/// Puts lines, one after the other. Where one can't be put, a first part of their bytes was put, which
/// isn't all.
pub fn put_lines<O: Sink>(lines: &[Name], out: &mut O) -> Result<(), SinkFailed>
    ensures put { OnOk result
        (Follows (adds_bytes (text_of_lines lines.now)) (O.shown out.old) (O.shown out.new)) }
    ensures failed { OnErr result
        (PutsShort (text_of_lines lines.now) (O.shown out.old) (O.shown out.new)) }
{
    for line in lines {
        put_all(out, line.as_str().as_bytes())?;
    }
    Ok(())
}

/// Puts the line of the total.
pub fn put_total<O: Sink>(alloc: Global, tally: Tally, out: &mut O) -> Result<(), Stop>
    ensures { TextPut (last_line (counts_of tally)) (O.shown out.old) (O.shown out.new) result }
{
    let item = Item::Total(tally.kept, tally.repaired, tally.failed, tally.skipped);
    let line = line_of(alloc, item)?;
    put_all(out, line.as_str().as_bytes())?;
    Ok(())
}
