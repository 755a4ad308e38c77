// The lines that are put.
ghost use Rattle.std.specs.Prelude.{◌≡◌, IfOk};
ghost use Rattle.std.specs.String.{string_bytes};
ghost use Rattle.cfa_output.specs.Lines.{id_text, refused_line, source_long_line, journal_bad_line, journal_long_line, repaired_line, failed_line, report_line, total_line, conflict_line, audit_line, number_line, history_line, unrecorded_line, quiet_line, clash_line, edits_line, line_of};

use crate::Item;
use cfa_base::{Name, NoMemory, PromiseId};
use std::alloc::{AllocError, Global};

/// The line of an item, with its newline.
pub fn line(alloc: Global, item: &Item) -> Result<Name, NoMemory>
    ensures { IfOk result (λ name. name ≡ line_of item.now) }
{
    Ok(Name::from_string(text(alloc, item)?)?)
}

/// The line of an item that is made for it alone, and let go.
pub fn line_of(alloc: Global, item: Item) -> Result<Name, NoMemory>
    ensures { IfOk result (λ name. name ≡ line_of item) }
{
    line(alloc, &item)
}

fn text(alloc: Global, item: &Item) -> Result<String, AllocError>
    ensures { IfOk result (λ text. string_bytes text ≡ line_of item.now) }
{
    match item {
        Item::WordsRefused => String::from_str(alloc, "words: refused\n"),
        Item::MomentRefused => String::from_str(alloc, "moment: refused\n"),
        Item::Refused(name, line, col, code, word) => {
            refused(alloc, name, (*line, *col), code, word)
        }
        Item::SourceLong(name) => source_long(alloc, name),
        Item::JournalBad(name, line) => journal_bad(alloc, name, *line),
        Item::JournalLong(name) => journal_long(alloc, name),
        Item::Repaired(id, changes) => repaired(alloc, id, *changes),
        Item::Failed(id, reason, word) => failed(alloc, id, reason, word),
        Item::Report(text) => report(alloc, text),
        Item::Total(kept, repaired, failed, skipped) => {
            total(alloc, *kept, *repaired, *failed, *skipped)
        }
        Item::Settled(end) => String::from_str(alloc, end.line()),
        Item::Accepted(number) => numbered(alloc, "accepted", *number),
        Item::Conflict(cause, first, second, resource) => {
            conflict(alloc, cause, first, second, resource)
        }
        Item::Stopped(halt) => String::from_str(alloc, halt.line()),
        Item::Audit(moment, repaired, failed, opened) => {
            audit(alloc, *moment, *repaired, *failed, *opened)
        }
        Item::Torn(bytes) => numbered(alloc, "torn", *bytes),
        Item::Demo(number) => numbered(alloc, "demo", *number),
        Item::DemoRepaired(number) => numbered(alloc, "repaired", *number),
        Item::Changes(number) => numbered(alloc, "changes", *number),
        Item::Rerun(entries) => numbered(alloc, "rerun", *entries),
        Item::History(id, repaired, changes, failed, opened, last) => {
            history(alloc, id, (*repaired, *changes, *failed, *opened), *last)
        }
        Item::Unrecorded(path, moment) => unrecorded(alloc, path, *moment),
        Item::Runs(number) => numbered(alloc, "runs", *number),
        Item::Quiet(id) => quiet(alloc, id),
        Item::Clash(id, first, second, rule) => clash(alloc, id, *first, *second, rule),
        Item::Edits(number, all) => edits(alloc, *number, *all),
    }
}

#[tactic(auto, unfolding(crate::specs::Lines::id_text))]
fn id_of(alloc: Global, id: &PromiseId) -> Result<String, AllocError>
    ensures { IfOk result (λ text. string_bytes text ≡ id_text id.now) }
{
    let bundle = id.bundle.as_str();
    let number = id.number;
    let line = id.line;
    format!(in alloc; "{bundle}:{number}@{line}")
}

#[tactic(auto, unfolding(crate::specs::Lines::refused_line))]
fn refused(
    alloc: Global,
    name: &Name,
    place: (u64, u64),
    code: &Name,
    word: &Name,
) -> Result<String, AllocError>
    ensures { IfOk result
        (λ text. string_bytes text ≡ refused_line name.now place.0 place.1 code.now word.now) }
{
    let (line, col) = place;
    let name = name.as_str();
    let code = code.as_str();
    let word = word.as_str();
    format!(in alloc; "{name}:{line}:{col} {code} {word}\n")
}

#[tactic(auto, unfolding(crate::specs::Lines::source_long_line))]
fn source_long(alloc: Global, name: &Name) -> Result<String, AllocError>
    ensures { IfOk result (λ text. string_bytes text ≡ source_long_line name.now) }
{
    let name = name.as_str();
    format!(in alloc; "{name} L4 TooLong\n")
}

#[tactic(auto, unfolding(crate::specs::Lines::repaired_line))]
fn repaired(alloc: Global, id: &PromiseId, changes: u64) -> Result<String, AllocError>
    ensures { IfOk result (λ text. string_bytes text ≡ repaired_line id.now changes) }
{
    let id = id_of(alloc, id)?;
    format!(in alloc; "repaired {id} {changes}\n")
}

#[tactic(auto, unfolding(crate::specs::Lines::failed_line))]
fn failed(alloc: Global, id: &PromiseId, reason: &Name, word: &Name) -> Result<String, AllocError>
    ensures { IfOk result (λ text. string_bytes text ≡ failed_line id.now reason.now word.now) }
{
    let id = id_of(alloc, id)?;
    let reason = reason.as_str();
    let word = word.as_str();
    format!(in alloc; "failed {id} {reason} {word}\n")
}

#[tactic(auto, unfolding(crate::specs::Lines::total_line))]
fn total(
    alloc: Global,
    kept: u64,
    repaired: u64,
    failed: u64,
    skipped: u64,
) -> Result<String, AllocError>
    ensures { IfOk result
        (λ text. string_bytes text ≡ total_line kept repaired failed skipped) }
{
    format!(in alloc; "total kept {kept} repaired {repaired} failed {failed} skipped {skipped}\n")
}

#[tactic(auto, unfolding(crate::specs::Lines::journal_bad_line))]
fn journal_bad(alloc: Global, name: &Name, line: u64) -> Result<String, AllocError>
    ensures { IfOk result (λ text. string_bytes text ≡ journal_bad_line name.now line) }
{
    let name = name.as_str();
    format!(in alloc; "{name}:{line} J1 BadRecord\n")
}

#[tactic(auto, unfolding(crate::specs::Lines::journal_long_line))]
fn journal_long(alloc: Global, name: &Name) -> Result<String, AllocError>
    ensures { IfOk result (λ text. string_bytes text ≡ journal_long_line name.now) }
{
    let name = name.as_str();
    format!(in alloc; "{name} J2 TooLong\n")
}

#[tactic(auto, unfolding(crate::specs::Lines::report_line))]
fn report(alloc: Global, text: &Name) -> Result<String, AllocError>
    ensures { IfOk result (λ line. string_bytes line ≡ report_line text.now) }
{
    let text = text.as_str();
    format!(in alloc; "R: {text}\n")
}

#[tactic(auto, unfolding(crate::specs::Lines::conflict_line))]
fn conflict(
    alloc: Global,
    cause: &Name,
    first: &PromiseId,
    second: &PromiseId,
    resource: &Name,
) -> Result<String, AllocError>
    ensures { IfOk result (λ text.
        string_bytes text ≡ conflict_line cause.now first.now second.now resource.now) }
{
    let cause = cause.as_str();
    let first = id_of(alloc, first)?;
    let second = id_of(alloc, second)?;
    let resource = resource.as_str();
    format!(in alloc; "conflict {cause} {first} {second} {resource}\n")
}

#[tactic(auto, unfolding(crate::specs::Lines::audit_line))]
fn audit(
    alloc: Global,
    moment: u64,
    repaired: u64,
    failed: u64,
    opened: u64,
) -> Result<String, AllocError>
    ensures { IfOk result (λ text. string_bytes text ≡ audit_line moment repaired failed opened) }
{
    format!(in alloc; "run {moment} repaired {repaired} failed {failed} open {opened}\n")
}

#[tactic(auto, unfolding(crate::specs::Lines::number_line))]
fn numbered(alloc: Global, word: &str, number: u64) -> Result<String, AllocError>
    ensures { IfOk result (λ text. string_bytes text ≡ number_line word.now number) }
{
    format!(in alloc; "{word} {number}\n")
}

#[tactic(auto, unfolding(crate::specs::Lines::history_line))]
fn history(
    alloc: Global,
    id: &PromiseId,
    counts: (u64, u64, u64, u64),
    last: u64,
) -> Result<String, AllocError>
    ensures { IfOk result (λ text. string_bytes text
        ≡ history_line id.now counts.0 counts.1 counts.2 counts.3 last) }
{
    let (repaired, changes, failed, opened) = counts;
    let id = id_of(alloc, id)?;
    format!(in alloc;
        "{id} repaired {repaired} changes {changes} failed {failed} open {opened} last {last}\n"
    )
}

#[tactic(auto, unfolding(crate::specs::Lines::unrecorded_line))]
fn unrecorded(alloc: Global, path: &Name, moment: u64) -> Result<String, AllocError>
    ensures { IfOk result (λ text. string_bytes text ≡ unrecorded_line path.now moment) }
{
    let path = path.as_str();
    format!(in alloc; "unrecorded {path} {moment}\n")
}

#[tactic(auto, unfolding(crate::specs::Lines::quiet_line))]
fn quiet(alloc: Global, id: &PromiseId) -> Result<String, AllocError>
    ensures { IfOk result (λ text. string_bytes text ≡ quiet_line id.now) }
{
    let id = id_of(alloc, id)?;
    format!(in alloc; "quiet {id}\n")
}

#[tactic(auto, unfolding(crate::specs::Lines::clash_line))]
fn clash(
    alloc: Global,
    id: &PromiseId,
    first: u64,
    second: u64,
    rule: &Name,
) -> Result<String, AllocError>
    ensures { IfOk result
        (λ text. string_bytes text ≡ clash_line id.now first second rule.now) }
{
    let id = id_of(alloc, id)?;
    let rule = rule.as_str();
    format!(in alloc; "clash {id} {first} {second} {rule}\n")
}

#[tactic(auto, unfolding(crate::specs::Lines::edits_line))]
fn edits(alloc: Global, number: u64, all: u64) -> Result<String, AllocError>
    ensures { IfOk result (λ text. string_bytes text ≡ edits_line number all) }
{
    format!(in alloc; "edits {number} of {all}\n")
}
