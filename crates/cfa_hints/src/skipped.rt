// Restarts that were skipped by their locks.
ghost use Rattle.std.specs.Prelude.{◌≤◌, length, Contains, IfOk, IfSome};

use cfa_advice::{IdText, Sights, Sources, read_id};
use cfa_base::NoMemory;
use cfa_uses::{NameSet, Restart, Uses, uses_of};
use std::alloc::{AllocError, Global};

// The most bytes at the end of a journal in which the keys of locks are looked for.
const MOST_BYTES: usize = 1_048_576;

// The most restarts that are told.
const MOST_TOLD: usize = 20;

// The promise and the key of a record `open NUMBER ID KEY`.
fn opened_by(record: &[u8]) -> Option<(IdText<'_>, &str)> {
    let record = str::from_utf8(record).ok()?;
    let rest = record.strip_prefix("open ")?;
    let (_, rest) = rest.split_once(' ')?;
    let (id, key) = rest.split_once(' ')?;
    let id = read_id(id)?;
    Some((id, key))
}

// The restart of a promise: by its number, since a key text tells no line, and lines may have changed since the record was written.
fn restart_by<'a>(uses: &Uses<'a>, id: IdText<'_>) -> Option<Restart<'a>>
    ensures { IfSome result (λ restart. Contains uses.now.restarts.items restart) }
{
    for restart in &uses.restarts {
        if restart.bundle == id.bundle && u64::from(restart.number) == id.number {
            return Some(*restart);
        }
    }
    None
}

// The end of a journal.
fn end_of(journal: &[u8]) -> &[u8] {
    let (_, end) = journal.split_at(journal.len().saturating_sub(MOST_BYTES));
    end
}

fn push_skipped(alloc: Global, text: &mut String, restart: Restart<'_>) -> Result<(), AllocError> {
    let (bundle, number, line) = (restart.bundle, restart.number, restart.line);
    let service = restart.service;
    let told = format!(in alloc;
        "{bundle}:{number}@{line}: the restart of {service} was skipped by its lock, though its guard held in this run; a later run restarts it only \
where its guard holds again. With an action of ifelapsed => \"0\" it is never skipped\n"
    )?;
    text.push_str(told.as_str())
}

// The restart of a record that opened it, where its lock was found, but once of each key.
fn skipped_by<'a, 'j>(
    uses: &Uses<'a>,
    sights: &Sights,
    told: &mut NameSet<'j>,
    record: &'j [u8],
) -> Result<Option<Restart<'a>>, NoMemory>
    ensures { IfOk result (λ found. IfSome found (λ restart.
        Contains uses.now.restarts.items restart)) }
{
    let Some((id, key)) = opened_by(record) else {
        return Ok(None);
    };
    if !sights.is_skipped(key.as_bytes()) || !told.add(key)? {
        return Ok(None);
    }
    Ok(restart_by(uses, id))
}

// Adds a restart, where there is one.
fn keep<'a>(skipped: &mut Vec<Restart<'a>>, restart: Option<Restart<'a>>) -> Result<(), NoMemory> {
    let Some(restart) = restart else {
        return Ok(());
    };
    skipped.push(restart)?;
    Ok(())
}

/// The restarts that a run skipped by their locks, each of which an earlier run wrote into its journal: up to 20, each once.
pub fn skipped_restarts<'a>(
    alloc: Global,
    uses: &Uses<'a>,
    sights: &Sights,
    journal: &[u8],
) -> Result<Vec<Restart<'a>>, NoMemory>
    ensures { IfOk result (λ skipped. length skipped.items ≤ 20) }
{
    let mut skipped = Vec::new(alloc);
    let mut told = NameSet::new(alloc);
    for record in end_of(journal).split(|byte| *byte == b'\n') {
        if skipped.len() >= MOST_TOLD {
            break;
        }
        let restart = skipped_by(uses, sights, &mut told, record)?;
        keep(&mut skipped, restart)?;
    }
    skipped.truncate(MOST_TOLD);
    Ok(skipped)
}

/// What is told of restarts that a run skipped by their locks.
pub fn skipped_text(
    alloc: Global,
    sources: &Sources,
    sights: &Sights,
    journal: &[u8],
) -> Result<String, NoMemory> {
    let mut text = String::new(alloc);
    let Some(uses) = uses_of(alloc, sources)? else {
        return Ok(text);
    };
    for restart in &skipped_restarts(alloc, &uses, sights, journal)? {
        push_skipped(alloc, &mut text, *restart)?;
    }
    Ok(text)
}
