// Whether a name stands where it was found.
ghost use Rattle.std.specs.Prelude.{◌≡◌, ◌≤◌, ◌-◌, length, drop, IfOk, IsTrue};
ghost use Rattle.cfa_hints.specs.Findings.{StandsIn, Stands};

use cfa_advice::{Sources, line_of};
use cfa_base::NoMemory;
use cfa_uses::Mention;
use std::alloc::Global;

fn stands_in(bytes: &[u8], name: &[u8]) -> bool
    ensures { IsTrue result → StandsIn bytes.now name.now }
{
    for start in 0..bytes.len() {
        if bytes[start..].starts_with(name) {
            return true;
        }
    }
    false
}

// How many bytes stand before the column of a line.
fn before_column(line: &[u8], col: u32) -> usize
    ensures within { result ≤ length line.now }
    ensures rest { drop result line.now ≡ drop (col - 1) line.now }
{
    match usize::try_from(col) {
        Ok(col) => col.saturating_sub(1).min(line.len()),
        Err(_) => line.len(),
    }
}

/// Whether the name of a mention stands in its line, at its column or behind it.
pub fn stands(alloc: Global, sources: &Sources, mention: Mention<'_>) -> Result<bool, NoMemory>
    ensures { IfOk result (λ is. IsTrue is → Stands sources.now mention.entry) }
{
    let Some(source) = sources.named(mention.source) else {
        return Ok(false);
    };
    let Some(line) = line_of(alloc, source, u64::from(mention.line))? else {
        return Ok(false);
    };
    let start = before_column(line, mention.col);
    Ok(stands_in(&line[start..], mention.name.as_bytes()))
}
