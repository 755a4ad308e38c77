// The refusals of a policy behind its first one.
use cfa_advice::{RefusedLine, ToldLines, given_by, read_refused};
use cfa_base::{Bytes, Name, NoMemory};
use cfa_hints::{Heard, Refuses, further_text};
use cfa_output::Failure;
use cfa_outside::{MemoryInputs, RegexPatterns};
use cfa_sources::read_policy;
use std::alloc::Global;

// A policy of this name, which is read from memory.
#[derive(Drop)]
struct PolicyReader {
    policy: Name,
    pats: RegexPatterns,
}

impl Refuses for PolicyReader {
    fn first_refusal(&mut self, alloc: Global, texts: Vec<(Name, Bytes)>) -> Option<Name> {
        let mut inputs = MemoryInputs::new(alloc, texts, Vec::new(alloc)).ok()?;
        match read_policy(alloc, &self.policy, &mut inputs, &mut self.pats) {
            Err(Failure::Refused(line)) => Some(line),
            _ => None,
        }
    }
}

fn texts_of(alloc: Global, words: &[Name]) -> Result<Vec<&str>, NoMemory> {
    let mut texts = Vec::new(alloc);
    for word in words {
        texts.push(word.as_str())?;
    }
    Ok(texts)
}

// The refusal that was printed, which is the only line then.
fn refused_in(told: &ToldLines) -> Option<RefusedLine<'_>> {
    let line = str::from_utf8(told.lines().first()?.as_slice()).ok()?;
    read_refused(line.strip_suffix('\n').unwrap_or(line))
}

/// What is told of the further refusals of a policy that was refused by its schema; else nothing.
pub fn further(alloc: Global, heard: Heard<'_>) -> Result<String, NoMemory> {
    let texts = texts_of(alloc, heard.words)?;
    let given = given_by(texts.as_slice());
    let is_read = matches!(given.command, "run" | "check" | "edits");
    match refused_in(heard.told) {
        Some(first) if heard.status == 1 && is_read => {
            let mut reader = PolicyReader {
                policy: Name::from_text(alloc, given.file)?,
                pats: RegexPatterns::new(alloc, Vec::new(alloc)),
            };
            further_text(alloc, heard.style, heard.sources, first, &mut reader)
        }
        _ => Ok(String::new(alloc)),
    }
}
