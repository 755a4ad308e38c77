// What is told of the lines that were printed.
use crate::excerpts::{excerpt_of, line_of};
use crate::faults::fault_of;
use crate::lines::{ConflictLine, FailedLine, IdText, RefusedLine};
use crate::reasons::{Cause, Reason, cause_of, reason_of};
use crate::sources::Sources;
use std::alloc::{AllocError, Global};

/// How what is told is shown.
#[derive(Clone, Copy, Debug)]
pub struct Style {
    /// It is read on a terminal.
    pub is_terminal: bool,
    /// The mark has a colour.
    pub has_colour: bool,
}

impl Style {
    fn mark(self) -> &'static str {
        if self.has_colour {
            "\x1b[1;31m^\x1b[0m"
        } else {
            "^"
        }
    }
}

fn push_line(text: &mut String, line: &str) -> Result<(), AllocError> {
    text.push_str(line)?;
    text.push_str("\n")
}

fn push_spaces(text: &mut String, count: usize) -> Result<(), AllocError> {
    for _ in 0..count {
        text.push(' ')?;
    }
    Ok(())
}

/// Adds the line of a number of a source, with a mark under a column, from 1.
pub fn push_shown(
    alloc: Global,
    text: &mut String,
    style: Style,
    source: &[u8],
    number: u64,
    col: u64,
) -> Result<(), AllocError> {
    let Some(line) = line_of(alloc, source, number)? else {
        return Ok(());
    };
    let excerpt = excerpt_of(alloc, line, col)?;
    let front = format!(in alloc; "{number:>6} | ")?;
    text.push_str(front.as_str())?;
    push_line(text, excerpt.text.as_str())?;
    text.push_str("       | ")?;
    push_spaces(text, excerpt.column)?;
    push_line(text, style.mark())
}

// The column of the first byte of a line that is no space.
fn first_column(line: &[u8]) -> u64 {
    for (place, byte) in line.iter().enumerate() {
        if !byte.is_ascii_whitespace() {
            return (place as u64).saturating_add(1);
        }
    }
    1
}

// Adds the line of a promise, with a mark under its beginning.
fn push_promise(
    alloc: Global,
    text: &mut String,
    style: Style,
    sources: &Sources,
    id: IdText<'_>,
) -> Result<(), AllocError> {
    let Some((_, source)) = sources.with_bundle(id.bundle) else {
        return Ok(());
    };
    let col = match line_of(alloc, source, id.line)? {
        Some(line) => first_column(line),
        None => 1,
    };
    push_shown(alloc, text, style, source, id.line, col)
}

// Adds a place, as it is printed.
fn push_place(alloc: Global, text: &mut String, line: RefusedLine<'_>) -> Result<(), AllocError> {
    let (name, number, col) = (line.name, line.line, line.col);
    let place = if number == 0 {
        format!(in alloc; "{name}: ")?
    } else if col == 0 {
        format!(in alloc; "{name}:{number}: ")?
    } else {
        format!(in alloc; "{name}:{number}:{col}: ")?
    };
    text.push_str(place.as_str())
}

/// Adds what is told of a refusal: what is wrong, the line with its mark, and where there is more to read.
pub fn push_refused(
    alloc: Global,
    text: &mut String,
    style: Style,
    sources: &Sources,
    line: RefusedLine<'_>,
) -> Result<(), AllocError> {
    let Some(fault) = fault_of(line.code) else {
        return Ok(());
    };
    push_place(alloc, text, line)?;
    push_line(text, fault.sentence())?;
    if let Some(source) = sources.named(line.name) {
        push_shown(alloc, text, style, source, line.line, line.col)?;
    }
    let page = format!(in alloc; "        see {}", fault.page())?;
    push_line(text, page.as_str())
}

/// What a promise that failed was about, where it is known, as `stop telnet` or a path.
#[derive(Clone, Copy, Debug)]
pub struct Subject<'a> {
    pub what: &'a str,
    pub word: &'a str,
}

/// Adds what is told of a failed promise: the reason, what it was about, and its line.
pub fn push_failed(
    alloc: Global,
    text: &mut String,
    style: Style,
    sources: &Sources,
    line: FailedLine<'_>,
    subject: Option<Subject<'_>>,
) -> Result<(), AllocError> {
    let Some(reason) = reason_of(line.code) else {
        return Ok(());
    };
    text.push_str(line.id.text)?;
    text.push_str(": ")?;
    push_reason(alloc, text, reason, subject)?;
    push_promise(alloc, text, style, sources, line.id)
}

fn push_reason(
    alloc: Global,
    text: &mut String,
    reason: Reason,
    subject: Option<Subject<'_>>,
) -> Result<(), AllocError> {
    match subject {
        Some(subject) => {
            let (what, word) = (subject.what, subject.word);
            let told = if word.is_empty() {
                format!(in alloc; "{what}: {}", reason.sentence())?
            } else {
                format!(in alloc; "{what}: {word}")?
            };
            push_line(text, told.as_str())
        }
        None => push_line(text, reason.sentence()),
    }
}

/// Adds what is told of a conflict: both promises with what each would do, and how such a conflict is resolved.
pub fn push_conflict(
    alloc: Global,
    text: &mut String,
    style: Style,
    sources: &Sources,
    line: ConflictLine<'_>,
) -> Result<(), AllocError> {
    let Some(cause) = cause_of(line.code) else {
        return Ok(());
    };
    let resource = line.resource;
    let first = format!(in alloc; "{}: {} ({resource})", line.first.text, cause.first())?;
    push_line(text, first.as_str())?;
    push_promise(alloc, text, style, sources, line.first)?;
    if line.first.text != line.second.text {
        let second = format!(in alloc; "{}: {}", line.second.text, cause.second())?;
        push_line(text, second.as_str())?;
        push_promise(alloc, text, style, sources, line.second)?;
    } else if cause == Cause::Undoes {
        push_line(
            text,
            "it undoes itself: by another of its instances, or by two of its attributes",
        )?;
    }
    push_line(text, cause.sentence())?;
    push_line(text, "        see docs/analysis.md, The causes")
}
