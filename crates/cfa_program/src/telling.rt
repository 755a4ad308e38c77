// What a person is told on standard error.
use crate::reading::further;
use crate::{Host, Inputs, Out, Pats};
use cfa_advice::{Sights, Sources, Style, ToldLines};
use cfa_base::Name;
use cfa_hints::{Heard, patterns_text, wants_journal, wants_sources};
use cfa_hostdir::{FailedCall, Fault, Why};
use cfa_outside::Call;
use std::alloc::{AllocError, Global};
use std::io::{IsTerminal, Write};
use std::{env, io};

// Standard error is a terminal, and colours are wanted there.
fn style_of(rt: &HostRuntime) -> Style {
    let is_terminal = rt.stderr().is_terminal();
    Style {
        is_terminal,
        has_colour: is_terminal && env::var(rt, "NO_COLOR").is_err(),
    }
}

// Why a call on the outside was refused.
fn word_of(alloc: Global, why: Why) -> Result<String, AllocError> {
    match why {
        Why::System(number) => format!(in alloc; "{}", io::Error::from_raw_os_error(number)),
        Why::Taken => String::from_str(alloc, "held by another agent"),
        Why::OfAnotherKind => String::from_str(
            alloc,
            "a folder, a link or a special file in the place of a file, or a file in that of a folder",
        ),
        Why::BadRow(line) => format!(in alloc; "line {line} is no row in its place"),
        Why::OfAnotherLength => String::from_str(
            alloc,
            "more bytes than are read, or fewer than were written",
        ),
        Why::Swapped => String::from_str(alloc, "another file was put in its place meanwhile"),
        Why::Misfit => String::from_str(alloc, "the change doesn't fit what stands there"),
        Why::Unsure => String::from_str(
            alloc,
            "a sync failed before, so that nobody knows what is on the disk",
        ),
    }
}

// What was asked of the host.
fn asked_of(call: Call) -> &'static str {
    match call {
        Call::Look => "what stands at a path",
        Call::Read => "what a file holds",
        Call::Perms => "which permissions it has",
        Call::Service => "the row of a service",
        Call::Lock => "when a lock was set",
        Call::Children => "what a directory holds",
        Call::Change => "to make a change, or to write a record",
    }
}

// A call on the outside that failed, as a sentence.
fn sentence_of(alloc: Global, fault: &Fault) -> Result<String, AllocError> {
    let word = word_of(alloc, fault.why)?;
    let path = match &fault.path {
        Some(path) => path.as_str(),
        None => "a file",
    };
    match fault.call {
        FailedCall::Put => format!(in alloc; "standard output: {word}"),
        FailedCall::Read if fault.why == Why::OfAnotherKind => {
            format!(in alloc; "{path}: no file, but a folder, a pipe or a device")
        }
        FailedCall::Read => format!(in alloc;
            "{path}: {word}; it is read from the folder in which the command runs"
        ),
        FailedCall::Site(call) => {
            format!(in alloc; "{path}: {word}; the host was asked {}", asked_of(call))
        }
    }
}

// The call on the outside that failed last: the put that ended all, else the reading, else one on the host.
fn outside_of(
    alloc: Global,
    inputs: &mut Inputs,
    site: &mut Host,
    out: &Out,
) -> Result<Option<String>, AllocError> {
    if let Some(fault) = out.inner().last_fault() {
        return Ok(Some(sentence_of(alloc, fault)?));
    }
    if let Some(fault) = inputs.inner().last_fault() {
        return Ok(Some(sentence_of(alloc, fault)?));
    }
    match site.inner().last_fault() {
        Some(fault) => Ok(Some(sentence_of(alloc, fault)?)),
        None => Ok(None),
    }
}

// The sources are read again where something is told of them.
fn sources_of(alloc: Global, is_wanted: bool, inputs: &mut Inputs) -> Sources {
    if !is_wanted {
        return Sources::none(alloc);
    }
    let names = inputs.copy_names(alloc);
    Sources::read(alloc, names.as_slice(), inputs.inner())
}

const JOURNAL: &str = "host/journal";

// The journal of the host, where something is told by it.
fn journal_of(alloc: Global, is_wanted: bool, inputs: &mut Inputs) -> Sources {
    match Name::from_text(alloc, JOURNAL) {
        Ok(name) if is_wanted => Sources::read(alloc, &[name], inputs.inner()),
        _ => Sources::none(alloc),
    }
}

// What a person is told of a call of these words that ended so, by the sources and the journal that were read for it. Where
// there is no memory for what further is refused, that isn't told.
fn advice_on<'a>(
    alloc: Global,
    words: &'a [Name],
    status: u8,
    told: &'a ToldLines,
    sights: &'a Sights,
    read: (&'a Sources, &'a Sources),
    outside: Option<&'a str>,
    style: Style,
) -> Result<String, AllocError> {
    let (sources, journal) = read;
    let heard = Heard {
        words,
        status,
        told,
        sights,
        sources,
        journal: journal.named(JOURNAL).unwrap_or(&[]),
        outside,
        style,
    };
    let mut text = heard.advice(alloc)?;
    if let Ok(more) = further(alloc, heard) {
        text.push_str(more.as_str())?;
    }
    Ok(text)
}

fn advice(
    rt: &HostRuntime,
    words: &[Name],
    status: u8,
    inputs: &mut Inputs,
    site: &mut Host,
    out: &Out,
    pats: &Pats,
) -> Result<String, AllocError> {
    let alloc = rt.alloc();
    let outside = outside_of(alloc, inputs, site, out)?;
    let style = style_of(rt);
    let is_wanted = wants_sources(alloc, words, status, style)?;
    let sources = sources_of(alloc, is_wanted, inputs);
    let is_wanted = wants_journal(alloc, words, status, site.sights(), style)?;
    let journal = journal_of(alloc, is_wanted, inputs);
    let sentence = match &outside {
        Some(told) => Some(told.as_str()),
        None => None,
    };
    let (told, sights) = (out.told(), site.sights());
    let read = (&sources, &journal);
    let mut text = advice_on(alloc, words, status, told, sights, read, sentence, style)?;
    if matches!(status, 1 | 2) {
        let more = patterns_text(alloc, pats.bad())?;
        text.push_str(more.as_str())?;
    }
    Ok(text)
}

/// Tells a person of a call that ended. Whatever becomes of it, nothing else changes.
pub fn tell(
    rt: &HostRuntime,
    words: &[Name],
    status: u8,
    inputs: &mut Inputs,
    site: &mut Host,
    out: &Out,
    pats: &Pats,
) {
    if let Ok(text) = advice(rt, words, status, inputs, site, out, pats) {
        let _ = rt.stderr().write_all(text.as_str().as_bytes());
    }
}
