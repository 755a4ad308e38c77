// Calls of the program, each by the line of a table that tells it: `STATUS WORDS`, and behind them, where they aren't the usual
// ones, ` @` and the moment, ` ?` and the build of a pattern that is refused for its size, ` <` and the reading of the inputs that
// fails, ` >` and the put that fails, and ` #` and the room of the sink.
use crate::reports::Report;
use crate::texts::{Files, parts};
use cfa_base::Name;
use cfa_outside::{MemoryInputs, MemorySink, RegexPatterns, Site};
use std::alloc::Global;
use std::str;

/// Who makes the calls of the rows.
pub trait Top {
    /// Makes the call of these words at a moment, in seconds since 1970, and answers its status.
    fn call<S: Site>(
        alloc: Global,
        words: &[Name],
        moment: u64,
        inputs: &mut MemoryInputs,
        site: &mut S,
        out: &mut MemorySink,
        pats: &mut RegexPatterns,
    ) -> u8;
}

// Monday, 1 January 2024, 10:00 UTC.
const MOMENT: u64 = 1_704_103_200;

// The room of the sink.
const ROOM: u64 = 1_048_576;

// The lines of a check that is about validity alone, whatever the verdict.
const VALID: &str = "valid\n";

// The lines of a run that repaired something, and of one that did nothing, behind either of which nothing is left to be done.
const SETTLED: &str = "settled\n";

const UNCHANGED: &str = "unchanged\n";

// What stands behind a mark in the line of a call.
fn told<'a>(line: &'a str, mark: &str) -> &'a str {
    let (_, behind) = parts(line, mark);
    let (told, _) = parts(behind, " ");
    told
}

fn is_word(text: &str) -> bool {
    !matches!(
        text.as_bytes().first(),
        Some(b'@' | b'?' | b'<' | b'>' | b'#')
    )
}

fn push_word(alloc: Global, words: &mut Vec<Name>, word: &str) -> Option<()> {
    let word = Name::from_text(alloc, word).ok()?;
    words.push(word).ok()
}

fn words_of(line: &str, report: &mut Report) -> Vec<Name> {
    let mut words = Vec::new(report.alloc);
    if let Some((_, behind)) = line.split_once(" ") {
        for word in behind.split(" ") {
            let is_done = !is_word(word) || push_word(report.alloc, &mut words, word).is_some();
            report.require(is_done, word);
        }
    }
    words
}

// The number behind a mark, or the usual one where the mark isn't there.
fn number_behind(line: &str, mark: &str, usual: u64, report: &mut Report) -> u64 {
    match told(line, mark) {
        "" => usual,
        number => report.number(number),
    }
}

// The number behind a mark, as the list of the calls that fail.
fn failing(line: &str, mark: &str, report: &mut Report) -> Vec<u32> {
    match told(line, mark) {
        "" => report.failing("0"),
        call => report.failing(call),
    }
}

// Makes a call, and answers its status.
fn call<T: Top, S: Site>(
    line: &str,
    inputs: &mut MemoryInputs,
    site: &mut S,
    out: &mut MemorySink,
    report: &mut Report,
) -> u8 {
    report.calls = report.calls.saturating_add(1);
    let moment = number_behind(line, " @", MOMENT, report);
    let mut pats = RegexPatterns::new(report.alloc, failing(line, " ?", report));
    let words = words_of(line, report);
    let (alloc, words) = (report.alloc, words.as_slice());
    T::call(alloc, words, moment, inputs, site, out, &mut pats)
}

fn sink_of(line: &str, report: &mut Report) -> Option<MemorySink> {
    let room = number_behind(line, " #", ROOM, report) as usize;
    MemorySink::new(report.alloc, room, failing(line, " >", report)).ok()
}

// The inputs of a call. None come for want of memory alone.
fn inputs_of(files: Files, line: &str, report: &mut Report) -> Option<MemoryInputs> {
    MemoryInputs::new(report.alloc, files, failing(line, " <", report)).ok()
}

// Makes the call of a line on these files, tells what it put, and answers its status. None comes for want of memory alone.
pub fn make<T: Top, S: Site>(
    line: &str,
    files: Files,
    site: &mut S,
    report: &mut Report,
) -> Option<u64> {
    report.put.clear();
    let mut inputs = inputs_of(files, line, report)?;
    let mut out = sink_of(line, report)?;
    let status = call::<T, S>(line, &mut inputs, site, &mut out, report);
    report.push(&[str::from_utf8(out.bytes()).unwrap_or("no text")]);
    Some(u64::from(status))
}

// These are the lines and the status of a verdict.
fn is_verdict(put: &str, status: Option<u64>) -> bool {
    match status {
        Some(0) => put.starts_with("accepted "),
        Some(3) => put.starts_with("conflict C"),
        _ => false,
    }
}

// These are the lines and the status of a run behind which nothing is left to be done.
fn is_settled(put: &str, status: Option<u64>) -> bool {
    status == Some(0) && put.ends_with("\nsettled: yes\n")
}

// These are the lines of a run that did nothing.
fn is_unchanged(put: &str) -> bool {
    put.contains(" repaired 0 failed 0 skipped 0\n")
}

// These lines were put, or as many first bytes of them as the sink has room for, where its room is told.
fn is_put(line: &str, lines: &str, report: &mut Report) -> bool {
    match told(line, " #") {
        "" => report.put.as_str() == lines,
        room => {
            let room = report.number(room);
            room == report.put.len() as u64 && lines.starts_with(report.put.as_str())
        }
    }
}

// Compares what a call put and answered with its line and the lines behind it, or with a verdict where it is about validity alone, or
// with what a run is to leave.
pub fn compare_answer(line: &str, lines: &str, status: Option<u64>, report: &mut Report) {
    let is_met = if lines == VALID {
        is_verdict(report.put.as_str(), status)
    } else if lines == SETTLED {
        is_settled(report.put.as_str(), status) && !is_unchanged(report.put.as_str())
    } else if lines == UNCHANGED {
        is_settled(report.put.as_str(), status) && is_unchanged(report.put.as_str())
    } else {
        let (wanted, _) = parts(line, " ");
        let wanted = report.number(wanted);
        status.unwrap_or(u64::MAX) == wanted && is_put(line, lines, report)
    };
    if !is_met {
        report.note(line, lines);
    }
}
