// What is told of a whole call.
ghost use Rattle.std.specs.Prelude.{◌≡◌, ◌≤◌, true, false, [], IfOk};
ghost use Rattle.std.specs.String.{string_bytes};
ghost use Rattle.cfa_hints.specs.Calls.{IsShown};

use crate::before::before_text;
use crate::idle::idle_text;
use crate::skipped::skipped_text;
use crate::takes::takes_text;
use cfa_advice::{
    Given, MOMENT, Reason, Sight, Sights, Sources, Style, Subject, ToldLines, given_by,
    push_conflict, push_failed, push_refused, read_conflict, read_failed, read_refused, reason_of,
    settled_sentence, stop_sentence, words_advice, words_fault,
};
use cfa_base::{Bytes, Name, NoMemory};
use cfa_outside::Look;
use std::alloc::{AllocError, Global};

// The most failed promises that are told of.
const MOST_FAILED: usize = 20;

/// What is known of a call that ended.
#[derive(Clone, Copy)]
pub struct Heard<'a> {
    /// Its words, without the program's name.
    pub words: &'a [Name],
    pub status: u8,
    /// The lines that were put.
    pub told: &'a ToldLines,
    /// What was looked at on the host.
    pub sights: &'a Sights,
    /// The sources that it read.
    pub sources: &'a Sources,
    /// The journal of the host, where it was read (`wants_journal`), else nothing.
    pub journal: &'a [u8],
    /// The call on the outside that failed last, where one did, as a sentence.
    pub outside: Option<&'a str>,
    pub style: Style,
}

fn look_word(look: Look) -> &'static str {
    match look {
        Look::Nothing => "nothing stands there",
        Look::Blocked => "a file stands above it",
        Look::File(_) => "a file stands there",
        Look::Dir(true) => "a directory stands there",
        Look::Dir(false) => "a directory stands there, and isn't empty",
    }
}

// Whether what was last looked at is what a promise failed by, for this reason.
fn is_sighted(reason: Reason) -> bool {
    match reason {
        Reason::Missing
        | Reason::Obstructed
        | Reason::NotText
        | Reason::NonConvergent
        | Reason::NoAnchor
        | Reason::FieldCount
        | Reason::UnknownService => true,
        Reason::BadPath
        | Reason::BadPattern
        | Reason::BadValue
        | Reason::Fault
        | Reason::TooLong
        | Reason::TooMany => false,
    }
}

// The word on what was seen, where it tells more than the reason's sentence.
fn sight_word(reason: Reason, look: Look) -> &'static str {
    match reason {
        Reason::Missing | Reason::Obstructed => look_word(look),
        _ => "",
    }
}

fn subject_of(reason: Reason, sight: &Sight) -> Option<Subject<'_>> {
    if !is_sighted(reason) {
        return None;
    }
    match sight {
        Sight::Path(path, look) => Some(Subject {
            what: path.as_str(),
            word: sight_word(reason, *look),
        }),
        Sight::Service(name, _) => Some(Subject {
            what: name.as_str(),
            word: "",
        }),
    }
}

fn texts_of(alloc: Global, words: &[Name]) -> Result<Vec<&str>, AllocError> {
    let mut texts = Vec::new(alloc);
    for word in words {
        texts.push(word.as_str())?;
    }
    Ok(texts)
}

// Whether it is told what a policy says of which nothing comes.
fn tells_idle(given: Given<'_>, status: u8, style: Style) -> bool {
    matches!(status, 0 | 2 | 3)
        && (given.command == "check" || given.command == "run" && style.is_terminal)
}

/// Whether something is told for which the sources of a call are read again.
pub fn wants_sources(
    alloc: Global,
    words: &[Name],
    status: u8,
    style: Style,
) -> Result<bool, AllocError>
    ensures { 1 ≤ status → status ≤ 3 → IfOk result (λ is. is ≡ true) }
{
    if matches!(status, 1..=3) {
        return Ok(true);
    }
    let words = texts_of(alloc, words)?;
    Ok(tells_idle(given_by(words.as_slice()), status, style))
}

/// Whether something is told for which the journal of the host is read: of a run on a terminal in which locks kept promises back.
pub fn wants_journal(
    alloc: Global,
    words: &[Name],
    status: u8,
    sights: &Sights,
    style: Style,
) -> Result<bool, AllocError> {
    let words = texts_of(alloc, words)?;
    let given = given_by(words.as_slice());
    Ok(given.command == "run" && sights.has_skipped() && tells_idle(given, status, style))
}

impl<'a> Heard<'a> {
    fn push_words(&self, alloc: Global, text: &mut String) -> Result<(), AllocError> {
        let words = texts_of(alloc, self.words)?;
        let told = words_advice(alloc, words_fault(words.as_slice()))?;
        text.push_str(told.as_str())
    }

    // Tells of the failed promise of a number, from 0.
    fn push_failed(
        &self,
        alloc: Global,
        text: &mut String,
        line: &str,
        number: usize,
    ) -> Result<(), AllocError> {
        let Some(failed) = read_failed(line) else {
            return Ok(());
        };
        let subject = match (reason_of(failed.code), self.sights.get(number)) {
            (Some(reason), Some(sight)) => subject_of(reason, sight),
            _ => None,
        };
        push_failed(alloc, text, self.style, self.sources, failed, subject)
    }

    fn push_conflict(
        &self,
        alloc: Global,
        text: &mut String,
        line: &str,
    ) -> Result<(), AllocError> {
        match read_conflict(line) {
            Some(conflict) => push_conflict(alloc, text, self.style, self.sources, conflict),
            None => Ok(()),
        }
    }

    fn push_refused(&self, alloc: Global, text: &mut String, line: &str) -> Result<(), AllocError> {
        match read_refused(line) {
            Some(refused) => {
                push_refused(alloc, text, self.style, self.sources, refused)?;
                if let Ok(more) = before_text(alloc, self.sources, refused) {
                    text.push_str(more.as_str())?;
                }
                if let Ok(more) = takes_text(alloc, self.sources, refused) {
                    text.push_str(more.as_str())?;
                }
                Ok(())
            }
            None => Ok(()),
        }
    }

    fn push_sentence(text: &mut String, sentence: Option<&str>) -> Result<(), AllocError> {
        match sentence {
            Some(sentence) => {
                text.push_str(sentence)?;
                text.push_str("\n")
            }
            None => Ok(()),
        }
    }

    fn push_settled(&self, text: &mut String, rest: &str) -> Result<(), AllocError> {
        if !self.style.is_terminal {
            return Ok(());
        }
        match rest.strip_suffix(')') {
            Some(cause) => Heard::push_sentence(text, settled_sentence(cause)),
            None => Ok(()),
        }
    }

    // Tells of a line that was put, which isn't one of a failed promise.
    fn push_line(&self, alloc: Global, text: &mut String, line: &str) -> Result<(), AllocError> {
        if line == "words: refused" {
            self.push_words(alloc, text)
        } else if line == "moment: refused" {
            Heard::push_sentence(text, Some(MOMENT))
        } else if let Some(cause) = line.strip_prefix("stopped: ") {
            Heard::push_sentence(text, stop_sentence(cause))
        } else if let Some(rest) = line.strip_prefix("settled: no (") {
            self.push_settled(text, rest)
        } else if self.status == 3 {
            self.push_conflict(alloc, text, line)
        } else if self.status == 1 {
            self.push_refused(alloc, text, line)
        } else {
            Ok(())
        }
    }

    // Tells of a line, and answers how many failed promises there were up to it.
    fn push_told(
        &self,
        alloc: Global,
        text: &mut String,
        line: &[u8],
        failed: usize,
    ) -> Result<usize, AllocError> {
        let Ok(line) = str::from_utf8(line) else {
            return Ok(failed);
        };
        let line = line.strip_suffix('\n').unwrap_or(line);
        if !line.starts_with("failed ") {
            self.push_line(alloc, text, line)?;
            return Ok(failed);
        }
        if failed < MOST_FAILED {
            self.push_failed(alloc, text, line, failed)?;
        }
        Ok(failed.saturating_add(1))
    }

    // Whether a line of this call is one that is told of: what is shown is no line of these.
    fn tells(&self) -> bool
        ensures { IsShown self.now → result ≡ false }
    {
        match self.words.first() {
            Some(word) => self.status != 0 || word.as_str() != "show",
            None => true,
        }
    }

    fn push_all(
        &self,
        alloc: Global,
        text: &mut String,
        lines: &[Bytes],
    ) -> Result<usize, AllocError> {
        let mut failed = 0usize;
        for line in lines {
            failed = self.push_told(alloc, text, line.as_slice(), failed)?;
        }
        Ok(failed)
    }

    fn push_more(alloc: Global, text: &mut String, failed: usize) -> Result<(), AllocError> {
        if failed <= MOST_FAILED {
            return Ok(());
        }
        let more = failed.saturating_sub(MOST_FAILED);
        let line = format!(in alloc; "{more} more promises failed\n")?;
        text.push_str(line.as_str())
    }

    fn push_idle(&self, alloc: Global, text: &mut String) -> Result<(), NoMemory> {
        let words = texts_of(alloc, self.words)?;
        let given = given_by(words.as_slice());
        if tells_idle(given, self.status, self.style) {
            let told = idle_text(alloc, self.sources, given.classes)?;
            text.push_str(told.as_str())?;
        }
        if !self.journal.is_empty() {
            let told = skipped_text(alloc, self.sources, self.sights, self.journal)?;
            text.push_str(told.as_str())?;
        }
        Ok(())
    }

    /// What a person is told of the call: nothing where a policy was shown.
    pub fn advice(&self, alloc: Global) -> Result<String, AllocError>
        ensures { IsShown self.now → IfOk result (λ text. string_bytes text ≡ []) }
    {
        let mut text = String::new(alloc);
        if !self.tells() {
            return Ok(text);
        }
        let failed = self.push_all(alloc, &mut text, self.told.lines())?;
        Heard::push_more(alloc, &mut text, failed)?;
        if let Some(last) = self.told.last() {
            self.push_told(alloc, &mut text, last.as_slice(), failed)?;
        }
        if self.status == 2 || self.status == 4 {
            Heard::push_sentence(&mut text, self.outside)?;
        }
        // Where there is no memory for it, it isn't told.
        let _ = self.push_idle(alloc, &mut text);
        Ok(text)
    }
}
