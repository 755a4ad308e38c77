// Texts that are no patterns, and the part of each that the crate `regex` doesn't read.
ghost use Rattle.std.specs.Prelude.{◌≡◌};

use cfa_base::{How, Name, Names, Pattern, PatternErr, Patterns};
use regex::{Error, Regex};
use std::alloc::{AllocError, Global};

// The most texts that are kept.
const MOST_KEPT: usize = 20;

/// A builder of patterns that keeps the texts that another one found to be no patterns, each once.
#[derive(Drop)]
pub struct NotingPatterns<P> {
    inner: P,
    bad: Names,
}

impl<P: Drop> NotingPatterns<P> {
    /// The same builder, of which is kept what is found from now on.
    pub fn new(alloc: Global, inner: P) -> NotingPatterns<P>
        ensures { result.inner ≡ inner }
    {
        NotingPatterns {
            inner,
            bad: Names::new(alloc),
        }
    }

    /// The texts that are no patterns, in the order in which they were found.
    pub fn bad(&self) -> &[Name] {
        self.bad.as_slice()
    }
}

fn has(names: &[Name], text: &str) -> bool {
    for name in names {
        if name.as_str() == text {
            return true;
        }
    }
    false
}

// A text for which there is no memory isn't kept.
fn keep(alloc: Global, bad: &mut Names, text: &Name) {
    if bad.as_slice().len() >= MOST_KEPT || has(bad.as_slice(), text.as_str()) {
        return;
    }
    if let Ok(text) = text.copy(alloc) {
        let _ = bad.push(text);
    }
}

impl<P: Patterns + Drop> Patterns for NotingPatterns<P> {
    ghost shown = { λ p. P.shown p.inner };

    fn build(&mut self, alloc: Global, text: &Name, how: How) -> Result<Pattern, PatternErr> {
        let answer = self.inner.build(alloc, text, how);
        if let Err(PatternErr::Bad) = &answer {
            keep(alloc, &mut self.bad, text);
        }
        answer
    }
}

fn line_of(alloc: Global, text: &str) -> Result<String, AllocError> {
    let Err(Error::Syntax(error)) = Regex::new(alloc, text) else {
        return Ok(String::new(alloc));
    };
    let (start, end) = (error.span.start, error.span.end);
    let part = text.get(start..end).unwrap_or("");
    let (col, why) = (start.saturating_add(1), error.kind.message());
    format!(in alloc; "        {text:?} is no regular expression: {part:?} at byte {col}: {why}\n")
}

/// What is told of texts that are no patterns: the part of each that isn't read, and why.
pub fn patterns_text(alloc: Global, texts: &[Name]) -> Result<String, AllocError> {
    let mut told = String::new(alloc);
    for text in texts {
        let line = line_of(alloc, text.as_str())?;
        told.push_str(line.as_str())?;
    }
    Ok(told)
}
