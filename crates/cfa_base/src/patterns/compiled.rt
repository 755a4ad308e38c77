// What searches texts for a pattern.
ghost use Rattle.std.specs.Prelude.{◌≡◌, not, IsTrue, IfOk, IfErr, OnOk, IsErrOf, string_bytes};
ghost use Rattle.cfa_base.specs.Patterns.{PatternText, built_text, pattern_of, is_pattern, matches_in};
ghost use Rattle.cfa_base.specs.CompiledPatterns.{IsBuilt};

use super::{How, Matcher, Pattern, PatternErr};
use crate::{Name, NoMemory};
use regex::Regex;
use std::alloc::Global;
use std::marker::Model;

/// A pattern with what `regex` made of it. Contracts see the pattern.
#[derive(Drop)]
pub struct CompiledPattern {
    regex: Regex,
    text: Name,
    how: How,
}

impl Model for CompiledPattern {
    ghost Value = { PatternText };

    ghost view = { λ p. record { text = p.text; how = p.how } };

    ghost invariant = { λ p. IsBuilt p.how p.text p.regex };
}

impl CompiledPattern {
    pub(super) fn new(alloc: Global, text: &Name, how: How) -> Result<CompiledPattern, PatternErr>
        ensures pattern { IfOk result (λ p. p ≡ pattern_of how text.now) }
        ensures reads { OnOk result (IsTrue (is_pattern how text.now)) }
        ensures bad { IsErrOf result PatternErr.Bad → IsTrue (not (is_pattern how text.now)) }
        ensures too_big { IsErrOf result PatternErr.TooBig → IsTrue (is_pattern how text.now) }
    {
        let regex = compile(alloc, text, how)?;
        Ok(CompiledPattern {
            regex,
            text: text.copy(alloc)?,
            how,
        })
    }

    /// What searches texts for the pattern, so that many texts cost one making. A pattern was compiled once when it was
    /// made, so that nothing but memory can be wanting here.
    pub fn of(alloc: Global, pattern: &Pattern) -> Result<CompiledPattern, NoMemory>
        ensures { IfOk result (λ compiled. compiled ≡ pattern.now) }
    {
        match CompiledPattern::new(alloc, &pattern.text, pattern.how) {
            Ok(compiled) => Ok(compiled),
            Err(_) => Err(NoMemory),
        }
    }

    /// What searches texts for the pattern, with the room that a search takes.
    pub fn matcher(&self, alloc: Global) -> Result<Matcher<'_>, NoMemory>
        ensures { IfOk result (λ matcher. matcher ≡ self.now) }
    {
        Ok(Matcher {
            text: &self.text,
            how: self.how,
            regex: &self.regex,
            inner: self.regex.matcher(alloc)?,
        })
    }

    /// Whether the pattern matches in the text.
    pub fn matches(&self, alloc: Global, text: &Name) -> Result<bool, NoMemory>
        ensures { IfOk result (λ found. found ≡ matches_in self.now text.now) }
    {
        Ok(self.matcher(alloc)?.matches(text.as_str()))
    }
}

fn compile(alloc: Global, text: &Name, how: How) -> Result<Regex, PatternErr>
    ensures built { IfOk result (IsBuilt how text.now) }
    ensures reads { OnOk result (IsTrue (is_pattern how text.now)) }
    ensures bad { IsErrOf result PatternErr.Bad → IsTrue (not (is_pattern how text.now)) }
    ensures too_big { IsErrOf result PatternErr.TooBig → IsTrue (is_pattern how text.now) }
{
    let built = build_text(alloc, text, how)?;
    match Regex::new(alloc, built.as_str()) {
        Ok(regex) => Ok(regex),
        Err(regex::Error::Syntax(_)) => Err(PatternErr::Bad),
        Err(regex::Error::CompiledTooBig) => Err(PatternErr::TooBig),
        Err(regex::Error::Internal) => Err(PatternErr::Bad),
        Err(regex::Error::OutOfMemory) => Err(PatternErr::NoMemory),
    }
}

fn build_text(alloc: Global, text: &Name, how: How) -> Result<String, PatternErr>
    ensures text { IfOk result (λ built. string_bytes built ≡ built_text how text.now) }
    ensures memory { IfErr result (λ e. e ≡ PatternErr.NoMemory) }
{
    let mut built = String::new(alloc);
    match how {
        How::Whole => {
            built.push_str(r"\A(?:")?;
            built.push_str(text.as_str())?;
            built.push_str(r")\z")?;
        }
        How::Part => built.push_str(text.as_str())?,
    }
    Ok(built)
}
