// What searches many texts for one pattern.
ghost use Rattle.std.specs.Prelude.{◌≡◌, IfOk};
ghost use Rattle.cfa_base.specs.Patterns.{matches_in, replaced};

use crate::{How, Name, NoMemory};
use regex::{Regex, Template};
use std::alloc::Global;
use std::marker::Model;

/// What searches texts for one pattern. Contracts see the pattern.
#[derive(Drop)]
pub struct Matcher<'p> {
    pub(super) text: &'p Name,
    pub(super) how: How,
    pub(super) regex: &'p Regex,
    pub(super) inner: regex::Matcher<'p>,
}

impl<'p> Model for Matcher<'p> {
    ghost use Rattle.cfa_base.specs.Patterns.{PatternText};
    ghost use Rattle.cfa_base.specs.CompiledPatterns.{IsMatcherOf};

    ghost Value = { PatternText };

    ghost view = { λ m. record { text = m.text.now; how = m.how } };

    ghost invariant = { λ m. IsMatcherOf m.how m.text.now m.regex.now m.inner };
}

impl<'p> Matcher<'p> {
    /// Whether the pattern matches in the text.
    pub fn matches(&mut self, text: &str) -> bool
        ensures found { result ≡ matches_in self.old text.now }
        ensures same { self.new ≡ self.old }
    {
        self.inner.is_match(text)
    }

    /// The text with each match from left to right replaced by the value as plain text, or with the first alone.
    pub fn replace(
        &mut self,
        alloc: Global,
        text: &str,
        with: &Name,
        all: bool,
    ) -> Result<Name, NoMemory>
        ensures value { IfOk result (λ name. name ≡ replaced self.old text.now with.now all) }
        ensures same { self.new ≡ self.old }
    {
        let value = Template::literal(alloc, with.as_str())?;
        if all {
            Ok(Name::from_string(self.inner.replace_all(alloc, text, &value)?)?)
        } else {
            Ok(Name::from_string(self.inner.replace(alloc, text, &value)?)?)
        }
    }
}
