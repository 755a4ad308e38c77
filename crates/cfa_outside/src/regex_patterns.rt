// A builder of patterns by the crate `regex`.
ghost use Rattle.std.specs.Prelude.{◌≡◌, [], not, IsTrue, IfOk, OnOk, IsErrOf};
ghost use Rattle.cfa_base.specs.Patterns.{pattern_of, is_pattern, refused_by, SizeRefusal};
ghost use Rattle.cfa_outside.specs.RegexPatterns.{refused_texts, turns_of, shown_of, is_too_big};
ghost use Rattle.cfa_outside.specs.Turns.{no_calls, after_call, is_next_listed};

use crate::turns::{Turns, note};
use cfa_base::{How, Name, Names, Pattern, PatternErr, Patterns};
use std::alloc::Global;

/// Builds patterns by the crate `regex`, and tells the texts that it refused for their size. Builds are numbered from 1.
#[derive(Debug, Drop)]
pub struct RegexPatterns {
    refused: Names,
    turns: Turns,
}

impl RegexPatterns {
    /// A builder whose builds of the listed numbers are refused for their size, where the text is a pattern; besides
    /// these it refuses what `regex` finds too big. It takes no memory.
    pub fn new(alloc: Global, refuse: Vec<u32>) -> RegexPatterns
        ensures refused { refused_texts result ≡ [] }
        ensures turns { turns_of result ≡ no_calls refuse.items }
    {
        RegexPatterns {
            refused: Names::new(alloc),
            turns: Turns::new(refuse),
        }
    }
}

impl Patterns for RegexPatterns {
    ghost shown = { shown_of };

    fn build(&mut self, alloc: Global, text: &Name, how: How) -> Result<Pattern, PatternErr>
        ensures pattern { IfOk result (λ p. p ≡ pattern_of how text.now) }
        ensures reads { OnOk result (IsTrue (is_pattern how text.now)) }
        ensures bad { IsErrOf result PatternErr.Bad → IsTrue (not (is_pattern how text.now)) }
        ensures too_big { IsErrOf result PatternErr.TooBig → IsTrue (is_pattern how text.now) }
        ensures shown { SizeRefusal (λ refused. refused ≡ text.now) (refused_by text.now result)
            (shown_of self.old) (shown_of self.new) }
        ensures turn { turns_of self.new ≡ after_call (is_too_big result) (turns_of self.old) }
        ensures listed { OnOk result (IsTrue (not (is_next_listed (turns_of self.old)))) }
    {
        let is_listed = self.turns.take();
        match Pattern::new(alloc, text, how) {
            Ok(pattern) if !is_listed => return Ok(pattern),
            Ok(_) => {}
            Err(PatternErr::TooBig) => {}
            Err(PatternErr::Bad) => return Err(PatternErr::Bad),
            Err(PatternErr::NoMemory) => return Err(PatternErr::NoMemory),
        }
        note(alloc, &mut self.refused, text)?;
        self.turns.fail();
        Err(PatternErr::TooBig)
    }
}
