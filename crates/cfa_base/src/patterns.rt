// Patterns, and what builds them.
ghost use Rattle.std.specs.Prelude.{◌≡◌, ℕ, List, not, IsTrue, IfOk, OnOk, IsErrOf};
ghost use Rattle.cfa_base.specs.Patterns.{PatternText, pattern_of, is_pattern, refused_by, SizeRefusal};
ghost use Rattle.cfa_base.specs.Shown.{Shown};
ghost use Rattle.cfa_base.specs.declared.patterns.PatternErr.TheVariants.{NoMemory};

use crate::{Name, want_of_memory as memory};
use std::alloc::{AllocError, AllocFailed, Global};
use std::marker::Model;
use thiserror::Error;

/// Whether a pattern is to match a whole text or a part of one.
#[derive(Clone, Copy, Debug, PartialEq, Eq)]
pub enum How {
    /// The text is built between `\A(?:` and `)\z`.
    Whole,
    /// The text is built as it stands.
    Part,
}

/// Why a pattern wasn't built.
#[derive(Clone, Copy, Debug, PartialEq, Eq, Error)]
pub enum PatternErr {
    /// The built text is no pattern of the crate `regex`, or it is nested too deep for it.
    #[error("not a pattern")]
    Bad,
    /// The built text is a pattern, and the builder refused it for its size.
    #[error("the pattern is too big")]
    TooBig,
    /// No memory was left for the pattern.
    #[error("out of memory")]
    NoMemory,
}

impl From<memory::NoMemory> for PatternErr {
    ghost from_gives = { λ _ e. e ≡ NoMemory };

    fn from(_: memory::NoMemory) -> Self {
        PatternErr::NoMemory
    }
}

impl From<AllocError> for PatternErr {
    ghost from_gives = { λ _ e. e ≡ NoMemory };

    fn from(_: AllocError) -> Self {
        PatternErr::NoMemory
    }
}

impl<T: Drop> From<AllocFailed<T>> for PatternErr {
    ghost from_gives = { λ _ e. e ≡ NoMemory };

    fn from(_: AllocFailed<T>) -> Self {
        PatternErr::NoMemory
    }
}

/// A pattern in the syntax of the crate `regex`, as its text. Contracts see the text and how it is built, which say what it
/// matches; of two patterns that are seen alike each may stand for the other. What searches for it is a `CompiledPattern`, and
/// no method here answers one: a crate that keeps patterns would read all that searching stands on.
#[derive(Drop)]
pub struct Pattern {
    text: Name,
    how: How,
}

impl Model for Pattern {
    ghost Value = { PatternText };

    ghost view = { λ p. record { text = p.text; how = p.how } };
}

impl Pattern {
    /// The pattern of a text as in the policy. `Bad` comes exactly where the built text is no pattern or is nested too
    /// deep, and `TooBig` where `regex` finds the pattern too big.
    pub fn new(alloc: Global, text: &Name, how: How) -> Result<Pattern, PatternErr>
        ensures pattern { IfOk result (λ p. p ≡ pattern_of how text.now) }
        ensures reads { OnOk result (IsTrue (is_pattern how text.now)) }
        ensures bad { IsErrOf result PatternErr.Bad → IsTrue (not (is_pattern how text.now)) }
        ensures too_big { IsErrOf result PatternErr.TooBig → IsTrue (is_pattern how text.now) }
    {
        let _compiled = CompiledPattern::new(alloc, text, how)?;
        Ok(Pattern {
            text: text.copy(alloc)?,
            how,
        })
    }

    /// The text as in the policy, without taking memory.
    pub fn text(&self) -> &str
        ensures { result.now ≡ self.now.text }
    {
        self.text.as_str()
    }
}

/// What builds patterns, and refuses some for their size.
pub trait Patterns {
    /// The texts that were refused for their size, in order, where the builder tells them, and how often one was, as a
    /// number below 2 ^ 64 that stands still at its end.
    ghost shown: { Self → Shown (List (List ℕ)) };

    /// The pattern of a text as in the policy. `Bad` comes exactly where the built text is no pattern or is nested too
    /// deep. `TooBig` adds the text to those that were refused for their size; after any other answer the builder is as
    /// it was.
    fn build(&mut self, alloc: Global, text: &Name, how: How) -> Result<Pattern, PatternErr>
        ensures pattern { IfOk result (λ p. p ≡ pattern_of how text.now) }
        ensures reads { OnOk result (IsTrue (is_pattern how text.now)) }
        ensures bad { IsErrOf result PatternErr.Bad → IsTrue (not (is_pattern how text.now)) }
        ensures too_big { IsErrOf result PatternErr.TooBig → IsTrue (is_pattern how text.now) }
        ensures shown { SizeRefusal (λ refused. refused ≡ text.now) (refused_by text.now result)
            (shown self.old) (shown self.new) };
}

mod compiled;
mod matcher;

pub use compiled::CompiledPattern;
pub use matcher::Matcher;
