// What the lexer answers in place of tokens.
ghost use Rattle.std.specs.Prelude.{◌≡◌};
ghost use Rattle.cfa_lexer.specs.declared.errors.LexErr.TheVariants.{NoMemory};

use cfa_base as base;
use cfa_base::Place;
use std::alloc::{AllocError, AllocFailed};
use thiserror::Error;

/// Why a source has no tokens, with the place of the fault.
#[derive(Clone, Copy, Debug, PartialEq, Eq, Error)]
pub enum LexErr {
    /// L1: a byte that begins no token, or a `$` or `@` that begins no reference.
    #[error("a byte that begins no token")]
    BadByte(Place),
    /// L2: the opening quote of a text that isn't closed.
    #[error("a text that isn't closed")]
    UnclosedText(Place),
    /// L3: the first byte at which the source stops being UTF-8.
    #[error("a byte that isn't UTF-8")]
    NotText(Place),
    /// L4: more than 1,048,576 bytes.
    #[error("a source of more than 1,048,576 bytes")]
    TooLong,
    #[error("out of memory")]
    NoMemory,
}

impl From<base::NoMemory> for LexErr {
    ghost from_gives = { λ _ e. e ≡ NoMemory };

    fn from(_: base::NoMemory) -> Self {
        LexErr::NoMemory
    }
}

impl From<AllocError> for LexErr {
    ghost from_gives = { λ _ e. e ≡ NoMemory };

    fn from(_: AllocError) -> Self {
        LexErr::NoMemory
    }
}

impl<T: Drop> From<AllocFailed<T>> for LexErr {
    ghost from_gives = { λ _ e. e ≡ NoMemory };

    fn from(_: AllocFailed<T>) -> Self {
        LexErr::NoMemory
    }
}
