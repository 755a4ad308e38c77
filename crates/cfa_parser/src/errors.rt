// What the parser answers in place of a policy.
ghost use Rattle.std.specs.Prelude.{◌≡◌};
ghost use Rattle.cfa_parser.specs.declared.errors.ParseErr.TheVariants.{NoMemory};

use cfa_base as base;
use cfa_base::Place;
use std::alloc::{AllocError, AllocFailed};
use thiserror::Error;

/// Why tokens are no policy, with the place of the fault.
#[derive(Clone, Copy, Debug, PartialEq, Eq, Error)]
pub enum ParseErr {
    /// P1: the first token such that no policy begins with the tokens up to it, or the end where the tokens end too
    /// early.
    #[error("a token that can't stand here")]
    Unexpected(Place),
    /// P2: the token that opens a 17th level of calls, parentheses of guards and negations.
    #[error("more than 16 levels")]
    TooDeep(Place),
    #[error("out of memory")]
    NoMemory,
}

impl From<base::NoMemory> for ParseErr {
    ghost from_gives = { λ _ e. e ≡ NoMemory };

    fn from(_: base::NoMemory) -> Self {
        ParseErr::NoMemory
    }
}

impl From<AllocError> for ParseErr {
    ghost from_gives = { λ _ e. e ≡ NoMemory };

    fn from(_: AllocError) -> Self {
        ParseErr::NoMemory
    }
}

impl<T: Drop> From<AllocFailed<T>> for ParseErr {
    ghost from_gives = { λ _ e. e ≡ NoMemory };

    fn from(_: AllocFailed<T>) -> Self {
        ParseErr::NoMemory
    }
}
