// Why a policy wasn't checked to be valid.
ghost use Rattle.std.specs.Prelude.{◌≡◌};
ghost use Rattle.cfa_schema.specs.declared.errors.SchemaErr.TheVariants.{NoMemory};

use cfa_base as base;
use cfa_base::Name;
use cfa_values::Refusal;
use std::alloc::{AllocError, AllocFailed};
use thiserror::Error;

/// Why a policy wasn't checked to be valid.
#[derive(Debug, Drop, Error)]
pub enum SchemaErr {
    /// The policy isn't valid; this is its first refusal.
    #[error("the policy is refused")]
    Refused(Refusal),
    /// The pattern of this text was refused for its size.
    #[error("a pattern is too big")]
    PatternTooBig(Name),
    /// No memory was left for the check.
    #[error("out of memory")]
    NoMemory,
}

impl From<base::NoMemory> for SchemaErr {
    ghost from_gives = { λ _ e. e ≡ NoMemory };

    fn from(_: base::NoMemory) -> Self {
        SchemaErr::NoMemory
    }
}

impl From<AllocError> for SchemaErr {
    ghost from_gives = { λ _ e. e ≡ NoMemory };

    fn from(_: AllocError) -> Self {
        SchemaErr::NoMemory
    }
}

impl<T: Drop> From<AllocFailed<T>> for SchemaErr {
    ghost from_gives = { λ _ e. e ≡ NoMemory };

    fn from(_: AllocFailed<T>) -> Self {
        SchemaErr::NoMemory
    }
}
