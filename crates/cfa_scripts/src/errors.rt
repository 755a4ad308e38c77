// Why there is no script.
use cfa_base as base;
use cfa_base::Name;
use cfa_functions::CallErr;
use std::alloc::{AllocError, AllocFailed};
use thiserror::Error;

/// Why an edit bundle was not walked to its end.
#[derive(Debug, Drop, Error)]
pub enum ScriptErr {
    /// Its promises count more visits than are left.
    #[error("more visits than are left")]
    TooLarge,
    /// The pattern of this text was refused for its size.
    #[error("a pattern is too big")]
    PatternTooBig(Name),
    /// No memory was left.
    #[error("out of memory")]
    NoMemory,
}

impl From<base::NoMemory> for ScriptErr {
    ghost use Rattle.cfa_scripts.specs.declared.errors.ScriptErr.TheVariants.{NoMemory};
    ghost use Rattle.std.specs.Prelude.{◌≡◌};

    ghost from_gives = { λ _ e. e ≡ NoMemory };

    fn from(_: base::NoMemory) -> Self {
        ScriptErr::NoMemory
    }
}

impl From<AllocError> for ScriptErr {
    ghost use Rattle.cfa_scripts.specs.declared.errors.ScriptErr.TheVariants.{NoMemory};
    ghost use Rattle.std.specs.Prelude.{◌≡◌};

    ghost from_gives = { λ _ e. e ≡ NoMemory };

    fn from(_: AllocError) -> Self {
        ScriptErr::NoMemory
    }
}

impl<T: Drop> From<AllocFailed<T>> for ScriptErr {
    ghost use Rattle.cfa_scripts.specs.declared.errors.ScriptErr.TheVariants.{NoMemory};
    ghost use Rattle.std.specs.Prelude.{◌≡◌};

    ghost from_gives = { λ _ e. e ≡ NoMemory };

    fn from(_: AllocFailed<T>) -> Self {
        ScriptErr::NoMemory
    }
}

impl From<CallErr> for ScriptErr {
    ghost use Rattle.cfa_scripts.specs.Refusals.{error_of};
    ghost use Rattle.std.specs.Prelude.{◌≡◌};

    ghost from_gives = { λ c e. e ≡ error_of c };

    fn from(error: CallErr) -> Self {
        match error {
            CallErr::PatternTooBig(text) => ScriptErr::PatternTooBig(text),
            CallErr::NoMemory => ScriptErr::NoMemory,
        }
    }
}
