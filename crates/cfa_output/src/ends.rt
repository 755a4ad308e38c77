// What ends a call before its work is done.
ghost use Rattle.std.specs.Prelude.{◌≡◌, option_copied};
ghost use Rattle.cfa_output.specs.Lines.{stop_line};

use crate::{Halt, SinkFailed};
use cfa_base::{Name, NoMemory};
use std::alloc::{AllocError, AllocFailed};
use thiserror::Error;

/// An object of the outside that a call failed on.
#[derive(Clone, Copy, Debug, PartialEq, Eq)]
pub enum Object {
    /// A file of the policy couldn't be read.
    Inputs,
    /// A lock couldn't be looked at or set, or a record of the journal couldn't be written.
    Site,
    /// A put failed.
    Sink,
}

/// What stops a call before its end.
#[derive(Debug, Drop, Error)]
pub enum Stop {
    /// A call on this object failed.
    #[error("the outside failed")]
    Outside(Object),
    /// No memory was left.
    #[error("out of memory")]
    Memory,
    /// More visits are needed than a run may make.
    #[error("too many visits")]
    Visits,
    /// A pattern of this text was refused for its size.
    #[error("a pattern is too big")]
    Pattern(Name),
}

impl Stop {
    /// The line that tells the stop, without taking memory. `None` after a failed put: nothing is put then.
    pub fn line(&self) -> Option<&'static str>
        ensures { option_copied result ≡ stop_line self.now }
    {
        match self {
            Stop::Outside(Object::Inputs | Object::Site) => Some(Halt::Outside.line()),
            Stop::Outside(Object::Sink) => None,
            Stop::Memory => Some(Halt::Memory.line()),
            Stop::Visits => Some(Halt::Visits.line()),
            Stop::Pattern(_) => Some(Halt::Pattern.line()),
        }
    }
}

impl From<NoMemory> for Stop {
    ghost use Rattle.std.specs.Prelude.{◌≡◌};
    ghost use Rattle.cfa_output.specs.declared.ends.Stop.TheVariants.{Memory};

    ghost from_gives = { λ _ e. e ≡ Memory };

    fn from(_: NoMemory) -> Self {
        Stop::Memory
    }
}

impl From<AllocError> for Stop {
    ghost use Rattle.std.specs.Prelude.{◌≡◌};
    ghost use Rattle.cfa_output.specs.declared.ends.Stop.TheVariants.{Memory};

    ghost from_gives = { λ _ e. e ≡ Memory };

    fn from(_: AllocError) -> Self {
        Stop::Memory
    }
}

impl<T: Drop> From<AllocFailed<T>> for Stop {
    ghost use Rattle.std.specs.Prelude.{◌≡◌};
    ghost use Rattle.cfa_output.specs.declared.ends.Stop.TheVariants.{Memory};

    ghost from_gives = { λ _ e. e ≡ Memory };

    fn from(_: AllocFailed<T>) -> Self {
        Stop::Memory
    }
}

/// What ends the work on a call before its end.
#[derive(Debug, Drop, Error)]
pub enum Failure {
    /// The words, the moment or the policy is refused with this line.
    #[error("the call is refused")]
    Refused(Name),
    /// Something stopped the call.
    #[error("the call was stopped")]
    Stopped(Stop),
}

impl From<Stop> for Failure {
    ghost use Rattle.std.specs.Prelude.{◌≡◌};
    ghost use Rattle.cfa_output.specs.declared.ends.Failure.TheVariants.{Stopped};

    ghost from_gives = { λ stop e. e ≡ Stopped stop };

    fn from(stop: Stop) -> Self {
        Failure::Stopped(stop)
    }
}

impl From<NoMemory> for Failure {
    ghost use Rattle.std.specs.Prelude.{◌≡◌};
    ghost use Rattle.cfa_output.specs.declared.ends.Stop.TheVariants.{Memory};
    ghost use Rattle.cfa_output.specs.declared.ends.Failure.TheVariants.{Stopped};

    ghost from_gives = { λ _ e. e ≡ Stopped Memory };

    fn from(_: NoMemory) -> Self {
        Failure::Stopped(Stop::Memory)
    }
}

impl From<AllocError> for Failure {
    ghost use Rattle.std.specs.Prelude.{◌≡◌};
    ghost use Rattle.cfa_output.specs.declared.ends.Stop.TheVariants.{Memory};
    ghost use Rattle.cfa_output.specs.declared.ends.Failure.TheVariants.{Stopped};

    ghost from_gives = { λ _ e. e ≡ Stopped Memory };

    fn from(_: AllocError) -> Self {
        Failure::Stopped(Stop::Memory)
    }
}

impl<T: Drop> From<AllocFailed<T>> for Failure {
    ghost use Rattle.std.specs.Prelude.{◌≡◌};
    ghost use Rattle.cfa_output.specs.declared.ends.Stop.TheVariants.{Memory};
    ghost use Rattle.cfa_output.specs.declared.ends.Failure.TheVariants.{Stopped};

    ghost from_gives = { λ _ e. e ≡ Stopped Memory };

    fn from(_: AllocFailed<T>) -> Self {
        Failure::Stopped(Stop::Memory)
    }
}

impl From<SinkFailed> for Stop {
    ghost use Rattle.std.specs.Prelude.{◌≡◌};
    ghost use Rattle.cfa_output.specs.declared.ends.Object.TheVariants.{Sink};
    ghost use Rattle.cfa_output.specs.declared.ends.Stop.TheVariants.{Outside};

    ghost from_gives = { λ _ e. e ≡ Outside Sink };

    fn from(_: SinkFailed) -> Self {
        Stop::Outside(Object::Sink)
    }
}
