// What a call on the outside answers in place of its answer.
ghost use Rattle.std.specs.Prelude.{◌≡◌};
ghost use Rattle.cfa_outside.specs.declared.errors.OutsideErr.TheVariants.{NoMemory};
ghost use Rattle.cfa_outside.specs.declared.errors.NodeErr.TheVariants.{NoMemory as no_room};

use cfa_base as base;
use std::alloc::{AllocError, AllocFailed};
use thiserror::Error;

/// Why a call on a site, on inputs or on a sink gave no answer.
#[derive(Clone, Copy, Debug, PartialEq, Eq, Error)]
pub enum OutsideErr {
    /// The outside refused. The object's count of faults rose in this call.
    #[error("the outside failed")]
    Failed,
    /// No memory was left for the answer.
    #[error("out of memory")]
    NoMemory,
}

impl From<base::NoMemory> for OutsideErr {
    ghost from_gives = { λ _ e. e ≡ NoMemory };

    fn from(_: base::NoMemory) -> Self {
        OutsideErr::NoMemory
    }
}

impl From<AllocError> for OutsideErr {
    ghost from_gives = { λ _ e. e ≡ NoMemory };

    fn from(_: AllocError) -> Self {
        OutsideErr::NoMemory
    }
}

impl<T: Drop> From<AllocFailed<T>> for OutsideErr {
    ghost from_gives = { λ _ e. e ≡ NoMemory };

    fn from(_: AllocFailed<T>) -> Self {
        OutsideErr::NoMemory
    }
}

/// Why a node wasn't added.
#[derive(Clone, Copy, Debug, PartialEq, Eq, Error)]
pub enum NodeErr {
    /// A node stands there, or what stands above isn't directories up to the root.
    #[error("no place for a node")]
    Misplaced,
    /// No memory was left for the node.
    #[error("out of memory")]
    NoMemory,
}

impl From<base::NoMemory> for NodeErr {
    ghost from_gives = { λ _ e. e ≡ no_room };

    fn from(_: base::NoMemory) -> Self {
        NodeErr::NoMemory
    }
}

impl From<AllocError> for NodeErr {
    ghost from_gives = { λ _ e. e ≡ no_room };

    fn from(_: AllocError) -> Self {
        NodeErr::NoMemory
    }
}
