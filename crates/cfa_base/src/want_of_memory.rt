// Want of memory, the one answer that any allocating call may give.
use std::alloc::{AllocError, AllocFailed};
use thiserror::Error;

/// No memory was left for what a call had to allocate. What the call was lent is as it was before.
#[derive(Clone, Copy, Debug, PartialEq, Eq, Error)]
#[error("out of memory")]
pub struct NoMemory;

impl From<AllocError> for NoMemory {
    fn from(_: AllocError) -> Self {
        NoMemory
    }
}

impl<T: Drop> From<AllocFailed<T>> for NoMemory {
    fn from(_: AllocFailed<T>) -> Self {
        NoMemory
    }
}
