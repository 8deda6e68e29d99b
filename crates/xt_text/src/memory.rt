// The one error that any call which allocates may give.
use std::alloc::{AllocError, AllocFailed};
use thiserror::Error;

/// Want of memory: the call did not happen, and it may be tried again.
#[derive(Clone, Copy, Debug, PartialEq, Eq, Error)]
#[error("out of memory")]
pub struct Memory;

impl From<AllocError> for Memory {
    fn from(_: AllocError) -> Self {
        Memory
    }
}

impl<T: Drop> From<AllocFailed<T>> for Memory {
    fn from(_: AllocFailed<T>) -> Self {
        Memory
    }
}
