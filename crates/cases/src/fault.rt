// Why a line has no answer.

use std::alloc::{AllocError, AllocFailed};
use xt_text::Memory;

/// Why a line has no answer.
#[derive(Clone, Copy, PartialEq, Eq)]
pub enum Fault {
    /// Want of memory.
    Memory,
    /// It is no call with its arguments.
    NoCase,
}

impl From<Memory> for Fault {
    fn from(_: Memory) -> Self {
        Fault::Memory
    }
}

impl From<AllocError> for Fault {
    fn from(_: AllocError) -> Self {
        Fault::Memory
    }
}

impl<T: Drop> From<AllocFailed<T>> for Fault {
    fn from(_: AllocFailed<T>) -> Self {
        Fault::Memory
    }
}
