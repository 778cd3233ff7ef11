//! Out of memory, as an error.
use std::alloc::{AllocError, AllocFailed};
use thiserror::Error;

/// Memory ran out. No clause ties it to a refused growth: it is the one answer that may come freely
/// from a call whose error names it.
#[derive(Clone, Copy, Debug, PartialEq, Eq, Drop, Error)]
#[error("out of memory")]
pub struct Memory;

impl From<AllocError> for Memory {
    fn from(_: AllocError) -> Memory {
        Memory
    }
}

impl<T: Drop> From<AllocFailed<T>> for Memory {
    fn from(_: AllocFailed<T>) -> Memory {
        Memory
    }
}
