//! Out of memory.
use std::alloc::{AllocError, AllocFailed};
use std::fmt;

/// Out of memory.
#[derive(Clone, Copy, Debug, PartialEq, Eq)]
pub struct NoMemory;

impl fmt::Display for NoMemory {
    fn fmt<W: fmt::Write>(&self, f: &mut fmt::Formatter<W>) -> fmt::Result {
        write!(f, "no memory")
    }
}

impl std::error::Error for NoMemory {}

impl From<AllocError> for NoMemory {
    fn from(_: AllocError) -> NoMemory {
        NoMemory
    }
}

impl<T: Drop> From<AllocFailed<T>> for NoMemory {
    fn from(_: AllocFailed<T>) -> NoMemory {
        NoMemory
    }
}

/// What a call hands back beside `NoMemory` is dropped.
impl<T: Drop> From<(T, NoMemory)> for NoMemory {
    fn from(_: (T, NoMemory)) -> NoMemory {
        NoMemory
    }
}
