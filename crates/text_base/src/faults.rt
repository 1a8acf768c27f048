//! The words for what was refused.

use std::alloc::{AllocError, AllocFailed};
use thiserror::Error;

/// Memory ran out.
#[derive(Clone, Copy, Debug, PartialEq, Eq, Error)]
#[error("memory ran out")]
pub struct OutOfMemory;

impl From<AllocError> for OutOfMemory {
    fn from(_: AllocError) -> Self {
        OutOfMemory
    }
}

impl<T: Drop> From<AllocFailed<T>> for OutOfMemory {
    fn from(_: AllocFailed<T>) -> Self {
        OutOfMemory
    }
}

/// An object that was handed in failed. Its count of faults tells that it did.
#[derive(Clone, Copy, Debug, PartialEq, Eq, Error)]
#[error("failed")]
pub struct Failed;

/// Why a call that may fail, and may take memory, was refused.
#[derive(Clone, Copy, Debug, PartialEq, Eq, Error)]
pub enum FolderFault {
    /// The object failed; its count of faults tells that it did.
    #[error("failed")]
    Failed,
    /// The object ran out of memory.
    #[error("memory ran out")]
    OutOfMemory,
}

/// A call of a folder.
#[derive(Clone, Copy, Debug, PartialEq, Eq)]
pub enum FolderCall {
    Names,
    Size,
    ReadAt,
    Create,
    Append,
    Cut,
    Sync,
    Rename,
    Remove,
    Settle,
    Fan,
}
