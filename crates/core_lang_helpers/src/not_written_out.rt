//! Why a section is not expanded.

use std::alloc::{AllocError, AllocFailed};
use thiserror::Error;

/// Why a section is not expanded.
#[derive(Clone, Copy, PartialEq, Eq, Debug, Error)]
pub enum NotWrittenOut {
    /// The tree is not that of a checked program: it names a local that is not in scope or a helper that does not
    /// exist, or its calls go too deep.
    #[error("no tree of a checked program")]
    Astray,
    /// An allocation failed.
    #[error("no memory")]
    NoMemory,
}

impl From<AllocError> for NotWrittenOut {
    fn from(_error: AllocError) -> NotWrittenOut {
        NotWrittenOut::NoMemory
    }
}

impl<T: Drop> From<AllocFailed<T>> for NotWrittenOut {
    fn from(_error: AllocFailed<T>) -> NotWrittenOut {
        NotWrittenOut::NoMemory
    }
}
