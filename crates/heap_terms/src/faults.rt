//! Why a script is refused.

use std::alloc::{AllocError, AllocFailed};
use thiserror::Error;

/// Why a line is bad. The checks stand in this order; the first that fails decides.
#[derive(Clone, Copy, Debug, PartialEq, Eq)]
pub enum Why {
    /// The first field is no word of the language.
    Word,
    /// The line may not stand at this place.
    Order,
    /// The number of fields is not the stated one.
    Fields,
    /// A field is not of its form.
    Form,
    /// A field has its form and is out of its range.
    Range,
    /// The input ended too early.
    Missing,
}

/// Which limit a script passes.
#[derive(Clone, Copy, Debug, PartialEq, Eq)]
pub enum LimitKind {
    /// More than 1,024 pages.
    Pages,
    /// A ninth thread.
    Threads,
    /// More than 20,000 commands.
    Commands,
    /// A 65th `gc`.
    Gcs,
    /// More than 1,000,000 turns in all schedules.
    Schedule,
}

/// Want of memory, and nothing else.
#[derive(Clone, Copy, Debug, PartialEq, Eq, Error)]
#[error("out of memory")]
pub struct Memory;

impl From<AllocError> for Memory {
    fn from(_error: AllocError) -> Memory {
        Memory
    }
}

impl<T: Drop> From<AllocFailed<T>> for Memory {
    fn from(_failed: AllocFailed<T>) -> Memory {
        Memory
    }
}
