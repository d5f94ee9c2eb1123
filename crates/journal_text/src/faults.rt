//! Why bytes are no journal.

ghost use Rattle.std.specs.Prelude.{◌≡◌};
ghost use Rattle.journal_text.specs.declared.faults.JournalFault.TheVariants.{Memory};

use heap_terms::Why;
use std::alloc::{AllocError, AllocFailed};
use thiserror::Error;

/// Why bytes are no journal. Lines are numbered from 1, and a line is the bytes up to an LF and
/// that LF.
#[derive(Clone, Copy, Debug, PartialEq, Eq, Error)]
pub enum JournalFault {
    /// `Form`: the first line that together with all lines before it begins no journal. `Missing`:
    /// there is no such line, the bytes are no whole journal, and the number is that of the lines
    /// plus 1.
    #[error("line {0}: {1:?}")]
    Line(u32, Why),
    /// Want of memory, and nothing else.
    #[error("out of memory")]
    Memory,
}

impl From<AllocError> for JournalFault {
    ghost from_gives = { λ _ e. e ≡ Memory };

    fn from(_e: AllocError) -> JournalFault {
        JournalFault::Memory
    }
}

impl<T: Drop> From<AllocFailed<T>> for JournalFault {
    ghost from_gives = { λ _ e. e ≡ Memory };

    fn from(_e: AllocFailed<T>) -> JournalFault {
        JournalFault::Memory
    }
}
