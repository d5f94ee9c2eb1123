//! Why a line is not read.

ghost use Rattle.std.specs.Prelude.{◌≡◌};
ghost use Rattle.journal_text.specs.Numbering.{fault_at};
ghost use Rattle.journal_text.specs.declared.parsing.faults.LineFault.TheVariants.{Memory};

use crate::faults::JournalFault;
use heap_terms::Why;
use std::alloc::{AllocError, AllocFailed};

/// Why a line is not read.
#[derive(Clone, Copy)]
pub(crate) enum LineFault {
    /// It is no line that may stand here.
    Form,
    /// Want of memory.
    Memory,
}

impl LineFault {
    /// The fault of a journal in which the line has this number.
    pub(crate) fn at(self, number: u32) -> JournalFault
        ensures { result ≡ fault_at self number }
    {
        match self {
            LineFault::Form => JournalFault::Line(number, Why::Form),
            LineFault::Memory => JournalFault::Memory,
        }
    }
}

impl From<AllocError> for LineFault {
    ghost from_gives = { λ _ e. e ≡ Memory };

    fn from(_e: AllocError) -> LineFault {
        LineFault::Memory
    }
}

impl<T: Drop> From<AllocFailed<T>> for LineFault {
    ghost from_gives = { λ _ e. e ≡ Memory };

    fn from(_e: AllocFailed<T>) -> LineFault {
        LineFault::Memory
    }
}
