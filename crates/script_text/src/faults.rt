//! Why a script could not be read.

ghost use Rattle.std.specs.Prelude.{◌≡◌};
ghost use Rattle.script_text.specs.Numbers.{fault_of_line};
ghost use Rattle.script_text.specs.declared.faults.LineFault.TheVariants as lines;
ghost use Rattle.script_text.specs.declared.faults.ScriptFault.TheVariants.{Memory};

use heap_terms::{LimitKind, Why};
use std::alloc::{AllocError, AllocFailed};
use thiserror::Error;

/// Why a script could not be read. Lines are numbered from 1, and every line counts, also an empty
/// one and one that is a comment. The checks and the limits are this project's own.
#[derive(Clone, Copy, Debug, PartialEq, Eq, Error)]
pub enum ScriptFault {
    /// The first bad line, and the first check that fails on it. Where the input ends without
    /// `end`, the reason is `Missing` and the number is that of the lines plus 1.
    #[error("line {0}: {1:?}")]
    Line(u32, Why),
    /// The first bad line passes every check and then a limit.
    #[error("line {0}: too many {1:?}")]
    Limit(u32, LimitKind),
    /// Want of memory, and nothing else.
    #[error("out of memory")]
    Memory,
}

impl From<AllocError> for ScriptFault {
    ghost from_gives = { λ _ e. e ≡ Memory };

    fn from(_e: AllocError) -> ScriptFault {
        ScriptFault::Memory
    }
}

impl<T: Drop> From<AllocFailed<T>> for ScriptFault {
    ghost from_gives = { λ _ e. e ≡ Memory };

    fn from(_e: AllocFailed<T>) -> ScriptFault {
        ScriptFault::Memory
    }
}

/// Why a line is refused.
#[derive(Clone, Copy)]
pub(crate) enum LineFault {
    /// A check fails.
    Bad(Why),
    /// It passes a limit.
    Over(LimitKind),
    /// Want of memory.
    Memory,
}

impl LineFault {
    /// The fault of a script in which the line has this number.
    pub(crate) fn at(self, number: u32) -> ScriptFault
        ensures { result ≡ fault_of_line self number }
    {
        match self {
            LineFault::Bad(why) => ScriptFault::Line(number, why),
            LineFault::Over(kind) => ScriptFault::Limit(number, kind),
            LineFault::Memory => ScriptFault::Memory,
        }
    }
}

impl From<Why> for LineFault {
    ghost from_gives = { λ why e. e ≡ lines.Bad why };

    fn from(why: Why) -> LineFault {
        LineFault::Bad(why)
    }
}

impl From<AllocError> for LineFault {
    ghost from_gives = { λ _ e. e ≡ lines.Memory };

    fn from(_e: AllocError) -> LineFault {
        LineFault::Memory
    }
}

impl<T: Drop> From<AllocFailed<T>> for LineFault {
    ghost from_gives = { λ _ e. e ≡ lines.Memory };

    fn from(_e: AllocFailed<T>) -> LineFault {
        LineFault::Memory
    }
}
