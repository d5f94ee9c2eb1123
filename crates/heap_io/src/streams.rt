//! The two traits and their errors.

ghost use Rattle.std.specs.Prelude.{⊤, ◌≡◌, ◌≤◌, ◌<◌, ◌↔◌, ℕ, List, [], Some, length, take, IfOk, OnOk, OnErr};
ghost use Rattle.heap_io.specs.Streams.{Stream, Rose, Gave, Grew};

use std::alloc::AllocError;
use thiserror::Error;

/// A call of a source or a sink failed, and the stream counted it.
#[derive(Clone, Copy, Debug, PartialEq, Eq, Error)]
#[error("the stream failed")]
pub struct Failed;

/// There was no memory for a sink. Nothing else gives this answer.
#[derive(Clone, Copy, Debug, PartialEq, Eq, Error)]
#[error("no memory for the sink")]
pub struct NoRoom;

impl From<AllocError> for NoRoom {
    ghost from_gives = { λ _ _. ⊤ };

    fn from(_: AllocError) -> Self {
        NoRoom
    }
}

/// Where bytes come from.
pub trait Source {
    /// The bytes that were not yet taken, where the source tells them, and how often it has failed:
    /// a `u64` that never falls, and stands still at its last number. A real stream tells no bytes.
    ghost state: { Self → Stream };

    /// Puts the next bytes of the input at the front of the buffer and answers how many, at least
    /// one unless the input has ended. What stands behind them in the buffer is open, and so is the
    /// buffer after a failure. A failure takes nothing, and no other call is counted.
    fn take(&mut self, buf: &mut [u8]) -> Result<usize, Failed>
        requires { 0 < length buf.old }
        ensures bound { IfOk result (λ k. k ≤ length buf.new) }
        ensures taken { IfOk result (λ k.
            Gave (state self.old).contents (state self.new).contents (take k buf.new)) }
        ensures end { IfOk result (λ k.
            (xs : List ℕ) → (state self.old).contents ≡ Some xs → (k ≡ 0) ↔ (xs ≡ [])) }
        ensures failed { OnErr result (Rose (state self.old).faults (state self.new).faults) }
        ensures kept { OnErr result ((state self.new).contents ≡ (state self.old).contents) }
        ensures quiet { OnOk result ((state self.new).faults ≡ (state self.old).faults) }
        ensures counted { (state self.old).faults ≤ (state self.new).faults };
}

/// Where bytes go.
pub trait Sink {
    /// The bytes that were appended so far, where the sink tells them, and how often it has failed:
    /// a `u64` that never falls, and stands still at its last number. A real stream tells no bytes.
    ghost state: { Self → Stream };

    /// Appends the front of the piece and answers how many bytes, at least one. A failure appends
    /// nothing, and no other call is counted.
    fn put(&mut self, piece: &[u8]) -> Result<usize, Failed>
        requires { 0 < length piece.now }
        ensures some { IfOk result (λ k. 0 < k) }
        ensures bound { IfOk result (λ k. k ≤ length piece.now) }
        ensures appended { IfOk result (λ k.
            Grew (state self.old).contents (state self.new).contents (take k piece.now)) }
        ensures failed { OnErr result (Rose (state self.old).faults (state self.new).faults) }
        ensures kept { OnErr result ((state self.new).contents ≡ (state self.old).contents) }
        ensures quiet { OnOk result ((state self.new).faults ≡ (state self.old).faults) }
        ensures counted { (state self.old).faults ≤ (state self.new).faults };
}
