//! What the calls answer.

/// Whether a thread that was parked runs again.
#[derive(Drop)]
pub enum Resumed<P> {
    /// The thread runs, with its parcel.
    Back(P),
    /// A stop stands in the thread's own word, and the thread is still parked.
    StillStopped,
}

/// Whether a section was entered.
#[derive(Clone, Copy, Debug, PartialEq, Eq)]
pub enum Entry {
    /// The thread is inside a section.
    Entered,
    /// A stop stands in the thread's own word, and the thread is still outside.
    StopSeen,
}

/// Whether the turn to collect was got.
#[derive(Clone, Copy, Debug, PartialEq, Eq)]
pub enum Claim {
    /// The thread holds the turn.
    Claimed,
    /// The turn is with this other thread.
    Taken(u32),
}
