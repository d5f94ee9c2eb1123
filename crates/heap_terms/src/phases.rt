//! The phases of a thread in the word machine, and what it does at them.

use crate::steps::WordStep;

/// What a thread is at. It decides which step the thread does next.
#[derive(Clone, Copy, Debug, PartialEq, Eq)]
pub enum Phase {
    /// Waits until it may resume. A thread that has not begun is parked.
    Parked,
    /// Runs, and is in no section.
    Outside,
    /// Is inside a section, in which no collection may happen.
    Inside,
    /// Is about to leave its section.
    Leaving,
    /// Is about to park.
    Parking,
    /// Holds the turn, and is about to post a stop to thread `next`.
    Posting {
        /// The lowest other thread to which no stop was posted yet.
        next: u32,
    },
    /// Holds the turn, and is about to look whether thread `next` has parked.
    Looking {
        /// The lowest other thread that was not yet seen parked.
        next: u32,
    },
    /// Holds the turn while all others are parked, and is about to collect.
    Collecting,
    /// Holds the turn, and is about to take back the stop of thread `next`.
    Releasing {
        /// The lowest other thread whose stop was not yet taken back.
        next: u32,
    },
    /// Is about to give the turn back.
    Returning,
    /// Has parked for the last time.
    Ended,
}

/// What a thread does at its turn.
#[derive(Clone, Copy, Debug, PartialEq, Eq)]
pub enum Task {
    /// One step of the word machine.
    Walk(WordStep),
    /// One event of the heap.
    Happen,
    /// Nothing: the thread is at its end.
    Rest,
}
