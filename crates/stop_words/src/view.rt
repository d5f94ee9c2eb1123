//! What a seat knows. No value of `View` is made: it stands in contracts alone.

use std::collections::LinkedList;

/// Where a thread is.
#[derive(Clone, Copy, Debug, PartialEq, Eq)]
pub enum Place {
    /// It has parked, or has not begun. Its parcel lies in its slot, or is with the holder of the
    /// turn.
    Parked,
    /// It runs, and is in no section.
    Outside,
    /// It is inside a section.
    Inside,
    /// It holds the turn to collect.
    Holding,
}

/// What a seat knows. In contracts each number is a natural number, so the count of steps has no
/// last value.
pub struct View {
    /// The number of the thread.
    pub thread: u64,
    /// Where the thread is.
    pub place: Place,
    /// The threads to which this thread, holding the turn, has posted a stop.
    pub posted: LinkedList<u64>,
    /// Those of them that it has seen parked.
    pub seen: LinkedList<u64>,
    /// How many numbers of threads were given to seats. The seat of number 0 knows it.
    pub given: u64,
    /// How many word steps the seat has done.
    pub steps: u64,
    /// The word that the latest of them met: 0 is the turn, and `t + 1` the word of thread `t`.
    pub word: u64,
    /// What stood in that word.
    pub found: u64,
    /// What the step left in it.
    pub left: u64,
}
