//! The steps of the word machine: how threads stop for a collection.

ghost use Rattle.std.specs.Prelude.{◌≡◌, ℕ};

/// One step of a thread on its own stop word, on another's, or on the word of the turn: a single
/// atomic exchange.
#[derive(Clone, Copy, Debug, PartialEq, Eq)]
pub enum WordStep {
    /// Goes on after having been parked.
    Resume,
    /// Enters a section, as SBCL's pseudo-atomic sections; that a stop waits for its end is this
    /// project's own.
    Enter,
    /// Leaves the section.
    Leave,
    /// Parks.
    Park,
    /// Claims the turn to collect.
    Claim,
    /// Posts a stop to another thread.
    Post(u32),
    /// Looks whether the other thread has parked.
    Look(u32),
    /// Takes the stop of the other thread back.
    Release(u32),
    /// Gives the turn back.
    Return,
}

/// What a word step found.
#[derive(Clone, Copy, Debug, PartialEq, Eq)]
pub enum StepAnswer {
    /// The step was done.
    Went,
    /// The other thread is inside a section.
    Inside,
    /// A stop stands in the thread's own word.
    StopFound,
    /// The thread of this number holds the turn.
    Taken(u32),
    /// Not yet: the step waits.
    NotYet,
}

/// A word step of a thread with its answer.
#[derive(Clone, Copy, Debug, PartialEq, Eq)]
pub struct WordLine {
    /// The number of the thread.
    pub thread: u32,
    /// What it did.
    pub step: WordStep,
    /// What it was answered.
    pub answer: StepAnswer,
}

/// A line of a replay: a word step, or the number of an event of the history.
#[derive(Clone, Copy, Debug, PartialEq, Eq)]
pub enum ReplayLine {
    /// A word step.
    Word(WordLine),
    /// The number of an event, from 0 on.
    Event(u32),
}

/// What belongs to one thread, as its parcel of open regions does.
pub trait Owned: Send {
    ghost owner_of: { Self → ℕ };

    /// The number of the thread that owns it.
    fn owner(&self) -> u32
        ensures { result ≡ owner_of self.now };
}
