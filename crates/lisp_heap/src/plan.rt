//! What a command that allocates nothing does to the words.

ghost use Rattle.std.specs.Prelude.{◌≡◌, ◌+◌, ◌*◌, ◌<◌, ◌≤◌, length};
ghost use Rattle.lisp_heap.specs.Plan.{cells_after, pins_after, states_after, words_after, CanChange};

use crate::cells::CellWords;
use crate::pins::Pins;
use crate::states::States;
use heap_terms::{Answer, Cell, Raw, Refusal};
use word_space::Space;

/// One thing that a command changes.
#[derive(Clone, Copy)]
pub enum Change {
    /// Nothing changes.
    Nothing,
    /// A cell of the thread gets this word.
    InCell { cell: Cell, word: u64 },
    /// A raw cell of the thread gets this word.
    InRaw { r: Raw, word: u64 },
    /// The word of the space at this index becomes another.
    InSpace { index: u32, word: u64 },
    /// The thread has this inhibit count.
    Inhibits { count: u32 },
    /// The thread owes a collection up to this generation.
    Owes { last: u8 },
    /// This word goes on the thread's pins.
    PushPin { word: u64 },
    /// The latest of the thread's pins is taken off.
    PopPin,
}

/// The answer of a command, and what it changes.
#[derive(Drop)]
pub struct Plan {
    /// What the command is answered.
    pub answer: Answer,
    /// What becomes another.
    pub change: Change,
}

impl Plan {
    /// The plan of a command that is refused: nothing changes.
    #[inline(always)]
    pub fn refused(refusal: Refusal) -> Plan
        ensures { result ≡ record { answer = Answer.Refused refusal; change = Change.Nothing } }
    {
        Plan {
            answer: Answer::Refused(refusal),
            change: Change::Nothing,
        }
    }
}

/// Makes the change.
#[inline(always)]
pub fn apply(
    cells: &mut CellWords,
    space: &mut Space,
    states: &mut States,
    pins: &mut Pins,
    t: usize,
    change: Change,
)
    requires cells { CanChange cells.old space.old pins.old t change }
    requires thread { t < length states.old }
    requires pinned { t < length pins.old }
    ensures cells { cells.new ≡ cells_after cells.old t change }
    ensures words { space.new ≡ words_after space.old change }
    ensures states { states.new ≡ states_after states.old t change }
    ensures pins { pins.new ≡ pins_after pins.old t change }
{
    match change {
        Change::Nothing => {}
        Change::InCell { cell, word } => cells.write(t, cell, word),
        Change::InRaw { r, word } => cells.set_raw(t, r, word),
        Change::InSpace { index, word } => space.write(index, word),
        Change::Inhibits { count } => states.set_inhibits(t, count),
        Change::Owes { last } => states.set_owed(t, Some(last)),
        Change::PushPin { word } => pins.push(t, word),
        Change::PopPin => pins.pop(t),
    }
}
