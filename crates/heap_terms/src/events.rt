//! The events of which a history is made.

use crate::answers::Answer;
use crate::cells::Value;
use crate::commands::Command;
use crate::kinds::PageType;
use crate::lists::{Ids, Seq};

/// A move of a pass: the object `name` went from `old` to `new`, indices in words; `None` is a stay.
#[derive(Clone, Copy, Debug, PartialEq, Eq)]
pub struct Placing {
    /// The name of the object.
    pub name: u32,
    /// Where it was, in words.
    pub old: u32,
    /// Where it is now, in words; none where it stayed.
    pub new: Option<u32>,
}

/// An object that was pinned in a pass, and its index.
#[derive(Clone, Copy, Debug, PartialEq, Eq)]
pub struct PinAt {
    /// The name of the object.
    pub name: u32,
    /// Where it is, in words.
    pub index: u32,
}

/// A pair that a pass took out of a weak table.
#[derive(Clone, Copy, Debug, PartialEq, Eq)]
pub struct Cull {
    /// The name of the table.
    pub table: u32,
    /// The key of the pair.
    pub key: Value,
    /// The value of the pair.
    pub value: Value,
}

/// The moves of a pass, in its order.
pub type Moves = Seq<Placing>;

/// The pinned objects of a pass, by index.
pub type Pins = Seq<PinAt>;

/// The culled pairs of a pass.
pub type Culls = Seq<Cull>;

/// Names of objects.
pub type Names = Seq<u32>;

/// Numbers of pages.
pub type Pages = Seq<u32>;

/// What one pass did.
#[derive(Debug, Drop, PartialEq)]
pub struct PassRecord {
    /// The generation that was collected, 0 to 5.
    pub generation: u8,
    /// The generation of what remains, 0 to 6.
    pub target: u8,
    /// Each live object that was not pinned, once.
    pub moves: Moves,
    /// Each pinned object, by index.
    pub pins: Pins,
    /// Each culled pair, by the table's name and then in its order.
    pub culls: Culls,
    /// Each weak pointer that became broken, by name.
    pub breaks: Names,
    /// The ids that were queued, in the order of registration.
    pub queued: Ids,
    /// The pages that became free, ascending.
    pub freed: Pages,
    /// How many objects of the generation died.
    pub dead: u32,
    /// How many remain.
    pub kept: u32,
}

/// The passes of one collection.
pub type Passes = Seq<PassRecord>;

/// One event of a history. Events happen one after the other, and each as a whole.
#[derive(Debug, Drop, PartialEq)]
pub enum Event {
    /// The thread did its next command.
    Did {
        thread: u32,
        command: Command,
        answer: Answer,
    },
    /// A region of `pages` pages from page `first` on was opened for the thread.
    Opened {
        thread: u32,
        ty: PageType,
        first: u32,
        pages: u32,
    },
    /// The thread made a collection up to generation `last`.
    Collected {
        thread: u32,
        last: u8,
        passes: Passes,
    },
    /// The thread ended.
    Ended {
        thread: u32,
    },
}
