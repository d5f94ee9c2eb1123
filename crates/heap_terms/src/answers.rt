//! What a command answers.

use crate::cells::Value;
use crate::kinds::PageType;
use crate::lists::{Ids, Seq};

/// Why a command was refused. After a refusal no cell and no object has changed.
#[derive(Clone, Copy, Debug, PartialEq, Eq)]
pub enum Refusal {
    /// `!type`: the cell holds no object of the kind that the command wants.
    NotType,
    /// `!range`: the object has no such field, or the heap no such page.
    OutOfRange,
    /// `!full`: the key is absent and the table has as many pairs as it can.
    TableFull,
    /// `!exhausted`: no run of free pages is long enough.
    Exhausted,
    /// `!empty`: there is nothing to take back.
    Nothing,
    /// `!pins`: 32 pins are there.
    PinsFull,
}

/// What lies on a page, below its fill: an object, or words that belong to none.
#[derive(Clone, Copy, Debug, PartialEq, Eq)]
pub struct Item {
    /// The object's name, or `None` for words of no object.
    pub name: Option<u32>,
    /// The index of its first word in the space.
    pub index: u32,
    /// How many words belong to no object; 0 for an object.
    pub count: u32,
}

/// The items of a page, by index.
pub type Items = Seq<Item>;

/// A page as the command `page` shows it.
#[derive(Debug, Drop, PartialEq)]
pub enum PageView {
    /// The page is free.
    Free,
    /// A page of a small region: `fill` words of it are used. A page of an open run whose object is
    /// not committed yet is shown so too, with fill 0 and no items.
    Small {
        ty: PageType,
        generation: u8,
        fill: u32,
        items: Items,
    },
    /// One of the `pages` pages of a large object.
    Large {
        ty: PageType,
        generation: u8,
        pages: u32,
        name: u32,
        index: u32,
    },
}

/// The answer of a command.
#[derive(Debug, Drop, PartialEq)]
pub enum Answer {
    /// `ok`.
    Done,
    /// A value.
    Val(Value),
    /// A raw word.
    Word(u64),
    /// `yes`.
    Yes,
    /// `no`.
    No,
    /// `none`.
    Absent,
    /// `live v`: the weak pointer is valid.
    Live(Value),
    /// `broken`: its referent was collected.
    Broken,
    /// A number of pairs or of finalizers.
    Count(u64),
    /// `ran` and the ids of the finalizers, at least one.
    Ran(Ids),
    /// A page.
    Page(PageView),
    /// The words of the objects of a generation, and its two counts.
    Stat { allocated: u64, cum: u64, num: u32 },
    /// `#name @index`: the new object and the index of its first word.
    Placed { name: u32, index: u32 },
    /// The command was refused.
    Refused(Refusal),
}
