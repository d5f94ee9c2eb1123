//! What a page table says of a page, and what a thread does next.

use crate::kinds::{Kind, PageType};

/// The entry of a page.
#[derive(Clone, Copy, Debug, PartialEq, Eq)]
pub enum Entry {
    /// Nothing lies on the page.
    Free,
    /// The page is used: its type, its generation from 0 to 6, how many words from its start are
    /// used, and the first page and the length in pages of the run to which it belongs.
    Used {
        ty: PageType,
        generation: u8,
        fill: u32,
        run_first: u32,
        run_pages: u32,
    },
}

/// What a thread does next.
#[derive(Clone, Copy, Debug, PartialEq, Eq)]
pub enum Next {
    /// A command that allocates nothing.
    Simple,
    /// Its next command allocates and its regions have no room for the object.
    Open,
    /// Its next command allocates, and a region has room. The object has this kind, n words of
    /// payload (2 for a cons) and this seed: the raw word of each element, or the weakness of a
    /// table as a number, else 0.
    Build { kind: Kind, n: u32, seed: u64 },
    /// It owes a collection up to this generation and does not inhibit it.
    Collect(u8),
    /// It has no command left and ends.
    End,
    /// It has ended.
    Done,
}
