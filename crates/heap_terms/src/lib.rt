//! The words of the heap: plain data that every other crate speaks of, and in `specs/` the
//! definitions of what a heap of named objects does. A layer above learns from this crate what
//! its own clauses mean; nothing here runs a heap.
#![tactic(auto)]

pub mod answers;
pub mod cells;
pub mod commands;
pub mod events;
pub mod faults;
pub mod kinds;
pub mod limits;
pub mod lists;
pub mod pages;
pub mod phases;
pub mod programs;
pub mod steps;
pub mod totals;

pub use answers::{Answer, Item, Items, PageView, Refusal};
pub use cells::{Cell, Raw, Value};
pub use commands::{Command, Commands};
pub use events::{
    Cull, Culls, Event, Moves, Names, Pages, PassRecord, Passes, PinAt, Pins, Placing,
};
pub use faults::{LimitKind, Memory, Why};
pub use kinds::{Kind, PageType, Weakness};
pub use limits::{
    CELLS, LEAST_AUTO, MOST_AUTO, MOST_BYTES, MOST_COMMANDS, MOST_ELEMENTS, MOST_GCS, MOST_PAGES,
    MOST_PAIRS, MOST_PINS, MOST_THREADS, MOST_TRIGGERS, MOST_TURNS, MOST_TURNS_IN_A_ROW,
    MOST_WORDS, OLDEST_COLLECTED, OLDEST_GENERATION, PAGE_WORDS, RAW_CELLS,
};
pub use lists::{Ids, Seq};
pub use pages::{Entry, Next};
pub use phases::{Phase, Task};
pub use programs::{Program, Scripts, Turns};
pub use steps::{Owned, ReplayLine, StepAnswer, WordLine, WordStep};
pub use totals::Totals;
