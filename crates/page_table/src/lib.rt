//! The table of a heap's pages: which are free, and of which type, generation, fill and run the
//! others are. It finds the lowest run of free pages of a length. What lies on a page is for the
//! layers above.
#![tactic(auto)]

mod packed;
mod table;
#[cfg(test)]
mod tests;

pub use heap_terms::Entry;
pub use table::{PageTable, pages_needed};
