//! Starts of objects, each once, in the order in which they were first put in: the pinned objects
//! of a pass, and the weak pointers and tables that it notes. A pass takes no memory, so the room
//! for as many starts as it can meet is taken when the set is made.
#![tactic(auto)]

mod set;
#[cfg(test)]
mod tests;

pub use set::PinSet;
