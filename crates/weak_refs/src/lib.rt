//! Weak pointers and weak tables in a pass: what the pairs of a table keep, the pairs that are
//! culled, and the weak pointers that are broken.
#![tactic(auto)]

mod breaking;
mod culling;
mod places;
mod readying;
mod releasing;
mod tables;
#[cfg(test)]
mod tests;
mod waiting;

pub use breaking::break_dead;
pub use culling::cull;
pub use readying::ready_entries;
pub use waiting::Waiting;
