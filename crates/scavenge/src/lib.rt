//! Tracing: the fields of what is pinned, has moved or is older are evacuated, until nothing is left
//! unscanned. The weak pointers and tables among it are noted.
#![tactic(auto)]

mod clear;
mod fields;
mod noting;
mod objects;
mod older;
mod queue;
#[cfg(test)]
mod tests;

pub use older::scavenge_older;
pub use queue::{Scanned, scavenge_all};
