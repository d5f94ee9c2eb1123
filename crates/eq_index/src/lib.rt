//! Tables by identity, on the words of a space: finding, inserting and removing a pair by the word
//! of its key. A layer above sees a table as the list of its pairs, in the order in which their keys
//! were added. No call takes memory.
#![tactic(auto)]

mod inserting;
mod removing;
mod tables;

pub use inserting::{Inserted, insert};
pub use removing::{remove, remove_at};
pub use tables::{count, find, look_up, needs_rehash, rehash};

#[cfg(test)]
mod tests;
