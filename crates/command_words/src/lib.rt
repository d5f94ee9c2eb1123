//! What the words after the program's name ask of the generator. A test of this crate decides whether
//! the words are one of the stated forms; only words that pass it are read with `clap`.
#![tactic(auto)]

mod forms;
mod reading;
mod seeds;
#[cfg(test)]
mod tests;

pub use forms::is_generate;
pub use reading::{Wanted, read_generate};
