//! The program that is generated of a seed: small, random, and the same for the same seed, so that a
//! heap of one's own can be compared on as many programs as one likes.
#![tactic(auto)]

mod draws;
mod generating;
mod rows;
#[cfg(test)]
mod tests;

pub use generating::generate;
