//! The words of a simulated heap: one flat list of 64-bit words in pages of 512. What the words
//! mean is for the layers above; here a write changes one word and nothing else.
#![tactic(auto)]

mod prefilled;
mod space;
#[cfg(test)]
mod tests;

pub use prefilled::Prefilled;
pub use space::Space;
