//! What the ambiguous roots of a heap hit: words of which nobody knows whether they are references.
//! A word hits an object where it equals the word of a reference to it. That such words pin what
//! they hit is SBCL's; that a word has to be equal to that of a reference is this project's own.
#![tactic(auto)]

mod conses;
mod hints;
mod hitting;
pub mod laws;
mod pins;
#[cfg(test)]
mod tests;

pub use hints::Hints;
pub use hitting::hit;
pub use pins::find_pins;
