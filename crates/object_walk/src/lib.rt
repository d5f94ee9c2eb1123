//! Walking a page: the objects that begin on it, in order, found by the words alone. The words of
//! a page are objects and pairs of filler words, one after another, and the first word of an
//! object tells its size. That pages are walked so is SBCL's; the words are this project's own.
#![tactic(auto)]

mod fillers;
mod found;
pub mod laws;
#[cfg(test)]
mod tests;
mod walk;

pub use fillers::{FILLER_WORD, fill};
pub use found::Found;
pub use walk::{PageWalk, start_at};
