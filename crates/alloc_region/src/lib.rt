//! Regions: whole pages in which one thread allocates without asking anybody. A region builds the
//! words of one object after another in a buffer of its own, and says where the next one goes. To
//! put the words into the heap is for the layers above.
#![tactic(auto)]

mod buffer;
mod region;
#[cfg(test)]
mod tests;

pub use region::{Closed, Region};
