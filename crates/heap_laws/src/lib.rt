//! Laws of the definitions of `heap_terms`: what a reader may rely on beside the definitions
//! themselves. Each is the contract of a function that does nothing: that it is accepted says that
//! the law holds, of every program and every history.
#![tactic(auto)]

pub mod equality;
pub mod heaps;
pub mod histories;
pub mod reads_and_writes;
pub mod words;
