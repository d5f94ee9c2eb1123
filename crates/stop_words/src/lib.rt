//! The stop words on atomics: how running threads stop for a collection.
//!
//! There is one word for the turn to collect, and for each thread one word and one slot, in which
//! the thread's parcel lies while the thread is parked. A thread does its steps through its
//! `StopSeat`; each step is one atomic exchange, which is a step of the word machine of
//! `pseudo_atomic`. No call but `StopWords::new` takes memory, and none waits or takes a lock. The
//! sections are after SBCL's pseudo-atomic sections; that a stop waits for the end of a section,
//! the bits, the steps and the passing of parcels are this project's own.
#![tactic(auto)]

mod gather;
pub mod laws;
mod replies;
mod rule;
mod seats;
mod steps;
mod table;
#[cfg(test)]
mod tests;
pub mod view;
#[cfg(test)]
mod worker;

pub use gather::{Gathered, NotYet};
pub use heap_terms::Owned;
pub use replies::{Claim, Entry, Resumed};
pub use seats::{StopSeat, StopWords};
pub use table::NoTable;
pub use view::{Place, View};
