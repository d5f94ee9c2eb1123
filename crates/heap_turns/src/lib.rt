//! One turn of one thread on a World: an event inside its section, or its collection. A layer above
//! learns which event happened, whether the section goes on, and that every parcel agrees again. It
//! stands below both ways of running a script, by a schedule and on threads.
#![tactic(auto)]

mod collections;
mod turns;

pub use collections::collect_alone;
pub use turns::{event, turn};
