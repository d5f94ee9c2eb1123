//! One pass of a collection: what is live of a generation moves or is kept in its place, and
//! everything else of it is gone.
#![tactic(auto)]

mod notes;
mod pass;
mod room;
mod tracing;

pub use pass::{Roots, run_pass};
pub use room::PassRoom;
