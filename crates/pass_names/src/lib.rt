//! What a pass culls and breaks, in names: a pass notes places and words as they were before it, in
//! the order in which it met tables and weak pointers; a record of it has names and values, in the
//! order of names.
#![tactic(auto)]

mod breaks;
mod culls;
mod places;
mod room;
mod values;

pub use room::{NameRoom, Weakened};
pub use values::{name_at, value_of};
