//! Schedules: which thread goes on at each turn, and whole runs of a program. A layer above
//! learns that one step is one turn of the word machine, a word step or an event of the heap, and
//! that a whole run is the turns of the schedule and then all threads in turn until each has ended.
#![tactic(auto)]

mod machine;
mod rounds;
mod runs;
mod tables;

pub use heap_terms::{ReplayLine, WordLine};
pub use machine::{Machine, Stepped};
pub use rounds::Lines;
pub use runs::{Replay, run_history, run_schedule};
