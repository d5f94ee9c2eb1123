//! Scripts on running threads: a worker for each thread of a script, which follows the phases of the
//! word machine over real stop words, and does each event of its thread under the heap's one lock.
//! A layer above learns that a run which returns leaves a World with a complete history of its
//! program.
#![tactic(auto)]

mod desk;
mod finishing;
mod gate;
mod naming;
mod running;
mod sections;
mod workers;

pub use gate::{Gate, GatePlace, OpenGate};
pub use running::run_threads;
