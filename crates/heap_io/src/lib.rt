//! Reading and writing bytes: the traits of a source and of a sink, two of each, and the two loops.
//!
//! The layer above learns: `read_all` answers all bytes up to the end of the input, or a fault that
//! the source counted; `write_all` appends all bytes, or stops at a prefix, and the sink counted
//! why. A source or a sink in memory tells its bytes, and its failing calls are listed beforehand.
//! A real stream tells nothing, and its adapters (`StdSource`, `StdSink`) are trusted to pass on
//! what the system does.
#![tactic(auto)]

mod memory_sink;
mod memory_source;
mod reading;
mod standard;
mod streams;
#[cfg(test)]
mod tests;
mod writing;

pub use memory_sink::MemorySink;
pub use memory_source::MemorySource;
pub use reading::{ReadFault, read_all};
pub use standard::{StdSink, StdSource};
pub use streams::{Failed, NoRoom, Sink, Source};
pub use writing::{Stopped, write_all};
