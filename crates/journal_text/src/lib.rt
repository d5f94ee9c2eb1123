//! Journals as text: printing the events of a history, with and without word steps, and reading
//! them back.
#![tactic(auto)]

mod faults;
mod laws;
mod parsing;
mod printing;

pub use faults::JournalFault;
pub use laws::{lines_are_decided, texts_are_distinct};
pub use parsing::parse;
pub use printing::{print, print_words};
