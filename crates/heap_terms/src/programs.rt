//! A whole script.

use crate::commands::Commands;
use crate::lists::Seq;

/// The commands of each thread.
pub type Scripts = Seq<Commands>;

/// Numbers of threads, in the order of their turns.
pub type Turns = Seq<u32>;

/// A script as data.
#[derive(Debug, Drop, PartialEq)]
pub struct Program {
    /// The pages of the heap, 1 to 1,024, of 512 words each.
    pub pages: u32,
    /// After how many committed words a thread owes a collection; 0 for never.
    pub auto: u64,
    /// The commands of each thread, of which there are 1 to 8.
    pub threads: Scripts,
    /// The turns that the schedule gives, at most 1,000,000.
    pub schedule: Turns,
}
