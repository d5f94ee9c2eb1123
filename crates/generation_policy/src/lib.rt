//! When a collection raises what it keeps by one generation, and when it goes on with the next one: the policy's
//! numbers, and the loop over the passes of a collection. After SBCL's number of collections before promotion, bytes
//! consed between collections and minimum average age; the loop and all numbers are this project's own.
#![tactic(auto)]

mod accounting;
mod planning;
mod stats;
#[cfg(test)]
mod tests;

pub use accounting::{account_after, account_before};
pub use planning::plan_next;
pub use stats::{GENERATIONS, GenStats};
