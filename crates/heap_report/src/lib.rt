//! What a run came to, in fifteen numbers, and their text.
#![tactic(auto)]

mod counting;
mod printing;
#[cfg(test)]
mod tests;

pub use counting::summary;
pub use heap_terms::Totals;
pub use printing::print_summary;
