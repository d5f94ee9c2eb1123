//! Sweeping the pages at the end of a pass: pages on which nothing remains become free, and on the
//! others each word that belongs to nothing that remains becomes a filler.
#![tactic(auto)]

mod held;
mod sweeping;
mod wiping;

pub use held::HeldPages;
pub use sweeping::{Traced, sweep};
