//! Finalizers: the list of those that objects have, in the order of their registration, and the
//! queue of the numbers of those whose objects died.
#![tactic(auto)]

mod lists;
mod sweeping;
#[cfg(test)]
mod tests;

pub use lists::{Finalizers, Registration};
