//! How many pairs the tables of a heap have: no more than its history has events.
#![tactic(auto)]

pub mod counts;
