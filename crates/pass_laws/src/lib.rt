//! Laws of passes and collections: what the definitions of `heap_terms` say of what a collector
//! leaves. Each is the contract of a function that does nothing: that it is accepted says that the
//! law holds, of every heap and every record. The crates above name its lemmas through `proofs/`.
#![tactic(auto)]

pub mod collections;
pub mod examples;
pub mod passes;
