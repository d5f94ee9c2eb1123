//! Tagged words: how fixnums, references and headers are made and read. A layer above learns that
//! each word has the reading of the table of layouts, and no other. All calls take no memory.
#![tactic(auto)]

pub mod fixnums;
pub mod layouts;
pub mod pointers;

pub use fixnums::{fixnum, read_fixnum};
pub use layouts::{header, page_type, read_header, size_of};
pub use pointers::{Lowtag, tag, untag};

#[cfg(test)]
mod tests;
