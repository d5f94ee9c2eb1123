//! The fields that scripts and journals share, as text: numbers, cells, raw words, values and
//! commands, appended to one buffer. A line reserves its room at its start; each function says by a
//! name of [`room`] how much of it it needs at most, so none of them can fail.
#![tactic(auto)]

mod buffer;
mod commands;
mod cursor;
mod fields;
mod numbers;
mod room;
mod threes;

pub use buffer::Text;
pub use commands::push_command;
pub use fields::{
    push, push_cell, push_index, push_index_end, push_index_field, push_name_field, push_numbers,
    push_object, push_raw, push_value, push_word, push_word_field,
};
pub use numbers::{push_number, push_number_field, push_signed_field, push_small};
pub use room::{
    CELL_FIELD, COMMAND, INDEX, INDEX_FIELD, NAME_FIELD, NUMBER, NUMBER_FIELD, OBJECT,
    SMALL_NUMBER, VALUE_FIELD, WEAKNESS_FIELD, WORD, WORD_FIELD,
};
