//! How many bytes the parts of a line have at most. A field has the space before it with it.

/// A number.
pub const NUMBER: usize = 20;

/// A number as a field.
pub const NUMBER_FIELD: usize = 1 + NUMBER;

/// A number of 8 bits.
pub const SMALL_NUMBER: usize = 3;

/// A cell as a field: its letter and a number of 8 bits.
pub const CELL_FIELD: usize = 1 + 1 + SMALL_NUMBER;

/// A raw word: `0x` and 16 digits.
pub const WORD: usize = 2 + 16;

/// A raw word as a field.
pub const WORD_FIELD: usize = 1 + WORD;

/// The name of an object as a field: `#` and a number.
pub const NAME_FIELD: usize = 1 + 1 + NUMBER;

/// An index: `@` and a number.
pub const INDEX: usize = 1 + NUMBER;

/// An index as a field.
pub const INDEX_FIELD: usize = 1 + INDEX;

/// A name and an index, each as a field.
pub const OBJECT: usize = NAME_FIELD + INDEX_FIELD;

/// A value as a field, the longest of which is the name of an object.
pub const VALUE_FIELD: usize = NAME_FIELD;

/// The weakness of a table as a field: `key-and-value`.
pub const WEAKNESS_FIELD: usize = 1 + 13;

/// A command, the longest of which is `words` with a cell, a number and a raw word.
pub const COMMAND: usize = 5 + CELL_FIELD + NUMBER_FIELD + WORD_FIELD;
