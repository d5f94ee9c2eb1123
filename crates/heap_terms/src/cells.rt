//! The cells that a command names, and the values that stand in them.

/// A Lisp cell.
#[derive(Clone, Copy, Debug, PartialEq, Eq)]
pub enum Cell {
    /// `s0` to `s15`, of a thread: an ambiguous root, as a control stack's word is in SBCL.
    Stack(u8),
    /// `b0` to `b15`, of a thread: an exact root.
    Exact(u8),
    /// `g0` to `g15`, which all threads share: an exact root.
    Shared(u8),
}

/// A raw cell `r0` to `r7` of a thread: a word that is never read as a value, and an ambiguous root.
#[derive(Clone, Copy, Debug, PartialEq, Eq)]
pub struct Raw(pub u8);

/// A Lisp value. An object is known by its name, the number of its commit from 0.
#[derive(Clone, Copy, Debug, PartialEq, Eq)]
pub enum Value {
    /// A fixnum, from -2^62 to 2^62 - 1.
    Fix(i64),
    /// NIL.
    Nil,
    /// What stands in a broken weak pointer and in the unused slots of a table, and nowhere else.
    Unbound,
    /// A reference to the object of this name.
    Ref(u32),
}
