//! What kinds of object there are, and on which pages they lie.

/// The kind of an object. A cons has no header; every other kind has one. The kinds and
/// their layouts are this project's own.
#[derive(Clone, Copy, Debug, PartialEq, Eq)]
pub enum Kind {
    /// Two values.
    Cons,
    /// 0 to 65,535 values.
    Vector,
    /// 0 to 65,535 values.
    Instance,
    /// 0 to 65,535 values.
    Closure,
    /// 0 to 65,535 raw words, which are never read as values.
    Words,
    /// A weak pointer: one value that it does not keep alive.
    Weak,
    /// A hash table by identity with room for 1 to 64 pairs.
    Table,
}

/// The type of a page: what kinds of object may lie on it. The rule is this project's own.
#[derive(Clone, Copy, Debug, PartialEq, Eq)]
pub enum PageType {
    /// Conses alone.
    Cons,
    /// Objects with a header whose payload is values.
    Boxed,
    /// Objects with a header whose payload is raw words.
    Unboxed,
}

/// Which pairs of a table a collection keeps. The five rules are those of SBCL's manual.
#[derive(Clone, Copy, Debug, PartialEq, Eq)]
pub enum Weakness {
    /// Every pair, and both its sides with it.
    Strong,
    /// A pair while its key is live.
    Key,
    /// A pair while its value is live.
    Value,
    /// A pair while both its sides are live.
    KeyAndValue,
    /// A pair while one of its sides is live.
    KeyOrValue,
}
