//! What a pass tells of itself.

/// One pass: the generation that it collects, 0 to 5, and whether what remains becomes a generation
/// older. Generation 5 is not raised.
#[derive(Clone, Copy, Debug, PartialEq, Eq)]
pub struct Pass {
    /// The generation that is collected.
    pub generation: u8,
    /// Whether what remains becomes a generation older.
    pub raise: bool,
}

/// An object that was to move: where it was and where it is, as indices of words. Equal indices are
/// a stay.
#[derive(Clone, Copy, Debug, PartialEq, Eq)]
pub struct Move {
    /// Where it was before the pass.
    pub old: u32,
    /// Where it is after it.
    pub new: u32,
}

/// A pair that was taken out of a table.
#[derive(Clone, Copy, Debug, PartialEq, Eq)]
pub struct CullNote {
    /// Where the table was before the pass.
    pub table: u32,
    /// The word of the key before the pass.
    pub key: u64,
    /// The word of the value before the pass.
    pub value: u64,
}

/// The notes of one pass, in indices and words. The room of each list is taken before the pass.
#[derive(Drop)]
pub struct PassNotes {
    /// The generation that is collected.
    pub generation: u8,
    /// The generation of what remains.
    pub target: u8,
    /// The moves and stays, in the order in which the objects were met.
    pub moves: Vec<Move>,
    /// Where the pinned objects are, ascending.
    pub pins: Vec<u32>,
    /// The pairs that were taken out of tables.
    pub culls: Vec<CullNote>,
    /// Where the weak pointers that were broken were before the pass.
    pub breaks: Vec<u32>,
    /// The numbers of the finalizers that were queued.
    pub queued: Vec<u32>,
    /// The pages that became free, ascending.
    pub freed: Vec<u32>,
    /// How many objects died.
    pub dead: u32,
    /// How many objects of the generation remain.
    pub kept: u32,
}
