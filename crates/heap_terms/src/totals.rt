//! The numbers of a summary.

/// What a run of a program came to, in fifteen numbers. A number that would be above 2^64 - 1 is
/// 2^64 - 1.
#[derive(Clone, Copy, Debug, PartialEq, Eq)]
pub struct Totals {
    /// The threads of the program.
    pub threads: u64,
    /// Its pages.
    pub pages: u64,
    /// The commands of all its threads.
    pub commands: u64,
    /// The events of its history.
    pub events: u64,
    /// The objects that were committed.
    pub objects: u64,
    /// The collections.
    pub collections: u64,
    /// Their passes.
    pub passes: u64,
    /// The objects that a pass moved, once for each pass.
    pub moved: u64,
    /// Those that were pinned in a pass, likewise.
    pub pinned: u64,
    /// Those that stayed because no free run was long enough, likewise.
    pub stayed: u64,
    /// The objects that died.
    pub dead: u64,
    /// The pairs that were culled.
    pub culled: u64,
    /// The weak pointers that were broken.
    pub broken: u64,
    /// The ids of finalizers that were queued.
    pub queued: u64,
    /// The pages that passes freed.
    pub freed: u64,
}
