//! Laws of one pass.

ghost use Rattle.pass_laws.specs.Laws.{LiveNamesExist, LiveNamesAreOne, PlacementsKeepLayout, RunsAreLowest, PassesKeepSound, PassesKeepWellFormed, PassesExist, PassesAreDetermined, PinnedStay, ReachedStay, UnreachedGo, FieldsStay, WeakPointersBreak, WeakTablesKeep};

/// In every well-formed heap there is a least closed set of names.
pub fn live_names_exist()
    ensures { LiveNamesExist }
{}

/// There is only one such set.
pub fn live_names_are_one()
    ensures { LiveNamesAreOne }
{}

/// In whatever order names are taken, each at most once, all objects lie at their new places as
/// they must, and no two of them share a word.
pub fn placements_keep_layout()
    ensures { PlacementsKeepLayout }
{}

/// The run of free pages that a placement takes is the lowest that is long enough.
pub fn runs_are_lowest()
    ensures { RunsAreLowest }
{}

/// A pass leaves a sound heap: values refer to objects that are there, and objects lie apart on
/// pages of their type and generation.
pub fn passes_keep_sound()
    ensures { PassesKeepSound }
{}

/// And a well-formed one, with the threads of the program, once regions are closed.
pub fn passes_keep_well_formed()
    ensures { PassesKeepWellFormed }
{}

/// Over every generation of a well-formed heap a pass exists.
pub fn passes_exist()
    ensures { PassesExist }
{}

/// The order of the names that a pass takes determines all that its record tells.
pub fn passes_are_determined()
    ensures { PassesAreDetermined }
{}

/// A pinned object is where it was after the pass.
pub fn pinned_stay()
    ensures { PinnedStay }
{}

/// An object that is reached from a root is there after the pass.
pub fn reached_stay()
    ensures { ReachedStay }
{}

/// An object that nothing keeps is gone after it.
pub fn unreached_go()
    ensures { UnreachedGo }
{}

/// The fields of an object that is there are as they were.
pub fn fields_stay()
    ensures { FieldsStay }
{}

/// A weak pointer that is there is broken where its referent is gone, and else as it was.
pub fn weak_pointers_break()
    ensures { WeakPointersBreak }
{}

/// A table that is there keeps the pairs that its weakness says, in their order, and both sides of
/// each of them are there.
pub fn weak_tables_keep()
    ensures { WeakTablesKeep }
{}
