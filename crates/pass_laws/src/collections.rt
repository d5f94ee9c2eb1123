//! Laws of a whole collection.

ghost use Rattle.pass_laws.specs.Laws.{CollectionsKeepWellFormed, YoungerAreEmpty, CollectionsExist, RecordsArePlain, CollectionsAreDetermined};

/// A collection leaves a well-formed heap.
pub fn collections_keep_well_formed()
    ensures { CollectionsKeepWellFormed }
{}

/// When a generation is collected, every younger one is empty.
pub fn younger_are_empty()
    ensures { YoungerAreEmpty }
{}

/// Wherever no thread inhibits, a collection up to every generation exists.
pub fn collections_exist()
    ensures { CollectionsExist }
{}

/// The numbers in its records are in the ranges that a journal has for them.
pub fn records_are_plain()
    ensures { RecordsArePlain }
{}

/// The orders of the names that its passes take determine all that its records tell.
pub fn collections_are_determined()
    ensures { CollectionsAreDetermined }
{}
