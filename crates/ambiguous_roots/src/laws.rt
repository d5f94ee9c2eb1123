//! Laws of hits, each the contract of a function that does nothing.

ghost use Rattle.ambiguous_roots.specs.Laws.{PinsAreHits};

/// What `find_pins` puts into the set are the answers of `hit` for each ambiguous word, as far as
/// they are of the generation.
pub fn pins_are_hits()
    ensures { PinsAreHits }
{}
