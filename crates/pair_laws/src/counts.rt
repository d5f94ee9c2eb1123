//! The law, as the contract of a function that does nothing.

ghost use Rattle.pair_laws.specs.Counts.{PairsAreFew};

/// The heap that a history leaves has no more pairs in all its tables than
/// the history has events.
pub fn pairs_are_few()
    ensures { PairsAreFew }
{}
