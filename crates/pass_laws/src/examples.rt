//! Passes worked out by hand, from a history to the record, which is one that the definitions allow.

ghost use Rattle.pass_laws.specs.Examples.Pinned.{Holds as PinnedHolds};
ghost use Rattle.pass_laws.specs.Examples.Neighbours.{Holds as NeighboursHolds};
ghost use Rattle.pass_laws.specs.Examples.Exactness.{Holds as ExactnessHolds};
ghost use Rattle.pass_laws.specs.Examples.Exhaustion.{Holds as ExhaustionHolds};
ghost use Rattle.pass_laws.specs.Examples.WeakTables.{Holds as WeakTablesHolds};
ghost use Rattle.pass_laws.specs.Examples.OldGarbage.{Holds as OldGarbageHolds};
ghost use Rattle.pass_laws.specs.Examples.Finalizers.{Holds as FinalizersHolds};
ghost use Rattle.pass_laws.specs.Examples.ThreeThreads.{Holds as ThreeThreadsHolds};
ghost use Rattle.pass_laws.specs.Examples.Ages.{Holds as AgesHolds};

/// Objects that ambiguous cells hold keep their pages; a page without them is freed.
pub fn pinned_objects_keep_their_pages()
    ensures { PinnedHolds }
{}

/// Of two neighbours one is pinned, so the other moves and the page stays.
pub fn a_pin_holds_its_neighbours_page()
    ensures { NeighboursHolds }
{}

/// Held by an exact cell an object moves; held by an ambiguous one it does not.
pub fn an_ambiguous_cell_pins()
    ensures { ExactnessHolds }
{}

/// Where no page is left an object stays, and a smaller one still moves.
pub fn without_a_page_an_object_stays()
    ensures { ExhaustionHolds }
{}

/// Of four tables with a live key two keep its dead value, and two lose the pair.
pub fn weak_tables_cull()
    ensures { WeakTablesHolds }
{}

/// An older object keeps a younger one, also when it is garbage.
pub fn old_garbage_keeps()
    ensures { OldGarbageHolds }
{}

/// Finalizers of the dead are queued in order, but those that were cancelled.
pub fn finalizers_are_queued()
    ensures { FinalizersHolds }
{}

/// Three threads share a weak table over five passes.
pub fn three_threads_collect()
    ensures { ThreeThreadsHolds }
{}

/// A collection goes on where a generation has more than 1,024 words and is old enough.
pub fn age_decides()
    ensures { AgesHolds }
{}
