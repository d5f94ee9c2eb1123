//! Laws of the heaps that lawful histories leave.

ghost use Rattle.heap_laws.specs.Laws.{ValidAreLimited, EventsKeepHeaps, HeapsAreWellFormed, HeapsAreSmall, FinalizersAreFew, NumbersStaySmall};

/// A valid program is within the limits that the laws of heaps and histories ask for. These speak of
/// all commands.
pub fn valid_programs_are_limited()
    ensures { ValidAreLimited }
{}

/// Every event keeps a heap well-formed: each command of the table, each opening and commit, small
/// or large, a collection, and the end of a thread.
pub fn events_keep_heaps()
    ensures { EventsKeepHeaps }
{}

/// Every lawful history leaves a well-formed heap: values refer to objects that
/// are there, objects lie apart below the fills of their pages, and no two threads share a page.
pub fn heaps_are_well_formed()
    ensures { HeapsAreWellFormed }
{}

/// A heap has at most 20,000 objects, since a command makes at most one.
pub fn heaps_are_small()
    ensures { HeapsAreSmall }
{}

/// No more finalizers are registered and queued than events have happened.
pub fn finalizers_are_few()
    ensures { FinalizersAreFew }
{}

/// The policy's numbers stay small in every heap that a lawful history of a valid program leaves, and
/// each pass of a collection makes them no greater than one pass can. So what a collection computes
/// from them fits 64 bits.
pub fn numbers_stay_small()
    ensures { NumbersStaySmall }
{}
