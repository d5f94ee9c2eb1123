//! Laws of lawful histories.

ghost use Rattle.heap_laws.specs.Laws.{HistoriesGrow, HistoriesEnd, ThreadsGoOn, HistoriesGoOn, HistoriesComplete, RunsAreLawful, ScriptsAreDone, EventsArePlain, OrderDetermines};

/// An event that may come next makes a lawful history one longer, and the heap at its end is the
/// one after that event.
pub fn histories_grow()
    ensures { HistoriesGrow }
{}

/// Each event leaves fewer to come, a collection too: a history has at most two events for each
/// command and each thread, and nine for each collection. No history of a valid program has more
/// than 41,168.
pub fn histories_end()
    ensures { HistoriesEnd }
{}

/// A thread that has not ended, and for which no collection is due, has an event that may come
/// next, in every heap.
pub fn threads_go_on()
    ensures { ThreadsGoOn }
{}

/// While some thread has not ended, some event may come next: a collection that is due waits for
/// threads that inhibit, and those go on.
pub fn histories_go_on()
    ensures { HistoriesGoOn }
{}

/// Every lawful history of a valid program can be completed.
pub fn histories_complete()
    ensures { HistoriesComplete }
{}

/// A run with a heap after each event is a lawful list of events, and ends at the heap that the
/// list replays to.
pub fn runs_are_lawful()
    ensures { RunsAreLawful }
{}

/// In a complete history each thread does its script once and in order, and then ends once.
pub fn scripts_are_done()
    ensures { ScriptsAreDone }
{}

/// Every event of a lawful history of a valid program has a command that is built, an answer that
/// such a command gives, and numbers in their ranges; so have the records of collections.
pub fn events_are_plain()
    ensures { EventsArePlain }
{}

/// What a thread may do next is one event, but for the orders in which a collection takes its
/// names: two histories with the same threads in the same order, and the same such orders, are the
/// same.
pub fn order_determines()
    ensures { OrderDetermines }
{}
