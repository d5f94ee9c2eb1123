//! Laws of the journals of histories. Each is the contract of a function that does nothing but call
//! other such functions: that it is accepted says that the law holds, of every valid program and
//! every history. Nothing of it runs.
#![tactic(auto)]

ghost use Rattle.journal_laws.specs.Told.{HistoriesAreTold, JournalsNameHistories};

/// Each event of a lawful history of a valid program is within the ranges of a journal: its numbers
/// have a spelling, and its command may have that answer.
pub fn histories_are_told()
    ensures { HistoriesAreTold }
{
    heap_laws::histories::events_are_plain();
}

/// So the text of such a history is its journal, and that of no other events.
pub fn journals_name_histories()
    ensures { JournalsNameHistories }
{
    histories_are_told();
    journal_text::texts_are_distinct();
}
