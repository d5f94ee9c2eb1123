//! Laws of the word machine: what every turn keeps, and that every run ends. Each is the contract
//! of a function that does nothing: that it is accepted says that the law holds, of every program
//! and every order of turns. They speak of collections too.
#![tactic(auto)]

ghost use Rattle.machine_laws.specs.Examples.{PhaseTable};
ghost use Rattle.machine_laws.specs.JournalLaws.{OneScriptOneJournal};
ghost use Rattle.machine_laws.specs.Laws.{TurnsKeepOrder, ManyTurnsKeepOrder, StepsMayBeDone, CollectorsAreAlone, RoundsEnd, RunsAreComplete};

/// Every turn keeps a configuration orderly: its history is lawful, the turn to collect and the
/// words of the threads are those of the phases, and each thread's phase is one that it may be at.
pub fn turns_keep_order()
    ensures { TurnsKeepOrder }
{}

/// So every list of turns leads to an orderly configuration.
pub fn many_turns_keep_order()
    ensures { ManyTurnsKeepOrder }
{}

/// Each word step that a phase asks for is one that the thread may do.
pub fn steps_may_be_done()
    ensures { StepsMayBeDone }
{}

/// A thread that collects is alone: every other one has found its stop and is parked, and nobody
/// inhibits.
pub fn collectors_are_alone()
    ensures { CollectorsAreAlone }
{}

/// Every run ends: a whole round of all threads makes less of what is left, or all are at their
/// ends.
pub fn rounds_end()
    ensures { RoundsEnd }
{}

/// At the end of a run each thread has done its script and has ended.
pub fn runs_are_complete()
    ensures { RunsAreComplete }
{}

/// One script, and the orders in which its collections took their names, have one journal: two runs
/// of one program have the same events, the same lines and the same text, however many rounds they
/// took. Where there are no collections the script alone decides.
pub fn one_script_one_journal()
    ensures { OneScriptOneJournal }
{}

/// The table of phases, row by row: what a thread does at each, and where that leads.
pub fn phases_follow_the_table()
    ensures { PhaseTable }
{}
