//! The table of phases: what a thread does at each, and at which it is afterwards.

ghost use Rattle.std.specs.Prelude.{◌≡◌, ◌<◌, ◌≤◌, true, false};
ghost use Rattle.heap_terms.specs.Phases.{task_at, went, looking_from, posting_from, releasing_from, walked};
ghost use Rattle.machine_laws.specs.Order.{IsPlaced, holds};

use heap_terms::{Phase, StepAnswer, Task, WordStep};

/// What a thread does at a phase, by whether a collection is due for it.
#[inline(always)]
pub(crate) fn task_for(phase: Phase, due: bool) -> Task
    ensures { result ≡ task_at phase due }
{
    match phase {
        Phase::Parked => Task::Walk(WordStep::Resume),
        Phase::Outside => {
            if due {
                Task::Walk(WordStep::Claim)
            } else {
                Task::Walk(WordStep::Enter)
            }
        }
        Phase::Inside => Task::Happen,
        Phase::Leaving => Task::Walk(WordStep::Leave),
        Phase::Parking => Task::Walk(WordStep::Park),
        Phase::Posting { next } => Task::Walk(WordStep::Post(next)),
        Phase::Looking { next } => Task::Walk(WordStep::Look(next)),
        Phase::Collecting => Task::Happen,
        Phase::Releasing { next } => Task::Walk(WordStep::Release(next)),
        Phase::Returning => Task::Walk(WordStep::Return),
        Phase::Ended => Task::Rest,
    }
}

/// Whether a word step went: it found nothing that keeps its thread.
#[inline(always)]
pub(crate) fn has_gone(answer: StepAnswer) -> bool
    ensures { result ≡ went answer }
{
    match answer {
        StepAnswer::Went | StepAnswer::Inside => true,
        StepAnswer::StopFound | StepAnswer::Taken(_) | StepAnswer::NotYet => false,
    }
}

/// Among the threads, thread t looks at the lowest other one from u on; after the last it collects.
fn look_from(threads: u32, t: u32, u: u32) -> Phase
    requires thread { t < threads }
    requires from { u ≤ threads }
    ensures { result ≡ looking_from threads t u }
{
    let next = if u == t { u + 1 } else { u };
    if next < threads {
        Phase::Looking { next }
    } else {
        Phase::Collecting
    }
}

/// It posts to the lowest other one from u on; after the last it looks at them all.
fn post_from(threads: u32, t: u32, u: u32) -> Phase
    requires thread { t < threads }
    requires from { u ≤ threads }
    ensures { result ≡ posting_from threads t u }
{
    let next = if u == t { u + 1 } else { u };
    if next < threads {
        Phase::Posting { next }
    } else {
        look_from(threads, t, 0)
    }
}

/// It releases the lowest other one from u on; after the last it gives the turn back.
pub(crate) fn release_from(threads: u32, t: u32, u: u32) -> Phase
    requires thread { t < threads }
    requires from { u ≤ threads }
    ensures { result ≡ releasing_from threads t u }
{
    let next = if u == t { u + 1 } else { u };
    if next < threads {
        Phase::Releasing { next }
    } else {
        Phase::Returning
    }
}

/// The phase of thread t after a word step, by whether a collection is due for it, whether it has
/// ended in the heap, and whether the step went.
#[inline(always)]
pub(crate) fn after_step(
    threads: u32,
    t: u32,
    phase: Phase,
    due: bool,
    over: bool,
    went: bool,
) -> Phase
    requires thread { t < threads }
    requires placed { IsPlaced threads t phase }
    ensures { result ≡ walked threads t phase due over went }
{
    match phase {
        Phase::Parked => { if went { Phase::Outside } else { Phase::Parked } }
        Phase::Outside => after_beginning(threads, t, due, went),
        Phase::Leaving => {
            if went && !over {
                Phase::Outside
            } else {
                Phase::Parking
            }
        }
        Phase::Parking => { if over { Phase::Ended } else { Phase::Parked } }
        Phase::Inside => Phase::Inside,
        Phase::Ended => Phase::Ended,
        _ => after_holding(threads, t, phase, went),
    }
}

/// The phase of a thread that was outside: it claims where a collection is due, and else enters.
#[inline(always)]
fn after_beginning(threads: u32, t: u32, due: bool, went: bool) -> Phase
    requires { t < threads }
    ensures { result ≡ walked threads t Phase.Outside due false went }
{
    if !went {
        return Phase::Parking;
    }
    if due {
        post_from(threads, t, 0)
    } else {
        Phase::Inside
    }
}

/// The phase of the holder of the turn after its word step.
#[cold]
#[inline(never)]
fn after_holding(threads: u32, t: u32, phase: Phase, went: bool) -> Phase
    requires thread { t < threads }
    requires placed { IsPlaced threads t phase }
    requires holds { holds phase ≡ true }
    ensures { result ≡ walked threads t phase true false went }
{
    match phase {
        Phase::Posting { next } => post_from(threads, t, next + 1),
        Phase::Looking { next } => {
            if went {
                look_from(threads, t, next + 1)
            } else {
                phase
            }
        }
        Phase::Releasing { next } => release_from(threads, t, next + 1),
        Phase::Returning => Phase::Outside,
        _ => phase,
    }
}
