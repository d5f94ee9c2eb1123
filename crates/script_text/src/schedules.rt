//! The turns of a schedule.

ghost use Rattle.std.specs.Prelude.{◌≡◌, ◌≤◌, ◌+◌, ◌++◌, OnOk, OnErr, IfOk, IfErr, length, replicate, ℕ, List, Ok, Err};
ghost use Rattle.heap_terms.specs.Grammar.{turns_of_all};
ghost use Rattle.script_text.specs.ReaderAnswers.{turns_behind, AddsTurns};
ghost use Rattle.script_text.specs.Left.{fields_left, lines_after};

use crate::cursor::Cursor;
use crate::faults::LineFault;
use crate::turns::{Turns, turns_in};
use heap_terms::{LimitKind, MOST_TURNS, Why};
use std::alloc::AllocFailed;

/// How many turns the schedules of a script may have.
const MOST: usize = MOST_TURNS as usize;

/// Adds turns of one thread at the end.
fn push_turns(schedule: &mut Vec<u32>, turns: Turns) -> Result<(), AllocFailed<u32>>
    ensures ok { OnOk result (schedule.new.items ≡ schedule.old.items ++ replicate turns.count turns.thread) }
    ensures most { length schedule.new.items ≤ length schedule.old.items + turns.count }
{
    for _ in 0..turns.count {
        schedule.push(turns.thread)?;
    }
    Ok(())
}

/// Whether the fields that are left are turns.
fn check_turns(threads: u32, left: &mut Cursor) -> Result<(), Why>
    ensures good { IfOk result (λ _. (ts : List ℕ) × (turns_of_all threads (fields_left left.old) ≡ Ok ts)) }
    ensures bad { IfErr result (λ why. turns_of_all threads (fields_left left.old) ≡ Err why) }
{
    while let Some(field) = left.next_field() {
        turns_in(field, threads)?;
    }
    Ok(())
}

/// Adds the turns of fields that are one digit each, up to the first that is not, or to the limit.
fn add_plain_turns(
    schedule: &mut Vec<u32>,
    threads: u32,
    left: &mut Cursor,
) -> Result<(), AllocFailed<u32>>
    requires { length schedule.old.items ≤ MOST_TURNS }
    ensures turns { OnOk result (turns_behind schedule.old.items threads (fields_left left.old) ≡ turns_behind schedule.new.items threads (fields_left left.new)) }
    ensures most { length schedule.new.items ≤ MOST_TURNS }
    ensures lines { OnOk result (lines_after left.new ≡ lines_after left.old) }
{
    while schedule.len() < MOST {
        let Some(thread) = left.plain_turn(threads) else {
            return Ok(());
        };
        schedule.push(thread)?;
    }
    Ok(())
}

/// Adds the turns of the fields that are left. All fields are judged before the limit.
pub(crate) fn add_turns(
    schedule: &mut Vec<u32>,
    threads: u32,
    left: &mut Cursor,
) -> Result<(), LineFault>
    requires { length schedule.old.items ≤ MOST_TURNS }
    ensures turns { AddsTurns result schedule.new.items (turns_behind schedule.old.items threads (fields_left left.old)) }
    ensures most { length schedule.new.items ≤ MOST_TURNS }
    ensures lines { OnOk result (lines_after left.new ≡ lines_after left.old) }
{
    add_plain_turns(schedule, threads, left)?;
    while let Some(turns) = left.turns(threads) {
        let turns = turns?;
        if turns.count as usize > MOST - schedule.len() {
            check_turns(threads, left)?;
            return Err(LineFault::Over(LimitKind::Schedule));
        }
        push_turns(schedule, turns)?;
    }
    Ok(())
}
