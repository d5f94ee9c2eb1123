//! A whole run of a program.

ghost use Rattle.std.specs.Prelude.{◌≡◌, IfOk, OnOk};
ghost use Rattle.heap_terms.specs.Complete.{IsComplete};
ghost use Rattle.heap_terms.specs.Runs.{IsRun};
ghost use Rattle.heap_terms.specs.Valid.{IsValid};
ghost use Rattle.replay_core.specs.Runs.{RunsTo, RunsWhole};

use crate::machine::Machine;
use crate::rounds::{Lines, rounds, schedule_turns};
use heap_terms::{Memory, Program};
use lisp_heap::World;
use std::alloc::Global;

/// A run of a program: the World at its end, and its lines.
#[derive(Drop)]
pub struct Replay {
    /// The heap after its last event.
    pub world: World,
    /// The word steps, and the numbers of the events, in their order.
    pub lines: Lines,
}

/// Runs a valid program: the turns of its schedule, and then the threads 0, 1 and so on in turn,
/// again and again, until all have ended. That the schedule decides is this project's own. It keeps
/// the lines of the run: see [`run_history`] for a run whose lines nobody asks for.
pub fn run_schedule(alloc: Global, program: Program) -> Result<Replay, Memory>
    requires { IsValid program }
    ensures program { IfOk result (λ replay. replay.world.program ≡ program) }
    ensures run { IfOk result (λ replay. IsRun program replay.lines replay.world.history) }
    ensures complete { IfOk result (λ replay. IsComplete program replay.world.history) }
{
    let mut machine = Machine::new(alloc, program)?;
    let mut kept = Some(Lines::new(alloc));
    let ran = run(&mut machine, &mut kept);
    let world = machine.into_world();
    ran?;
    match kept {
        Some(lines) => Ok(Replay { world, lines }),
        None => Err(Memory),
    }
}

/// Runs a valid program in the same way, and keeps no lines: there are lines with which its history
/// is a run of the program.
pub fn run_history(alloc: Global, program: Program) -> Result<World, Memory>
    requires { IsValid program }
    ensures program { IfOk result (λ world. world.program ≡ program) }
    ensures run { IfOk result (λ world. RunsTo program world.history) }
    ensures complete { IfOk result (λ world. IsComplete program world.history) }
{
    let mut machine = Machine::new(alloc, program)?;
    let mut kept = None;
    let ran = run(&mut machine, &mut kept);
    let world = machine.into_world();
    ran?;
    Ok(world)
}

/// All turns of a run.
fn run(machine: &mut Machine, kept: &mut Option<Lines>) -> Result<(), Memory>
    ensures { OnOk result (RunsWhole machine.old machine.new kept.old kept.new) }
{
    schedule_turns(machine, kept)?;
    rounds(machine, kept)
}
