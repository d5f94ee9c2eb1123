//! The text of a program. Each function appends to one buffer; a line reserves its room once.

ghost use Rattle.std.specs.Prelude.{◌≡◌, ◌+◌, ◌≤◌, ◌<◌, ◌≢◌, [], ◌∷◌, ◌++◌, IfOk, OnOk, length, take, replicate, flat_map, slice_index};
ghost use Rattle.heap_terms.specs.ScriptPrinting.{pieces_of, program_text, run_text, schedule_text, thread_text};
ghost use Rattle.heap_terms.specs.Text.{command_text, field, line};
ghost use Rattle.script_text.specs.Runs.{IsRunAtFront, runs_text, run_pieces_text};

use heap_terms::{Command, Commands, MOST_TURNS_IN_A_ROW, Memory, Program};
use std::alloc::{AllocError, Global};
use text_fields::{
    COMMAND, NUMBER, NUMBER_FIELD, Text, push, push_command, push_number, push_number_field,
};

/// How many bytes a line has in the mean. It is a guess: where it is too low, the buffer grows.
const MEAN_LINE: usize = 16;

/// The text of a program: one space before each field, numbers without leading zeros, and the turns
/// of the schedule in runs. The text of a valid program is read as that program. The memory taken
/// is linear in the bytes.
pub fn print(alloc: Global, program: &Program) -> Result<Vec<u8>, Memory>
    ensures { IfOk result (λ bytes. bytes.items ≡ program_text program.now) }
{
    let mut out = Text::with_capacity(alloc, MEAN_LINE)?;
    out.append(b"lispheap 1\nheap".as_slice())?;
    out.reserve(NUMBER_FIELD + 1)?;
    push_number_field(&mut out, program.pages as u64);
    push(&mut out, b"\n");
    out.append(b"auto".as_slice())?;
    out.reserve(NUMBER_FIELD + 1)?;
    push_number_field(&mut out, program.auto);
    push(&mut out, b"\n");
    push_threads(&mut out, program.threads.as_slice())?;
    push_schedule(&mut out, program.schedule.as_slice())?;
    out.append(b"end\n".as_slice())?;
    Ok(out.into_bytes())
}

/// Appends the blocks of threads.
fn push_threads(out: &mut Text, threads: &[Commands]) -> Result<(), AllocError>
    ensures { OnOk result (out.new.text ≡ out.old.text ++ flat_map thread_text threads.now) }
{
    for commands in threads {
        push_thread(out, commands.as_slice())?;
    }
    Ok(())
}

/// Appends the block of a thread.
fn push_thread(out: &mut Text, commands: &[Command]) -> Result<(), AllocError>
    ensures { OnOk result (out.new.text ≡ out.old.text ++ thread_text commands.now) }
{
    out.append(b"thread\n".as_slice())?;
    push_commands(out, commands)
}

/// Appends the lines of commands.
fn push_commands(out: &mut Text, commands: &[Command]) -> Result<(), AllocError>
    ensures { OnOk result (out.new.text ≡ out.old.text ++ flat_map (λ c. line (command_text c)) commands.now) }
{
    for command in commands {
        out.reserve(COMMAND + 1)?;
        push_command(out, command);
        push(out, b"\n");
    }
    Ok(())
}

/// Appends the line of the schedule, where it has a turn.
fn push_schedule(out: &mut Text, turns: &[u32]) -> Result<(), AllocError>
    ensures { OnOk result (out.new.text ≡ out.old.text ++ schedule_text turns.now) }
{
    if turns.is_empty() {
        return Ok(());
    }
    out.append(b"schedule".as_slice())?;
    push_runs(out, turns)?;
    out.append(b"\n".as_slice())?;
    Ok(())
}

/// Appends the maximal runs of equal turns, each as one field or more.
fn push_runs(out: &mut Text, turns: &[u32]) -> Result<(), AllocError>
    ensures { OnOk result (out.new.text ≡ out.old.text ++ runs_text turns.now) }
{
    let mut left = turns;
    while !left.is_empty() {
        let thread = left[0];
        let count = len_of_run(left);
        push_run(out, thread, count)?;
        let (_, rest) = left.split_at(count);
        left = rest;
    }
    Ok(())
}

/// How many turns at the front are those of the first turn's thread.
fn len_of_run(turns: &[u32]) -> usize
    requires { 0 < length turns.now }
    ensures { IsRunAtFront turns.now result }
{
    let first = turns[0];
    turns
        .iter()
        .position(|turn| *turn != first)
        .unwrap_or(turns.len())
}

/// Appends a run, in pieces of 65,535 turns and a rest.
fn push_run(out: &mut Text, thread: u32, count: usize) -> Result<(), AllocError>
    ensures { OnOk result (out.new.text ≡ out.old.text ++ run_pieces_text thread count) }
{
    for _ in 0..count / MOST_TURNS_IN_A_ROW as usize {
        push_piece(out, thread, MOST_TURNS_IN_A_ROW as u64)?;
    }
    let left = count % MOST_TURNS_IN_A_ROW as usize;
    if left == 0 {
        return Ok(());
    }
    push_piece(out, thread, left as u64)
}

/// Appends so many turns of one thread as a field.
fn push_piece(out: &mut Text, thread: u32, count: u64) -> Result<(), AllocError>
    ensures { OnOk result (out.new.text ≡ out.old.text ++ field (run_text (record { thread = thread; count = count }))) }
{
    out.reserve(NUMBER_FIELD + 1 + NUMBER)?;
    push_number_field(out, thread as u64);
    if count != 1 {
        push(out, b"*");
        push_number(out, count);
    }
    Ok(())
}
