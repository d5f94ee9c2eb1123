//! The lines of word steps, between those of events.

ghost use Rattle.std.specs.Prelude.{◌≡◌, ◌+◌, ◌≤◌, ◌++◌, OnOk, IfOk, flat_map};
ghost use Rattle.heap_terms.specs.WordText.{found_text, replay_line_text, run_text, step_text, word_text};

use super::room::{FOUND, STEP, STEP_LINE};
use super::{push_done, push_event};
use heap_terms::{Event, Memory, ReplayLine, StepAnswer, WordLine, WordStep};
use std::alloc::{AllocError, Global};
use text_fields::{Text, push, push_number, push_number_field};

/// How many bytes a line has in the mean. It is a guess: where it is too low, the buffer grows.
const MEAN_LINE: usize = 16;

/// A run with its word steps: its lines, each a word step or the number of an event, and how many
/// events there are. A number past the last event has no text. The memory taken is linear in the
/// bytes.
pub fn print_words(alloc: Global, lines: &[ReplayLine], events: &[Event]) -> Result<Vec<u8>, Memory>
    ensures { IfOk result (λ bytes. bytes.items ≡ run_text events.now lines.now) }
{
    let mut out = Text::with_capacity(alloc, lines.len().saturating_mul(MEAN_LINE))?;
    push_lines(&mut out, lines, events)?;
    push_done(&mut out, events.len() as u64)?;
    Ok(out.into_bytes())
}

/// Appends lines.
fn push_lines(out: &mut Text, lines: &[ReplayLine], events: &[Event]) -> Result<(), AllocError>
    ensures { OnOk result (out.new.text ≡ out.old.text ++ flat_map (replay_line_text events.now) lines.now) }
{
    for line in lines {
        push_line(out, line, events)?;
    }
    Ok(())
}

/// Appends a line.
#[tactic(auto, unfolding(heap_terms::specs::WordText::replay_line_text))]
fn push_line(out: &mut Text, line: &ReplayLine, events: &[Event]) -> Result<(), AllocError>
    ensures { OnOk result (out.new.text ≡ out.old.text ++ replay_line_text events.now line.now) }
{
    match line {
        ReplayLine::Word(word) => push_word(out, *word),
        ReplayLine::Event(number) => match events.get(*number as usize) {
            Some(event) => push_event(out, event),
            None => Ok(()),
        },
    }
}

/// Appends the line of a word step.
fn push_word(out: &mut Text, word: WordLine) -> Result<(), AllocError>
    ensures { OnOk result (out.new.text ≡ out.old.text ++ word_text word.thread word.step word.answer) }
{
    out.reserve(STEP_LINE)?;
    push_number(out, word.thread as u64);
    push(out, b" : ");
    push_step(out, word.step);
    push_found(out, word.answer);
    push(out, b"\n");
    Ok(())
}

/// Appends a word step.
fn push_step(out: &mut Text, step: WordStep)
    requires { STEP ≤ out.old.room }
    ensures text { out.new.text ≡ out.old.text ++ step_text step }
    ensures room { out.old.room ≤ out.new.room + STEP }
{
    match step {
        WordStep::Resume => push(out, b"resume"),
        WordStep::Enter => push(out, b"enter"),
        WordStep::Leave => push(out, b"leave"),
        WordStep::Park => push(out, b"park"),
        WordStep::Claim => push(out, b"claim"),
        WordStep::Post(other) => {
            push(out, b"post");
            push_number_field(out, other as u64);
        }
        WordStep::Look(other) => {
            push(out, b"look");
            push_number_field(out, other as u64);
        }
        WordStep::Release(other) => {
            push(out, b"release");
            push_number_field(out, other as u64);
        }
        WordStep::Return => push(out, b"return"),
    }
}

/// Appends what a step found.
fn push_found(out: &mut Text, found: StepAnswer)
    requires { FOUND ≤ out.old.room }
    ensures text { out.new.text ≡ out.old.text ++ found_text found }
    ensures room { out.old.room ≤ out.new.room + FOUND }
{
    match found {
        StepAnswer::Went | StepAnswer::NotYet => {}
        StepAnswer::Inside => push(out, b" inside"),
        StepAnswer::StopFound => push(out, b" stop"),
        StepAnswer::Taken(holder) => {
            push(out, b" taken");
            push_number_field(out, holder as u64);
        }
    }
}
