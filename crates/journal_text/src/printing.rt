//! The journal of a history as bytes. Each function appends to one buffer, so that no byte is
//! copied twice. A line reserves its room at its start; the functions that write its fields say by
//! the names in `room` how much of it they need at most.

ghost use Rattle.std.specs.Prelude.{◌≡◌, ◌+◌, ◌≤◌, ◌++◌, OnOk, IfOk, codes, decimal, flat_map};
ghost use Rattle.heap_terms.specs.Text.{event_text, journal_text, line, field, number_field, type_text};

mod answers;
mod pages;
mod passes;
mod room;
mod steps;

use answers::push_answer_line;
use heap_terms::{Event, Memory, PageType, PassRecord};
use pages::push_type;
use passes::push_passes;
use room::{DONE_LINE, EVENT_LINE, OPENED_LINE};
use std::alloc::{AllocError, Global};
pub use steps::print_words;
use text_fields::{Text, push, push_command, push_number, push_number_field};

/// How many bytes a line has in the mean. It is a guess: where it is too low, the buffer grows.
const MEAN_LINE: usize = 32;

/// The journal of a history: the lines of its events, and how many there are. The memory taken is
/// linear in the bytes.
pub fn print(alloc: Global, events: &[Event]) -> Result<Vec<u8>, Memory>
    ensures { IfOk result (λ bytes. bytes.items ≡ journal_text events.now) }
{
    let mut out = Text::with_capacity(alloc, lines_of(events).saturating_mul(MEAN_LINE))?;
    push_events(&mut out, events)?;
    push_done(&mut out, events.len() as u64)?;
    Ok(out.into_bytes())
}

/// About how many lines events have: one each, and the moves and pins of collections. It is a guess too.
fn lines_of(events: &[Event]) -> usize {
    let mut lines = events.len();
    for event in events {
        if let Event::Collected { passes, .. } = event {
            lines = lines.saturating_add(lines_of_passes(passes.as_slice()));
        }
    }
    lines
}

/// About how many lines passes have.
fn lines_of_passes(passes: &[PassRecord]) -> usize {
    let mut lines: usize = 0;
    for pass in passes {
        let placed = pass.moves.len().saturating_add(pass.pins.len());
        lines = lines.saturating_add(placed);
    }
    lines
}

/// Appends the last line: how many events there are.
fn push_done(out: &mut Text, events: u64) -> Result<(), AllocError>
    ensures { OnOk result (out.new.text ≡ out.old.text ++ line (codes "done" ++ number_field events)) }
{
    out.reserve(DONE_LINE)?;
    push(out, b"done");
    push_number_field(out, events);
    push(out, b"\n");
    Ok(())
}

/// Appends the lines of events.
fn push_events(out: &mut Text, events: &[Event]) -> Result<(), AllocError>
    ensures { OnOk result (out.new.text ≡ out.old.text ++ flat_map event_text events.now) }
{
    for event in events {
        push_event(out, event)?;
    }
    Ok(())
}

/// Appends the lines of an event.
#[tactic(auto, unfolding(heap_terms::specs::Text::event_text))]
fn push_event(out: &mut Text, event: &Event) -> Result<(), AllocError>
    ensures { OnOk result (out.new.text ≡ out.old.text ++ event_text event.now) }
{
    out.reserve(EVENT_LINE)?;
    match event {
        Event::Did {
            thread,
            command,
            answer,
        } => {
            push_number(out, *thread as u64);
            push(out, b" ");
            push_command(out, command);
            push_answer_line(out, answer)
        }
        Event::Opened {
            thread,
            ty,
            first,
            pages,
        } => {
            push_opened(out, *thread, *ty, *first, *pages);
            Ok(())
        }
        Event::Collected {
            thread,
            last,
            passes,
        } => {
            push_number(out, *thread as u64);
            push(out, b" collect");
            push_number_field(out, *last as u64);
            push(out, b"\n");
            push_passes(out, passes.as_slice())
        }
        Event::Ended { thread } => {
            push_number(out, *thread as u64);
            push(out, b" end\n");
            Ok(())
        }
    }
}

/// Appends the line of an opened region.
fn push_opened(out: &mut Text, thread: u32, ty: PageType, first: u32, pages: u32)
    requires { OPENED_LINE ≤ out.old.room }
    ensures { out.new.text ≡ out.old.text
        ++ line (decimal thread ++ codes " open" ++ field (type_text ty) ++ number_field first ++ number_field pages) }
{
    push_number(out, thread as u64);
    push(out, b" open ");
    push_type(out, ty);
    push_number_field(out, first as u64);
    push_number_field(out, pages as u64);
    push(out, b"\n");
}
