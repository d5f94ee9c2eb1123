//! The text of a summary.

ghost use Rattle.std.specs.Prelude.{◌≡◌, ◌++◌, IfOk, OnOk, codes};
ghost use Rattle.heap_terms.specs.Summary.{total_line, totals_text};

use heap_terms::{Memory, Totals};
use std::alloc::{AllocError, Global};
use text_fields::{NUMBER_FIELD, Text, push, push_number_field};

/// How many bytes a summary has at most.
const MOST_TEXT: usize = 512;

/// The lines of a summary: fifteen, each a word, a space and a number.
pub fn print_summary(alloc: Global, totals: &Totals) -> Result<Vec<u8>, Memory>
    ensures { IfOk result (λ bytes. bytes.items ≡ totals_text totals.now) }
{
    let mut out = Text::with_capacity(alloc, MOST_TEXT)?;
    push_program(&mut out, totals)?;
    push_history(&mut out, totals)?;
    push_passes(&mut out, totals)?;
    Ok(out.into_bytes())
}

/// Appends the lines of the program.
fn push_program(out: &mut Text, totals: &Totals) -> Result<(), AllocError>
    ensures { OnOk result (out.new.text ≡ out.old.text ++ (total_line (codes "threads") totals.now.threads
        ++ total_line (codes "pages") totals.now.pages ++ total_line (codes "commands") totals.now.commands)) }
{
    push_line(out, b"threads", totals.threads)?;
    push_line(out, b"pages", totals.pages)?;
    push_line(out, b"commands", totals.commands)
}

/// Appends the lines of events.
fn push_history(out: &mut Text, totals: &Totals) -> Result<(), AllocError>
    ensures { OnOk result (out.new.text ≡ out.old.text ++ (total_line (codes "events") totals.now.events
        ++ total_line (codes "objects") totals.now.objects ++ total_line (codes "collections") totals.now.collections
        ++ total_line (codes "passes") totals.now.passes)) }
{
    push_line(out, b"events", totals.events)?;
    push_line(out, b"objects", totals.objects)?;
    push_line(out, b"collections", totals.collections)?;
    push_line(out, b"passes", totals.passes)
}

/// Appends the lines of what passes did.
fn push_passes(out: &mut Text, totals: &Totals) -> Result<(), AllocError>
    ensures { OnOk result (out.new.text ≡ out.old.text ++ (total_line (codes "moved") totals.now.moved
        ++ total_line (codes "pinned") totals.now.pinned ++ total_line (codes "stayed") totals.now.stayed
        ++ total_line (codes "dead") totals.now.dead ++ total_line (codes "culled") totals.now.culled
        ++ total_line (codes "broken") totals.now.broken ++ total_line (codes "queued") totals.now.queued
        ++ total_line (codes "freed") totals.now.freed)) }
{
    push_line(out, b"moved", totals.moved)?;
    push_line(out, b"pinned", totals.pinned)?;
    push_line(out, b"stayed", totals.stayed)?;
    push_line(out, b"dead", totals.dead)?;
    push_line(out, b"culled", totals.culled)?;
    push_line(out, b"broken", totals.broken)?;
    push_line(out, b"queued", totals.queued)?;
    push_line(out, b"freed", totals.freed)
}

/// Appends a word, a space and a number as a line.
fn push_line(out: &mut Text, name: &[u8], number: u64) -> Result<(), AllocError>
    ensures { OnOk result (out.new.text ≡ out.old.text ++ total_line name.now number) }
{
    out.append(name)?;
    out.reserve(NUMBER_FIELD + 1)?;
    push_number_field(out, number);
    push(out, b"\n");
    Ok(())
}
