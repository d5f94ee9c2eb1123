//! The lines of a collection's passes. Their room is reserved line by line.

ghost use Rattle.std.specs.Prelude.{◌≡◌, ◌+◌, ◌≤◌, ◌++◌, OnOk, codes, flat_map, ℕ};
ghost use Rattle.heap_terms.specs.Text.{number_field, field, line, name_text, index_text, value_text, placing_text, pass_text};
ghost use Rattle.heap_terms.specs.declared.events.Cull.{Cull as CullRecord};
ghost use Rattle.heap_terms.specs.declared.events.PinAt.{PinAt as PinRecord};
ghost use Rattle.heap_terms.specs.declared.events.Placing.{Placing as MoveRecord};

use super::room::{BREAK_LINE, CULL_LINE, MOVE_LINE, PIN_LINE};
use heap_terms::{Cull, PassRecord, PinAt, Placing};
use std::alloc::AllocError;
use text_fields::{
    NUMBER_FIELD, Text, push, push_index_end, push_name_field, push_number_field, push_object,
    push_value,
};

/// Appends the lines of passes.
pub(super) fn push_passes(out: &mut Text, passes: &[PassRecord]) -> Result<(), AllocError>
    ensures { OnOk result (out.new.text ≡ out.old.text ++ flat_map pass_text passes.now) }
{
    for pass in passes {
        push_pass(out, pass)?;
    }
    Ok(())
}

/// Appends the lines of a pass.
fn push_pass(out: &mut Text, pass: &PassRecord) -> Result<(), AllocError>
    ensures { OnOk result (out.new.text ≡ out.old.text ++ pass_text pass.now) }
{
    push_two(out, b"pass", pass.generation as u32, pass.target as u32)?;
    push_moves(out, pass.moves.as_slice())?;
    push_pins(out, pass.pins.as_slice())?;
    push_culls(out, pass.culls.as_slice())?;
    push_breaks(out, pass.breaks.as_slice())?;
    push_each(out, b"queue", pass.queued.as_slice())?;
    push_each(out, b"free", pass.freed.as_slice())?;
    push_two(out, b"swept", pass.dead, pass.kept)
}

/// Appends a line of a word and two numbers.
fn push_two(out: &mut Text, word: &[u8], a: u32, b: u32) -> Result<(), AllocError>
    ensures { OnOk result (out.new.text ≡ out.old.text ++ line (word.now ++ number_field a ++ number_field b)) }
{
    out.append(word)?;
    out.reserve(2 * NUMBER_FIELD + 1)?;
    push_number_field(out, a as u64);
    push_number_field(out, b as u64);
    push(out, b"\n");
    Ok(())
}

/// Appends a line of a word and a number for each number.
fn push_each(out: &mut Text, word: &[u8], numbers: &[u32]) -> Result<(), AllocError>
    ensures { OnOk result (out.new.text
        ≡ out.old.text ++ flat_map (λ (n : ℕ). line (word.now ++ number_field n)) numbers.now) }
{
    for n in numbers {
        push_one(out, word, *n)?;
    }
    Ok(())
}

/// Appends a line of a word and a number.
fn push_one(out: &mut Text, word: &[u8], n: u32) -> Result<(), AllocError>
    ensures { OnOk result (out.new.text ≡ out.old.text ++ line (word.now ++ number_field n)) }
{
    out.append(word)?;
    out.reserve(NUMBER_FIELD + 1)?;
    push_number_field(out, n as u64);
    push(out, b"\n");
    Ok(())
}

/// Appends the lines of the moves and the stays.
fn push_moves(out: &mut Text, moves: &[Placing]) -> Result<(), AllocError>
    ensures { OnOk result (out.new.text
        ≡ out.old.text ++ flat_map (λ (m : MoveRecord). line (placing_text m.name m.old m.new)) moves.now) }
{
    for placing in moves {
        out.reserve(MOVE_LINE)?;
        push_move(out, placing);
    }
    Ok(())
}

/// Appends the line of a move or a stay.
#[inline(always)]
fn push_move(out: &mut Text, m: &Placing)
    requires { MOVE_LINE ≤ out.old.room }
    ensures { out.new.text ≡ out.old.text ++ line (placing_text m.now.name m.now.old m.now.new) }
{
    match m.new {
        Some(new) => {
            push_object(out, b"move", m.name, m.old);
            push_index_end(out, new);
        }
        None => {
            push_object(out, b"stay", m.name, m.old);
            push(out, b"\n");
        }
    }
}

/// Appends the lines of the pinned objects.
fn push_pins(out: &mut Text, pins: &[PinAt]) -> Result<(), AllocError>
    ensures { OnOk result (out.new.text ≡ out.old.text
        ++ flat_map (λ (q : PinRecord). line (codes "pin" ++ field (name_text q.name) ++ field (index_text q.index))) pins.now) }
{
    for pin in pins {
        out.reserve(PIN_LINE)?;
        push_pin(out, pin.name, pin.index);
    }
    Ok(())
}

/// Appends the line of a pinned object.
fn push_pin(out: &mut Text, name: u32, index: u32)
    requires { PIN_LINE ≤ out.old.room }
    ensures { out.new.text ≡ out.old.text ++ line (codes "pin" ++ field (name_text name) ++ field (index_text index)) }
{
    push_object(out, b"pin", name, index);
    push(out, b"\n");
}

/// Appends the lines of the culled pairs.
fn push_culls(out: &mut Text, culls: &[Cull]) -> Result<(), AllocError>
    ensures { OnOk result (out.new.text ≡ out.old.text ++ flat_map (λ (k : CullRecord).
        line (codes "cull" ++ field (name_text k.table) ++ field (value_text k.key) ++ field (value_text k.value))) culls.now) }
{
    for cull in culls {
        out.reserve(CULL_LINE)?;
        push_cull(out, cull);
    }
    Ok(())
}

/// Appends the line of a culled pair.
fn push_cull(out: &mut Text, k: &Cull)
    requires { CULL_LINE ≤ out.old.room }
    ensures { out.new.text ≡ out.old.text
        ++ line (codes "cull" ++ field (name_text k.now.table) ++ field (value_text k.now.key) ++ field (value_text k.now.value)) }
{
    push(out, b"cull");
    push_name_field(out, k.table);
    push_value(out, k.key);
    push_value(out, k.value);
    push(out, b"\n");
}

/// Appends the lines of the broken weak pointers.
fn push_breaks(out: &mut Text, breaks: &[u32]) -> Result<(), AllocError>
    ensures { OnOk result (out.new.text
        ≡ out.old.text ++ flat_map (λ name. line (codes "break" ++ field (name_text name))) breaks.now) }
{
    for name in breaks {
        out.reserve(BREAK_LINE)?;
        push_break(out, *name);
    }
    Ok(())
}

/// Appends the line of a broken weak pointer.
fn push_break(out: &mut Text, name: u32)
    requires { BREAK_LINE ≤ out.old.room }
    ensures { out.new.text ≡ out.old.text ++ line (codes "break" ++ field (name_text name)) }
{
    push(out, b"break");
    push_name_field(out, name);
    push(out, b"\n");
}
