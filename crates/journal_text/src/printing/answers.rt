//! What a command answered, with the arrow before it.

ghost use Rattle.std.specs.Prelude.{◌≡◌, ◌+◌, ◌≤◌, ◌++◌, OnOk, codes, flat_map};
ghost use Rattle.heap_terms.specs.Text.{line, number_field, field, answer_text, refusal_text, name_text, index_text, value_text, word_text, page_text};

use super::pages::push_page;
use super::room::{ANSWER_LINE, ARROW, SIZES};
use heap_terms::{Answer, PageView, Refusal, Value};
use std::alloc::AllocError;
use text_fields::{
    NUMBER_FIELD, OBJECT, Text, VALUE_FIELD, WORD, push, push_number_field, push_numbers,
    push_object, push_value, push_word,
};

/// Appends ` -> ` and an answer, and ends the line.
pub(super) fn push_answer_line(out: &mut Text, answer: &Answer) -> Result<(), AllocError>
    requires { ANSWER_LINE ≤ out.old.room }
    ensures { OnOk result (out.new.text ≡ out.old.text ++ line (codes " -> " ++ answer_text answer.now)) }
{
    match answer {
        Answer::Done => push(out, b" -> ok\n"),
        Answer::Val(v) => push_value_line(out, *v),
        Answer::Placed { name, index } => push_placed_line(out, *name, *index),
        Answer::Refused(refusal) => push_refusal_line(out, *refusal),
        Answer::Word(w) => push_word_line(out, *w),
        Answer::Yes => push(out, b" -> yes\n"),
        Answer::No => push(out, b" -> no\n"),
        Answer::Absent => push(out, b" -> none\n"),
        Answer::Live(v) => push_live_line(out, *v),
        Answer::Broken => push(out, b" -> broken\n"),
        Answer::Count(n) => push_count_line(out, *n),
        Answer::Ran(ids) => return push_ran_line(out, ids.as_slice()),
        Answer::Page(view) => return push_page_line(out, view),
        Answer::Stat {
            allocated,
            cum,
            num,
        } => push_stat_line(out, *allocated, *cum, *num),
    }
    Ok(())
}

/// Appends a value.
fn push_value_line(out: &mut Text, v: Value)
    requires { ARROW + VALUE_FIELD ≤ out.old.room }
    ensures { out.new.text ≡ out.old.text ++ line (codes " -> " ++ value_text v) }
{
    push(out, b" ->");
    push_value(out, v);
    push(out, b"\n");
}

/// Appends a name and an index.
fn push_placed_line(out: &mut Text, name: u32, index: u32)
    requires { ARROW + OBJECT ≤ out.old.room }
    ensures { out.new.text ≡ out.old.text ++ line (codes " -> " ++ (name_text name ++ field (index_text index))) }
{
    push_object(out, b" ->", name, index);
    push(out, b"\n");
}

/// Appends a raw word.
fn push_word_line(out: &mut Text, w: u64)
    requires { ARROW + WORD + 1 ≤ out.old.room }
    ensures { out.new.text ≡ out.old.text ++ line (codes " -> " ++ word_text w) }
{
    push(out, b" -> ");
    push_word(out, w);
    push(out, b"\n");
}

/// Appends what a weak pointer refers to.
fn push_live_line(out: &mut Text, v: Value)
    requires { ARROW + 4 + VALUE_FIELD + 1 ≤ out.old.room }
    ensures { out.new.text ≡ out.old.text ++ line (codes " -> " ++ (codes "live" ++ field (value_text v))) }
{
    push(out, b" -> live");
    push_value(out, v);
    push(out, b"\n");
}

/// Appends how many there are.
fn push_count_line(out: &mut Text, n: u64)
    requires { ARROW + NUMBER_FIELD ≤ out.old.room }
    ensures { out.new.text ≡ out.old.text ++ line (codes " ->" ++ number_field n) }
{
    push(out, b" ->");
    push_number_field(out, n);
    push(out, b"\n");
}

/// Appends the numbers of the finalizers that ran.
fn push_ran_line(out: &mut Text, ids: &[u32]) -> Result<(), AllocError>
    requires { ARROW + 3 ≤ out.old.room }
    ensures { OnOk result (out.new.text ≡ out.old.text ++ line (codes " -> " ++ (codes "ran" ++ flat_map number_field ids.now))) }
{
    push(out, b" -> ran");
    push_numbers(out, ids)?;
    out.reserve(1)?;
    push(out, b"\n");
    Ok(())
}

/// Appends what stands on a page.
fn push_page_line(out: &mut Text, view: &PageView) -> Result<(), AllocError>
    requires { ARROW ≤ out.old.room }
    ensures { OnOk result (out.new.text ≡ out.old.text ++ line (codes " -> " ++ page_text view.now)) }
{
    push(out, b" -> ");
    push_page(out, view)?;
    out.reserve(1)?;
    push(out, b"\n");
    Ok(())
}

/// Appends why a command was refused.
fn push_refusal_line(out: &mut Text, refusal: Refusal)
    requires { ARROW + 12 ≤ out.old.room }
    ensures { out.new.text ≡ out.old.text ++ line (codes " -> " ++ refusal_text refusal) }
{
    match refusal {
        Refusal::NotType => push(out, b" -> !type\n"),
        Refusal::OutOfRange => push(out, b" -> !range\n"),
        Refusal::TableFull => push(out, b" -> !full\n"),
        Refusal::Exhausted => push(out, b" -> !exhausted\n"),
        Refusal::Nothing => push(out, b" -> !empty\n"),
        Refusal::PinsFull => push(out, b" -> !pins\n"),
    }
}

/// Appends the numbers of a generation.
fn push_stat_line(out: &mut Text, allocated: u64, cum: u64, num: u32)
    requires { ANSWER_LINE ≤ out.old.room }
    ensures { out.new.text ≡ out.old.text ++ line (codes " -> " ++ (codes "allocated" ++ number_field allocated
        ++ codes " cum" ++ number_field cum ++ codes " num" ++ number_field num)) }
{
    push(out, b" -> ");
    push_sizes(out, allocated, cum);
    push(out, b" num");
    push_number_field(out, num as u64);
    push(out, b"\n");
}

/// Appends the first two numbers of a generation.
fn push_sizes(out: &mut Text, allocated: u64, cum: u64)
    requires { SIZES ≤ out.old.room }
    ensures text { out.new.text ≡ out.old.text
        ++ (codes "allocated" ++ number_field allocated ++ codes " cum" ++ number_field cum) }
    ensures room { out.old.room ≤ out.new.room + SIZES }
{
    push(out, b"allocated");
    push_number_field(out, allocated);
    push(out, b" cum");
    push_number_field(out, cum);
}
