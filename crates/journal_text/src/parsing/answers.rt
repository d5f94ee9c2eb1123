//! An answer: all the fields behind the arrow.

ghost use Rattle.std.specs.Prelude.{◌≡◌};
ghost use Rattle.journal_text.specs.AnswerReading.{Reads, all_of, an_item, ending, placed, read_answer, read_opened, read_filled, read_large, read_live, read_named, read_numeric, read_page, read_ran, read_small, read_stat, read_worded, second_is_x, three_numbers};
ghost use Rattle.journal_text.specs.LineReading.{Gives, a_number_32};

use super::cursor::Fields;
use super::faults::LineFault;
use super::items::item;
use super::numbers::{number, number_32, word};
use super::openings::{Filling, Opening, opening_word};
use super::values::{fixnum, index, name};
use heap_terms::{Answer, Ids, Items, PageType, PageView, Seq, Value};
use std::alloc::Global;

/// The answer, where nothing is left.
#[inline]
fn ending(answer: Answer, fields: &Fields) -> Result<Answer, LineFault>
    ensures { Reads (ending answer fields.now) result }
{
    if fields.is_done() {
        Ok(answer)
    } else {
        Err(LineFault::Form)
    }
}

/// What a weak pointer refers to.
#[tactic(auto, unfolding(crate::specs::AnswerReading::read_live))]
fn live(fields: &mut Fields) -> Result<Answer, LineFault>
    ensures { Reads (read_live fields.old) result }
{
    let Some(v) = fields.value() else {
        return Err(LineFault::Form);
    };
    ending(Answer::Live(v), fields)
}

/// The ids that ran.
#[tactic(auto, unfolding(crate::specs::AnswerReading::read_ran))]
fn ran(alloc: Global, fields: &mut Fields) -> Result<Answer, LineFault>
    ensures { Reads (read_ran fields.old) result }
{
    let ids = ids(alloc, fields)?;
    if ids.len() == 0 {
        return Err(LineFault::Form);
    }
    Ok(Answer::Ran(ids))
}

/// All fields as ids.
fn ids(alloc: Global, fields: &mut Fields) -> Result<Ids, LineFault>
    ensures { Reads (all_of a_number_32 fields.old) result }
{
    let mut ids = Seq::new(alloc);
    while let Some(field) = fields.next() {
        let Some(id) = number_32(field, u32::MAX) else {
            return Err(LineFault::Form);
        };
        ids.push(id)?;
    }
    Ok(ids)
}

/// All fields as items.
fn items(alloc: Global, fields: &mut Fields) -> Result<Items, LineFault>
    ensures { Reads (all_of an_item fields.old) result }
{
    let mut items = Seq::new(alloc);
    while let Some(field) = fields.next() {
        let Some(one) = item(field) else {
            return Err(LineFault::Form);
        };
        items.push(one)?;
    }
    Ok(items)
}

/// The numbers of a generation.
#[tactic(auto, unfolding(crate::specs::AnswerReading::read_stat))]
fn stat(fields: &mut Fields) -> Result<Answer, LineFault>
    ensures { Reads (read_stat fields.old) result }
{
    let Some((allocated, cum, num)) = three_numbers(fields) else {
        return Err(LineFault::Form);
    };
    ending(
        Answer::Stat {
            allocated,
            cum,
            num,
        },
        fields,
    )
}

/// The three numbers, with the words between them.
fn three_numbers(fields: &mut Fields) -> Option<(u64, u64, u32)>
    ensures { Gives three_numbers fields.old fields.new result }
{
    let allocated = fields.number_64()?;
    fields.the_word(b"cum")?;
    let cum = fields.number_64()?;
    fields.the_word(b"num")?;
    let num = fields.number_32()?;
    Some((allocated, cum, num))
}

/// A page with its items.
#[tactic(auto, unfolding(crate::specs::AnswerReading::read_small))]
fn small(
    alloc: Global,
    ty: PageType,
    generation: u8,
    fields: &mut Fields,
) -> Result<Answer, LineFault>
    ensures { Reads (read_small ty generation fields.old) result }
{
    let Some(fill) = fields.number_32() else {
        return Err(LineFault::Form);
    };
    let items = items(alloc, fields)?;
    Ok(Answer::Page(PageView::Small {
        ty,
        generation,
        fill,
        items,
    }))
}

/// One of the pages of a large object.
#[tactic(auto, unfolding(crate::specs::AnswerReading::read_large))]
fn large(ty: PageType, generation: u8, fields: &mut Fields) -> Result<Answer, LineFault>
    ensures { Reads (read_large ty generation fields.old) result }
{
    let Some(pages) = fields.number_32() else {
        return Err(LineFault::Form);
    };
    let Some((name, index)) = fields.object() else {
        return Err(LineFault::Form);
    };
    ending(
        Answer::Page(PageView::Large {
            ty,
            generation,
            pages,
            name,
            index,
        }),
        fields,
    )
}

/// A page that is not free.
#[tactic(auto, unfolding(crate::specs::AnswerReading::read_page))]
fn page(alloc: Global, ty: PageType, fields: &mut Fields) -> Result<Answer, LineFault>
    ensures { Reads (read_page ty fields.old) result }
{
    let Some(generation) = fields.generation() else {
        return Err(LineFault::Form);
    };
    match fields.filling() {
        Some(Filling::Fill) => small(alloc, ty, generation, fields),
        Some(Filling::Large) => large(ty, generation, fields),
        None => Err(LineFault::Form),
    }
}

/// An answer behind its word.
#[tactic(auto, unfolding(crate::specs::AnswerReading::read_worded))]
fn worded(alloc: Global, opening: Opening, fields: &mut Fields) -> Result<Answer, LineFault>
    ensures { Reads (read_worded opening fields.old) result }
{
    match opening {
        Opening::Done => ending(Answer::Done, fields),
        Opening::Yes => ending(Answer::Yes, fields),
        Opening::No => ending(Answer::No, fields),
        Opening::Absent => ending(Answer::Absent, fields),
        Opening::Broken => ending(Answer::Broken, fields),
        Opening::Nil => ending(Answer::Val(Value::Nil), fields),
        Opening::Free => ending(Answer::Page(PageView::Free), fields),
        Opening::Live => live(fields),
        Opening::Ran => ran(alloc, fields),
        Opening::Stat => stat(fields),
        Opening::Page(ty) => page(alloc, ty, fields),
        Opening::Refused(refusal) => ending(Answer::Refused(refusal), fields),
    }
}

/// Whether an `x` stands second, as in a raw word.
fn second_is_x(field: &[u8]) -> bool
    ensures { result ≡ second_is_x field.now }
{
    matches!(field, [_, b'x', ..])
}

/// An answer that begins with a digit or a `-`.
#[tactic(auto, unfolding(crate::specs::AnswerReading::read_numeric))]
fn numeric(counts: bool, field: &[u8], fields: &Fields) -> Result<Answer, LineFault>
    ensures { Reads (read_numeric counts field.now fields.now) result }
{
    if counts {
        return match number(field, u64::MAX) {
            Some(n) => ending(Answer::Count(n), fields),
            None => Err(LineFault::Form),
        };
    }
    if second_is_x(field) {
        return match word(field) {
            Some(w) => ending(Answer::Word(w), fields),
            None => Err(LineFault::Form),
        };
    }
    match fixnum(field) {
        Some(n) => ending(Answer::Val(Value::Fix(n)), fields),
        None => Err(LineFault::Form),
    }
}

/// A name alone, or a name and where it is.
fn placed(name: u32, fields: &mut Fields) -> Result<Answer, LineFault>
    ensures { Reads (placed name fields.old) result }
{
    match fields.next() {
        None => Ok(Answer::Val(Value::Ref(name))),
        Some(field) => match index(field) {
            Some(index) => ending(Answer::Placed { name, index }, fields),
            None => Err(LineFault::Form),
        },
    }
}

/// An answer that begins with a name.
#[tactic(auto, unfolding(crate::specs::AnswerReading::read_named))]
fn named(field: &[u8], fields: &mut Fields) -> Result<Answer, LineFault>
    ensures { Reads (read_named field.now fields.old) result }
{
    match name(field) {
        Some(name) => placed(name, fields),
        None => Err(LineFault::Form),
    }
}

/// An answer that begins with a word.
fn opened(alloc: Global, field: &[u8], fields: &mut Fields) -> Result<Answer, LineFault>
    ensures { Reads (read_opened field.now fields.old) result }
{
    match opening_word(field) {
        Some(opening) => worded(alloc, opening, fields),
        None => Err(LineFault::Form),
    }
}

/// An answer, of a command that counts or does not.
#[tactic(auto, unfolding(crate::specs::AnswerReading::read_answer))]
pub(crate) fn answer(alloc: Global, counts: bool, fields: &mut Fields) -> Result<Answer, LineFault>
    ensures { Reads (read_answer counts fields.old) result }
{
    let Some(field) = fields.next() else {
        return Err(LineFault::Form);
    };
    match field {
        [] => Err(LineFault::Form),
        [b'-'..=b'9', ..] => numeric(counts, field, fields),
        [b'#', ..] => named(field, fields),
        [_, ..] => opened(alloc, field, fields),
    }
}
