//! What stands in one field beside a number: cells, names, values and single words.

ghost use Rattle.std.specs.Prelude.{◌≡◌, None, MatchOption};
ghost use Rattle.heap_terms.specs.Text.{type_text, weakness_text};
ghost use Rattle.journal_text.specs.FieldReading.{a_cell, a_fixnum, a_generation, a_mixed_weakness, a_name, a_raw, a_type, a_value, a_weakness, an_index};

use super::numbers::{number_8, number_32, signed};
use heap_terms::{
    CELLS, Cell, MOST_COMMANDS, MOST_WORDS, OLDEST_COLLECTED, PageType, RAW_CELLS, Raw, Value,
    Weakness,
};

/// Where fixnums end: they are from `-FIXNUMS` to `FIXNUMS - 1`.
const FIXNUMS: u64 = 0x4000_0000_0000_0000;

/// A Lisp cell.
#[inline]
#[tactic(auto, unfolding(crate::specs::FieldReading::a_cell))]
pub(crate) fn cell(field: &[u8]) -> Option<Cell>
    ensures { result ≡ a_cell field.now }
{
    let [letter, digits @ ..] = field else {
        return None;
    };
    match *letter {
        b's' => Some(Cell::Stack(number_8(digits, CELLS as u8 - 1)?)),
        b'b' => Some(Cell::Exact(number_8(digits, CELLS as u8 - 1)?)),
        b'g' => Some(Cell::Shared(number_8(digits, CELLS as u8 - 1)?)),
        _ => None,
    }
}

/// A raw cell.
#[tactic(auto, unfolding(crate::specs::FieldReading::a_raw))]
pub(crate) fn raw(field: &[u8]) -> Option<Raw>
    ensures { result ≡ a_raw field.now }
{
    match field {
        [b'r', digits @ ..] => Some(Raw(number_8(digits, RAW_CELLS as u8 - 1)?)),
        _ => None,
    }
}

/// The name of an object, with its `#`.
#[tactic(auto, unfolding(crate::specs::FieldReading::a_name))]
pub(crate) fn name(field: &[u8]) -> Option<u32>
    ensures { result ≡ a_name field.now }
{
    match field {
        [b'#', digits @ ..] => number_32(digits, MOST_COMMANDS - 1),
        _ => None,
    }
}

/// An index, with its `@`.
#[tactic(auto, unfolding(crate::specs::FieldReading::an_index))]
pub(crate) fn index(field: &[u8]) -> Option<u32>
    ensures { result ≡ an_index field.now }
{
    match field {
        [b'@', digits @ ..] => number_32(digits, MOST_WORDS - 1),
        _ => None,
    }
}

/// The generation of a page, with its `g`.
#[tactic(auto, unfolding(crate::specs::FieldReading::a_generation))]
pub(crate) fn generation(field: &[u8]) -> Option<u8>
    ensures { result ≡ a_generation field.now }
{
    match field {
        [b'g', digits @ ..] => number_8(digits, OLDEST_COLLECTED),
        _ => None,
    }
}

/// A fixnum.
#[tactic(auto, unfolding(crate::specs::FieldReading::a_fixnum))]
pub(crate) fn fixnum(field: &[u8]) -> Option<i64>
    ensures { result ≡ a_fixnum field.now }
{
    signed(field, FIXNUMS)
}

/// A value.
#[tactic(auto, unfolding(crate::specs::FieldReading::a_value))]
pub(crate) fn value(field: &[u8]) -> Option<Value>
    ensures { result ≡ a_value field.now }
{
    match field {
        [] => None,
        [b'#', digits @ ..] => Some(Value::Ref(number_32(digits, MOST_COMMANDS - 1)?)),
        b"nil" => Some(Value::Nil),
        _ => Some(Value::Fix(fixnum(field)?)),
    }
}

/// The word of a weakness.
#[tactic(auto, unfolding(crate::specs::FieldReading::a_weakness))]
pub(crate) fn weakness(field: &[u8]) -> Option<Weakness>
    ensures { MatchOption result (a_weakness field.now ≡ None) (λ w. field.now ≡ weakness_text w) }
{
    match field {
        b"strong" => Some(Weakness::Strong),
        b"key" => Some(Weakness::Key),
        b"value" => Some(Weakness::Value),
        _ => mixed_weakness(field),
    }
}

/// The word of a weakness in which both sides have a say.
#[tactic(auto, unfolding(crate::specs::FieldReading::a_mixed_weakness))]
fn mixed_weakness(field: &[u8]) -> Option<Weakness>
    ensures { MatchOption result (a_mixed_weakness field.now ≡ None) (λ w. field.now ≡ weakness_text w) }
{
    if field == b"key-and-value".as_slice() {
        return Some(Weakness::KeyAndValue);
    }
    if field == b"key-or-value".as_slice() {
        return Some(Weakness::KeyOrValue);
    }
    None
}

/// The type of a page.
#[tactic(auto, unfolding(crate::specs::FieldReading::a_type))]
pub(crate) fn page_type(field: &[u8]) -> Option<PageType>
    ensures { MatchOption result (a_type field.now ≡ None) (λ ty. field.now ≡ type_text ty) }
{
    match field {
        b"cons" => Some(PageType::Cons),
        b"boxed" => Some(PageType::Boxed),
        b"unboxed" => Some(PageType::Unboxed),
        _ => None,
    }
}
