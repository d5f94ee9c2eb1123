//! The fields of a line. Each line reserves room at its start, so that none of them takes memory.

ghost use Rattle.std.specs.Prelude.{◌≡◌, ◌+◌, ◌/◌, ◌%◌, ◌<◌, ◌≤◌, [], ◌∷◌, ◌++◌, OnOk, codes, decimal, flat_map};
ghost use Rattle.std.specs.Fmt.{signed_decimal};
ghost use Rattle.heap_terms.specs.Text.{cell_field, raw_field, number_field, field, hex_digit, hex_digits, word_text, name_text, index_text, value_text, line};

use crate::buffer::Text;
use crate::cursor::parts_of;
use crate::numbers::{push_number, push_number_field, push_signed_field, push_small};
use crate::room::{
    CELL_FIELD, INDEX, INDEX_FIELD, NAME_FIELD, NUMBER, NUMBER_FIELD, OBJECT, VALUE_FIELD, WORD,
    WORD_FIELD,
};
use heap_terms::{Cell, Raw, Value};
use std::alloc::AllocError;

/// Appends a few bytes for which there is room.
#[inline(always)]
pub fn push<const N: usize>(out: &mut Text, bytes: &[u8; N])
    requires { N ≤ out.old.room }
    ensures text { out.new.text ≡ out.old.text ++ bytes.now }
    ensures room { out.old.room ≤ out.new.room + N }
{
    out.push(bytes);
}

/// Appends a field that is a letter and a number.
#[inline(always)]
#[tactic(auto, using(std::proofs::lemmas::Fmt::decimal_digit, crate::proofs::Decimals::decimal_two))]
fn push_lettered(out: &mut Text, letter: u8, i: u8)
    requires { CELL_FIELD ≤ out.old.room }
    ensures text { out.new.text ≡ out.old.text ++ field (letter ∷ decimal i) }
    ensures room { out.old.room ≤ out.new.room + CELL_FIELD }
{
    if i < 10 {
        push(out, &[b' ', letter, b'0' + i]);
    } else if i < 20 {
        push(out, &[b' ', letter, b'1', b'0' - 10 + i]);
    } else {
        push(out, &[b' ', letter]);
        push_small(out, i);
    }
}

/// Appends a cell as a field.
#[inline]
pub fn push_cell(out: &mut Text, c: Cell)
    requires { CELL_FIELD ≤ out.old.room }
    ensures text { out.new.text ≡ out.old.text ++ cell_field c }
    ensures room { out.old.room ≤ out.new.room + CELL_FIELD }
{
    let (letter, i) = parts_of(c);
    push_lettered(out, letter, i);
}

/// Appends a raw cell as a field.
pub fn push_raw(out: &mut Text, r: Raw)
    requires { CELL_FIELD ≤ out.old.room }
    ensures text { out.new.text ≡ out.old.text ++ raw_field r }
    ensures room { out.old.room ≤ out.new.room + CELL_FIELD }
{
    push_lettered(out, b'r', r.0);
}

/// A hexadecimal digit.
#[inline(always)]
fn digit(d: u8) -> u8
    requires { d ≤ 15 }
    ensures { result ≡ hex_digit d }
{
    if d < 10 { b'0' + d } else { b'a' - 10 + d }
}

/// Appends a raw word: `0x` and 16 hexadecimal digits.
pub fn push_word(out: &mut Text, w: u64)
    requires { WORD ≤ out.old.room }
    ensures text { out.new.text ≡ out.old.text ++ word_text w }
    ensures room { out.old.room ≤ out.new.room + WORD }
{
    let digits = digits_of(w);
    push(out, b"0x");
    push(out, &digits);
}

/// The 16 hexadecimal digits of a word.
fn digits_of(w: u64) -> [u8; 16]
    ensures { result ≡ hex_digits 16 w }
{
    let mut digits = [0u8; 16];
    let mut left = w;
    let mut k = 16;
    while k > 0 {
        k -= 1;
        digits[k] = digit((left % 16) as u8);
        left /= 16;
    }
    digits
}

/// Appends a raw word as a field.
pub fn push_word_field(out: &mut Text, w: u64)
    requires { WORD_FIELD ≤ out.old.room }
    ensures text { out.new.text ≡ out.old.text ++ field (word_text w) }
    ensures room { out.old.room ≤ out.new.room + WORD_FIELD }
{
    push(out, b" ");
    push_word(out, w);
}

/// Appends the name of an object as a field.
pub fn push_name_field(out: &mut Text, name: u32)
    requires { NAME_FIELD ≤ out.old.room }
    ensures text { out.new.text ≡ out.old.text ++ field (name_text name) }
    ensures room { out.old.room ≤ out.new.room + NAME_FIELD }
{
    push(out, b" #");
    push_number(out, name as u64);
}

/// Appends an index.
pub fn push_index(out: &mut Text, index: u32)
    requires { INDEX ≤ out.old.room }
    ensures text { out.new.text ≡ out.old.text ++ index_text index }
    ensures room { out.old.room ≤ out.new.room + INDEX }
{
    push(out, b"@");
    push_number(out, index as u64);
}

/// Appends an index as a field.
pub fn push_index_field(out: &mut Text, index: u32)
    requires { INDEX_FIELD ≤ out.old.room }
    ensures text { out.new.text ≡ out.old.text ++ field (index_text index) }
    ensures room { out.old.room ≤ out.new.room + INDEX_FIELD }
{
    push(out, b" @");
    push_number(out, index as u64);
}

/// Appends a word and, each as a field, the name of an object and an index.
#[inline(always)]
pub fn push_object<const N: usize>(out: &mut Text, word: &[u8; N], name: u32, index: u32)
    requires { N + OBJECT ≤ out.old.room }
    ensures text { out.new.text ≡ out.old.text ++ (word.now ++ (field (name_text name) ++ field (index_text index))) }
    ensures room { out.old.room ≤ out.new.room + (N + OBJECT) }
{
    out.push_object(word, name, index);
}

/// Appends an index as a field, and ends the line.
#[inline(always)]
pub fn push_index_end(out: &mut Text, index: u32)
    requires { INDEX_FIELD + 1 ≤ out.old.room }
    ensures text { out.new.text ≡ out.old.text ++ line (field (index_text index)) }
    ensures room { out.old.room ≤ out.new.room + (INDEX_FIELD + 1) }
{
    out.push_index_end(index);
}

/// Appends a value as a field.
pub fn push_value(out: &mut Text, v: Value)
    requires { VALUE_FIELD ≤ out.old.room }
    ensures text { out.new.text ≡ out.old.text ++ field (value_text v) }
    ensures room { out.old.room ≤ out.new.room + VALUE_FIELD }
{
    match v {
        Value::Fix(n) => push_signed_field(out, n),
        Value::Nil => push(out, b" nil"),
        Value::Unbound => push(out, b" unbound"),
        Value::Ref(name) => push_name_field(out, name),
    }
}

/// Appends numbers, each as a field. Their room is reserved one by one.
pub fn push_numbers(out: &mut Text, numbers: &[u32]) -> Result<(), AllocError>
    ensures { OnOk result (out.new.text ≡ out.old.text ++ flat_map number_field numbers.now) }
{
    for n in numbers {
        out.reserve(NUMBER_FIELD)?;
        push_number_field(out, *n as u64);
    }
    Ok(())
}
