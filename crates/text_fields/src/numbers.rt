//! Numbers in decimal digits.

ghost use Rattle.std.specs.Prelude.{◌≡◌, ◌+◌, ◌/◌, ◌%◌, ◌<◌, ◌≤◌, [], ◌∷◌, ◌++◌, decimal};
ghost use Rattle.std.specs.Fmt.{signed_decimal};
ghost use Rattle.heap_terms.specs.Text.{number_field, field};

use crate::buffer::Text;
use crate::fields::push;
use crate::room::{NUMBER, NUMBER_FIELD, SMALL_NUMBER};
use itoa::Buffer;

/// The glyph of a digit.
#[inline(always)]
fn glyph(digit: u32) -> u8
    requires { digit < 10 }
    ensures { result ≡ 48 + digit }
{
    b'0' + digit as u8
}

/// Appends a number of two digits or more.
#[inline(never)]
fn push_digits(out: &mut Text, n: u64)
    requires { NUMBER ≤ out.old.room }
    ensures text { out.new.text ≡ out.old.text ++ decimal n }
    ensures room { out.old.room ≤ out.new.room + NUMBER }
{
    out.push_number(n);
}

/// Appends a number.
#[inline(always)]
#[tactic(auto, using(std::proofs::lemmas::Fmt::decimal_digit))]
pub fn push_number(out: &mut Text, n: u64)
    requires { NUMBER ≤ out.old.room }
    ensures text { out.new.text ≡ out.old.text ++ decimal n }
    ensures room { out.old.room ≤ out.new.room + NUMBER }
{
    if n < 10 {
        push(out, &[glyph(n as u32)]);
    } else {
        push_digits(out, n);
    }
}

/// Appends a number of 8 bits.
#[inline(never)]
#[tactic(auto, using(std::proofs::lemmas::Fmt::decimal_digit, crate::proofs::Decimals::decimal_two, crate::proofs::Decimals::decimal_three))]
pub fn push_small(out: &mut Text, n: u8)
    requires { SMALL_NUMBER ≤ out.old.room }
    ensures text { out.new.text ≡ out.old.text ++ decimal n }
    ensures room { out.old.room ≤ out.new.room + SMALL_NUMBER }
{
    let n = n as u32;
    if n < 10 {
        push(out, &[glyph(n)]);
    } else if n < 100 {
        push(out, &[glyph(n / 10), glyph(n % 10)]);
    } else {
        push(
            out,
            &[glyph(n / 100), glyph(n % 100 / 10), glyph(n % 100 % 10)],
        );
    }
}

/// Appends a number as a field.
#[inline(always)]
#[tactic(auto, using(std::proofs::lemmas::Fmt::decimal_digit))]
pub fn push_number_field(out: &mut Text, n: u64)
    requires { NUMBER_FIELD ≤ out.old.room }
    ensures text { out.new.text ≡ out.old.text ++ number_field n }
    ensures room { out.old.room ≤ out.new.room + NUMBER_FIELD }
{
    if n < 10 {
        push(out, &[b' ', glyph(n as u32)]);
    } else {
        push(out, b" ");
        push_number(out, n);
    }
}

/// Appends a signed number.
pub fn push_signed(out: &mut Text, n: i64)
    requires { NUMBER ≤ out.old.room }
    ensures text { out.new.text ≡ out.old.text ++ signed_decimal n }
    ensures room { out.old.room ≤ out.new.room + NUMBER }
{
    if 0 <= n {
        push_number(out, n as u64);
    } else {
        let mut buffer = Buffer::new();
        out.push_slice(buffer.format(n).as_bytes());
    }
}

/// Appends a signed number as a field.
pub fn push_signed_field(out: &mut Text, n: i64)
    requires { NUMBER_FIELD ≤ out.old.room }
    ensures text { out.new.text ≡ out.old.text ++ field (signed_decimal n) }
    ensures room { out.old.room ≤ out.new.room + NUMBER_FIELD }
{
    push(out, b" ");
    push_signed(out, n);
}
