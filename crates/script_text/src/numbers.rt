//! Numbers: of any field, and in their usual spelling, with one space before them and a space or an
//! LF after them, which are read without a search for the field's end.

ghost use Rattle.std.specs.Prelude.{◌≡◌, ◌-◌, ◌^◌, ◌≤◌, min, option_map, Some, None, if◌then◌else◌, IfSome, length, pos, neg_ℤ, IsTrue, ◌↔◌};
ghost use Rattle.std.specs.Char.{is_digit};
ghost use Rattle.std.specs.List.{list_all};
ghost use Rattle.std.specs.Str.Parse.{digits_value};
ghost use Rattle.heap_terms.specs.Fields.{number_of, ranged, between, at_most, is_auto, is_fixnum, is_i64, signed_of};
ghost use Rattle.script_text.specs.Commands.{Reads, an_index, a_fixnum, a_signed};
ghost use Rattle.heap_terms.specs.declared.limits.TheConstants.{MOST_PAIRS};
ghost use Rattle.script_text.specs.Values.{pages_of, NumberAt};

use crate::fields::ends_plainly;
use heap_terms::{LEAST_AUTO, MOST_AUTO, MOST_ELEMENTS, MOST_PAIRS, Why};

/// The value of decimal digits; one above `u64::MAX` is given as `u64::MAX`.
fn value_of_digits(digits: &[u8]) -> Option<u64>
    ensures { result ≡ (if list_all (λ c. is_digit c 10) digits.now then Some (min (digits_value 10 digits.now) (2 ^ 64 - 1)) else None) }
{
    let mut value: u64 = 0;
    for byte in digits {
        let byte = *byte;
        if byte < b'0' || byte > b'9' {
            return None;
        }
        value = value
            .saturating_mul(10)
            .saturating_add(u64::from(byte - b'0'));
    }
    Some(value)
}

/// The number of 1 to 20 decimal digits; one above `u64::MAX` is given as `u64::MAX`.
#[tactic(auto, unfolding(heap_terms::specs::Fields::number_of))]
pub(crate) fn number(field: &[u8]) -> Option<u64>
    ensures { result ≡ option_map (λ n. min n (2 ^ 64 - 1)) (number_of field.now) }
{
    if field.is_empty() || field.len() > 20 {
        return None;
    }
    value_of_digits(field)
}

/// A number up to `most`.
pub(crate) fn number_up_to(field: &[u8], most: u32) -> Result<u32, Why>
    ensures { result ≡ ranged (at_most most) (number_of field.now) }
{
    match number(field) {
        None => Err(Why::Form),
        Some(n) => {
            if n <= u64::from(most) {
                Ok(n as u32)
            } else {
                Err(Why::Range)
            }
        }
    }
}

/// The version, which is 1.
pub(crate) fn version(field: &[u8]) -> Result<u64, Why>
    ensures { result ≡ ranged (between 1 1) (number_of field.now) }
{
    match number(field) {
        None => Err(Why::Form),
        Some(n) => { if n == 1 { Ok(n) } else { Err(Why::Range) } }
    }
}

/// A number of pages, 1 or more; one above `u64::MAX` is given as `u64::MAX`.
pub(crate) fn page_count(field: &[u8]) -> Result<u64, Why>
    ensures { result ≡ pages_of field.now }
{
    match number(field) {
        None => Err(Why::Form),
        Some(n) => { if n >= 1 { Ok(n) } else { Err(Why::Range) } }
    }
}

/// The words between two collections that `auto` asks for, or 0 where it asks for none.
pub(crate) fn auto_words(field: &[u8]) -> Result<u64, Why>
    ensures { result ≡ ranged is_auto (number_of field.now) }
{
    match number(field) {
        None => Err(Why::Form),
        Some(n) => {
            if n == 0 || (u64::from(LEAST_AUTO) <= n && n <= u64::from(MOST_AUTO)) {
                Ok(n)
            } else {
                Err(Why::Range)
            }
        }
    }
}

/// For how many pairs a table has room.
pub(crate) fn capacity(field: &[u8]) -> Result<u32, Why>
    ensures { result ≡ ranged (between 1 MOST_PAIRS) (number_of field.now) }
{
    match number(field) {
        None => Err(Why::Form),
        Some(n) => {
            if 1 <= n && n <= u64::from(MOST_PAIRS) {
                Ok(n as u32)
            } else {
                Err(Why::Range)
            }
        }
    }
}

/// How far fixnums reach: from `-FIXNUMS` to `FIXNUMS - 1`.
const FIXNUMS: u64 = 0x4000_0000_0000_0000;

/// A fixnum without a sign.
fn fixnum_from_zero(digits: &[u8]) -> Result<i64, Why>
    ensures { result ≡ ranged is_fixnum (option_map pos (number_of digits.now)) }
{
    match number(digits) {
        None => Err(Why::Form),
        Some(n) => {
            if n < FIXNUMS {
                Ok(n as i64)
            } else {
                Err(Why::Range)
            }
        }
    }
}

/// A fixnum behind a `-`.
fn fixnum_below_zero(digits: &[u8]) -> Result<i64, Why>
    ensures { result ≡ ranged is_fixnum (option_map (λ n. neg_ℤ (pos n)) (number_of digits.now)) }
{
    match number(digits) {
        None => Err(Why::Form),
        Some(n) => {
            if n <= FIXNUMS {
                Ok(-(n as i64))
            } else {
                Err(Why::Range)
            }
        }
    }
}

/// A fixnum.
#[tactic(auto, unfolding(heap_terms::specs::Fields::signed_of))]
pub(crate) fn fixnum(field: &[u8]) -> Result<i64, Why>
    ensures { result ≡ ranged is_fixnum (signed_of field.now) }
{
    match field {
        [] => Err(Why::Form),
        [b'-', digits @ ..] => fixnum_below_zero(digits),
        [_, ..] => fixnum_from_zero(field),
    }
}

/// A signed number of 64 bits without a sign.
fn signed_from_zero(digits: &[u8]) -> Result<i64, Why>
    ensures { result ≡ ranged is_i64 (option_map pos (number_of digits.now)) }
{
    match number(digits) {
        None => Err(Why::Form),
        Some(n) => {
            if n <= i64::MAX as u64 {
                Ok(n as i64)
            } else {
                Err(Why::Range)
            }
        }
    }
}

/// A signed number of 64 bits behind a `-`.
fn signed_below_zero(digits: &[u8]) -> Result<i64, Why>
    ensures { result ≡ ranged is_i64 (option_map (λ n. neg_ℤ (pos n)) (number_of digits.now)) }
{
    match number(digits) {
        None => Err(Why::Form),
        Some(n) => {
            if n <= i64::MAX as u64 {
                Ok(-(n as i64))
            } else if n == i64::MAX as u64 + 1 {
                Ok(i64::MIN)
            } else {
                Err(Why::Range)
            }
        }
    }
}

/// A signed number of 64 bits.
#[tactic(auto, unfolding(heap_terms::specs::Fields::signed_of))]
pub(crate) fn signed(field: &[u8]) -> Result<i64, Why>
    ensures { result ≡ ranged is_i64 (signed_of field.now) }
{
    match field {
        [] => Err(Why::Form),
        [b'-', digits @ ..] => signed_below_zero(digits),
        [_, ..] => signed_from_zero(field),
    }
}

/// Where a number in its usual spelling may grow to another digit: below 10^17, so that no sum of
/// its digits passes the largest fixnum.
const MOST_TO_GROW: u64 = 100_000_000_000_000_000;

/// A number before a space or an LF, and the bytes after it. One of 18 digits may be left out.
#[inline(always)]
fn plain_number(rest: &[u8]) -> Option<(u64, &[u8])>
    ensures { IfSome result (λ f. NumberAt rest.now f.0 f.1.now) }
{
    let mut value: u64 = 0;
    let mut len = 0;
    while len < rest.len() && len < 20 && value < MOST_TO_GROW && is_decimal(rest[len]) {
        value = value * 10 + u64::from(rest[len] - b'0');
        len += 1;
    }
    if len == 0 || len == rest.len() || !ends_plainly(rest[len]) {
        return None;
    }
    let (_, after) = rest.split_at(len);
    Some((value, after))
}

/// Whether a byte is a decimal digit.
#[inline(always)]
fn is_decimal(byte: u8) -> bool
    ensures { IsTrue result ↔ ((48 ≤ byte) × (byte ≤ 57)) }
{
    b'0' <= byte && byte <= b'9'
}

/// An index in its usual spelling, and the bytes after it.
#[inline(always)]
pub(crate) fn plain_index(rest: &[u8]) -> Option<(u32, &[u8])>
    ensures { IfSome result (λ f. Reads an_index rest.now f.0 f.1.now) }
{
    if rest.is_empty() || rest[0] != b' ' {
        return None;
    }
    let (_, digits) = rest.split_at(1);
    let (n, after) = plain_number(digits)?;
    if n > u64::from(MOST_ELEMENTS) {
        return None;
    }
    Some((n as u32, after))
}

/// A fixnum in its usual spelling, and the bytes after it.
#[inline(always)]
pub(crate) fn plain_fixnum(rest: &[u8]) -> Option<(i64, &[u8])>
    ensures { IfSome result (λ f. Reads a_fixnum rest.now f.0 f.1.now) }
{
    if rest.len() < 2 || rest[0] != b' ' {
        return None;
    }
    if rest[1] == b'-' {
        let (_, digits) = rest.split_at(2);
        let (n, after) = plain_number(digits)?;
        return Some((-(n as i64), after));
    }
    let (_, digits) = rest.split_at(1);
    let (n, after) = plain_number(digits)?;
    Some((n as i64, after))
}

/// A signed number of 64 bits in its usual spelling, and the bytes after it. Those that are no
/// fixnum are left out.
#[inline(always)]
#[tactic(auto, using(crate::proofs::Numbered::signed_read))]
pub(crate) fn plain_signed(rest: &[u8]) -> Option<(i64, &[u8])>
    ensures { IfSome result (λ f. Reads a_signed rest.now f.0 f.1.now) }
{
    plain_fixnum(rest)
}
