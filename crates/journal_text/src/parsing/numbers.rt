//! Numbers, in the one spelling that a journal has for each.

ghost use Rattle.std.specs.Prelude.{◌≡◌, ◌≤◌, ◌^◌, IfSome};
ghost use Rattle.journal_text.specs.FieldReading.{Digit, a_number, a_signed, a_word, is_decimal, is_hex, is_loose, value_in};
ghost use Rattle.journal_text.specs.LineReading.{a_count};

/// The value of a decimal digit.
#[inline(always)]
fn digit(byte: u8) -> Option<u8>
    ensures { Digit is_decimal byte result }
{
    if byte < b'0' || byte > b'9' {
        None
    } else {
        Some(byte - b'0')
    }
}

/// The value of a hexadecimal digit of lower case.
#[inline(always)]
fn hex_digit(byte: u8) -> Option<u8>
    ensures { Digit is_hex byte result }
{
    if byte >= b'0' && byte <= b'9' {
        Some(byte - b'0')
    } else if byte >= b'a' && byte <= b'f' {
        Some(byte - b'a' + 10)
    } else {
        None
    }
}

/// The value of decimal digits, where 64 bits hold it.
fn value_of_digits(digits: &[u8]) -> Option<u64>
    ensures { result ≡ value_in 10 is_decimal digits.now }
{
    let mut value: u64 = 0;
    for byte in digits {
        let digit = digit(*byte)?;
        value = value.checked_mul(10)?.checked_add(u64::from(digit))?;
    }
    Some(value)
}

/// The value of hexadecimal digits, where 64 bits hold it.
fn value_of_hex_digits(digits: &[u8]) -> Option<u64>
    ensures { result ≡ value_in 16 is_hex digits.now }
{
    let mut value: u64 = 0;
    for byte in digits {
        let digit = hex_digit(*byte)?;
        value = value.checked_mul(16)?.checked_add(u64::from(digit))?;
    }
    Some(value)
}

/// Whether there is no digit, or a zero before another one.
#[inline(always)]
fn is_loose(digits: &[u8]) -> bool
    ensures { result ≡ is_loose digits.now }
{
    match digits {
        [] => true,
        [b'0', _, ..] => true,
        _ => false,
    }
}

/// A number up to the most.
#[tactic(auto, unfolding(crate::specs::FieldReading::a_number))]
pub(crate) fn number(field: &[u8], most: u64) -> Option<u64>
    ensures value { result ≡ a_number most field.now }
    ensures within { IfSome result (λ n. n ≤ most) }
{
    if is_loose(field) {
        return None;
    }
    let value = value_of_digits(field)?;
    if value <= most { Some(value) } else { None }
}

/// A number of 32 bits up to the most.
pub(crate) fn number_32(field: &[u8], most: u32) -> Option<u32>
    ensures value { result ≡ a_number most field.now }
    ensures within { IfSome result (λ n. n ≤ most) }
{
    let value = number(field, u64::from(most))?;
    Some(value as u32)
}

/// A number from 1 to the most.
#[tactic(auto, unfolding(crate::specs::LineReading::a_count))]
pub(crate) fn count(field: &[u8], most: u32) -> Option<u32>
    ensures { result ≡ a_count most field.now }
{
    let value = number_32(field, most)?;
    if value == 0 { None } else { Some(value) }
}

/// A number of 8 bits up to the most.
pub(crate) fn number_8(field: &[u8], most: u8) -> Option<u8>
    ensures value { result ≡ a_number most field.now }
    ensures within { IfSome result (λ n. n ≤ most) }
{
    let value = number(field, u64::from(most))?;
    Some(value as u8)
}

/// A number from `-most` to `most - 1`.
#[tactic(auto, unfolding(crate::specs::FieldReading::a_signed))]
pub(crate) fn signed(field: &[u8], most: u64) -> Option<i64>
    requires least { 1 ≤ most }
    requires most { most ≤ 2 ^ 63 }
    ensures { result ≡ a_signed most field.now }
{
    match field {
        [] => None,
        [b'-', digits @ ..] => {
            let value = number(digits, most)?;
            if value == 0 {
                None
            } else {
                Some(-((value - 1) as i64) - 1)
            }
        }
        [_, ..] => {
            let value = number(field, most - 1)?;
            Some(value as i64)
        }
    }
}

/// A raw word: `0x` and 16 hexadecimal digits.
#[tactic(auto, unfolding(crate::specs::FieldReading::a_word))]
pub(crate) fn word(field: &[u8]) -> Option<u64>
    ensures { result ≡ a_word field.now }
{
    if field.len() != 18 {
        return None;
    }
    let digits = field.strip_prefix(b"0x".as_slice())?;
    value_of_hex_digits(digits)
}
