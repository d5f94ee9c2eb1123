//! Raw words: `0x` and up to 16 hexadecimal digits.

ghost use Rattle.std.specs.Prelude.{◌≡◌, ◌≤◌, Some, None, length, ok_or, if◌then◌else◌};
ghost use Rattle.std.specs.Char.{is_digit};
ghost use Rattle.std.specs.List.{list_all};
ghost use Rattle.std.specs.Str.Parse.{digits_value};
ghost use Rattle.heap_terms.specs.Fields.{raw_word_of};
ghost use Rattle.heap_terms.specs.declared.faults.Why.TheVariants.{Form};

use heap_terms::Why;

/// How many digits a raw word has at most.
const MOST_DIGITS: usize = 16;

/// The number of up to 16 hexadecimal digits of either case.
fn value_of_hex(digits: &[u8]) -> Option<u64>
    requires { length digits.now ≤ 16 }
    ensures { result ≡ (if list_all (λ c. is_digit c 16) digits.now then Some (digits_value 16 digits.now) else None) }
{
    let mut value: u64 = 0;
    for byte in digits {
        let digit = char::from(*byte).to_digit(16)?;
        value = value * 16 + u64::from(digit);
    }
    Some(value)
}

/// A raw word.
#[tactic(auto, unfolding(heap_terms::specs::Fields::raw_word_of))]
pub(crate) fn raw_word(field: &[u8]) -> Result<u64, Why>
    ensures { result ≡ ok_or (raw_word_of field.now) Form }
{
    let [b'0', b'x', digits @ ..] = field else {
        return Err(Why::Form);
    };
    if digits.is_empty() || digits.len() > MOST_DIGITS {
        return Err(Why::Form);
    }
    match value_of_hex(digits) {
        Some(word) => Ok(word),
        None => Err(Why::Form),
    }
}
