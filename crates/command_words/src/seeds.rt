//! Seeds in decimal digits.

ghost use Rattle.std.specs.Prelude.{◌≡◌, ◌-◌, ◌^◌, ◌&&◌, Some, None, nat_le, if◌then◌else◌};
ghost use Rattle.std.specs.Char.{is_digit};
ghost use Rattle.std.specs.List.{list_all};
ghost use Rattle.std.specs.Str.Parse.{digits_value};
ghost use Rattle.command_words.specs.Forms.{joined_seed, seed_of};

/// How many digits a seed has at most.
const MOST_DIGITS: usize = 20;

/// What stands before a seed in the same word.
const JOINED: &[u8] = b"--seed=";

/// The seed of 1 to 20 decimal digits, where it is a number of 64 bits. Leading zeros are digits as
/// others.
pub(crate) fn seed_in(digits: &[u8]) -> Option<u64>
    ensures { result ≡ seed_of digits.now }
{
    if digits.is_empty() || digits.len() > MOST_DIGITS {
        return None;
    }
    value_of(digits)
}

/// The value of decimal digits, where it is a number of 64 bits.
fn value_of(digits: &[u8]) -> Option<u64>
    ensures { result ≡ (if list_all (λ c. is_digit c 10) digits.now && nat_le (digits_value 10 digits.now) (2 ^ 64 - 1)
        then Some (digits_value 10 digits.now) else None) }
{
    let mut value: u64 = 0;
    for byte in digits {
        let byte = *byte;
        if byte < b'0' || byte > b'9' {
            return None;
        }
        value = value.checked_mul(10)?.checked_add(u64::from(byte - b'0'))?;
    }
    Some(value)
}

/// The seed in a word `--seed=N`.
pub(crate) fn seed_joined(word: &[u8]) -> Option<u64>
    ensures { result ≡ joined_seed word.now }
{
    seed_in(word.strip_prefix(JOINED)?)
}
