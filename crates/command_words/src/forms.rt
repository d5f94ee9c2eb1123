//! Whether words are one of the forms of `gen`.

ghost use Rattle.std.specs.Prelude.{◌≡◌, is_some, map, bytes_eq};
ghost use Rattle.std.specs.String.{string_bytes};
ghost use Rattle.command_words.specs.Forms.{joined_seed, parted_seed, wanted};

use crate::seeds::{seed_in, seed_joined};

/// Whether the words are one of the forms of the generator: `gen --seed N` or `gen --seed=N`, and
/// after either of them perhaps `--script`. N is 1 to 20 decimal digits and at most 2^64 - 1. The
/// forms are this project's own.
pub fn is_generate(words: &[String]) -> bool
    ensures { result ≡ is_some (wanted (map string_bytes words.now)) }
{
    match words {
        [name, option] => is(name, "gen") && is_joined(option),
        [name, option, last] => is(name, "gen")
            && (is_parted(option, last) || (is_joined(option) && is(last, "--script"))),
        [name, option, seed, last] => is(name, "gen")
            && (is_parted(option, seed) && is(last, "--script")),
        _ => false,
    }
}

/// Whether a word is this one.
fn is(word: &String, text: &str) -> bool
    ensures { result ≡ bytes_eq (string_bytes word.now) text.now }
{
    word.as_str() == text
}

/// Whether two words are `--seed N`.
fn is_parted(option: &String, seed: &String) -> bool
    ensures { result ≡ is_some (parted_seed (string_bytes option.now) (string_bytes seed.now)) }
{
    is(option, "--seed") && seed_in(seed.as_bytes()).is_some()
}

/// Whether a word is `--seed=N`.
fn is_joined(option: &String) -> bool
    ensures { result ≡ is_some (joined_seed (string_bytes option.now)) }
{
    seed_joined(option.as_bytes()).is_some()
}
