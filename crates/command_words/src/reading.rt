//! What the words of `gen` say, read with `clap`.

ghost use Rattle.std.specs.Prelude.{◌≡◌, Some, IfOk, IfErr, codes, true, is_some, map, option_and_then};
ghost use Rattle.std.specs.String.{string_bytes};
ghost use Rattle.clap.specs.Words.{first_of, found_of, kind_of, matches_of, one_of, rows_of};
ghost use Rattle.command_words.specs.Forms.{seed_of, wanted};
ghost use Rattle.command_words.specs.Matching.{generator};

use crate::seeds::seed_in;
use clap::error::ErrorKind;
use clap::{Arg, ArgAction, ArgMatches, Command, Error};
use heap_terms::Memory;
use std::alloc::Global;

/// What is wanted of the generator.
#[derive(Clone, Copy, Debug, PartialEq, Eq)]
pub struct Wanted {
    /// The seed of the program.
    pub seed: u64,
    /// Whether its script is wanted, or the summary of its run.
    pub script: bool,
}

/// What words of `gen` ask for. The words are read with `clap`, which refuses such words only for want
/// of memory.
pub fn read_generate(alloc: Global, words: &[String]) -> Result<Wanted, Memory>
    requires { is_some (wanted (map string_bytes words.now)) ≡ true }
    ensures { IfOk result (λ w. wanted (map string_bytes words.now) ≡ Some (record { seed = w.seed; script = w.script })) }
{
    match matches(alloc, words) {
        Ok(matches) => Ok(Wanted {
            seed: seed_matched(&matches).unwrap(),
            script: matches.get_flag("script"),
        }),
        Err(_) => Err(Memory),
    }
}

/// The seed that was matched.
fn seed_matched(matches: &ArgMatches<'_>) -> Option<u64>
    ensures { result ≡ option_and_then seed_of (first_of (codes "seed") (rows_of (found_of matches.now))) }
{
    seed_in(matches.get_str("seed")?.as_bytes())
}

/// What `clap` makes of the words.
fn matches<'a>(alloc: Global, words: &'a [String]) -> Result<ArgMatches<'a>, Error>
    requires { is_some (wanted (map string_bytes words.now)) ≡ true }
    ensures matches { IfOk result (λ m. rows_of (found_of m) ≡ matches_of generator (map string_bytes words.now)) }
    // Words that passed the test are refused only for want of memory.
    ensures memory { IfErr result (λ e. kind_of e ≡ ErrorKind.OutOfMemory) }
{
    let seed = Arg::new(alloc, "seed")
        .long("seed")
        .required(true)
        .action(ArgAction::Set);
    let script = Arg::new(alloc, "script")
        .long("script")
        .action(ArgAction::SetTrue);
    let command = Command::new(alloc, "gen").arg(seed)?.arg(script)?;
    command.try_get_matches_from(words)
}
