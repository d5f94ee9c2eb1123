//! The fields of a schedule: a thread's number, or that, `*` and how many turns in a row it has.

ghost use Rattle.std.specs.Prelude.{◌≡◌, ◌+◌, ◌<◌, ◌==◌, [], ◌∷◌, IfSome, length, position};
ghost use Rattle.heap_terms.specs.Fields.{turns_of, turns_of_parts};
ghost use Rattle.script_text.specs.Left.{Taken};
ghost use Rattle.script_text.specs.Values.{one_by_one};

use crate::fields::ends_plainly;
use crate::numbers::number;
use heap_terms::{MOST_TURNS_IN_A_ROW, Why};

/// Turns of one thread in a row.
#[derive(Clone, Copy)]
pub(crate) struct Turns {
    pub(crate) thread: u32,
    pub(crate) count: u32,
}

/// A thread's number, for one turn.
fn one_turn(field: &[u8], threads: u32) -> Result<Turns, Why>
    ensures { one_by_one result ≡ turns_of_parts threads (field.now ∷ []) }
{
    match number(field) {
        None => Err(Why::Form),
        Some(n) => {
            if n < u64::from(threads) {
                Ok(Turns {
                    thread: n as u32,
                    count: 1,
                })
            } else {
                Err(Why::Range)
            }
        }
    }
}

/// A thread's number, and how many turns in a row it has.
fn turns_in_a_row(thread: &[u8], count: &[u8], threads: u32) -> Result<Turns, Why>
    ensures { one_by_one result ≡ turns_of_parts threads (thread.now ∷ count.now ∷ []) }
{
    let Some(thread) = number(thread) else {
        return Err(Why::Form);
    };
    let Some(count) = number(count) else {
        return Err(Why::Form);
    };
    if thread < u64::from(threads) && count >= 1 && count <= u64::from(MOST_TURNS_IN_A_ROW) {
        Ok(Turns {
            thread: thread as u32,
            count: count as u32,
        })
    } else {
        Err(Why::Range)
    }
}

/// Where the first `*` stands.
fn place_of_star(field: &[u8]) -> Option<usize>
    ensures value { result ≡ position (λ b. b == 42) field.now }
    ensures within { IfSome result (λ i. i < length field.now) }
{
    field.iter().position(|b| *b == b'*')
}

/// A field of a schedule, in a script with so many threads.
pub(crate) fn turns_in(field: &[u8], threads: u32) -> Result<Turns, Why>
    ensures { one_by_one result ≡ turns_of threads field.now }
{
    match place_of_star(field) {
        None => one_turn(field, threads),
        Some(star) => {
            let (thread, _) = field.split_at(star);
            let (_, count) = field.split_at(star + 1);
            turns_in_a_row(thread, count, threads)
        }
    }
}

/// One digit in its usual spelling, with one space before it and a space or an LF after it, and the
/// bytes after it.
#[inline(always)]
pub(crate) fn plain_digit(rest: &[u8]) -> Option<(u8, &[u8])>
    ensures { IfSome result (λ f. (f.0 < 10) × Taken rest.now ((f.0 + 48) ∷ []) f.1.now) }
{
    if rest.len() < 3 || rest[0] != b' ' {
        return None;
    }
    let digit = rest[1];
    if digit < b'0' || digit > b'9' || !ends_plainly(rest[2]) {
        return None;
    }
    let (_, after) = rest.split_at(2);
    Some((digit - b'0', after))
}
