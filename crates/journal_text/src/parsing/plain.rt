//! The usual lines in one go: what a thread did by `fix`, `cons`, `get`, `put` or `show`, and moves.
//! Nothing is looked for; what is spelled in any other way, or is no line at all, is left to the
//! readers of fields.

ghost use Rattle.std.specs.Prelude.{◌≡◌, ◌<◌, ◌≤◌, ◌^◌, ◌++◌, true, IfSome, decimal};
ghost use Rattle.std.specs.Fmt.{signed_decimal};
ghost use Rattle.heap_terms.specs.Text.{cell_field, event_text, field, index_text, name_text, number_field};
ghost use Rattle.heap_terms.specs.Valid.{IsCell, IsFixnum};
ghost use Rattle.heap_terms.specs.declared.events.Event.TheVariants.{Did};
ghost use Rattle.journal_text.specs.declared.parsing.pieces.Piece.TheVariants as pieces;
ghost use Rattle.journal_text.specs.FieldReading.{is_decimal};
ghost use Rattle.journal_text.specs.Lines.{piece_text};
ghost use Rattle.journal_text.specs.Plain.{Acts, Answers, IsDeed};
ghost use Rattle.journal_text.specs.Ranges.{IsIndex, IsMove, IsName};
ghost use Rattle.journal_text.specs.Rows.{may_answer};

use super::rows::may_answer;
use heap_terms::{
    Answer, Cell, Command, Event, MOST_COMMANDS, MOST_ELEMENTS, MOST_WORDS, Placing, Refusal, Value,
};

/// Where a number in its usual spelling may grow to another digit: below 10^17, so that no sum of
/// its digits passes the largest fixnum.
const MOST_TO_GROW: u64 = 100_000_000_000_000_000;

/// The bytes behind these, where they stand at the front.
#[inline(always)]
fn behind<'a, const N: usize>(bytes: &'a [u8], spelled: &[u8; N]) -> Option<&'a [u8]>
    ensures { IfSome result (λ after. bytes.now ≡ spelled.now ++ after.now) }
{
    let after = bytes.strip_prefix(spelled.as_slice())?;
    Some(after)
}

/// A number, and the bytes behind its digits. Those of 18 digits and more are left out.
#[inline(always)]
fn number(bytes: &[u8]) -> Option<(u64, &[u8])>
    ensures text { IfSome result (λ f. bytes.now ≡ decimal f.0 ++ f.1.now) }
    ensures small { IfSome result (λ f. f.0 < 1000000000000000000) }
{
    let mut value: u64 = 0;
    let mut len = 0;
    while len < bytes.len() && value < MOST_TO_GROW && is_decimal(bytes[len]) {
        value = value * 10 + u64::from(bytes[len] - b'0');
        len += 1;
    }
    if len == 0 || (len > 1 && bytes[0] == b'0') {
        return None;
    }
    let (_, after) = bytes.split_at(len);
    Some((value, after))
}

/// Whether a byte is a decimal digit.
#[inline(always)]
fn is_decimal(byte: u8) -> bool
    ensures { result ≡ is_decimal byte }
{
    b'0' <= byte && byte <= b'9'
}

/// The number of a Lisp cell, and the bytes behind it.
#[inline(always)]
fn cell_number(bytes: &[u8]) -> Option<(u8, &[u8])>
    ensures text { IfSome result (λ f. bytes.now ≡ decimal f.0 ++ f.1.now) }
    ensures within { IfSome result (λ f. f.0 ≤ 15) }
{
    if bytes.len() < 2 {
        return None;
    }
    let first = bytes[0];
    let second = bytes[1];
    if first < b'0' || first > b'9' {
        return None;
    }
    if second < b'0' {
        let (_, after) = bytes.split_at(1);
        return Some((first - b'0', after));
    }
    if first != b'1' || second > b'5' {
        return None;
    }
    let (_, after) = bytes.split_at(2);
    Some((second - b'0' + 10, after))
}

/// A Lisp cell behind its space.
#[inline(always)]
fn cell(bytes: &[u8]) -> Option<(Cell, &[u8])>
    ensures text { IfSome result (λ f. bytes.now ≡ cell_field f.0 ++ f.1.now) }
    ensures within { IfSome result (λ f. IsCell f.0) }
{
    if bytes.len() < 2 || bytes[0] != b' ' {
        return None;
    }
    let kind = bytes[1];
    let (_, digits) = bytes.split_at(2);
    let (n, after) = cell_number(digits)?;
    match kind {
        b's' => Some((Cell::Stack(n), after)),
        b'b' => Some((Cell::Exact(n), after)),
        b'g' => Some((Cell::Shared(n), after)),
        _ => None,
    }
}

/// The index of an element behind its space.
#[inline(always)]
fn element(bytes: &[u8]) -> Option<(u32, &[u8])>
    ensures text { IfSome result (λ f. bytes.now ≡ number_field f.0 ++ f.1.now) }
    ensures within { IfSome result (λ f. f.0 ≤ 65535) }
{
    let digits = behind(bytes, b" ")?;
    let (n, after) = number(digits)?;
    if n > u64::from(MOST_ELEMENTS) {
        return None;
    }
    Some((n as u32, after))
}

/// The name of an object behind its space.
#[inline(always)]
fn name(bytes: &[u8]) -> Option<(u32, &[u8])>
    ensures text { IfSome result (λ f. bytes.now ≡ field (name_text f.0) ++ f.1.now) }
    ensures within { IfSome result (λ f. IsName f.0) }
{
    let digits = behind(bytes, b" #")?;
    let (n, after) = number(digits)?;
    if n >= u64::from(MOST_COMMANDS) {
        return None;
    }
    Some((n as u32, after))
}

/// An index behind its space.
#[inline(always)]
fn index(bytes: &[u8]) -> Option<(u32, &[u8])>
    ensures text { IfSome result (λ f. bytes.now ≡ field (index_text f.0) ++ f.1.now) }
    ensures within { IfSome result (λ f. IsIndex f.0) }
{
    let digits = behind(bytes, b" @")?;
    let (n, after) = number(digits)?;
    if n >= u64::from(MOST_WORDS) {
        return None;
    }
    Some((n as u32, after))
}

/// A fixnum behind its space. Those of 18 digits and more are left out.
#[inline(always)]
fn fixnum(bytes: &[u8]) -> Option<(i64, &[u8])>
    ensures text { IfSome result (λ f. bytes.now ≡ field (signed_decimal f.0) ++ f.1.now) }
    ensures within { IfSome result (λ f. IsFixnum f.0) }
{
    if let Some(digits) = behind(bytes, b" -") {
        let (n, after) = number(digits)?;
        if n == 0 {
            return None;
        }
        return Some((-((n - 1) as i64) - 1, after));
    }
    let digits = behind(bytes, b" ")?;
    let (n, after) = number(digits)?;
    Some((n as i64, after))
}

/// The answer `!type` or `!range`, to the end of its line.
#[inline(always)]
fn refusal(bytes: &[u8]) -> Option<(Answer, &[u8])>
    ensures { IfSome result (λ f. Answers bytes.now f.0 f.1.now) }
{
    if let Some(after) = behind(bytes, b" -> !type\n") {
        return Some((Answer::Refused(Refusal::NotType), after));
    }
    let after = behind(bytes, b" -> !range\n")?;
    Some((Answer::Refused(Refusal::OutOfRange), after))
}

/// The answer `ok`, to the end of its line.
#[inline(always)]
fn ok(bytes: &[u8]) -> Option<(Answer, &[u8])>
    ensures { IfSome result (λ f. Answers bytes.now f.0 f.1.now) }
{
    let after = behind(bytes, b" -> ok\n")?;
    Some((Answer::Done, after))
}

/// The answer of a `put`, to the end of its line.
#[inline(always)]
fn change(bytes: &[u8]) -> Option<(Answer, &[u8])>
    ensures { IfSome result (λ f. Answers bytes.now f.0 f.1.now) }
{
    match ok(bytes) {
        Some(answer) => Some(answer),
        None => refusal(bytes),
    }
}

/// A value as an answer, to the end of its line, or a refusal.
#[inline(always)]
fn value(bytes: &[u8]) -> Option<(Answer, &[u8])>
    ensures { IfSome result (λ f. Answers bytes.now f.0 f.1.now) }
{
    let told = behind(bytes, b" ->")?;
    if told.len() < 2 {
        return None;
    }
    match told[1] {
        b'#' => {
            let (name, rest) = name(told)?;
            let after = behind(rest, b"\n")?;
            Some((Answer::Val(Value::Ref(name)), after))
        }
        b'n' => {
            let after = behind(told, b" nil\n")?;
            Some((Answer::Val(Value::Nil), after))
        }
        b'!' => refusal(bytes),
        _ => {
            let (n, rest) = fixnum(told)?;
            let after = behind(rest, b"\n")?;
            Some((Answer::Val(Value::Fix(n)), after))
        }
    }
}

/// A name and where it is as an answer, to the end of its line.
#[inline(always)]
fn placed(bytes: &[u8]) -> Option<(Answer, &[u8])>
    ensures { IfSome result (λ f. Answers bytes.now f.0 f.1.now) }
{
    let told = behind(bytes, b" ->")?;
    let (name, rest) = name(told)?;
    let (index, rest) = index(rest)?;
    let after = behind(rest, b"\n")?;
    Some((Answer::Placed { name, index }, after))
}

/// The command with its answer, where the command may have it.
#[inline(always)]
fn did(thread: u32, command: Command, answer: Answer) -> Option<Event>
    ensures { IfSome result (λ e. (e ≡ Did thread command answer) × (may_answer command answer ≡ true)) }
{
    if may_answer(&command, &answer) {
        Some(Event::Did {
            thread,
            command,
            answer,
        })
    } else {
        None
    }
}

/// A `fix` behind the thread's number, to the end of its line.
#[inline(always)]
fn fix(thread: u32, bytes: &[u8]) -> Option<(Event, &[u8])>
    requires { thread < 8 }
    ensures { IfSome result (λ f. Acts thread bytes.now f.0 f.1.now) }
{
    let rest = behind(bytes, b" fix")?;
    let (d, rest) = cell(rest)?;
    let (n, rest) = fixnum(rest)?;
    let (answer, after) = ok(rest)?;
    let event = did(thread, Command::Fix { d, n }, answer)?;
    Some((event, after))
}

/// A `cons` behind the thread's number, to the end of its line.
#[inline(always)]
fn cons(thread: u32, bytes: &[u8]) -> Option<(Event, &[u8])>
    requires { thread < 8 }
    ensures { IfSome result (λ f. Acts thread bytes.now f.0 f.1.now) }
{
    let rest = behind(bytes, b" cons")?;
    let (d, rest) = cell(rest)?;
    let (a, rest) = cell(rest)?;
    let (b, rest) = cell(rest)?;
    let (answer, after) = placed(rest)?;
    let event = did(thread, Command::NewCons { d, a, b }, answer)?;
    Some((event, after))
}

/// A `get` behind the thread's number, to the end of its line.
#[inline(always)]
fn get(thread: u32, bytes: &[u8]) -> Option<(Event, &[u8])>
    requires { thread < 8 }
    ensures { IfSome result (λ f. Acts thread bytes.now f.0 f.1.now) }
{
    let rest = behind(bytes, b" get")?;
    let (d, rest) = cell(rest)?;
    let (c, rest) = cell(rest)?;
    let (i, rest) = element(rest)?;
    let (answer, after) = value(rest)?;
    let event = did(thread, Command::Get { d, c, i }, answer)?;
    Some((event, after))
}

/// A `put` behind the thread's number, to the end of its line.
#[inline(always)]
fn put(thread: u32, bytes: &[u8]) -> Option<(Event, &[u8])>
    requires { thread < 8 }
    ensures { IfSome result (λ f. Acts thread bytes.now f.0 f.1.now) }
{
    let rest = behind(bytes, b" put")?;
    let (c, rest) = cell(rest)?;
    let (i, rest) = element(rest)?;
    let (a, rest) = cell(rest)?;
    let (answer, after) = change(rest)?;
    let event = did(thread, Command::Put { c, i, a }, answer)?;
    Some((event, after))
}

/// A `show` behind the thread's number, to the end of its line.
#[inline(always)]
fn show(thread: u32, bytes: &[u8]) -> Option<(Event, &[u8])>
    requires { thread < 8 }
    ensures { IfSome result (λ f. Acts thread bytes.now f.0 f.1.now) }
{
    let rest = behind(bytes, b" show")?;
    let (c, rest) = cell(rest)?;
    let (answer, after) = value(rest)?;
    let event = did(thread, Command::Show { c }, answer)?;
    Some((event, after))
}

/// The event of a usual line at the front, and the bytes behind that line.
#[inline(always)]
pub(crate) fn event(bytes: &[u8]) -> Option<(Event, &[u8])>
    ensures text { IfSome result (λ f. bytes.now ≡ event_text f.0 ++ f.1.now) }
    ensures within { IfSome result (λ f. IsDeed f.0) }
{
    if bytes.len() < 3 {
        return None;
    }
    let digit = bytes[0];
    if digit < b'0' || digit > b'7' {
        return None;
    }
    let thread = u32::from(digit - b'0');
    let (_, rest) = bytes.split_at(1);
    match rest[1] {
        b'c' => cons(thread, rest),
        b'p' => put(thread, rest),
        b'g' => get(thread, rest),
        b'f' => fix(thread, rest),
        b's' => show(thread, rest),
        _ => None,
    }
}

/// A move at the front, and the bytes behind its line.
#[inline(always)]
pub(crate) fn moved(bytes: &[u8]) -> Option<(Placing, &[u8])>
    ensures text { IfSome result (λ f. bytes.now ≡ piece_text (pieces.Move f.0) ++ f.1.now) }
    ensures within { IfSome result (λ f. IsMove f.0) }
{
    let rest = behind(bytes, b"move")?;
    let (name, rest) = name(rest)?;
    let (old, rest) = index(rest)?;
    let (new, rest) = index(rest)?;
    let after = behind(rest, b"\n")?;
    let new = Some(new);
    Some((Placing { name, old, new }, after))
}
