//! Reading a line.

ghost use Rattle.std.specs.Prelude.{ℕ, ◌≡◌, ◌≢◌, ◌∷◌, ◌++◌, ◌<◌, ◌≤◌, length, slice_index, MatchOption};
ghost use Rattle.std.specs.List.{slice_split};
ghost use Rattle.journal_text.specs.AnswerReading.{Reads};
ghost use Rattle.journal_text.specs.Cursors.{is_space};
ghost use Rattle.journal_text.specs.Journals.{HasNoLf};
ghost use Rattle.journal_text.specs.LineReading.{Gives};
ghost use Rattle.journal_text.specs.PieceReading.{ReadsWhole, command_and_arrow, read_act, read_command_line, read_did, read_line, read_record, read_verb, whole};

use super::answers::answer;
use super::commands::command;
use super::cursor::Fields;
use super::faults::LineFault;
use super::numbers::number_32;
use super::pieces::Piece;
use super::records::{Kind, Verb, event, kind_word, record, verb_word};
use super::rows::{Shape, admits, may_answer};
use super::words::{Name, name_of_word};
use heap_terms::{Command, Event, MOST_THREADS};
use std::alloc::Global;

/// Where the first LF stands, or how many bytes there are.
fn end_of_line(bytes: &[u8]) -> usize
    ensures within { result ≤ length bytes.now }
    ensures before { (k : ℕ) → k < result → slice_index bytes.now k ≢ 10 }
    ensures found { result < length bytes.now → slice_index bytes.now result ≡ 10 }
{
    let mut len = 0;
    while len < bytes.len() && bytes[len] != b'\n' {
        len += 1;
    }
    len
}

/// The first line without its LF, and the bytes behind it.
pub(crate) fn first_line(bytes: &[u8]) -> Option<(&[u8], &[u8])>
    ensures { MatchOption result (HasNoLf bytes.now) (λ p. HasNoLf p.0.now × (bytes.now ≡ p.0.now ++ 10 ∷ p.1.now)) }
{
    let len = end_of_line(bytes);
    if len == bytes.len() {
        return None;
    }
    let (content, after) = bytes.split_at(len);
    let (_, behind) = after.split_at(1);
    Some((content, behind))
}

/// The piece, where it was read and nothing is left.
fn whole(piece: Option<Piece>, fields: &Fields) -> Result<Piece, LineFault>
    ensures { ReadsWhole piece fields.now result }
{
    match piece {
        Some(piece) => {
            if fields.is_done() {
                Ok(piece)
            } else {
                Err(LineFault::Form)
            }
        }
        None => Err(LineFault::Form),
    }
}

/// A line that is no event, behind its word.
fn record_line(kind: Kind, fields: &mut Fields) -> Result<Piece, LineFault>
    ensures { Reads (whole (read_record kind fields.old)) result }
{
    let piece = record(kind, fields);
    whole(piece, fields)
}

/// An event that is no command, behind its word.
fn event_line(verb: Verb, thread: u32, fields: &mut Fields) -> Result<Piece, LineFault>
    ensures { Reads (whole (read_verb verb thread fields.old)) result }
{
    let piece = event(verb, thread, fields);
    whole(piece, fields)
}

/// A command and the arrow behind it.
fn command_and_arrow(name: Name, fields: &mut Fields) -> Option<Command>
    ensures { Gives (command_and_arrow name) fields.old fields.new result }
{
    let command = command(name, fields)?;
    fields.arrow()?;
    Some(command)
}

/// A command and its answer, behind the command's word.
#[tactic(auto, unfolding(crate::specs::PieceReading::read_did))]
fn did(alloc: Global, thread: u32, name: Name, fields: &mut Fields) -> Result<Piece, LineFault>
    ensures { Reads (read_did thread name fields.old) result }
{
    let Some(command) = command_and_arrow(name, fields) else {
        return Err(LineFault::Form);
    };
    let answer = answer(alloc, admits(&command, Shape::Count), fields)?;
    if !may_answer(&command, &answer) {
        return Err(LineFault::Form);
    }
    Ok(Piece::Event(Event::Did {
        thread,
        command,
        answer,
    }))
}

/// A command and its answer.
fn command_line(
    alloc: Global,
    thread: u32,
    field: &[u8],
    fields: &mut Fields,
) -> Result<Piece, LineFault>
    ensures { Reads (read_command_line thread field.now fields.old) result }
{
    match name_of_word(field) {
        Some(name) => did(alloc, thread, name, fields),
        None => Err(LineFault::Form),
    }
}

/// What a thread did.
fn act(alloc: Global, thread: u32, fields: &mut Fields) -> Result<Piece, LineFault>
    ensures { Reads (read_act thread fields.old) result }
{
    let Some(field) = fields.next() else {
        return Err(LineFault::Form);
    };
    match verb_word(field) {
        Some(verb) => event_line(verb, thread, fields),
        None => command_line(alloc, thread, field, fields),
    }
}

/// What a line says.
#[tactic(auto, unfolding(crate::specs::PieceReading::read_line))]
pub(crate) fn line(alloc: Global, bytes: &[u8]) -> Result<Piece, LineFault>
    ensures { Reads (read_line (slice_split is_space bytes.now)) result }
{
    let mut fields = Fields::new(bytes);
    let Some(field) = fields.next() else {
        return Err(LineFault::Form);
    };
    if let Some(kind) = kind_word(field) {
        return record_line(kind, &mut fields);
    }
    match number_32(field, MOST_THREADS - 1) {
        Some(thread) => act(alloc, thread, &mut fields),
        None => Err(LineFault::Form),
    }
}
