//! The lines of a pass, the last line, and the words of events that are no commands.

ghost use Rattle.std.specs.Prelude.{◌≡◌, None, MatchOption};
ghost use Rattle.journal_text.specs.LineReading.{Gives};
ghost use Rattle.journal_text.specs.PieceReading.{a_kind, a_verb, kind_text, read_record, read_verb, verb_text};

use super::cursor::Fields;
use super::pieces::Piece;
use heap_terms::{Cull, Event, PinAt, Placing};

/// The word of a line that is no event.
#[derive(Clone, Copy)]
pub(crate) enum Kind {
    Pass,
    Move,
    Stay,
    Pin,
    Cull,
    Break,
    Queue,
    Free,
    Swept,
    Done,
}

/// The word of an event that is no command.
#[derive(Clone, Copy)]
pub(crate) enum Verb {
    Open,
    Collect,
    End,
}

/// The word of a line that is no event.
#[tactic(auto, unfolding(crate::specs::PieceReading::a_kind))]
pub(crate) fn kind_word(field: &[u8]) -> Option<Kind>
    ensures { MatchOption result (a_kind field.now ≡ None) (λ k. field.now ≡ kind_text k) }
{
    match field {
        b"pass" => Some(Kind::Pass),
        b"move" => Some(Kind::Move),
        b"stay" => Some(Kind::Stay),
        b"pin" => Some(Kind::Pin),
        b"cull" => Some(Kind::Cull),
        b"break" => Some(Kind::Break),
        b"queue" => Some(Kind::Queue),
        b"free" => Some(Kind::Free),
        b"swept" => Some(Kind::Swept),
        b"done" => Some(Kind::Done),
        _ => None,
    }
}

/// The word of an event that is no command.
#[tactic(auto, unfolding(crate::specs::PieceReading::a_verb))]
pub(crate) fn verb_word(field: &[u8]) -> Option<Verb>
    ensures { MatchOption result (a_verb field.now ≡ None) (λ v. field.now ≡ verb_text v) }
{
    match field {
        b"open" => Some(Verb::Open),
        b"collect" => Some(Verb::Collect),
        b"end" => Some(Verb::End),
        _ => None,
    }
}

/// The fields behind the word of a line that is no event.
#[tactic(auto, unfolding(crate::specs::PieceReading::read_record))]
pub(crate) fn record(kind: Kind, fields: &mut Fields) -> Option<Piece>
    ensures { Gives (read_record kind) fields.old fields.new result }
{
    match kind {
        Kind::Pass => {
            let generation = fields.collected()?;
            let target = fields.generation_number()?;
            Some(Piece::Pass { generation, target })
        }
        Kind::Move => {
            let name = fields.name()?;
            let old = fields.index()?;
            let new = fields.index()?;
            Some(Piece::Move(Placing {
                name,
                old,
                new: Some(new),
            }))
        }
        Kind::Stay => {
            let name = fields.name()?;
            let old = fields.index()?;
            Some(Piece::Move(Placing {
                name,
                old,
                new: None,
            }))
        }
        Kind::Pin => {
            let name = fields.name()?;
            let index = fields.index()?;
            Some(Piece::Pin(PinAt { name, index }))
        }
        Kind::Cull => {
            let table = fields.name()?;
            let key = fields.value()?;
            let value = fields.value()?;
            Some(Piece::Cull(Cull { table, key, value }))
        }
        Kind::Break => Some(Piece::Break(fields.name()?)),
        Kind::Queue => Some(Piece::Queue(fields.number_32()?)),
        Kind::Free => Some(Piece::Free(fields.page()?)),
        Kind::Swept => {
            let dead = fields.number_32()?;
            let kept = fields.number_32()?;
            Some(Piece::Swept { dead, kept })
        }
        Kind::Done => Some(Piece::Done(fields.number_64()?)),
    }
}

/// The fields behind the word of an event that is no command.
#[tactic(auto, unfolding(crate::specs::PieceReading::read_verb))]
pub(crate) fn event(verb: Verb, thread: u32, fields: &mut Fields) -> Option<Piece>
    ensures { Gives (read_verb verb thread) fields.old fields.new result }
{
    match verb {
        Verb::Open => {
            let ty = fields.page_type()?;
            let first = fields.page()?;
            let pages = fields.page_count()?;
            Some(Piece::Event(Event::Opened {
                thread,
                ty,
                first,
                pages,
            }))
        }
        Verb::Collect => {
            let last = fields.collected()?;
            Some(Piece::Collect { thread, last })
        }
        Verb::End => Some(Piece::Event(Event::Ended { thread })),
    }
}
