//! The words with which answers begin, and that of a page's filling.

ghost use Rattle.std.specs.Prelude.{◌≡◌, None, MatchOption};
ghost use Rattle.journal_text.specs.AnswerReading.{a_filling, a_long_opening, a_short_opening, an_opening, filling_text, opening_text};

use heap_terms::{PageType, Refusal};

/// The word with which an answer begins.
#[derive(Clone, Copy)]
pub(crate) enum Opening {
    Done,
    Yes,
    No,
    Absent,
    Broken,
    Nil,
    Free,
    Live,
    Ran,
    Stat,
    Page(PageType),
    Refused(Refusal),
}

/// The word behind the generation of a page.
#[derive(Clone, Copy)]
pub(crate) enum Filling {
    Fill,
    Large,
}

/// The word with which an answer begins.
pub(crate) fn opening_word(field: &[u8]) -> Option<Opening>
    ensures { MatchOption result (an_opening field.now ≡ None) (λ o. field.now ≡ opening_text o) }
{
    match short_opening(field) {
        Some(opening) => Some(opening),
        None => long_opening(field),
    }
}

/// The same, of all words but the longest.
#[tactic(auto, unfolding(crate::specs::AnswerReading::a_short_opening))]
fn short_opening(field: &[u8]) -> Option<Opening>
    ensures { MatchOption result (a_short_opening field.now ≡ None) (λ o. field.now ≡ opening_text o) }
{
    match field {
        b"ok" => Some(Opening::Done),
        b"yes" => Some(Opening::Yes),
        b"no" => Some(Opening::No),
        b"none" => Some(Opening::Absent),
        b"broken" => Some(Opening::Broken),
        b"nil" => Some(Opening::Nil),
        b"free" => Some(Opening::Free),
        b"live" => Some(Opening::Live),
        b"ran" => Some(Opening::Ran),
        b"cons" => Some(Opening::Page(PageType::Cons)),
        b"boxed" => Some(Opening::Page(PageType::Boxed)),
        b"unboxed" => Some(Opening::Page(PageType::Unboxed)),
        b"!type" => Some(Opening::Refused(Refusal::NotType)),
        b"!range" => Some(Opening::Refused(Refusal::OutOfRange)),
        b"!full" => Some(Opening::Refused(Refusal::TableFull)),
        b"!empty" => Some(Opening::Refused(Refusal::Nothing)),
        b"!pins" => Some(Opening::Refused(Refusal::PinsFull)),
        _ => None,
    }
}

/// The same, of the longest words.
#[tactic(auto, unfolding(crate::specs::AnswerReading::a_long_opening))]
fn long_opening(field: &[u8]) -> Option<Opening>
    ensures { MatchOption result (a_long_opening field.now ≡ None) (λ o. field.now ≡ opening_text o) }
{
    if field == b"allocated".as_slice() {
        return Some(Opening::Stat);
    }
    if field == b"!exhausted".as_slice() {
        return Some(Opening::Refused(Refusal::Exhausted));
    }
    None
}

/// Whether a page has items or is one of a large object.
#[tactic(auto, unfolding(crate::specs::AnswerReading::a_filling))]
pub(crate) fn filling_word(field: &[u8]) -> Option<Filling>
    ensures { MatchOption result (a_filling field.now ≡ None) (λ w. field.now ≡ filling_text w) }
{
    match field {
        b"fill" => Some(Filling::Fill),
        b"large" => Some(Filling::Large),
        _ => None,
    }
}
