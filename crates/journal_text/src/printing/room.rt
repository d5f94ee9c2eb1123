//! How many bytes the lines of a journal and their own parts have at most. A field has the space before it with it.

use text_fields::{
    COMMAND, INDEX, INDEX_FIELD, NAME_FIELD, NUMBER, NUMBER_FIELD, OBJECT, VALUE_FIELD,
};

/// The type of a page: `unboxed`.
pub(super) const TYPE: usize = 7;

/// A type and a generation, as ` g` and a number.
pub(super) const GENERATION: usize = TYPE + 2 + NUMBER;

/// A page without its items: ` large`, a number, a name and an index behind its generation.
pub(super) const PAGE: usize = GENERATION + 6 + NUMBER_FIELD + NAME_FIELD + INDEX;

/// An item of a page: a name or a count as a field, and an index.
pub(super) const ITEM: usize = NAME_FIELD + INDEX;

/// ` -> ` before an answer.
pub(super) const ARROW: usize = 4;

/// `allocated` and ` cum` with their numbers.
pub(super) const SIZES: usize = 9 + 4 + 2 * NUMBER_FIELD;

/// An answer with its arrow and the end of its line, the longest of which has three numbers, the
/// last behind ` num`. Answers of no bounded length reserve their own room.
pub(super) const ANSWER_LINE: usize = ARROW + SIZES + 4 + NUMBER_FIELD + 1;

/// The line of a command with its answer: the longest line of an event.
pub(super) const EVENT_LINE: usize = NUMBER + 1 + COMMAND + ANSWER_LINE;

/// The line of an opened region: a number, ` open `, a type and two numbers.
pub(super) const OPENED_LINE: usize = NUMBER + 6 + TYPE + 2 * NUMBER_FIELD + 1;

/// The line of a move: `move`, an object and where it is now.
pub(super) const MOVE_LINE: usize = 4 + OBJECT + INDEX_FIELD + 1;

/// The line of a pinned object.
pub(super) const PIN_LINE: usize = 3 + OBJECT + 1;

/// The line of a culled pair: `cull`, a name and two values.
pub(super) const CULL_LINE: usize = 4 + NAME_FIELD + 2 * VALUE_FIELD + 1;

/// The line of a broken weak pointer.
pub(super) const BREAK_LINE: usize = 5 + NAME_FIELD + 1;

/// The last line: `done` and a number.
pub(super) const DONE_LINE: usize = 4 + NUMBER_FIELD + 1;

/// A word step: the longest is ` release`, and its thread.
pub(super) const STEP: usize = 7 + NUMBER_FIELD;

/// What a step found: the longest is ` taken`, and the holder.
pub(super) const FOUND: usize = 6 + NUMBER_FIELD;

/// The line of a word step: a number, ` : `, the step and what it found.
pub(super) const STEP_LINE: usize = NUMBER + 3 + STEP + FOUND + 1;
