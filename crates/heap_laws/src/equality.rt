//! `==` answers true exactly where two values are the same: for each type of `heap_terms` that is
//! compared.

ghost use Rattle.std.specs.Prelude.{◌≡◌, ◌↔◌, IsTrue};
ghost use Rattle.std.specs.Bool.{Decides};

use heap_terms::{
    Answer, Cell, Command, Entry, Event, Item, Next, PageView, PassRecord, Program, Raw, Refusal,
    ReplayLine, Seq, Value,
};

/// Two cells are equal exactly where they are the same.
pub fn cells_are_equal_exactly(cell: &Cell, other: &Cell) -> bool
    ensures { IsTrue result ↔ (cell.now ≡ other.now) }
{
    cell == other
}

/// Two raw cells are equal exactly where they are the same.
pub fn raw_cells_are_equal_exactly(raw: &Raw, other: &Raw) -> bool
    ensures { IsTrue result ↔ (raw.now ≡ other.now) }
{
    raw == other
}

/// Two values are equal exactly where they are the same.
pub fn values_are_equal_exactly(value: &Value, other: &Value) -> bool
    ensures { IsTrue result ↔ (value.now ≡ other.now) }
{
    value == other
}

/// Two commands are equal exactly where they are the same.
#[tactic(auto, using(crate::proofs::Equal::Commands::command_decides))]
pub fn commands_are_equal_exactly(command: &Command, other: &Command) -> bool
    ensures { IsTrue result ↔ (command.now ≡ other.now) }
{
    command == other
}

/// Two refusals are equal exactly where they are the same.
pub fn refusals_are_equal_exactly(refusal: &Refusal, other: &Refusal) -> bool
    ensures { IsTrue result ↔ (refusal.now ≡ other.now) }
{
    refusal == other
}

/// Two items of a page are equal exactly where they are the same.
pub fn items_are_equal_exactly(item: &Item, other: &Item) -> bool
    ensures { IsTrue result ↔ (item.now ≡ other.now) }
{
    item == other
}

/// Two pages as they are shown are equal exactly where they are the same.
#[tactic(auto, using(crate::proofs::Equal::Records::view_decides))]
pub fn page_views_are_equal_exactly(view: &PageView, other: &PageView) -> bool
    ensures { IsTrue result ↔ (view.now ≡ other.now) }
{
    view == other
}

/// Two answers are equal exactly where they are the same.
#[tactic(auto, using(crate::proofs::Equal::Records::answer_decides))]
pub fn answers_are_equal_exactly(answer: &Answer, other: &Answer) -> bool
    ensures { IsTrue result ↔ (answer.now ≡ other.now) }
{
    answer == other
}

/// The records of two passes are equal exactly where they are the same.
#[tactic(auto, using(crate::proofs::Equal::Records::pass_decides))]
pub fn pass_records_are_equal_exactly(pass: &PassRecord, other: &PassRecord) -> bool
    ensures { IsTrue result ↔ (pass.now ≡ other.now) }
{
    pass == other
}

/// Two events are equal exactly where they are the same.
#[tactic(auto, using(crate::proofs::Equal::Records::event_decides))]
pub fn events_are_equal_exactly(event: &Event, other: &Event) -> bool
    ensures { IsTrue result ↔ (event.now ≡ other.now) }
{
    event == other
}

/// Two programs are equal exactly where they are the same.
#[tactic(auto, using(crate::proofs::Equal::Records::program_decides))]
pub fn programs_are_equal_exactly(program: &Program, other: &Program) -> bool
    ensures { IsTrue result ↔ (program.now ≡ other.now) }
{
    program == other
}

/// The entries of two pages are equal exactly where they are the same.
pub fn entries_are_equal_exactly(entry: &Entry, other: &Entry) -> bool
    ensures { IsTrue result ↔ (entry.now ≡ other.now) }
{
    entry == other
}

/// What two threads do next are equal exactly where they are the same.
pub fn next_steps_are_equal_exactly(next: &Next, other: &Next) -> bool
    ensures { IsTrue result ↔ (next.now ≡ other.now) }
{
    next == other
}

/// Two lines of a replay are equal exactly where they are the same.
pub fn replay_lines_are_equal_exactly(line: &ReplayLine, other: &ReplayLine) -> bool
    ensures { IsTrue result ↔ (line.now ≡ other.now) }
{
    line == other
}

/// Two lists are equal exactly where they are the same, if that holds of their elements.
pub fn lists_are_equal_exactly<T: PartialEq>(list: &Seq<T>, other: &Seq<T>) -> bool
    ensures { ((x y : T) → Decides (T.eq x y) (x ≡ y)) → IsTrue result ↔ (list.now ≡ other.now) }
{
    list == other
}
