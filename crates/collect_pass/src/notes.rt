//! The notes of a pass, before and after it.

ghost use Rattle.std.specs.Prelude.{◌≡◌, ◌++◌, [], ◌≤◌, length, vec_capacity};
ghost use Rattle.collect_pass.specs.Room.{AreCleared, CanFinish, AreFinished};

use copy_space::{Pass, PassNotes};
use pin_set::PinSet;

/// Empties all lists of the notes.
pub(crate) fn clear_notes(notes: &mut PassNotes)
    ensures { AreCleared notes.old notes.new }
{
    notes.moves.clear();
    notes.pins.clear();
    notes.culls.clear();
    notes.breaks.clear();
    notes.queued.clear();
    notes.freed.clear();
}

/// Copies the pinned starts into an empty list.
fn copy_pins(list: &mut Vec<u32>, pins: &PinSet)
    requires none { list.old.items ≡ [] }
    requires room { length pins.now.listed ≤ vec_capacity list.old }
    ensures copied { list.new.items ≡ pins.now.listed }
    ensures room { vec_capacity list.new ≡ vec_capacity list.old }
{
    for i in 0..pins.len() {
        list.push_reserved(pins.at(i));
    }
}

/// Notes the pins, the generations and the counts of a pass over a generation that had so many
/// objects.
pub(crate) fn finish_notes(notes: &mut PassNotes, pins: &PinSet, pass: Pass, target: u8, count: u32)
    requires { CanFinish notes.old pins.now.listed count }
    ensures { AreFinished notes.old notes.new pins.now.listed pass target count }
{
    copy_pins(&mut notes.pins, pins);
    notes.generation = pass.generation;
    notes.target = target;
    notes.kept = pins.len() + notes.moves.len() as u32;
    notes.dead = count - notes.kept;
}
