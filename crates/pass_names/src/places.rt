//! The order in which the culls of a pass are recorded.

ghost use Rattle.std.specs.Prelude.{◌≡◌, ◌+◌, ◌≤◌, [], length, map, All, vec_len, vec_capacity};
ghost use Rattle.std.specs.List.{range_with_len};
ghost use Rattle.std.specs.List.Sorted.{IsPermutation};
ghost use Rattle.copy_space.specs.declared.notes.CullNote.{CullNote as Note};
ghost use Rattle.pass_names.specs.Labelled.{HasName};
ghost use Rattle.pass_names.specs.Places.{AreInOrder, place_in};

use copy_space::CullNote;
use word_space::Prefilled;

/// Where the note of a cull stands among all notes, and the name of its table. In order, these are
/// by table, and for one table as the notes are.
#[derive(Clone, Copy, PartialEq, Eq, PartialOrd, Ord)]
pub struct NotePlace {
    /// The name of the table.
    pub table: u32,
    /// How many notes stand before it.
    pub at: usize,
}

/// Lists where the notes stand, from the first to the last.
fn list_places(notes: &[CullNote], labels: &Prefilled<u32>, places: &mut Vec<NotePlace>)
    requires labels { All (λ (note : Note). HasName labels.now note.table) notes.now }
    requires none { places.old.items ≡ [] }
    requires room { length notes.now ≤ vec_capacity places.old }
    ensures { places.new.items ≡ map (place_in labels.now notes.now) (range_with_len 0 (length notes.now)) }
{
    for note in notes {
        places.push_reserved(NotePlace {
            table: labels.at((note.table / 2) as usize),
            at: places.len(),
        });
    }
}

/// Puts places in order. It takes no memory.
fn sort_places(places: &mut Vec<NotePlace>)
    ensures permutation { IsPermutation places.old.items places.new.items }
    ensures sorted { AreInOrder places.new.items }
    ensures len { vec_len places.new ≡ vec_len places.old }
{
    places.sort_unstable();
}

/// Where the notes stand, in order.
pub(crate) fn places_in_order(
    notes: &[CullNote],
    labels: &Prefilled<u32>,
    places: &mut Vec<NotePlace>,
)
    requires labels { All (λ (note : Note). HasName labels.now note.table) notes.now }
    requires none { places.old.items ≡ [] }
    requires room { length notes.now ≤ vec_capacity places.old }
    ensures permutation { IsPermutation (map (place_in labels.now notes.now) (range_with_len 0 (length notes.now))) places.new.items }
    ensures sorted { AreInOrder places.new.items }
{
    list_places(notes, labels, places);
    sort_places(places);
}
