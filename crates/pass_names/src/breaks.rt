//! The weak pointers that a pass broke, by name.

ghost use Rattle.std.specs.Prelude.{◌≡◌, ◌≤◌, [], length, map, All, vec_capacity};
ghost use Rattle.heap_terms.specs.Survival.{breaks_of};
ghost use Rattle.pass_names.specs.Labelled.{HasName, label_at};
ghost use Rattle.pass_names.specs.Named.{Met, AreBreakNotes};

use heap_terms::Seq;
use std::alloc::Global;
use word_space::Prefilled;

/// Lists the names of the objects that begin at some indices.
fn list_names(notes: &[u32], labels: &Prefilled<u32>, names: &mut Vec<u32>)
    requires labels { All (HasName labels.now) notes.now }
    requires none { names.old.items ≡ [] }
    requires room { length notes.now ≤ vec_capacity names.old }
    ensures { names.new.items ≡ map (label_at labels.now) notes.now }
{
    for index in notes {
        names.push_reserved(labels.at((*index / 2) as usize));
    }
}

/// The names of the weak pointers that a pass broke, ascending, from the notes that the pass left.
/// `names` is empty, with room for all. It takes no memory.
pub(crate) fn name_breaks(
    alloc: Global,
    notes: &[u32],
    labels: &Prefilled<u32>,
    mut names: Vec<u32>,
) -> Seq<u32>
    requires noted { (m : Met) × AreBreakNotes m labels.now notes.now }
    requires none { names.items ≡ [] }
    requires fits { length notes.now ≤ vec_capacity names }
    ensures { (m : Met) → AreBreakNotes m labels.now notes.now → result ≡ breaks_of m.heap m.live }
{
    // A pass that breaks nothing keeps no room.
    if notes.is_empty() {
        return Seq::new(alloc);
    }
    list_names(notes, labels, &mut names);
    names.sort_unstable();
    Seq::from_vec(names)
}
