//! The culls of a pass, by the names of the tables.

ghost use Rattle.std.specs.Prelude.{◌≡◌, ◌<◌, ◌≤◌, ℕ, [], List, length, map, All, vec_capacity};
ghost use Rattle.heap_terms.specs.declared.events.Cull.{Cull as NamedCull};
ghost use Rattle.heap_terms.specs.Survival.{culls_of};
ghost use Rattle.pass_names.specs.declared.places.NotePlace.{NotePlace as Place};
ghost use Rattle.pass_names.specs.Named.{Met, AreCullNotes};
ghost use Rattle.pass_names.specs.Noted.{AreNotesOf, IsNoteOf, cull_at};

use crate::places::{NotePlace, places_in_order};
use crate::values::{name_at, value_of};
use copy_space::CullNote;
use heap_terms::{Cull, Seq};
use std::alloc::Global;
use word_space::Prefilled;

/// The culled pair that a note tells.
fn cull_of(note: CullNote, labels: &Prefilled<u32>) -> Cull
    requires { (c : NamedCull) × IsNoteOf labels.now c note }
    ensures { (c : NamedCull) → IsNoteOf labels.now c note → result ≡ c }
{
    Cull {
        table: name_at(note.table, labels),
        key: value_of(note.key, labels),
        value: value_of(note.value, labels),
    }
}

/// Lists the culled pairs that the notes at some places tell.
fn list_culls(
    places: &[NotePlace],
    notes: &[CullNote],
    labels: &Prefilled<u32>,
    culls: &mut Vec<Cull>,
)
    requires notes { (cs : List NamedCull) × AreNotesOf labels.now cs notes.now }
    requires places { All (λ (p : Place). p.at < length notes.now) places.now }
    requires none { culls.old.items ≡ [] }
    requires room { length places.now ≤ vec_capacity culls.old }
    ensures { (cs : List NamedCull) → AreNotesOf labels.now cs notes.now → culls.new.items ≡ map (cull_at cs) places.now }
{
    for place in places {
        culls.push_reserved(cull_of(notes[place.at], labels));
    }
}

/// The culls of a pass by the name of the table and then in the order of its pairs, from the notes
/// that the pass left. `places` and `culls` are empty, with room for all. It takes no memory.
pub(crate) fn name_culls(
    alloc: Global,
    notes: &[CullNote],
    labels: &Prefilled<u32>,
    mut places: Vec<NotePlace>,
    mut culls: Vec<Cull>,
) -> Seq<Cull>
    requires noted { (m : Met) × AreCullNotes m labels.now notes.now }
    requires no_places { places.items ≡ [] }
    requires no_culls { culls.items ≡ [] }
    requires places_fit { length notes.now ≤ vec_capacity places }
    requires culls_fit { length notes.now ≤ vec_capacity culls }
    ensures { (m : Met) → AreCullNotes m labels.now notes.now → result ≡ culls_of m.heap m.live }
{
    // A pass that culls nothing keeps no room.
    if notes.is_empty() {
        return Seq::new(alloc);
    }
    places_in_order(notes, labels, &mut places);
    list_culls(places.as_slice(), notes, labels, &mut culls);
    Seq::from_vec(culls)
}
