//! The culls and breaks of a pass in names, and room for them.

ghost use Rattle.std.specs.Prelude.{◌≡◌, true, length, IfOk};
ghost use Rattle.heap_terms.specs.Survival.{breaks_of, culls_of};
ghost use Rattle.pass_names.specs.Named.{Met, AreNotes};
ghost use Rattle.pass_names.specs.Room.{HasRoomFor};

use crate::breaks::name_breaks;
use crate::culls::name_culls;
use crate::places::NotePlace;
use copy_space::PassNotes;
use heap_terms::{Cull, Memory, Seq};
use std::alloc::Global;
use word_space::Prefilled;

/// Room for the culls and breaks of a pass in names: lists that are empty so far.
#[derive(Drop)]
pub struct NameRoom {
    pub(crate) alloc: Global,
    pub(crate) places: Vec<NotePlace>,
    pub(crate) culls: Vec<Cull>,
    pub(crate) breaks: Vec<u32>,
}

/// What a pass culled and broke.
#[derive(Drop)]
pub struct Weakened {
    /// The culled pairs, by the name of the table and then in its order.
    pub culls: Seq<Cull>,
    /// The weak pointers that became broken, by name.
    pub breaks: Seq<u32>,
}

impl NameRoom {
    /// Room for so many culls and breaks. It is refused only for want of memory.
    pub fn reserve(alloc: Global, culls: usize, breaks: usize) -> Result<NameRoom, Memory>
        ensures { IfOk result (λ room. HasRoomFor room culls breaks) }
    {
        Ok(NameRoom {
            alloc,
            places: Vec::with_capacity(alloc, culls)?,
            culls: Vec::with_capacity(alloc, culls)?,
            breaks: Vec::with_capacity(alloc, breaks)?,
        })
    }

    /// Whether it is as `reserve` leaves it for so many culls and breaks.
    pub fn fits(&self, culls: usize, breaks: usize) -> bool
        ensures { result ≡ true → HasRoomFor self.now culls breaks }
    {
        let is_empty = self.places.is_empty() && self.culls.is_empty() && self.breaks.is_empty();
        is_empty
            && culls <= self.places.capacity()
            && culls <= self.culls.capacity()
            && breaks <= self.breaks.capacity()
    }

    /// What a pass culled and broke, from its notes and the labels before it. It takes no memory.
    pub fn name(self, notes: &PassNotes, labels: &Prefilled<u32>) -> Weakened
        requires noted { (m : Met) × AreNotes m labels.now notes.now }
        requires room { HasRoomFor self (length notes.now.culls.items) (length notes.now.breaks.items) }
        ensures culls { (m : Met) → AreNotes m labels.now notes.now → result.culls ≡ culls_of m.heap m.live }
        ensures breaks { (m : Met) → AreNotes m labels.now notes.now → result.breaks ≡ breaks_of m.heap m.live }
    {
        let NameRoom {
            alloc,
            places,
            culls,
            breaks,
        } = self;
        Weakened {
            culls: name_culls(alloc, notes.culls.as_slice(), labels, places, culls),
            breaks: name_breaks(alloc, notes.breaks.as_slice(), labels, breaks),
        }
    }
}
