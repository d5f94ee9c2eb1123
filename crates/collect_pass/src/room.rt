//! The room for passes.

ghost use Rattle.std.specs.Prelude.{◌≡◌, ◌*◌, ◌+◌, ◌-◌, ◌≤◌, IfOk, OnOk};
ghost use Rattle.heap_terms.specs.declared.limits.TheConstants.{MOST_PAGES};
ghost use Rattle.copy_space.specs.Notes.{SameButQueued};
ghost use Rattle.collect_pass.specs.Pass.{IsReservedFor};
ghost use Rattle.collect_pass.specs.Room.{AreNotesFor};

use ambiguous_roots::Hints;
use copy_space::{Marks, PassNotes};
use heap_terms::{MOST_PAIRS, Memory, PAGE_WORDS};
use page_sweep::HeldPages;
use pin_set::PinSet;
use std::alloc::Global;
use std::marker::Model;
use weak_refs::Waiting;

/// What passes over one heap need beside it. It is reserved before the first pass, so that a pass
/// takes no memory. Between passes all of it but the notes is clear.
#[derive(Drop)]
pub struct PassRoom {
    pub(crate) marks: Marks,
    pub(crate) hints: Hints,
    pub(crate) pins: PinSet,
    pub(crate) weak: PinSet,
    pub(crate) waiting: Waiting,
    pub(crate) held: HeldPages,
    pub(crate) notes: PassNotes,
}

impl Model for PassRoom {
    ghost use Rattle.collect_pass.specs.Pass.{RoomView};

    ghost Value = { RoomView };

    ghost use Rattle.collect_pass.specs.Room.{room_view, IsRoom};

    ghost view = { room_view };

    ghost invariant = { IsRoom };
}

impl PassRoom {
    /// Room for passes over a heap of so many pages, with at most so many ambiguous roots and at most
    /// so many weak pointers and tables. It is refused only for want of memory.
    pub fn reserve(alloc: Global, pages: u32, ambiguous: u32, weak: u32) -> Result<PassRoom, Memory>
        requires { pages ≤ MOST_PAGES }
        ensures { IfOk result (λ room. IsReservedFor room pages ambiguous weak) }
    {
        Ok(PassRoom {
            marks: Marks::new(alloc, pages)?,
            hints: Hints::new(alloc, pages)?,
            pins: PinSet::new(alloc, ambiguous)?,
            weak: PinSet::new(alloc, weak)?,
            waiting: Waiting::new(alloc, pages, weak)?,
            held: HeldPages::new(alloc, pages)?,
            notes: reserve_notes(alloc, pages, ambiguous, weak)?,
        })
    }

    /// Makes room for the numbers of so many finalizers, before the passes of a collection. It is
    /// refused only for want of memory; what the room is for else stays, and so do the notes.
    pub fn reserve_queued(&mut self, most: u32) -> Result<(), Memory>
        ensures queued { OnOk result (most ≤ self.new.queued) }
        ensures pages { self.new.pages ≡ self.old.pages }
        ensures ambiguous { self.new.ambiguous ≡ self.old.ambiguous }
        ensures weak { self.new.weak ≡ self.old.weak }
        ensures notes { SameButQueued self.old.notes self.new.notes }
        ensures items { self.new.notes.queued.items ≡ self.old.notes.queued.items }
    {
        self.notes.queued.reserve(most as usize)?;
        Ok(())
    }

    /// The notes of the latest pass.
    pub fn notes(&self) -> &PassNotes
        ensures { result.now ≡ self.now.notes }
    {
        &self.notes
    }
}

/// Notes with room for a move of every double word, for a pin for each ambiguous root, for every
/// page, for all pairs of so many tables, and for as many broken weak pointers.
fn reserve_notes(alloc: Global, pages: u32, ambiguous: u32, weak: u32) -> Result<PassNotes, Memory>
    requires { pages ≤ MOST_PAGES }
    ensures { IfOk result (λ notes. AreNotesFor notes pages ambiguous weak) }
{
    Ok(PassNotes {
        generation: 0,
        target: 0,
        moves: Vec::with_capacity(alloc, (PAGE_WORDS / 2 * pages) as usize)?,
        pins: Vec::with_capacity(alloc, ambiguous as usize)?,
        culls: Vec::with_capacity(alloc, MOST_PAIRS as usize * weak as usize)?,
        breaks: Vec::with_capacity(alloc, weak as usize)?,
        queued: Vec::new(alloc),
        freed: Vec::with_capacity(alloc, pages as usize)?,
        dead: 0,
        kept: 0,
    })
}
