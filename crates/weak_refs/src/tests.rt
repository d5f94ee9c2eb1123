//! Nothing is kept, culled or broken where no weak pointer or table was noted. Heaps with objects
//! are the matter of whole passes: what a copier works on has to stand for a heap.

ghost use Rattle.std.specs.Prelude.{◌≡◌, ◌≤◌, [], vec_len, vec_capacity};
ghost use Rattle.heap_terms.specs.Heap.{NamedHeap};
ghost use Rattle.copy_space.specs.Copying.{CanBegin};

use crate::{Waiting, break_dead, cull, ready_entries};
use copy_space::{Copier, Marks, Pass, PassNotes};
use page_table::PageTable;
use pin_set::PinSet;
use std::test::Fail;
use word_space::Space;

/// Readies the entries of a pass that begins, culls and breaks, where nothing was noted.
fn finish(
    space: &mut Space,
    pages: &mut PageTable,
    marks: &mut Marks,
    pins: &PinSet,
    weak: &PinSet,
    notes: &mut PassNotes,
    waiting: &mut Waiting,
) -> bool
    ghost a: { NamedHeap }
    requires begins { CanBegin a space.old pages.old marks.old pins.now.listed 0 (vec_capacity notes.old.moves) }
    requires unmoved { notes.old.moves.items ≡ [] }
    requires none { weak.now.listed ≡ [] }
    requires culls { vec_len notes.old.culls ≤ vec_capacity notes.old.culls }
    requires breaks { vec_len notes.old.breaks ≤ vec_capacity notes.old.breaks }
{
    let pass = Pass {
        generation: 0,
        raise: false,
    };
    let mut copier = Copier::new(space, pages, marks, pins, pass, notes);
    let settled = ready_entries(weak, &mut copier, waiting);
    cull(weak, &mut copier);
    break_dead(weak, &mut copier);
    settled
}

#[test]
fn nothing_is_culled_where_nothing_was_noted(rt: HostRuntime) -> Result<(), Fail> {
    let alloc = rt.alloc();
    let mut space = Space::new(alloc, 1)?;
    let mut pages = PageTable::new(alloc, 1)?;
    let mut marks = Marks::new(alloc, 1)?;
    let pins = PinSet::new(alloc, 1)?;
    let weak = PinSet::new(alloc, 1)?;
    let mut notes = PassNotes {
        generation: 0,
        target: 0,
        moves: Vec::with_capacity(alloc, 256)?,
        pins: Vec::new(alloc),
        culls: Vec::new(alloc),
        breaks: Vec::new(alloc),
        queued: Vec::new(alloc),
        freed: Vec::new(alloc),
        dead: 0,
        kept: 0,
    };
    let mut waiting = Waiting::new(alloc, 1, 1)?;
    let settled = finish(
        &mut space,
        &mut pages,
        &mut marks,
        &pins,
        &weak,
        &mut notes,
        &mut waiting,
    );
    assert!(rt; !settled);
    assert_eq!(rt; notes.culls.len() + notes.breaks.len(), 0);
    Ok(())
}
