//! A pass traces an empty heap. Heaps with objects are traced in the tests of whole passes: what a
//! copier works on has to stand for a heap.

ghost use Rattle.std.specs.Prelude.{◌≡◌, ◌≤◌, [], vec_capacity};
ghost use Rattle.heap_terms.specs.Heap.{NamedHeap};
ghost use Rattle.copy_space.specs.Copying.{CanBegin};
ghost use Rattle.copy_space.specs.WeakNames.{weak_count};

use crate::{Scanned, scavenge_all, scavenge_older};
use copy_space::{Copier, Marks, Pass, PassNotes};
use page_table::PageTable;
use pin_set::PinSet;
use std::test::Fail;
use word_space::Space;

/// Scans the older roots of a pass that begins, and then all that moves.
fn trace(
    space: &mut Space,
    pages: &mut PageTable,
    marks: &mut Marks,
    pins: &PinSet,
    notes: &mut PassNotes,
    weak: &mut PinSet,
) -> Scanned
    ghost a: { NamedHeap }
    requires begins { CanBegin a space.old pages.old marks.old pins.now.listed 0 (vec_capacity notes.old.moves) }
    requires unmoved { notes.old.moves.items ≡ [] }
    requires none { weak.old.listed ≡ [] }
    requires room { weak_count a ≤ weak.old.most }
{
    let pass = Pass {
        generation: 0,
        raise: false,
    };
    let mut copier = Copier::new(space, pages, marks, pins, pass, notes);
    scavenge_older(&mut copier, weak);
    scavenge_all(&mut copier, weak, Scanned { pins: 0, moves: 0 })
}

#[test]
fn an_empty_heap_has_nothing_to_scan(rt: HostRuntime) -> Result<(), Fail> {
    let alloc = rt.alloc();
    let mut space = Space::new(alloc, 1)?;
    let mut pages = PageTable::new(alloc, 1)?;
    let mut marks = Marks::new(alloc, 1)?;
    let pins = PinSet::new(alloc, 1)?;
    let mut notes = PassNotes {
        generation: 0,
        target: 0,
        moves: Vec::with_capacity(alloc, 256)?,
        pins: Vec::new(alloc),
        culls: Vec::new(alloc),
        breaks: Vec::new(alloc),
        queued: Vec::new(alloc),
        freed: Vec::new(alloc),
        dead: 0,
        kept: 0,
    };
    let mut weak = PinSet::new(alloc, 1)?;
    let done = trace(
        &mut space, &mut pages, &mut marks, &pins, &mut notes, &mut weak,
    );
    assert_eq!(rt; done, Scanned { pins: 0, moves: 0 });
    assert_eq!(rt; notes.moves.len(), 0);
    assert_eq!(rt; weak.len(), 0);
    Ok(())
}
