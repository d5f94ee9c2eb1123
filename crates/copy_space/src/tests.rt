//! Placing on hand-made tables: each size class, an object that fits exactly, the heap's last page,
//! and one that finds no place. Words are moved in the tests of whole passes: what a copier works
//! on has to stand for a heap.

ghost use Rattle.std.specs.Prelude.{◌≤◌, ◌≡◌, ◌%◌, [], vec_capacity};
ghost use Rattle.heap_terms.specs.Heap.{NamedHeap};
ghost use Rattle.copy_space.specs.Copying.{CanBegin};

use crate::placing::place;
use crate::{Copier, CullNote, Mark, Marks, Move, PagesInUse, Pass, PassNotes, SCRATCH_GENERATION};
use heap_terms::{Entry, PageType};
use page_table::PageTable;
use pin_set::PinSet;
use std::test::Fail;
use word_space::Space;

/// Takes what another thread may own and what threads may share.
fn crosses_threads<T: Send + Sync>(_value: &T) {}

/// Where the first object of a size goes in a table, and the page that is in use then.
fn place_first(pages: &mut PageTable, ty: PageType, size: u32) -> Option<(u32, PagesInUse)>
    requires least { 2 ≤ size }
    requires even { size % 2 ≡ 0 }
    requires most { size ≤ 65536 }
{
    prove!(pages.len() <= 1024);
    let mut in_use = PagesInUse::none();
    let index = place(pages, &mut in_use, ty, size)?;
    Some((index, in_use))
}

/// The fill of a page, if it was taken.
fn taken_fill(pages: &PageTable, page: u32) -> Option<u32> {
    if page < pages.len() {
        if let Entry::Used {
            generation,
            fill,
            ..
        } = pages.entry(page)
        {
            return (generation == SCRATCH_GENERATION).then_some(fill);
        }
    }
    None
}

#[test]
fn small_objects_take_the_lowest_page(rt: HostRuntime) -> Result<(), Fail> {
    let mut pages = PageTable::new(rt.alloc(), 3)?;
    let cons = place_first(&mut pages, PageType::Cons, 2);
    assert_eq!(rt;
        cons,
        Some((
            0,
            PagesInUse {
                cons: Some(0),
                ..PagesInUse::none()
            }
        ))
    );
    let whole = place_first(&mut pages, PageType::Boxed, 512);
    assert_eq!(rt;
        whole,
        Some((
            512,
            PagesInUse {
                boxed: Some(1),
                ..PagesInUse::none()
            }
        ))
    );
    let last = place_first(&mut pages, PageType::Unboxed, 4);
    assert_eq!(rt;
        last,
        Some((
            1024,
            PagesInUse {
                unboxed: Some(2),
                ..PagesInUse::none()
            }
        ))
    );
    assert_eq!(rt; place_first(&mut pages, PageType::Cons, 2), None);
    let fills = [0, 1, 2].map(|page: u32| taken_fill(&pages, page));
    assert_eq!(rt; fills, [Some(2), Some(512), Some(4)]);
    Ok(())
}

#[test]
fn a_large_object_takes_a_run(rt: HostRuntime) -> Result<(), Fail> {
    let mut pages = PageTable::new(rt.alloc(), 4)?;
    let large = place_first(&mut pages, PageType::Boxed, 1026);
    assert_eq!(rt; large, Some((0, PagesInUse::none())));
    let fills = [0, 1, 2, 3].map(|page: u32| taken_fill(&pages, page));
    assert_eq!(rt; fills, [Some(512), Some(512), Some(2), None]);
    assert_eq!(rt; place_first(&mut pages, PageType::Boxed, 514), None);
    Ok(())
}

#[test]
fn marks_and_notes_are_plain_data(rt: HostRuntime) -> Result<(), Fail> {
    let alloc = rt.alloc();
    let marks = Marks::new(alloc, 1)?;
    assert_eq!(rt; marks.at(0), Mark::Fresh);
    crosses_threads(&marks);
    let notes = PassNotes {
        generation: 0,
        target: 1,
        moves: vec![in alloc; Move { old: 0, new: 512 }]?,
        pins: Vec::new(alloc),
        culls: vec![in alloc;
            CullNote {
                table: 8,
                key: 2,
                value: 4
            },
        ]?,
        breaks: Vec::new(alloc),
        queued: Vec::new(alloc),
        freed: Vec::new(alloc),
        dead: 0,
        kept: 1,
    };
    assert_eq!(rt; notes.moves.len() + notes.culls.len(), 2);
    crosses_threads(&notes);
    Ok(())
}

/// A copier that is let go leaves its parts as they are.
fn begin_and_end(
    space: &mut Space,
    pages: &mut PageTable,
    marks: &mut Marks,
    pins: &PinSet,
    notes: &mut PassNotes,
)
    ghost a: { NamedHeap }
    requires begins { CanBegin a space.old pages.old marks.old pins.now.listed 0 (vec_capacity notes.old.moves) }
    requires unmoved { notes.old.moves.items ≡ [] }
    ensures space { space.new ≡ space.old }
    ensures pages { pages.new ≡ pages.old }
    ensures notes { notes.new ≡ notes.old }
{
    let pass = Pass {
        generation: 0,
        raise: false,
    };
    let copier = Copier::new(space, pages, marks, pins, pass, notes);
    let _ = copier.pass();
}
