//! Walks over hand-made pages of every kind. What is walked is tested first: a walk wants words
//! that are laid out.

ghost use Rattle.std.specs.Prelude.{◌≡◌, ◌+◌, ◌<◌, ◌≤◌, List, length, IfSome, IsTrue};
ghost use Rattle.heap_terms.specs.declared.limits.TheConstants.{MOST_WORDS};
ghost use Rattle.heap_terms.specs.LaidOut.{AreLaidOut, IsLaidOut, IsPieceAt, Piece, words_of_piece};

use crate::{FILLER_WORD, Found, PageWalk, fill, start_at};
use heap_terms::{Entry, Kind, MOST_ELEMENTS, PAGE_WORDS, PageType};
use lisp_words::{read_header, size_of};
use page_table::PageTable;
use std::alloc::{AllocError, Global};
use std::test::Fail;
use word_space::Space;

/// How many words the piece at an index takes, if one is there.
fn piece_size(space: &Space, index: u32) -> Option<u32>
    requires inside { index + 1 < length space.now }
    requires small { index < MOST_WORDS }
    ensures { IfSome result (λ size. (piece : Piece) × IsPieceAt space.now index piece × (size ≡ words_of_piece piece) × (size ≤ 65536)) }
{
    let word = space.read(index);
    if word == FILLER_WORD {
        return (space.read(index + 1) == FILLER_WORD).then_some(2);
    }
    match read_header(word) {
        Some((kind, n)) if n <= MOST_ELEMENTS => Some(size_of(kind, n)),
        None if word % 4 != 1 => Some(2),
        Some(_) | None => None,
    }
}

/// Whether the words from an index on are laid out up to an end.
fn are_pieces(space: &Space, from: u32, end: u32) -> bool
    requires inside { end ≤ length space.now }
    requires small { end ≤ MOST_WORDS }
    ensures { IsTrue result → (pieces : List Piece) × AreLaidOut space.now from end pieces }
{
    let mut index = from;
    while index < end {
        if index + 1 == end {
            return false;
        }
        match piece_size(space, index) {
            Some(size) => index += size,
            None => return false,
        }
    }
    true
}

/// Whether a page can be walked.
fn can_walk(space: &Space, pages: &PageTable, page: u32) -> bool
    requires inside { page < length pages.now }
    ensures { IsTrue result → IsLaidOut space.now pages.now page }
{
    prove!(page < pages.len());
    let start = PAGE_WORDS * page;
    let used = match pages.entry(page) {
        Entry::Used {
            fill,
            run_first,
            ..
        } if run_first == page => fill,
        Entry::Used { .. } | Entry::Free => 0,
    };
    used <= PAGE_WORDS
        && start + used <= PAGE_WORDS * space.pages()
        && are_pieces(space, start, start + used)
}

/// Whether a page can be walked and has just these objects.
fn finds(
    alloc: Global,
    space: &Space,
    pages: &PageTable,
    page: u32,
    want: &[Found],
) -> Result<bool, AllocError> {
    if page < pages.len() && pages.len() == space.pages() && can_walk(space, pages, page) {
        let list = PageWalk::new(space, pages, page).collect::<Vec<Found>>(alloc)?;
        Ok(list.as_slice() == want)
    } else {
        Ok(false)
    }
}

/// Whether an object starts at an index, if its page can be walked.
fn starts(space: &Space, pages: &PageTable, index: u32) -> Option<bool> {
    let page = index / PAGE_WORDS;
    if page < pages.len() && pages.len() == space.pages() && can_walk(space, pages, page) {
        Some(start_at(space, pages, index).is_some())
    } else {
        None
    }
}

/// Takes the lowest k free pages of a type.
fn take(pages: &mut PageTable, k: u32, ty: PageType) {
    if k > 0 {
        if let Some(first) = pages.find_run(k) {
            pages.take_run(first, k, ty, 0);
        }
    }
}

/// Fills a page, if it is in use.
fn set_fill(pages: &mut PageTable, page: u32, fill: u32) {
    if page < pages.len() && fill <= PAGE_WORDS {
        if let Entry::Used { .. } = pages.entry(page) {
            pages.set_fill(page, fill);
        }
    }
}

/// Writes words from an index on, as far as there is room.
fn write_all(space: &mut Space, from: u32, words: &[u64]) {
    let mut index = from;
    for word in words {
        if index < PAGE_WORDS * space.pages() {
            space.write(index, *word);
        }
        index = index.saturating_add(1);
    }
}

/// An object that a walk should find.
fn found(index: u32, kind: Kind, n: u32, size: u32) -> Found {
    Found {
        index,
        kind,
        n,
        size,
    }
}

#[test]
fn gaps_among_conses_are_passed_over(rt: HostRuntime) -> Result<(), Fail> {
    let alloc = rt.alloc();
    let mut space = Space::new(alloc, 2)?;
    let mut pages = PageTable::new(alloc, 2)?;
    take(&mut pages, 1, PageType::Cons);
    let words = [
        0x41,
        0x41,
        10,
        0x117,
        0x41,
        0x41,
        0x41,
        0x41,
        0x10_0000_0017,
        10,
        0x41,
        0x41,
        0x121,
    ];
    write_all(&mut space, 0, words.as_slice());
    set_fill(&mut pages, 0, 12);
    let first = found(2, Kind::Cons, 2, 2);
    let second = found(8, Kind::Cons, 2, 2);
    assert!(rt; finds(alloc, &space, &pages, 0, [first, second].as_slice())?);
    let at = [0, 1, 2, 3, 4, 8, 10, 12].map(|index: u32| starts(&space, &pages, index));
    let want = [false, false, true, false, false, true, false, false].map(|is: bool| Some(is));
    assert_eq!(rt; at, want);
    assert_eq!(rt; space.pages(), 2);
    fill(&mut space, 2, 2);
    assert!(rt; finds(alloc, &space, &pages, 0, [second].as_slice())?);
    assert!(rt;
        finds(alloc, &space, &pages, 1, [].as_slice())?,
        "a free page"
    );
    Ok(())
}

#[test]
fn headers_tell_where_objects_end(rt: HostRuntime) -> Result<(), Fail> {
    let alloc = rt.alloc();
    let mut space = Space::new(alloc, 2)?;
    let mut pages = PageTable::new(alloc, 2)?;
    take(&mut pages, 1, PageType::Boxed);
    take(&mut pages, 1, PageType::Unboxed);
    write_all(
        &mut space,
        0,
        [0x321, 2, 4, 6, 0x29, 0, 0x12D, 0x51].as_slice(),
    );
    write_all(&mut space, 8, [0x731, 2, 0, 0, 0x51, 0x51, 0, 0].as_slice());
    write_all(&mut space, 16, [0x235, 10, 12, 0].as_slice());
    set_fill(&mut pages, 0, 20);
    write_all(&mut space, 512, [0x125, 0x41, 0x41, 0x41].as_slice());
    set_fill(&mut pages, 1, 4);
    let boxed = [
        found(0, Kind::Vector, 3, 4),
        found(4, Kind::Instance, 0, 2),
        found(6, Kind::Weak, 1, 2),
        found(8, Kind::Table, 7, 8),
        found(16, Kind::Closure, 2, 4),
    ];
    assert!(rt; finds(alloc, &space, &pages, 0, boxed.as_slice())?);
    let words = found(512, Kind::Words, 1, 2);
    assert!(rt; finds(alloc, &space, &pages, 1, [words].as_slice())?);
    Ok(())
}

#[test]
fn a_large_object_is_on_its_first_page(rt: HostRuntime) -> Result<(), Fail> {
    let alloc = rt.alloc();
    let mut space = Space::new(alloc, 4)?;
    let mut pages = PageTable::new(alloc, 4)?;
    take(&mut pages, 2, PageType::Boxed);
    take(&mut pages, 2, PageType::Boxed);
    write_all(&mut space, 0, [0x25821].as_slice());
    set_fill(&mut pages, 0, 512);
    set_fill(&mut pages, 1, 90);
    let vector = found(0, Kind::Vector, 600, 602);
    assert!(rt; finds(alloc, &space, &pages, 0, [vector].as_slice())?);
    assert!(rt;
        finds(alloc, &space, &pages, 1, [].as_slice())?,
        "its second page"
    );
    assert!(rt;
        finds(alloc, &space, &pages, 2, [].as_slice())?,
        "an open run"
    );
    let at = [0, 2, 512, 1024].map(|index: u32| starts(&space, &pages, index));
    assert_eq!(rt; at, [Some(true), Some(false), Some(false), Some(false)]);
    Ok(())
}
