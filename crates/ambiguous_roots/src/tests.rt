//! Hits on hand-made pages, and pins of a heap without objects. The pages are tested first: a walk
//! wants words that are laid out.

ghost use Rattle.std.specs.Prelude.{◌≡◌, ℕ, ◌+◌, ◌<◌, ◌≤◌, List, length, IfSome, IsTrue};
ghost use Rattle.heap_terms.specs.declared.limits.TheConstants.{MOST_WORDS};
ghost use Rattle.heap_terms.specs.LaidOut.{AreLaidOut, IsLaidOut, IsPieceAt, Piece, words_of_piece};

use crate::{Hints, find_pins, hit};
use heap_terms::{Entry, Kind, MOST_ELEMENTS, PAGE_WORDS, PageType};
use lisp_words::{read_header, size_of, tag};
use object_walk::FILLER_WORD;
use page_table::PageTable;
use pin_set::PinSet;
use std::test::Fail;
use word_space::Space;

/// How many words the piece at an index takes, if one is there.
fn piece_size(space: &Space, index: u32) -> Option<u32>
    requires inside { index + 1 < length space.now }
    requires small { index < MOST_WORDS }
    ensures { IfSome result (λ size. (piece : Piece) × IsPieceAt space.now index piece × (size ≡ words_of_piece piece) × (size ≤ 65536)) }
{
    let word = space.read(index);
    if word == FILLER_WORD {
        return (space.read(index + 1) == FILLER_WORD).then_some(2);
    }
    match read_header(word) {
        Some((kind, n)) if n <= MOST_ELEMENTS => Some(size_of(kind, n)),
        None if word % 4 != 1 => Some(2),
        Some(_) | None => None,
    }
}

/// Whether the words from an index on are laid out up to an end.
fn are_pieces(space: &Space, from: u32, end: u32) -> bool
    requires inside { end ≤ length space.now }
    requires small { end ≤ MOST_WORDS }
    ensures { IsTrue result → (pieces : List Piece) × AreLaidOut space.now from end pieces }
{
    let mut index = from;
    while index < end {
        if index + 1 == end {
            return false;
        }
        match piece_size(space, index) {
            Some(size) => index += size,
            None => return false,
        }
    }
    true
}

/// Whether a page can be walked.
fn can_walk(space: &Space, pages: &PageTable, page: u32) -> bool
    requires inside { page < length pages.now }
    ensures { IsTrue result → IsLaidOut space.now pages.now page }
{
    prove!(page < pages.len());
    let start = PAGE_WORDS * page;
    let used = match pages.entry(page) {
        Entry::Used {
            fill,
            run_first,
            ..
        } if run_first == page => fill,
        Entry::Used { .. } | Entry::Free => 0,
    };
    used <= PAGE_WORDS
        && start + used <= PAGE_WORDS * space.pages()
        && are_pieces(space, start, start + used)
}

/// Whether all pages can be walked.
fn can_walk_all(space: &Space, pages: &PageTable) -> bool
    ensures { IsTrue result → (page : ℕ) → page < length pages.now → IsLaidOut space.now pages.now page }
{
    for page in 0..pages.len() {
        if !can_walk(space, pages, page) {
            return false;
        }
    }
    true
}

/// What a word hits, if all pages can be walked.
fn answer(space: &Space, pages: &PageTable, word: u64) -> Option<Option<u32>> {
    if pages.len() == space.pages() && can_walk_all(space, pages) {
        Some(hit(word, space, pages))
    } else {
        None
    }
}

/// Takes the lowest free page of a type and fills it with words.
fn take(space: &mut Space, pages: &mut PageTable, ty: PageType, words: &[u64]) {
    if let Some(page) = pages.find_run(1) {
        prove!(page < pages.len());
        pages.take_run(page, 1, ty, 0);
        let mut index = PAGE_WORDS * page;
        for word in words {
            if index < PAGE_WORDS * space.pages() {
                space.write(index, *word);
                index += 1;
            }
        }
        if words.len() <= PAGE_WORDS as usize {
            pages.set_fill(page, words.len() as u32);
        }
    }
}

#[test]
fn a_word_hits_where_it_is_a_reference(rt: HostRuntime) -> Result<(), Fail> {
    let mut space = Space::new(rt.alloc(), 3)?;
    let mut pages = PageTable::new(rt.alloc(), 3)?;
    take(
        &mut space,
        &mut pages,
        PageType::Cons,
        [2, 4, 0x41, 0x41, 6, 0x117].as_slice(),
    );
    take(
        &mut space,
        &mut pages,
        PageType::Boxed,
        [0x321, 2, 4, 6].as_slice(),
    );
    for (word, want) in [
        (tag(0, Kind::Cons), Some(0)),
        (tag(2, Kind::Cons), None),
        (tag(4, Kind::Cons), Some(4)),
        (tag(4, Kind::Vector), None),
        (tag(512, Kind::Vector), Some(512)),
        (tag(514, Kind::Vector), None),
        (tag(1024, Kind::Cons), None),
        (tag(4096, Kind::Cons), None),
        (0x117, None),
        (0x10_0000_0001, None),
    ] {
        assert_eq!(rt; answer(&space, &pages, word), Some(want), "at {word}");
    }
    Ok(())
}

#[test]
fn nothing_is_pinned_where_nothing_is(rt: HostRuntime) -> Result<(), Fail> {
    let space = Space::new(rt.alloc(), 2)?;
    let pages = PageTable::new(rt.alloc(), 2)?;
    let mut hints = Hints::new(rt.alloc(), 2)?;
    let mut pins = PinSet::new(rt.alloc(), 2)?;
    let words = [tag(0, Kind::Cons), 10];
    let count = find_pins(&space, &pages, 0, words.as_slice(), &mut hints, &mut pins);
    assert_eq!(rt; (count, pins.len()), (0, 0));
    Ok(())
}
