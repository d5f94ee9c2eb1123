//! Walks over the objects of a page.

ghost use Rattle.std.specs.Prelude.{◌≡◌, ◌+◌, ◌*◌, ◌/◌, ◌^◌, ◌<◌, ◌≤◌, List, [], ◌∷◌, length, map, MatchOption, IfSome, IsNone};
ghost use Rattle.std.specs.Iterator.{YieldsFirst, item_count};
ghost use Rattle.heap_terms.specs.declared.limits.TheConstants.{MOST_WORDS};
ghost use Rattle.heap_terms.specs.Layout.{page_words};
ghost use Rattle.heap_terms.specs.LaidOut.{IsLaidOut, AreObjectsOn, ObjectStart, StartsAt, laid_words as words_laid};
ghost use Rattle.object_walk.specs.Walks.{found_at, found_left, IsWalk, IsFoundAt};

use crate::fillers::FILLER_WORD;
use crate::found::{Found, object_at};
use heap_terms::{Entry, PAGE_WORDS};
use page_table::PageTable;
use std::marker::Model;
use word_space::Space;

/// The object that starts at an index; `None` exactly where none starts there. It walks the page
/// from its first word: no word by itself tells whether an object starts at it.
pub fn start_at(space: &Space, pages: &PageTable, index: u32) -> Option<Found>
    requires paged { length space.now ≡ page_words * length pages.now }
    requires inside { index < length space.now }
    requires laid { IsLaidOut space.now pages.now (index / page_words) }
    ensures found { IfSome result (IsFoundAt space.now pages.now index) }
    ensures only { (start : ObjectStart) → start.index ≡ index → StartsAt space.now pages.now start → result ≡ Some (found_at start) }
    ensures none { IsNone result → (start : ObjectStart) → start.index ≡ index → StartsAt space.now pages.now start → ⊥ }
{
    let found = PageWalk::new(space, pages, index / PAGE_WORDS).find(|found| found.index >= index)?;
    (found.index == index).then_some(found)
}

/// The objects that begin on a page, in the order of their indices; fillers are passed over. It is
/// seen as the list of those that are left. A free page has none, and on a later page of a run
/// none begins.
#[derive(Drop)]
pub struct PageWalk<'a> {
    space: &'a Space,
    /// Where the next piece begins.
    next: u32,
    /// Below it all pieces begin.
    end: u32,
}

impl<'a> Model for PageWalk<'a> {
    ghost use Rattle.std.specs.Prelude.{List};
    ghost use Rattle.object_walk.specs.declared.found.Found.{Found};
    ghost use Rattle.object_walk.specs.Walks.{found_left, IsWalk};

    ghost Value = { List Found };

    ghost view = { λ w. found_left w.space.now w.next w.end };

    ghost invariant = { λ w. IsWalk w.space.now w.next w.end };
}

impl<'a> PageWalk<'a> {
    /// The walk over a page.
    pub fn new(space: &'a Space, pages: &PageTable, page: u32) -> PageWalk<'a>
        requires paged { length space.now ≡ page_words * length pages.now }
        requires inside { page < length pages.now }
        requires laid { IsLaidOut space.now pages.now page }
        ensures { (starts : List ObjectStart) → AreObjectsOn space.now pages.now page starts → result ≡ map found_at starts }
    {
        prove!(page < pages.len());
        let start = PAGE_WORDS * page;
        let used = laid_words(pages.entry(page), page);
        PageWalk {
            space,
            next: start,
            end: start + used,
        }
    }
}

impl<'a> Iterator for PageWalk<'a> {
    type Item = Found;

    ghost next_gives = { YieldsFirst (λ left. left) };

    ghost remaining = { item_count (λ left. left) };

    fn next(&mut self) -> Option<Found> {
        let found = first_object(self.space, self.next, self.end)?;
        self.next = found.index + found.size;
        Some(found)
    }
}

/// How many words of a page hold pieces that begin on it: on a later page of a run none.
fn laid_words(entry: Entry, page: u32) -> u32
    ensures { result ≡ words_laid page entry }
{
    match entry {
        Entry::Used {
            fill,
            run_first,
            ..
        } if run_first == page => fill,
        Entry::Used { .. } | Entry::Free => 0,
    }
}

/// The first object from the edge of a piece on; none where there are only fillers up to the end.
fn first_object(space: &Space, from: u32, end: u32) -> Option<Found>
    requires { IsWalk space.now from end }
    ensures left { MatchOption result (found_left space.now from end ≡ [])
        (λ f. found_left space.now from end ≡ f ∷ found_left space.now (f.index + f.size) end) }
    ensures walk { IfSome result (λ f. IsWalk space.now (f.index + f.size) end) }
    ensures small { IfSome result (λ f. f.index + f.size < 2 ^ 32) }
{
    let mut index = from;
    while index < end {
        let word = space.read(index);
        if word != FILLER_WORD {
            return Some(object_at(index, word));
        }
        // Fillers come in pairs.
        index += 2;
    }
    None
}
