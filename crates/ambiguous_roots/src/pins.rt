//! The objects that the ambiguous roots pin.

ghost use Rattle.std.specs.Prelude.{◌≡◌, ℕ, ◌+◌, ◌-◌, ◌*◌, ◌/◌, ◌^◌, ◌<◌, ◌≤◌, ◌++◌, ◌∷◌, [], List, length, map, count_by, true, false, nat_eq, if◌then◌else◌};
ghost use Rattle.std.specs.List.{list_any};
ghost use Rattle.heap_terms.specs.Generations.{is_of, names};
ghost use Rattle.heap_terms.specs.Heap.{NamedHeap};
ghost use Rattle.heap_terms.specs.LaidOut.{IsLaidOut, AreObjectsOn, ObjectStart};
ghost use Rattle.heap_terms.specs.Layout.{page_words};
ghost use Rattle.object_walk.specs.Walks.{found_at};
ghost use Rattle.ambiguous_roots.specs.Hinted.{hint_of};
ghost use Rattle.ambiguous_roots.specs.HitStarts.{AreHitStarts, CanFindPins};
ghost use Rattle.ambiguous_roots.specs.Pinning.{is_referred, referred, CanPinAll, is_walked, CanPinPages, AreHitBefore, how_many_before};

use crate::conses::unhinted_conses;
use crate::hints::Hints;
use heap_terms::{Entry, MOST_PAGES};
use lisp_words::tag;
use object_walk::{Found, PageWalk};
use page_table::PageTable;
use pin_set::PinSet;
use word_space::Space;

/// Puts the starts of all objects of a generation into the empty set that some ambiguous word hits,
/// ascending, and answers how many objects the generation has. The pages of the generation are
/// walked once. No hint is set before and after it. It takes no memory and cannot be refused.
pub fn find_pins(
    space: &Space,
    pages: &PageTable,
    generation: u8,
    ambiguous: &[u64],
    hints: &mut Hints,
    pins: &mut PinSet,
) -> u32
    ghost a: { NamedHeap }
    requires { CanFindPins a space.now pages.now ambiguous.now hints.old pins.old }
    ensures pins { AreHitStarts a generation ambiguous.now pins.new.listed }
    ensures most { pins.new.most ≡ pins.old.most }
    ensures hints { hints.new ≡ hints.old }
    ensures count { result ≡ count_by (is_of a generation) (names a) }
{
    hints.set_all(ambiguous, true);
    let count = pin_pages(space, pages, generation, ambiguous, hints, pins);
    hints.set_all(ambiguous, false);
    count
}

/// Pins the objects that are hit on all pages of a generation. How many objects it has.
fn pin_pages(
    space: &Space,
    pages: &PageTable,
    generation: u8,
    ambiguous: &[u64],
    hints: &Hints,
    pins: &mut PinSet,
) -> u32
    ghost a: { NamedHeap }
    requires { CanPinPages a space.now pages.now ambiguous.now hints.now pins.old }
    ensures pins { AreHitBefore a generation ambiguous.now (page_words * length pages.now) pins.new.listed }
    ensures most { pins.new.most ≡ pins.old.most }
    ensures count { result ≡ how_many_before a generation (page_words * length pages.now) }
{
    prove!(pages.len() <= MOST_PAGES);
    let mut count = 0;
    for page in 0..pages.used_end() {
        if is_walked(pages.entry(page), page, generation) {
            count += pin_page(space, pages, page, ambiguous, hints, pins);
        }
    }
    count
}

/// Whether a page is the first of a run of a generation: only there objects of it begin.
fn is_walked(entry: Entry, page: u32, generation: u8) -> bool
    ensures { result ≡ is_walked entry page generation }
{
    match entry {
        Entry::Used {
            generation: of,
            run_first,
            ..
        } => of == generation && run_first == page,
        Entry::Free => false,
    }
}

/// Pins the objects that begin on a page and are hit. How many objects begin there.
fn pin_page(
    space: &Space,
    pages: &PageTable,
    page: u32,
    ambiguous: &[u64],
    hints: &Hints,
    pins: &mut PinSet,
) -> u32
    requires paged { length space.now ≡ page_words * length pages.now }
    requires inside { page < length pages.now }
    requires hints { 2 * length hints.now ≡ length space.now }
    requires laid { IsLaidOut space.now pages.now page }
    requires can { (starts : List ObjectStart) → AreObjectsOn space.now pages.now page starts → CanPinAll ambiguous.now hints.now pins.old (map found_at starts) }
    ensures pins { (starts : List ObjectStart) → AreObjectsOn space.now pages.now page starts →
        pins.new.listed ≡ pins.old.listed ++ referred ambiguous.now (map found_at starts) }
    ensures most { pins.new.most ≡ pins.old.most }
    ensures count { (starts : List ObjectStart) → AreObjectsOn space.now pages.now page starts → result ≡ length starts }
{
    match unhinted_conses(space, pages, page, hints) {
        Some(count) => count,
        None => pin_walked(space, pages, page, ambiguous, hints, pins),
    }
}

/// The same, object by object.
fn pin_walked(
    space: &Space,
    pages: &PageTable,
    page: u32,
    ambiguous: &[u64],
    hints: &Hints,
    pins: &mut PinSet,
) -> u32
    requires paged { length space.now ≡ page_words * length pages.now }
    requires inside { page < length pages.now }
    requires laid { IsLaidOut space.now pages.now page }
    requires can { (starts : List ObjectStart) → AreObjectsOn space.now pages.now page starts → CanPinAll ambiguous.now hints.now pins.old (map found_at starts) }
    ensures pins { (starts : List ObjectStart) → AreObjectsOn space.now pages.now page starts →
        pins.new.listed ≡ pins.old.listed ++ referred ambiguous.now (map found_at starts) }
    ensures most { pins.new.most ≡ pins.old.most }
    ensures count { (starts : List ObjectStart) → AreObjectsOn space.now pages.now page starts → result ≡ length starts }
{
    let mut count = 0;
    for found in PageWalk::new(space, pages, page) {
        count += 1;
        pin_if_hit(found, ambiguous, hints, pins);
    }
    count
}

/// Pins an object that is not pinned yet, if some ambiguous word hits it. Where it has no hint none
/// does.
#[inline(always)]
fn pin_if_hit(found: Found, ambiguous: &[u64], hints: &Hints, pins: &mut PinSet)
    requires inside { found.index / 2 < length hints.now }
    requires hinted { is_referred ambiguous.now found.index found.kind ≡ true → hint_of hints.now (found.index / 2) ≡ true }
    requires unpinned { list_any (nat_eq found.index) pins.old.listed ≡ false }
    requires room { is_referred ambiguous.now found.index found.kind ≡ true → length pins.old.listed < pins.old.most }
    requires small { is_referred ambiguous.now found.index found.kind ≡ true → length pins.old.listed < 2 ^ 32 - 1 }
    ensures listed { pins.new.listed ≡ pins.old.listed ++ (if is_referred ambiguous.now found.index found.kind then found.index ∷ [] else []) }
    ensures most { pins.new.most ≡ pins.old.most }
{
    if hints.at(found.index) && ambiguous.contains(&tag(found.index, found.kind)) {
        pins.insert(found.index).unwrap();
    }
}
