//! Where objects stand: their first word, and where they were before the pass.

ghost use Rattle.std.specs.Prelude.{◌≡◌, ℕ, ◌<◌, ◌≤◌, Some, length, slice_index, IfSome, IsNone};
ghost use Rattle.heap_terms.specs.Heap.{NamedHeap, object_at, entry_at};
ghost use Rattle.heap_terms.specs.Objects.{Object};
ghost use Rattle.heap_terms.specs.declared.kinds.Kind.{Kind};
ghost use Rattle.lisp_words.specs.Tagged.{IsHeader};
ghost use Rattle.copy_space.specs.Moved.{new_of};
ghost use Rattle.copy_space.specs.Pages.{is_page_of};
ghost use Rattle.copy_space.specs.State.{state};
ghost use Rattle.heap_terms.specs.Placement.{scratch};
ghost use Rattle.weak_refs.specs.Places.{CanTellPlace, IsMoveTo, NoMoveTo};

use copy_space::{Copier, Move, SCRATCH_GENERATION};
use heap_terms::{Entry, Kind, PAGE_WORDS};
use lisp_words::read_header;
use page_table::PageTable;
use word_space::Space;

/// The kind of the object with a header at an index.
#[inline(always)]
pub(crate) fn kind_at(space: &Space, start: u32) -> Kind
    requires { start < length space.now }
    ensures { (kind : Kind) (n : ℕ) → IsHeader (slice_index space.now start) kind n → result ≡ kind }
{
    match read_header(space.read(start)) {
        Some((kind, _)) => kind,
        // It does not come.
        None => Kind::Cons,
    }
}

/// Whether a page was taken in the pass.
#[inline(always)]
fn is_taken(pages: &PageTable, page: u32) -> bool
    requires { page < length pages.now }
    ensures { result ≡ is_page_of (entry_at pages.now page) scratch }
{
    match pages.entry(page) {
        Entry::Free => false,
        Entry::Used { generation, .. } => generation == SCRATCH_GENERATION,
    }
}

/// The number of a move among some that ends at an index.
fn find_move(moves: &[Move], to: u32, from: usize, end: usize) -> Option<usize>
    requires { end ≤ length moves.now }
    ensures found { IfSome result (λ k. IsMoveTo moves.now to k) }
    ensures none { IsNone result → NoMoveTo moves.now to from end }
{
    for k in from..end {
        if moves[k].new == to {
            return Some(k);
        }
    }
    None
}

/// The number of the move that ends at an index, looked for from the number `next` on and then from
/// the first move on.
fn move_to(moves: &[Move], to: u32, next: usize) -> Option<usize>
    ensures found { IfSome result (λ k. IsMoveTo moves.now to k) }
    ensures none { IsNone result → NoMoveTo moves.now to 0 (length moves.now) }
{
    let next = if next < moves.len() { next } else { 0 };
    match find_move(moves, to, next, moves.len()) {
        Some(k) => Some(k),
        None => find_move(moves, to, 0, next),
    }
}

/// Where the object was before the pass that stands now at an index. What moved is mostly noted in
/// the order of the moves, so that the search for its move goes on behind the last one found, at
/// `next`.
pub(crate) fn place_before(copier: &Copier, start: u32, next: &mut usize) -> u32
    ghost a: { NamedHeap }
    requires { CanTellPlace a (state copier.now) start }
    ensures { (name : ℕ) (o : Object) → object_at a.objects name ≡ Some o → new_of (state copier.now).moves o.place ≡ start → result ≡ o.place }
{
    if !is_taken(copier.pages(), start / PAGE_WORDS) {
        return start;
    }
    match move_to(&copier.notes().moves, start, *next) {
        Some(k) => {
            *next = k + 1;
            copier.notes().moves[k].old
        }
        None => start,
    }
}
