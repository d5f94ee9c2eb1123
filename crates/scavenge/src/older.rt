//! The older roots: the fields of the objects that a pass does not collect.

ghost use Rattle.std.specs.Prelude.{◌≡◌, ◌≢◌, ℕ, ◌+◌, ◌*◌, ◌%◌, true};
ghost use Rattle.heap_terms.specs.Heap.{NamedHeap};
ghost use Rattle.heap_terms.specs.Layout.{page_words, size_of as words_of};
ghost use Rattle.heap_terms.specs.declared.kinds.Kind.{Kind};
ghost use Rattle.lisp_words.specs.Tagged.{IsHeader};
ghost use Rattle.copy_space.specs.Notes.{SameButMoves};
ghost use Rattle.copy_space.specs.State.{state};
ghost use Rattle.scavenge.specs.Clear.{HasNoPage, IsReach};
ghost use Rattle.scavenge.specs.Fields.{IsSameCopier};
ghost use Rattle.scavenge.specs.Older.{root_words as words_with_roots, IsSized, CanScanPiece, IsPieceScanned, CanScanPage, AreObjectsScanned};
ghost use Rattle.copy_space.specs.Midway.{Midway};
ghost use Rattle.scavenge.specs.Noting.{CanNote, Notes};
ghost use Rattle.scavenge.specs.Scanning.{Scans, OthersScanned};

use crate::clear::{Reach, has_no_page, needs_no_scan, reach_of};
use crate::objects::scan_object;
use copy_space::{Copier, SCRATCH_GENERATION};
use heap_terms::{Entry, PAGE_WORDS, PageType};
use lisp_words::{read_header, size_of};
use object_walk::FILLER_WORD;
use pin_set::PinSet;

/// How many words an object takes that begins with a word: a cons begins with a value.
fn words_from(first: u64) -> u32
    requires sized { IsSized first }
    ensures headed { (kind : Kind) (n : ℕ) → IsHeader first kind n → result ≡ words_of kind n }
    ensures cons { first % 4 ≢ 1 → result ≡ 2 }
{
    match read_header(first) {
        Some((kind, n)) => size_of(kind, n),
        None => 2,
    }
}

/// Scans what begins at an index, an object or two fillers, and answers where the next piece begins.
#[inline(always)]
fn scan_piece(copier: &mut Copier, weak: &mut PinSet, index: u32) -> u32
    ghost a: { NamedHeap }
    requires can { CanScanPiece a (state copier.old) index }
    requires note { CanNote a (state copier.old) weak.old }
    ensures scans { Scans a (state copier.old) (state copier.new) }
    ensures piece { IsPieceScanned a (state copier.new) weak.new.listed index result }
    ensures noting { Notes a (state copier.new) weak.old weak.new }
    ensures same { IsSameCopier copier.old copier.new }
{
    let first = copier.space().read(index);
    if first == FILLER_WORD {
        return index + 2;
    }
    scan_object(copier, weak, index);
    index + words_from(first)
}

/// Scans the objects that begin below so many words of a page, one after another.
#[inline(never)]
fn scan_pieces(copier: &mut Copier, weak: &mut PinSet, page: u32, words: u32)
    ghost a: { NamedHeap }
    requires can { CanScanPage a (state copier.old) page words }
    requires note { CanNote a (state copier.old) weak.old }
    ensures scans { Scans a (state copier.old) (state copier.new) }
    ensures scanned { AreObjectsScanned a (state copier.new) weak.new.listed (page_words * page) (page_words * page + words) }
    ensures noting { Notes a (state copier.new) weak.old weak.new }
    ensures same { IsSameCopier copier.old copier.new }
{
    let mut index = PAGE_WORDS * page;
    let end = index + words;
    while index < end {
        index = scan_piece(copier, weak, index);
    }
}

/// Scans the objects that begin below so many words of a page, if they need it. `idle` says that no
/// page is of the generation that is collected, and `reach` which words refer to one.
#[inline(always)]
fn scan_page(
    copier: &mut Copier,
    weak: &mut PinSet,
    page: u32,
    words: u32,
    idle: bool,
    reach: Reach,
)
    ghost a: { NamedHeap }
    requires can { CanScanPage a (state copier.old) page words }
    requires note { CanNote a (state copier.old) weak.old }
    requires idle { idle ≡ true → HasNoPage copier.old.pages.now copier.old.pass.generation }
    requires reach { IsReach copier.old.pages.now copier.old.pass.generation reach }
    ensures scans { Scans a (state copier.old) (state copier.new) }
    ensures scanned { AreObjectsScanned a (state copier.new) weak.new.listed (page_words * page) (page_words * page + words) }
    ensures noting { Notes a (state copier.new) weak.old weak.new }
    ensures same { IsSameCopier copier.old copier.new }
{
    if needs_no_scan(copier, page, words, idle, reach) {
        return;
    }
    scan_pieces(copier, weak, page, words);
}

/// Below how many words of a page older roots begin, in a pass over a generation.
#[inline(always)]
fn root_words(entry: Entry, page: u32, collected: u8) -> u32
    ensures { result ≡ words_with_roots entry page collected }
{
    match entry {
        Entry::Free => 0,
        Entry::Used {
            ty: PageType::Cons | PageType::Boxed,
            generation,
            fill,
            run_first,
            ..
        } if generation != collected && generation != SCRATCH_GENERATION && run_first == page =>
            fill,
        Entry::Used { .. } => 0,
    }
}

/// Scans every object of another generation than the one that is collected: all of them are roots
/// of the pass. It puts the start of each weak pointer and table among them into `weak`. It takes no
/// memory.
pub fn scavenge_older(copier: &mut Copier, weak: &mut PinSet)
    ghost a: { NamedHeap }
    requires midway { Midway a (state copier.old) }
    requires note { CanNote a (state copier.old) weak.old }
    ensures scans { Scans a (state copier.old) (state copier.new) }
    ensures others { OthersScanned a (state copier.new) weak.new.listed }
    ensures noting { Notes a (state copier.new) weak.old weak.new }
    ensures notes { SameButMoves copier.old.notes.now copier.new.notes.now }
    ensures same_space { copier.new.space.ghost_name ≡ copier.old.space.ghost_name }
    ensures same_pages { copier.new.pages.ghost_name ≡ copier.old.pages.ghost_name }
    ensures same_marks { copier.new.marks.ghost_name ≡ copier.old.marks.ghost_name }
    ensures same_notes { copier.new.notes.ghost_name ≡ copier.old.notes.ghost_name }
{
    let collected = copier.pass().generation;
    let idle = has_no_page(copier.pages(), collected);
    let reach = reach_of(copier.pages(), collected);
    for page in 0..copier.pages().used_end() {
        let words = root_words(copier.pages().entry(page), page, collected);
        scan_page(copier, weak, page, words, idle, reach);
    }
}
