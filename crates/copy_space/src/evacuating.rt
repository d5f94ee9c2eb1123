//! Evacuation: the word of an object after the pass, for which the object is moved where it has not
//! been met before.

ghost use Rattle.std.specs.Prelude.{◌≡◌, ◌≢◌, ℕ, ◌+◌, ◌*◌, ◌/◌, ◌<◌, ◌≤◌, ◌⊎◌, length, slice_index, slice_set};
ghost use Rattle.heap_terms.specs.declared.cells.Value.{Value};
ghost use Rattle.heap_terms.specs.declared.kinds.Kind.{Kind};
ghost use Rattle.heap_terms.specs.Generations.{is_of as of_generation};
ghost use Rattle.heap_terms.specs.Heap.{NamedHeap, entry_at};
ghost use Rattle.heap_terms.specs.Live.{is_live};
ghost use Rattle.heap_terms.specs.declared.limits.TheConstants.{MOST_WORDS};
ghost use Rattle.word_space.specs.Space.{copied};
ghost use Rattle.copy_space.specs.Copying.{CanEvacuate, CanLookUp, Evacuates, settled_word};
ghost use Rattle.copy_space.specs.Finding.{IsFound, CanSettle, CanSettleHeaded, IsHeaderAt, HasHeader};
ghost use Rattle.copy_space.specs.Midway.{forwarding_word};
ghost use Rattle.copy_space.specs.Notes.{SameButMoves};
ghost use Rattle.copy_space.specs.Settled.{is_settled, IsWordOf};
ghost use Rattle.copy_space.specs.State.{state};
ghost use Rattle.copy_space.specs.Pages.{is_page_of};

use crate::copier::Copier;
use crate::marks::Mark;
use crate::notes::Move;
use crate::placing::place;
use heap_terms::{Entry, Kind, PAGE_WORDS, PageType};
use lisp_words::{Lowtag, page_type, read_header, size_of, tag, untag};
use page_table::PageTable;
use word_space::Space;

/// The word with which the old place of a moved object begins. It is SBCL's; no object begins with
/// it.
const FORWARDING_WORD: u64 = 1;

/// What stands behind a word of a value.
#[derive(Clone, Copy)]
enum Found {
    /// The value is settled, and this is its word after the pass.
    Settled(u64),
    /// The value refers to an object of the pass's generation that has not been met: its index and
    /// the lowtag of the word.
    Unsettled(u32, Lowtag),
}

/// Whether a page is in use and of a generation.
#[inline(always)]
fn is_of(pages: &PageTable, page: u32, generation: u8) -> bool
    requires { page < length pages.now }
    ensures { result ≡ is_page_of (entry_at pages.now page) generation }
{
    match pages.entry(page) {
        Entry::Free => false,
        Entry::Used { generation: of, .. } => of == generation,
    }
}

/// The kind and the words of payload of the object with a header at an index.
fn header_at(space: &Space, index: u32) -> (Kind, u32)
    requires inside { index < length space.now }
    requires header { HasHeader space.now index }
    ensures { (kind : Kind) (n : ℕ) → IsHeaderAt space.now index kind n → result ≡ (kind, n) }
{
    match read_header(space.read(index)) {
        Some(found) => found,
        // It does not come.
        None => (Kind::Words, 0),
    }
}

/// Copies two words.
#[inline(always)]
fn copy_pair(space: &mut Space, from: u32, to: u32)
    requires from_within { from + 2 ≤ length space.old }
    requires to_within { to + 2 ≤ length space.old }
    requires small { length space.old ≤ MOST_WORDS }
    ensures { space.new ≡ copied space.old from to 2 }
{
    let (first, second) = space.read_pair(from);
    space.write_pair(to, first, second);
}

/// Leaves the forwarding word and the word that refers to the copy at an object's old place.
#[inline(always)]
fn forward(space: &mut Space, index: u32, word: u64)
    requires inside { index + 1 < length space.old }
    requires small { length space.old ≤ MOST_WORDS }
    ensures { space.new ≡ slice_set (slice_set space.old index forwarding_word) (index + 1) word }
{
    space.write_pair(index, FORWARDING_WORD, word);
}

impl<'s, 't, 'm, 'p, 'n> Copier<'s, 't, 'm, 'p, 'n> {
    /// The word after the pass of the value that a word stands for. An object of the pass's
    /// generation that is not settled moves now, by the next step of the placement; it stays where it
    /// finds no place. It takes no memory.
    #[inline(always)]
    pub fn evacuate(&mut self, word: u64) -> u64
        ghost a: { NamedHeap }
        requires { CanEvacuate a (state self.old) word }
        ensures evacuates { Evacuates a (state self.old) (state self.new) word result }
        ensures notes { SameButMoves self.old.notes.now self.new.notes.now }
        ensures same_space { self.new.space.ghost_name ≡ self.old.space.ghost_name }
        ensures same_pages { self.new.pages.ghost_name ≡ self.old.pages.ghost_name }
        ensures same_marks { self.new.marks.ghost_name ≡ self.old.marks.ghost_name }
        ensures same_notes { self.new.notes.ghost_name ≡ self.old.notes.ghost_name }
    {
        match self.find(word) {
            Found::Settled(now) => now,
            Found::Unsettled(index, lowtag) => self.settle(index, lowtag, word),
        }
    }

    /// Looks a word up, by the page to which it refers and the mark there.
    #[inline(always)]
    fn find(&self, word: u64) -> Found
        ghost a: { NamedHeap }
        requires { CanLookUp a (state self.now) word }
        ensures { IsFound a (state self.now) word result }
    {
        let Some((index, lowtag)) = untag(word) else {
            return Found::Settled(word);
        };
        if !is_of(self.pages, index / PAGE_WORDS, self.pass.generation) {
            return Found::Settled(word);
        }
        match self.marks.at(index) {
            Mark::Fresh => Found::Unsettled(index, lowtag),
            Mark::Moved => Found::Settled(self.space.read(index + 1)),
            Mark::Pinned | Mark::Stayed => Found::Settled(word),
        }
    }

    /// Moves an object that is not settled.
    #[inline(always)]
    fn settle(&mut self, index: u32, lowtag: Lowtag, word: u64) -> u64
        ghost a: { NamedHeap }
        requires { CanSettle a (state self.old) index lowtag word }
        ensures evacuates { Evacuates a (state self.old) (state self.new) word result }
        ensures notes { SameButMoves self.old.notes.now self.new.notes.now }
        ensures same_space { self.new.space.ghost_name ≡ self.old.space.ghost_name }
        ensures same_pages { self.new.pages.ghost_name ≡ self.old.pages.ghost_name }
        ensures same_marks { self.new.marks.ghost_name ≡ self.old.marks.ghost_name }
        ensures same_notes { self.new.notes.ghost_name ≡ self.old.notes.ghost_name }
    {
        match lowtag {
            Lowtag::List => self.settle_cons(index, word),
            Lowtag::Instance | Lowtag::Function | Lowtag::Other => self.settle_headed(index, word),
        }
    }

    /// Moves a cons.
    #[inline(always)]
    fn settle_cons(&mut self, index: u32, word: u64) -> u64
        ghost a: { NamedHeap }
        requires { CanSettle a (state self.old) index Lowtag.List word }
        ensures evacuates { Evacuates a (state self.old) (state self.new) word result }
        ensures notes { SameButMoves self.old.notes.now self.new.notes.now }
        ensures same_space { self.new.space.ghost_name ≡ self.old.space.ghost_name }
        ensures same_pages { self.new.pages.ghost_name ≡ self.old.pages.ghost_name }
        ensures same_marks { self.new.marks.ghost_name ≡ self.old.marks.ghost_name }
        ensures same_notes { self.new.notes.ghost_name ≡ self.old.notes.ghost_name }
    {
        match place(self.pages, &mut self.in_use, PageType::Cons, 2) {
            Some(to) => {
                let moved = tag(to, Kind::Cons);
                copy_pair(self.space, index, to);
                forward(self.space, index, moved);
                self.marks.set(index, Mark::Moved);
                self.notes.moves.push_reserved(Move {
                    old: index,
                    new: to,
                });
                moved
            }
            None => {
                self.marks.set(index, Mark::Stayed);
                self.notes.moves.push_reserved(Move {
                    old: index,
                    new: index,
                });
                word
            }
        }
    }

    /// Moves an object with a header.
    #[inline(never)]
    fn settle_headed(&mut self, index: u32, word: u64) -> u64
        ghost a: { NamedHeap }
        requires { CanSettleHeaded a (state self.old) index word }
        ensures evacuates { Evacuates a (state self.old) (state self.new) word result }
        ensures notes { SameButMoves self.old.notes.now self.new.notes.now }
        ensures same_space { self.new.space.ghost_name ≡ self.old.space.ghost_name }
        ensures same_pages { self.new.pages.ghost_name ≡ self.old.pages.ghost_name }
        ensures same_marks { self.new.marks.ghost_name ≡ self.old.marks.ghost_name }
        ensures same_notes { self.new.notes.ghost_name ≡ self.old.notes.ghost_name }
    {
        let (kind, n) = header_at(self.space, index);
        let size = size_of(kind, n);
        match place(self.pages, &mut self.in_use, page_type(kind), size) {
            Some(to) => {
                let moved = tag(to, kind);
                self.space.copy(index, to, size);
                forward(self.space, index, moved);
                self.marks.set(index, Mark::Moved);
                self.notes.moves.push_reserved(Move {
                    old: index,
                    new: to,
                });
                moved
            }
            None => {
                self.marks.set(index, Mark::Stayed);
                self.notes.moves.push_reserved(Move {
                    old: index,
                    new: index,
                });
                word
            }
        }
    }

    /// Whether the value that a word stands for is settled: false exactly where it refers to an
    /// object of the pass's generation that is neither pinned nor met. A stay counts as met.
    #[inline(always)]
    pub fn is_placed(&self, word: u64) -> bool
        ghost a: { NamedHeap }
        requires { CanLookUp a (state self.now) word }
        ensures { (v : Value) → IsWordOf a (state self.now) v word → result ≡ is_live (is_settled a (state self.now)) v }
    {
        match self.find(word) {
            Found::Settled(_) => true,
            Found::Unsettled(_, _) => false,
        }
    }

    /// The word after the pass of the value that a word stands for; none where the value is not
    /// settled.
    #[inline(always)]
    pub fn word_now(&self, word: u64) -> Option<u64>
        ghost a: { NamedHeap }
        requires { CanLookUp a (state self.now) word }
        ensures { (v : Value) → IsWordOf a (state self.now) v word → result ≡ settled_word a (state self.now) v }
    {
        match self.find(word) {
            Found::Settled(now) => Some(now),
            Found::Unsettled(_, _) => None,
        }
    }
}
