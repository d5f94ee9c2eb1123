//! The copier: what one pass works on.

ghost use Rattle.std.specs.Prelude.{◌≡◌, ℕ, ◌+◌, ◌*◌, ◌<◌, ◌≤◌, [], ◌∷◌, ◌++◌, length, vec_len, vec_capacity, slice_set, IfSome};
ghost use Rattle.heap_terms.specs.Heap.{NamedHeap};
ghost use Rattle.copy_space.specs.Copying.{CanBegin};
ghost use Rattle.copy_space.specs.Midway.{Midway};
ghost use Rattle.copy_space.specs.Notes.{SameButMoves, SameButCulls, SameButBreaks, SameButQueued};
ghost use Rattle.copy_space.specs.State.{state, none_in_use};

use crate::marks::{Mark, Marks, mark_starts};
use crate::notes::{CullNote, Pass, PassNotes};
use crate::placing::PagesInUse;
use heap_terms::MOST_PAGES;
use page_table::PageTable;
use pin_set::PinSet;
use word_space::Space;

/// The parts of a heap while one pass moves its objects, and the notes of the pass. When it is let go
/// they are as it left them.
#[derive(Drop)]
pub struct Copier<'s, 't, 'm, 'p, 'n> {
    pub(crate) space: &'s mut Space,
    pub(crate) pages: &'t mut PageTable,
    pub(crate) marks: &'m mut Marks,
    pub(crate) pins: &'p PinSet,
    pub(crate) notes: &'n mut PassNotes,
    pub(crate) pass: Pass,
    pub(crate) in_use: PagesInUse,
}

impl<'s, 't, 'm, 'p, 'n> Copier<'s, 't, 'm, 'p, 'n> {
    /// The copier at the start of a pass. It marks the pinned objects.
    pub fn new(
        space: &'s mut Space,
        pages: &'t mut PageTable,
        marks: &'m mut Marks,
        pins: &'p PinSet,
        pass: Pass,
        notes: &'n mut PassNotes,
    ) -> Copier<'s, 't, 'm, 'p, 'n>
        ghost a: { NamedHeap }
        requires begins { CanBegin a space.old pages.old marks.old pins.now.listed pass.generation (vec_capacity notes.old.moves) }
        requires unmoved { notes.old.moves.items ≡ [] }
        ensures midway { Midway a (state result) }
        ensures starts { state result ≡ record { words = space.old; pages = pages.old; marks = result.marks.now; pins = pins.now.listed; pass = pass; moves = []; room = vec_capacity notes.old.moves; in_use = none_in_use } }
        ensures notes { result.notes.now ≡ notes.old }
        ensures same_space { result.space.ghost_name ≡ space.entry.ghost_name }
        ensures same_pages { result.pages.ghost_name ≡ pages.entry.ghost_name }
        ensures same_marks { result.marks.ghost_name ≡ marks.entry.ghost_name }
        ensures same_notes { result.notes.ghost_name ≡ notes.entry.ghost_name }
    {
        prove!(pages.len() <= MOST_PAGES);
        mark_starts(marks, pins, Mark::Pinned);
        Copier {
            space,
            pages,
            marks,
            pins,
            notes,
            pass,
            in_use: PagesInUse::none(),
        }
    }

    /// The words.
    pub fn space(&self) -> &Space
        ensures { result.now ≡ self.now.space.now }
    {
        self.space
    }

    /// The pages.
    pub fn pages(&self) -> &PageTable
        ensures { result.now ≡ self.now.pages.now }
    {
        self.pages
    }

    /// The pinned starts.
    pub fn pins(&self) -> &PinSet
        ensures { result.now ≡ self.now.pins.now }
    {
        self.pins
    }

    /// The notes so far.
    pub fn notes(&self) -> &PassNotes
        ensures { result.now ≡ self.now.notes.now }
    {
        self.notes
    }

    /// The pass.
    pub fn pass(&self) -> Pass
        ensures { result ≡ self.now.pass }
    {
        self.pass
    }

    /// Writes a word. Nothing else changes.
    #[inline(always)]
    pub fn write(&mut self, index: u32, word: u64)
        requires { index < length self.old.space.now }
        ensures words { state self.new ≡ record (state self.old) { words = slice_set self.old.space.now index word } }
        ensures notes { SameButMoves self.old.notes.now self.new.notes.now }
        ensures same_space { self.new.space.ghost_name ≡ self.old.space.ghost_name }
        ensures same_pages { self.new.pages.ghost_name ≡ self.old.pages.ghost_name }
        ensures same_marks { self.new.marks.ghost_name ≡ self.old.marks.ghost_name }
        ensures same_notes { self.new.notes.ghost_name ≡ self.old.notes.ghost_name }
    {
        self.space.write(index, word);
    }

    /// Notes a pair that is taken out of a table.
    pub fn note_cull(&mut self, note: CullNote)
        requires { vec_len self.old.notes.now.culls < vec_capacity self.old.notes.now.culls }
        ensures same { state self.new ≡ state self.old }
        ensures noted { self.new.notes.now.culls.items ≡ self.old.notes.now.culls.items ++ note ∷ [] }
        ensures room { vec_capacity self.new.notes.now.culls ≡ vec_capacity self.old.notes.now.culls }
        ensures others { SameButCulls self.old.notes.now self.new.notes.now }
        ensures same_space { self.new.space.ghost_name ≡ self.old.space.ghost_name }
        ensures same_pages { self.new.pages.ghost_name ≡ self.old.pages.ghost_name }
        ensures same_marks { self.new.marks.ghost_name ≡ self.old.marks.ghost_name }
        ensures same_notes { self.new.notes.ghost_name ≡ self.old.notes.ghost_name }
    {
        self.notes.culls.push_reserved(note);
    }

    /// Notes where a weak pointer is that is broken.
    pub fn note_break(&mut self, start: u32)
        requires { vec_len self.old.notes.now.breaks < vec_capacity self.old.notes.now.breaks }
        ensures same { state self.new ≡ state self.old }
        ensures noted { self.new.notes.now.breaks.items ≡ self.old.notes.now.breaks.items ++ start ∷ [] }
        ensures room { vec_capacity self.new.notes.now.breaks ≡ vec_capacity self.old.notes.now.breaks }
        ensures others { SameButBreaks self.old.notes.now self.new.notes.now }
        ensures same_space { self.new.space.ghost_name ≡ self.old.space.ghost_name }
        ensures same_pages { self.new.pages.ghost_name ≡ self.old.pages.ghost_name }
        ensures same_marks { self.new.marks.ghost_name ≡ self.old.marks.ghost_name }
        ensures same_notes { self.new.notes.ghost_name ≡ self.old.notes.ghost_name }
    {
        self.notes.breaks.push_reserved(start);
    }

    /// Notes the number of a finalizer that is queued.
    pub fn note_queued(&mut self, id: u32)
        requires { vec_len self.old.notes.now.queued < vec_capacity self.old.notes.now.queued }
        ensures same { state self.new ≡ state self.old }
        ensures noted { self.new.notes.now.queued.items ≡ self.old.notes.now.queued.items ++ id ∷ [] }
        ensures room { vec_capacity self.new.notes.now.queued ≡ vec_capacity self.old.notes.now.queued }
        ensures others { SameButQueued self.old.notes.now self.new.notes.now }
        ensures same_space { self.new.space.ghost_name ≡ self.old.space.ghost_name }
        ensures same_pages { self.new.pages.ghost_name ≡ self.old.pages.ghost_name }
        ensures same_marks { self.new.marks.ghost_name ≡ self.old.marks.ghost_name }
        ensures same_notes { self.new.notes.ghost_name ≡ self.old.notes.ghost_name }
    {
        self.notes.queued.push_reserved(id);
    }
}
