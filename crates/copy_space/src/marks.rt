//! What a pass knows of each double word at which an object of its generation begins.

ghost use Rattle.std.specs.Prelude.{◌≡◌, ℕ, ◌+◌, ◌*◌, ◌/◌, ◌<◌, ◌≤◌, length, replicate, slice_index_or, slice_set, IfOk, All, ◌%◌, if◌then◌else◌, nat_eq};
ghost use Rattle.std.specs.List.{list_any};
ghost use Rattle.heap_terms.specs.declared.limits.TheConstants.{MOST_PAGES};
ghost use Rattle.copy_space.specs.declared.marks.Mark.TheVariants.{Fresh};
ghost use Rattle.copy_space.specs.declared.notes.Move.{Move as Moved};
ghost use Rattle.copy_space.specs.Clearing.{IsDoubleWord, AreMarks};
ghost use Rattle.copy_space.specs.Moved.{has_move};
ghost use Rattle.copy_space.specs.Marks.{mark_at};

use crate::notes::Move;
use heap_terms::{Memory, PAGE_WORDS};
use pin_set::PinSet;
use std::alloc::Global;
use std::marker::Model;

/// What a pass has done so far with the object that begins at a double word.
#[derive(Clone, Copy, Debug, PartialEq, Eq)]
pub enum Mark {
    /// Nothing, or no object of the pass's generation begins there.
    Fresh,
    /// The object is pinned: it stays where it is, whatever happens.
    Pinned,
    /// The object was to move and found no place.
    Stayed,
    /// The object has moved, and left a forwarding word.
    Moved,
}

/// A mark for each double word of a space. Contracts see the list of the marks.
#[derive(Drop)]
pub struct Marks {
    marks: Vec<Mark>,
}

impl Model for Marks {
    ghost use Rattle.std.specs.Prelude.{List};
    ghost use Rattle.copy_space.specs.declared.marks.Mark.{Mark};

    ghost Value = { List Mark };

    ghost view = { λ m. m.marks.items };
}

impl Marks {
    /// The marks of a space of 1 to 1,024 pages, all fresh. It is refused only for want of memory.
    pub fn new(alloc: Global, pages: u32) -> Result<Marks, Memory>
        requires { pages ≤ MOST_PAGES }
        ensures { IfOk result (λ marks. marks ≡ replicate (256 * pages) Fresh) }
    {
        let mut marks = Vec::new(alloc);
        match marks.resize((PAGE_WORDS / 2 * pages) as usize, Mark::Fresh) {
            Ok(()) => Ok(Marks { marks }),
            Err(_) => Err(Memory),
        }
    }

    /// The mark of the double word of an index.
    #[inline(always)]
    pub fn at(&self, index: u32) -> Mark
        requires { index / 2 < length self.now }
        ensures { result ≡ mark_at self.now index }
    {
        self.marks[(index / 2) as usize]
    }

    /// Marks the double word of an index. Every other mark stays.
    #[inline(always)]
    pub fn set(&mut self, index: u32, mark: Mark)
        requires { index / 2 < length self.old }
        ensures { self.new ≡ slice_set self.old (index / 2) mark }
    {
        self.marks[(index / 2) as usize] = mark;
    }
}

/// Gives the double words of some starts a mark. Every other mark stays.
pub(crate) fn mark_starts(marks: &mut Marks, starts: &PinSet, mark: Mark)
    requires { All (IsDoubleWord (length marks.old)) starts.now.listed }
    ensures marked { (i : ℕ) → mark_at marks.new (2 * i) ≡ (if list_any (nat_eq (2 * i)) starts.now.listed then mark else mark_at marks.old (2 * i)) }
    ensures long { length marks.new ≡ length marks.old }
{
    for i in 0..starts.len() {
        marks.set(starts.at(i), mark);
    }
}

/// Clears the marks of moved objects and of stays. Every other mark stays.
fn clear_moves(marks: &mut Marks, moves: &[Move])
    requires { All (λ (m : Moved). IsDoubleWord (length marks.old) m.old) moves.now }
    ensures marked { (i : ℕ) → mark_at marks.new (2 * i) ≡ (if has_move moves.now (2 * i) then Fresh else mark_at marks.old (2 * i)) }
    ensures long { length marks.new ≡ length marks.old }
{
    for m in moves {
        marks.set(m.old, Mark::Fresh);
    }
}

/// Clears the marks after a pass, by its pins and its moves: then all are fresh again, and another
/// pass may use them.
pub fn clear_marks(marks: &mut Marks, pins: &PinSet, moves: &[Move])
    requires { AreMarks marks.old pins.now.listed moves.now }
    ensures { marks.new ≡ replicate (length marks.old) Fresh }
{
    mark_starts(marks, pins, Mark::Fresh);
    clear_moves(marks, moves);
}
