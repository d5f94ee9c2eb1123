//! Breaking weak pointers.

ghost use Rattle.std.specs.Prelude.{◌≡◌, ◌++◌, ℕ, List, ◌∷◌, [], length, vec_capacity};
ghost use Rattle.heap_terms.specs.Heap.{NamedHeap};
ghost use Rattle.heap_terms.specs.declared.kinds.Kind.{Kind};
ghost use Rattle.copy_space.specs.CullNotes.{broken_of};
ghost use Rattle.copy_space.specs.Settled.{is_settled};
ghost use Rattle.copy_space.specs.State.{state};
ghost use Rattle.weak_refs.specs.Breaking.{CanBreak, CanBreakAt, CanBreakPointer, IsPointerNow, IsPointerLeft, SameButBroken};
ghost use Rattle.copy_space.specs.WeakNames.{AreNamed, IsWeakAt};
ghost use Rattle.weak_refs.specs.Rewriting.{AreRewritten, IsRewritten, HasSameParts};

use crate::places::{kind_at, place_before};
use copy_space::Copier;
use heap_terms::Kind;
use pin_set::PinSet;

/// The word of the value Unbound, to which a broken weak pointer points.
pub(crate) const UNBOUND: u64 = 0x51;

/// Breaks each weak pointer of which the value is not settled, and notes where it was before the
/// pass, in the order of the starts. Every other one gets the word that its value has after the
/// pass. `weak` has the starts at which weak pointers and tables stand now. Tables stay as they are.
/// It takes no memory.
pub fn break_dead(weak: &PinSet, copier: &mut Copier)
    ghost a: { NamedHeap }
    requires { CanBreak a (state copier.old) weak.now.listed copier.old.notes.now }
    ensures left { AreRewritten a (state copier.old) (state copier.new) Kind.Weak weak.now.listed (length weak.now.listed) }
    ensures noted { (names : List ℕ) → AreNamed a (state copier.old) weak.now.listed names →
        copier.new.notes.now.breaks.items ≡ copier.old.notes.now.breaks.items ++ broken_of a (is_settled a (state copier.old)) names }
    ensures room { vec_capacity copier.new.notes.now.breaks ≡ vec_capacity copier.old.notes.now.breaks }
    ensures notes { SameButBroken copier.old.notes.now copier.new.notes.now }
    ensures parts { HasSameParts copier.old copier.new }
{
    let mut next = 0;
    for i in 0..weak.len() {
        break_at(copier, weak.at(i), &mut next);
    }
}

/// Breaks what stands at a start, if it is a weak pointer to what is not settled.
fn break_at(copier: &mut Copier, start: u32, next: &mut usize)
    ghost a: { NamedHeap }
    requires { CanBreakAt a (state copier.old) start copier.old.notes.now }
    ensures left { IsRewritten a (state copier.old) (state copier.new) Kind.Weak start }
    ensures noted { (name : ℕ) → IsWeakAt a (state copier.old) name start →
        copier.new.notes.now.breaks.items ≡ copier.old.notes.now.breaks.items ++ broken_of a (is_settled a (state copier.old)) (name ∷ []) }
    ensures room { vec_capacity copier.new.notes.now.breaks ≡ vec_capacity copier.old.notes.now.breaks }
    ensures notes { SameButBroken copier.old.notes.now copier.new.notes.now }
    ensures parts { HasSameParts copier.old copier.new }
{
    match kind_at(copier.space(), start) {
        Kind::Weak => break_pointer(copier, start, next),
        _ => {}
    }
}

/// Breaks the weak pointer at a start where its value is not settled, else gives it the word of its
/// value after the pass.
fn break_pointer(copier: &mut Copier, start: u32, next: &mut usize)
    ghost a: { NamedHeap }
    requires { CanBreakPointer a (state copier.old) start copier.old.notes.now }
    ensures left { (q : IsPointerNow a (state copier.old) start) →
        IsPointerLeft a (state copier.old) (state copier.new) start q.o.place q.v copier.old.notes.now copier.new.notes.now }
    ensures room { vec_capacity copier.new.notes.now.breaks ≡ vec_capacity copier.old.notes.now.breaks }
    ensures notes { SameButBroken copier.old.notes.now copier.new.notes.now }
    ensures parts { HasSameParts copier.old copier.new }
{
    let word = copier.space().read(start + 1);
    match copier.word_now(word) {
        Some(now) => copier.write(start + 1, now),
        None => {
            let place = place_before(copier, start, next);
            copier.write(start + 1, UNBOUND);
            copier.note_break(place);
        }
    }
}
