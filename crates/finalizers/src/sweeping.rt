//! The end of a pass: what is registered for dead objects is queued, the rest follows its objects.

ghost use Rattle.std.specs.Prelude.{◌≡◌, ℕ, ◌++◌, List, length, vec_capacity};
ghost use Rattle.heap_terms.specs.declared.cells.Value.{Value};
ghost use Rattle.heap_terms.specs.Heap.{NamedHeap};
ghost use Rattle.copy_space.specs.Copying.{settled_word};
ghost use Rattle.copy_space.specs.Notes.{SameButQueued};
ghost use Rattle.copy_space.specs.Settled.{is_settled, IsWordOf};
ghost use Rattle.copy_space.specs.State.{state};
ghost use Rattle.finalizers.specs.Lists.{registration_at};
ghost use Rattle.finalizers.specs.Sweeping.{CanSweep, CanSweepAt, AreWordsOf, IsSwept, IsSweptAt, HasSameParts, dead_ids};

use crate::lists::{Finalizers, Registration};
use copy_space::Copier;

impl Finalizers {
    /// Each finalizer of an object that is not settled leaves the list, and its number is queued and
    /// noted, in the order of registration. Each other one gets the word that its object has after
    /// the pass. What is settled counts as live: it is of another generation, pinned, moved, or a
    /// stay. It takes no memory.
    pub fn sweep(&mut self, copier: &mut Copier)
        ghost a: { NamedHeap }
        requires { CanSweep a (state copier.old) self.old.registered copier.old.notes.now }
        ensures swept { (list : List (ℕ × ℕ)) → AreWordsOf a (state copier.old) list self.old.registered → IsSwept a (state copier.old) list self.old self.new }
        ensures noted { (list : List (ℕ × ℕ)) → AreWordsOf a (state copier.old) list self.old.registered →
            copier.new.notes.now.queued.items ≡ copier.old.notes.now.queued.items ++ dead_ids (is_settled a (state copier.old)) list }
        ensures same { state copier.new ≡ state copier.old }
        ensures room { vec_capacity copier.new.notes.now.queued ≡ vec_capacity copier.old.notes.now.queued }
        ensures notes { SameButQueued copier.old.notes.now copier.new.notes.now }
        ensures parts { HasSameParts copier.old copier.new }
    {
        let mut kept = 0;
        for i in 0..self.registered.len() {
            kept = sweep_at(&mut self.registered, &mut self.queue, copier, i, kept);
        }
        self.registered.truncate(kept);
    }
}

/// Goes over entry i, where the entries that were kept so far end at `kept`, and says where they end
/// then.
fn sweep_at(
    registered: &mut Vec<Registration>,
    queue: &mut Vec<u32>,
    copier: &mut Copier,
    i: usize,
    kept: usize,
) -> usize
    ghost a: { NamedHeap }
    requires { CanSweepAt a (state copier.old) registered.old queue.old i kept copier.old.notes.now }
    ensures step { (v : Value) → IsWordOf a (state copier.old) v (registration_at registered.old.items i).object →
        IsSweptAt (settled_word a (state copier.old) v) (registration_at registered.old.items i).id kept
        registered.old.items registered.new.items queue.old.items queue.new.items copier.old.notes.now.queued.items copier.new.notes.now.queued.items result }
    ensures registered_room { vec_capacity registered.new ≡ vec_capacity registered.old }
    ensures queue_room { vec_capacity queue.new ≡ vec_capacity queue.old }
    ensures same { state copier.new ≡ state copier.old }
    ensures room { vec_capacity copier.new.notes.now.queued ≡ vec_capacity copier.old.notes.now.queued }
    ensures notes { SameButQueued copier.old.notes.now copier.new.notes.now }
    ensures parts { HasSameParts copier.old copier.new }
{
    let Registration { object, id } = registered[i];
    match copier.word_now(object) {
        Some(now) => {
            registered[kept] = Registration { object: now, id };
            kept + 1
        }
        None => {
            queue.push_reserved(id);
            copier.note_queued(id);
            kept
        }
    }
}
