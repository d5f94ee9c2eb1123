//! Culling: dead pairs are taken out of tables, and the others close up.

ghost use Rattle.std.specs.Prelude.{◌≡◌, ◌++◌, ℕ, List, ◌∷◌, [], ◌+◌, length, slice_index, vec_capacity};
ghost use Rattle.heap_terms.specs.Heap.{NamedHeap};
ghost use Rattle.heap_terms.specs.declared.cells.Value.{Value};
ghost use Rattle.heap_terms.specs.declared.kinds.Kind.{Kind};
ghost use Rattle.copy_space.specs.CullNotes.{culled_of};
ghost use Rattle.copy_space.specs.Settled.{is_settled, IsWordOf};
ghost use Rattle.copy_space.specs.State.{state};
ghost use Rattle.weak_refs.specs.Culling.{CanCull, CanCullAt, CanCullTable, CanKeepPairs, CanKeepPair, CanClear, ArePairsKept, AreCullsNoted, IsPairKept, IsCleared, SameButCulled};
ghost use Rattle.copy_space.specs.WeakNames.{AreNamed, IsWeakAt};
ghost use Rattle.weak_refs.specs.Rewriting.{AreRewritten, IsRewritten, HasSameParts};
ghost use Rattle.weak_refs.specs.Tables.{IsTableNow};

use crate::breaking::UNBOUND;
use crate::places::{kind_at, place_before};
use crate::tables::{COUNT, PAIRS, pair_count};
use copy_space::{Copier, CullNote};
use heap_terms::Kind;
use pin_set::PinSet;

/// Takes the dead pairs out of each table, and notes each, table by table in the order of the
/// starts, and those of a table in the order of its pairs: where the table was before the pass, and
/// the words of key and value before the pass. The pairs that remain keep their order and close up,
/// and their sides have the words after the pass. `weak` has the starts at which weak pointers and
/// tables stand now; every pair of the tables keeps what its weakness says. Weak pointers stay as
/// they are. It takes no memory.
pub fn cull(weak: &PinSet, copier: &mut Copier)
    ghost a: { NamedHeap }
    requires { CanCull a (state copier.old) weak.now.listed copier.old.notes.now }
    ensures left { AreRewritten a (state copier.old) (state copier.new) Kind.Table weak.now.listed (length weak.now.listed) }
    ensures noted { (names : List ℕ) → AreNamed a (state copier.old) weak.now.listed names →
        copier.new.notes.now.culls.items ≡ copier.old.notes.now.culls.items ++ culled_of a (is_settled a (state copier.old)) names }
    ensures room { vec_capacity copier.new.notes.now.culls ≡ vec_capacity copier.old.notes.now.culls }
    ensures notes { SameButCulled copier.old.notes.now copier.new.notes.now }
    ensures parts { HasSameParts copier.old copier.new }
{
    let mut next = 0;
    for i in 0..weak.len() {
        cull_at(copier, weak.at(i), &mut next);
    }
}

/// Takes the dead pairs out of what stands at a start, if it is a table.
fn cull_at(copier: &mut Copier, start: u32, next: &mut usize)
    ghost a: { NamedHeap }
    requires { CanCullAt a (state copier.old) start copier.old.notes.now }
    ensures left { IsRewritten a (state copier.old) (state copier.new) Kind.Table start }
    ensures noted { (name : ℕ) → IsWeakAt a (state copier.old) name start →
        copier.new.notes.now.culls.items ≡ copier.old.notes.now.culls.items ++ culled_of a (is_settled a (state copier.old)) (name ∷ []) }
    ensures room { vec_capacity copier.new.notes.now.culls ≡ vec_capacity copier.old.notes.now.culls }
    ensures notes { SameButCulled copier.old.notes.now copier.new.notes.now }
    ensures parts { HasSameParts copier.old copier.new }
{
    match kind_at(copier.space(), start) {
        Kind::Table => cull_table(copier, start, next),
        _ => {}
    }
}

/// Takes the dead pairs out of the table at a start.
fn cull_table(copier: &mut Copier, start: u32, next: &mut usize)
    ghost a: { NamedHeap }
    requires { CanCullTable a (state copier.old) start copier.old.notes.now }
    ensures left { IsRewritten a (state copier.old) (state copier.new) Kind.Table start }
    ensures noted { (q : IsTableNow a (state copier.old) start) →
        AreCullsNoted a (state copier.old) start q (length q.pairs) copier.old.notes.now copier.new.notes.now }
    ensures room { vec_capacity copier.new.notes.now.culls ≡ vec_capacity copier.old.notes.now.culls }
    ensures notes { SameButCulled copier.old.notes.now copier.new.notes.now }
    ensures parts { HasSameParts copier.old copier.new }
{
    let place = place_before(copier, start, next);
    let count = pair_count(copier, start);
    let from = start + PAIRS;
    let to = keep_pairs(copier, start, place, count);
    clear(copier, to, from + 2 * count);
    // The word of a fixnum is twice it: as many words as the pairs take.
    copier.write(start + COUNT, u64::from(to - from));
}

/// Goes through the pairs of the table at a start. Those that are kept stand one after the other
/// then; the answer is where they end.
fn keep_pairs(copier: &mut Copier, start: u32, place: u32, count: u32) -> u32
    ghost a: { NamedHeap }
    requires { CanKeepPairs a (state copier.old) start place count copier.old.notes.now }
    ensures kept { (q : IsTableNow a (state copier.old) start) → ArePairsKept a (state copier.old) (state copier.new) start q (length q.pairs) result }
    ensures noted { (q : IsTableNow a (state copier.old) start) →
        AreCullsNoted a (state copier.old) start q (length q.pairs) copier.old.notes.now copier.new.notes.now }
    ensures room { vec_capacity copier.new.notes.now.culls ≡ vec_capacity copier.old.notes.now.culls }
    ensures notes { SameButCulled copier.old.notes.now copier.new.notes.now }
    ensures parts { HasSameParts copier.old copier.new }
{
    let from = start + PAIRS;
    let mut to = from;
    for pair in 0..count {
        to = keep_pair(copier, place, from + 2 * pair, to);
    }
    to
}

/// Puts a pair of which both sides are settled where the next pair goes, and answers where the one
/// after it goes. Notes another pair. In a table in which each pair keeps what its weakness says,
/// these are the pairs that it keeps and those that it does not.
fn keep_pair(copier: &mut Copier, place: u32, at: u32, to: u32) -> u32
    ghost a: { NamedHeap }
    requires { CanKeepPair a (state copier.old) at to copier.old.notes.now }
    ensures kept { (u v : Value) → IsWordOf a (state copier.old) u (slice_index copier.old.space.now at) →
        IsWordOf a (state copier.old) v (slice_index copier.old.space.now (at + 1)) →
        IsPairKept a (state copier.old) (state copier.new) place at to u v result copier.old.notes.now copier.new.notes.now }
    ensures room { vec_capacity copier.new.notes.now.culls ≡ vec_capacity copier.old.notes.now.culls }
    ensures notes { SameButCulled copier.old.notes.now copier.new.notes.now }
    ensures parts { HasSameParts copier.old copier.new }
{
    let key = copier.space().read(at);
    let value = copier.space().read(at + 1);
    match (copier.word_now(key), copier.word_now(value)) {
        (Some(key_now), Some(value_now)) => {
            copier.write(to, key_now);
            copier.write(to + 1, value_now);
            to + 2
        }
        _ => {
            copier.note_cull(CullNote {
                table: place,
                key,
                value,
            });
            to
        }
    }
}

/// Makes a stretch of words unbound.
fn clear(copier: &mut Copier, from: u32, to: u32)
    ghost a: { NamedHeap }
    requires { CanClear a (state copier.old) from to }
    ensures cleared { IsCleared a (state copier.old) (state copier.new) from to }
    ensures room { vec_capacity copier.new.notes.now.culls ≡ vec_capacity copier.old.notes.now.culls }
    ensures culls { copier.new.notes.now.culls ≡ copier.old.notes.now.culls }
    ensures notes { SameButCulled copier.old.notes.now copier.new.notes.now }
    ensures parts { HasSameParts copier.old copier.new }
{
    for index in from..to {
        copier.write(index, UNBOUND);
    }
}
