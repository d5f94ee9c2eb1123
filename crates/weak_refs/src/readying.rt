//! Readying: the sides of pairs that the weakness of their table keeps are settled.

ghost use Rattle.std.specs.Prelude.{◌≡◌, ℕ, ◌*◌, ◌<◌, length, true, false};
ghost use Rattle.heap_terms.specs.Heap.{NamedHeap};
ghost use Rattle.heap_terms.specs.Layout.{weakness_number};
ghost use Rattle.heap_terms.specs.Live.{is_live, KeepsSides};
ghost use Rattle.heap_terms.specs.declared.cells.Value.{Value};
ghost use Rattle.heap_terms.specs.declared.kinds.Weakness.{Weakness};
ghost use Rattle.copy_space.specs.Copying.{CanLookUp};
ghost use Rattle.copy_space.specs.Settled.{is_settled, IsWordOf};
ghost use Rattle.copy_space.specs.State.{state};
ghost use Rattle.scavenge.specs.Fields.{IsSameCopier};
ghost use Rattle.weak_refs.specs.Readying.{AreReady, CanFollow, CanReady, CanReadyAt, CanReadyPair, CanReadyTable, CanSettleSide, HasSameMoves, IsReadyAt, Readies};

use crate::places::kind_at;
use crate::releasing::release;
use crate::tables::{PAIRS, WEAKNESS, pair_count};
use crate::waiting::{SIDES, Waiting};
use copy_space::Copier;
use heap_terms::{Kind, Weakness};
use lisp_words::untag;
use pin_set::PinSet;

/// Settles the sides that the weakness of a table keeps: both of a strong table, the value of a
/// table by key where the key is settled, the key of one by value where the value is, and each side
/// of one by key or value where the other is. A side that is no reference counts as settled. The
/// answer says whether something was settled; where it is false, each pair of each table has what
/// its weakness keeps. `weak` has the starts at which settled weak pointers and tables stand now, and
/// `waiting` was begun in this pass. It takes no memory.
pub fn ready_entries(weak: &PinSet, copier: &mut Copier, waiting: &mut Waiting) -> bool
    ghost a: { NamedHeap }
    requires { CanReady a (state copier.old) weak.now.listed }
    ensures readies { Readies a (state copier.old) (state copier.new) }
    ensures grew { result ≡ true → length (state copier.old).moves < length (state copier.new).moves }
    ensures stayed { result ≡ false → HasSameMoves (state copier.old) (state copier.new) }
    ensures ready { result ≡ false → AreReady a (state copier.new) weak.now.listed (length weak.now.listed) }
    ensures same { IsSameCopier copier.old copier.new }
{
    let before = copier.notes().moves.len();
    let whole = ready_waiting(weak, copier, waiting);
    if copier.notes().moves.len() > before {
        return true;
    }
    if whole {
        return false;
    }
    ready_all(weak, copier, waiting, 0, Look::Forget);
    copier.notes().moves.len() > before
}

/// What is done with a side that is not settled after its pair was looked at.
#[derive(Clone, Copy)]
enum Look {
    /// It waits for its object.
    Wait,
    /// Nothing waits for its object any more.
    Forget,
}

/// Goes through the tables that were listed since the last time, and through the pairs that wait for
/// what was moved since then. The answer says whether these were all tables, and no pair waits: then,
/// where nothing was settled, there is no more to look at.
fn ready_waiting(weak: &PinSet, copier: &mut Copier, waiting: &mut Waiting) -> bool
    ghost a: { NamedHeap }
    requires { CanReady a (state copier.old) weak.now.listed }
    ensures readies { Readies a (state copier.old) (state copier.new) }
    ensures ready { result ≡ true → HasSameMoves (state copier.old) (state copier.new) → AreReady a (state copier.new) weak.now.listed (length weak.now.listed) }
    ensures same { IsSameCopier copier.old copier.new }
{
    let met = waiting.met;
    waiting.met = weak.len();
    ready_all(weak, copier, waiting, met, Look::Wait);
    if waiting.any {
        release(weak, copier, waiting);
        return false;
    }
    met == 0
}

/// Goes through all tables from a number on.
fn ready_all(weak: &PinSet, copier: &mut Copier, waiting: &mut Waiting, from: u32, look: Look)
    ghost a: { NamedHeap }
    requires { CanReady a (state copier.old) weak.now.listed }
    ensures readies { Readies a (state copier.old) (state copier.new) }
    ensures ready { from ≡ 0 → HasSameMoves (state copier.old) (state copier.new) → AreReady a (state copier.new) weak.now.listed (length weak.now.listed) }
    ensures same { IsSameCopier copier.old copier.new }
{
    for i in from..weak.len() {
        ready_at(copier, waiting, look, weak.at(i), i);
    }
}

/// Goes through the pairs of what stands at a start, if it is a table; this is the number of the
/// start.
fn ready_at(copier: &mut Copier, waiting: &mut Waiting, look: Look, start: u32, number: u32)
    ghost a: { NamedHeap }
    requires { CanReadyAt a (state copier.old) start }
    ensures readies { Readies a (state copier.old) (state copier.new) }
    ensures ready { HasSameMoves (state copier.old) (state copier.new) → IsReadyAt a (state copier.new) start }
    ensures same { IsSameCopier copier.old copier.new }
{
    match kind_at(copier.space(), start) {
        Kind::Table => ready_table(copier, waiting, look, start, number),
        _ => {}
    }
}

/// Goes through the pairs of the table at a start.
fn ready_table(copier: &mut Copier, waiting: &mut Waiting, look: Look, start: u32, number: u32)
    ghost a: { NamedHeap }
    requires { CanReadyTable a (state copier.old) start }
    ensures readies { Readies a (state copier.old) (state copier.new) }
    ensures ready { HasSameMoves (state copier.old) (state copier.new) → IsReadyAt a (state copier.new) start }
    ensures same { IsSameCopier copier.old copier.new }
{
    let weakness = weakness_from(copier.space().read(start + WEAKNESS));
    let count = pair_count(copier, start);
    for pair in 0..count {
        let key = copier.space().read(start + PAIRS + 2 * pair);
        let value = copier.space().read(start + PAIRS + 2 * pair + 1);
        if ready_pair(copier, weakness, key, value) {
            let side = number.saturating_mul(SIDES).saturating_add(2 * pair);
            note_pair(copier, waiting, look, weakness, key, value, side);
        }
    }
}

/// Lets the sides of a pair wait that hang on what is not settled, or forgets them. The pair was just
/// looked at, and hangs on a side.
#[inline(never)]
fn note_pair(
    copier: &Copier,
    waiting: &mut Waiting,
    look: Look,
    weakness: Weakness,
    key: u64,
    value: u64,
    side: u32,
)
    ghost a: { NamedHeap }
    requires { CanReadyPair a (state copier.now) weakness key value }
{
    match weakness {
        Weakness::Strong | Weakness::KeyAndValue => {}
        Weakness::Key => note_open(waiting, look, key, side),
        Weakness::Value => note_open(waiting, look, value, side),
        Weakness::KeyOrValue => {
            note_side(copier, waiting, look, key, side);
            note_side(copier, waiting, look, value, side.saturating_add(1));
        }
    }
}

/// Lets a side wait for the object of a word, or forgets what waits for it, if that is not settled.
fn note_side(copier: &Copier, waiting: &mut Waiting, look: Look, word: u64, side: u32)
    ghost a: { NamedHeap }
    requires { CanLookUp a (state copier.now) word }
{
    if !copier.is_placed(word) {
        note_open(waiting, look, word, side);
    }
}

/// The same of a word whose object is not settled.
#[inline(always)]
fn note_open(waiting: &mut Waiting, look: Look, word: u64, side: u32) {
    if let Some((index, _)) = untag(word) {
        match look {
            Look::Wait => waiting.wait(index, side),
            Look::Forget => {
                waiting.take(index);
            }
        }
    }
}

/// The weakness of a table, from the word that stands for it.
pub(crate) fn weakness_from(word: u64) -> Weakness
    ensures { (w : Weakness) → word ≡ 2 * weakness_number w → result ≡ w }
{
    match word {
        0 => Weakness::Strong,
        2 => Weakness::Key,
        4 => Weakness::Value,
        6 => Weakness::KeyAndValue,
        _ => Weakness::KeyOrValue,
    }
}

/// Settles of a pair, given by the words of key and value, what a weakness keeps. The answer says
/// whether the pair hangs on a side that is not settled.
#[inline(always)]
pub(crate) fn ready_pair(copier: &mut Copier, weakness: Weakness, key: u64, value: u64) -> bool
    ghost a: { NamedHeap }
    requires { CanReadyPair a (state copier.old) weakness key value }
    ensures readies { Readies a (state copier.old) (state copier.new) }
    ensures ready { (u v : Value) → IsWordOf a (state copier.old) u key → IsWordOf a (state copier.old) v value → HasSameMoves (state copier.old) (state copier.new) →
        KeepsSides weakness (is_live (is_settled a (state copier.new)) u) (is_live (is_settled a (state copier.new)) v) }
    ensures same { IsSameCopier copier.old copier.new }
{
    match weakness {
        Weakness::Strong => {
            settle_side(copier, key);
            settle_side(copier, value);
            false
        }
        Weakness::Key => follow(copier, key, value),
        Weakness::Value => follow(copier, value, key),
        Weakness::KeyAndValue => false,
        Weakness::KeyOrValue => {
            let key_open = follow(copier, key, value);
            let value_open = follow(copier, value, key);
            key_open | value_open
        }
    }
}

/// Settles a side where another one is settled. The answer says whether it is not.
#[inline(always)]
fn follow(copier: &mut Copier, other: u64, side: u64) -> bool
    ghost a: { NamedHeap }
    requires { CanFollow a (state copier.old) other side }
    ensures readies { Readies a (state copier.old) (state copier.new) }
    ensures ready { (u v : Value) → IsWordOf a (state copier.old) u other → IsWordOf a (state copier.old) v side → HasSameMoves (state copier.old) (state copier.new) →
        is_live (is_settled a (state copier.new)) u ≡ true → is_live (is_settled a (state copier.new)) v ≡ true }
    ensures same { IsSameCopier copier.old copier.new }
{
    if copier.is_placed(other) {
        settle_side(copier, side);
        return false;
    }
    true
}

/// Settles a side. Its word stays the one before the pass until tables are culled.
#[inline(always)]
fn settle_side(copier: &mut Copier, side: u64)
    ghost a: { NamedHeap }
    requires { CanSettleSide a (state copier.old) side }
    ensures readies { Readies a (state copier.old) (state copier.new) }
    ensures settled { (v : Value) → IsWordOf a (state copier.old) v side → is_live (is_settled a (state copier.new)) v ≡ true }
    ensures same { IsSameCopier copier.old copier.new }
{
    if copier.is_placed(side) {
        return;
    }
    settle_fresh(copier, side);
}

/// The same of a side that may not be settled yet.
#[inline(never)]
fn settle_fresh(copier: &mut Copier, side: u64)
    ghost a: { NamedHeap }
    requires { CanSettleSide a (state copier.old) side }
    ensures readies { Readies a (state copier.old) (state copier.new) }
    ensures settled { (v : Value) → IsWordOf a (state copier.old) v side → is_live (is_settled a (state copier.new)) v ≡ true }
    ensures same { IsSameCopier copier.old copier.new }
{
    copier.evacuate(side);
}
