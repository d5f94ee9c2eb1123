//! Releasing pairs that wait: when an object is settled, the pairs that wait for it are looked at.

ghost use Rattle.std.specs.Prelude.{◌≡◌, length};
ghost use Rattle.heap_terms.specs.Heap.{NamedHeap};
ghost use Rattle.copy_space.specs.State.{state};
ghost use Rattle.scavenge.specs.Fields.{IsSameCopier};
ghost use Rattle.weak_refs.specs.Readying.{CanReady, CanReadyAt, CanReadyTable, Readies};

use crate::places::kind_at;
use crate::readying::{ready_pair, weakness_from};
use crate::tables::{PAIRS, WEAKNESS, pair_count};
use crate::waiting::{SIDES, Waiting};
use copy_space::Copier;
use heap_terms::Kind;
use pin_set::PinSet;

/// Looks at the pairs that wait for an object that was moved since the last time, and at those that
/// wait for what that moves.
pub(crate) fn release(weak: &PinSet, copier: &mut Copier, waiting: &mut Waiting)
    ghost a: { NamedHeap }
    requires { CanReady a (state copier.old) weak.now.listed }
    ensures readies { Readies a (state copier.old) (state copier.new) }
    ensures same { IsSameCopier copier.old copier.new }
{
    let mut moves = waiting.released;
    while (moves as usize) < copier.notes().moves.len() {
        let index = copier.notes().moves[moves as usize].old;
        release_at(weak, copier, waiting, index);
        moves += 1;
    }
    waiting.released = moves;
}

/// Looks at the pairs that wait for the object that was at an index before the pass.
fn release_at(weak: &PinSet, copier: &mut Copier, waiting: &mut Waiting, index: u32)
    ghost a: { NamedHeap }
    requires { CanReady a (state copier.old) weak.now.listed }
    ensures readies { Readies a (state copier.old) (state copier.new) }
    ensures same { IsSameCopier copier.old copier.new }
{
    let mut next = waiting.take(index);
    // A chain has each side once.
    for _ in 0..waiting.sides() {
        if next == 0 {
            return;
        }
        let side = next - 1;
        next = waiting.next(side);
        ready_side(weak, copier, side);
    }
}

/// Looks at the pair of a side, if there is one of its number.
fn ready_side(weak: &PinSet, copier: &mut Copier, side: u32)
    ghost a: { NamedHeap }
    requires { CanReady a (state copier.old) weak.now.listed }
    ensures readies { Readies a (state copier.old) (state copier.new) }
    ensures same { IsSameCopier copier.old copier.new }
{
    let table = side / SIDES;
    if table < weak.len() {
        ready_in(copier, weak.at(table), side % SIDES / 2);
    }
}

/// Looks at a pair of what stands at a start, if it is a table.
fn ready_in(copier: &mut Copier, start: u32, pair: u32)
    ghost a: { NamedHeap }
    requires { CanReadyAt a (state copier.old) start }
    ensures readies { Readies a (state copier.old) (state copier.new) }
    ensures same { IsSameCopier copier.old copier.new }
{
    match kind_at(copier.space(), start) {
        Kind::Table => ready_one(copier, start, pair),
        _ => {}
    }
}

/// Looks at a pair of the table at a start, if it has so many.
fn ready_one(copier: &mut Copier, start: u32, pair: u32)
    ghost a: { NamedHeap }
    requires { CanReadyTable a (state copier.old) start }
    ensures readies { Readies a (state copier.old) (state copier.new) }
    ensures same { IsSameCopier copier.old copier.new }
{
    let count = pair_count(copier, start);
    if pair >= count {
        return;
    }
    let weakness = weakness_from(copier.space().read(start + WEAKNESS));
    let key = copier.space().read(start + PAIRS + 2 * pair);
    let value = copier.space().read(start + PAIRS + 2 * pair + 1);
    ready_pair(copier, weakness, key, value);
}
