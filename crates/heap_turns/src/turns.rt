//! One event of one thread inside its section, by what it does next. Each function answers whether
//! the section goes on.

ghost use Rattle.std.specs.Prelude.{◌≡◌, ℕ, ◌<◌, length, false, OnErr, OnOk, IfOk};
ghost use Rattle.heap_terms.specs.declared.kinds.Kind.{Kind};
ghost use Rattle.heap_terms.specs.declared.pages.Next.{Next};
ghost use Rattle.heap_terms.specs.Phases.{collects, is_over};
ghost use Rattle.lisp_heap.specs.Agreement.{Agrees, CanBuild, OthersAgree};
ghost use Rattle.lisp_heap.specs.View.{heap_of, next_of};
ghost use Rattle.lisp_heap.specs.Events.{Happens};
ghost use Rattle.heap_turns.specs.Parcels.{AreReady};
ghost use Rattle.heap_turns.specs.Turns.{HappensInside, MayGo};

use crate::collections::collect_alone;
use heap_terms::{Kind, Memory, Next, Owned};
use lisp_heap::{Lent, Parcel, World};

/// One event of the parcel's owner, which has not ended and for which no collection is due. For
/// want of memory the World is as it was.
#[inline(always)]
pub fn event(world: &mut World, parcel: &mut Parcel) -> Result<bool, Memory>
    requires thread { parcel.old.owner < length world.old.program.threads }
    requires agrees { Agrees (heap_of world.old) parcel.old }
    requires free { collects (next_of world.old parcel.old.owner) ≡ false }
    requires alive { is_over (next_of world.old parcel.old.owner) ≡ false }
    ensures ok { IfOk result (HappensInside parcel.old.owner world.old world.new) }
    ensures agrees { Agrees (heap_of world.new) parcel.new }
    ensures others { OthersAgree (heap_of world.old) (heap_of world.new) parcel.old.owner }
    ensures owner { parcel.new.owner ≡ parcel.old.owner }
    ensures err { OnErr result (world.new ≡ world.old) }
{
    match world.next(parcel.owner()) {
        Next::Simple => perform(world, parcel),
        Next::Open => lend(world, parcel),
        Next::Build { kind, n, seed } => commit(world, parcel, kind, n, seed),
        Next::End => end(world, parcel),
        Next::Collect(_) | Next::Done => unreachable!(),
    }
}

/// The event of a thread whose next command allocates nothing.
fn perform(world: &mut World, parcel: &mut Parcel) -> Result<bool, Memory>
    requires thread { parcel.old.owner < length world.old.program.threads }
    requires agrees { Agrees (heap_of world.old) parcel.old }
    requires simple { next_of world.old parcel.old.owner ≡ Next.Simple }
    ensures ok { IfOk result (HappensInside parcel.old.owner world.old world.new) }
    ensures agrees { Agrees (heap_of world.new) parcel.new }
    ensures others { OthersAgree (heap_of world.old) (heap_of world.new) parcel.old.owner }
    ensures owner { parcel.new.owner ≡ parcel.old.owner }
    ensures err { OnErr result (world.new ≡ world.old) }
{
    let t = parcel.owner();
    world.perform(t)?;
    Ok(world.inhibits(t))
}

/// The event of a thread that needs a region for its next object.
#[cold]
#[inline(never)]
fn lend(world: &mut World, parcel: &mut Parcel) -> Result<bool, Memory>
    requires thread { parcel.old.owner < length world.old.program.threads }
    requires agrees { Agrees (heap_of world.old) parcel.old }
    requires opens { next_of world.old parcel.old.owner ≡ Next.Open }
    ensures ok { IfOk result (HappensInside parcel.old.owner world.old world.new) }
    ensures agrees { Agrees (heap_of world.new) parcel.new }
    ensures others { OthersAgree (heap_of world.old) (heap_of world.new) parcel.old.owner }
    ensures owner { parcel.new.owner ≡ parcel.old.owner }
    ensures err { OnErr result (world.new ≡ world.old) }
{
    match world.lend(parcel)? {
        Lent::Opened => Ok(true),
        Lent::Exhausted => Ok(world.inhibits(parcel.owner())),
    }
}

/// The event of a thread whose regions have room for its next object.
fn commit(
    world: &mut World,
    parcel: &mut Parcel,
    kind: Kind,
    n: u32,
    seed: u64,
) -> Result<bool, Memory>
    requires thread { parcel.old.owner < length world.old.program.threads }
    requires agrees { Agrees (heap_of world.old) parcel.old }
    requires builds { next_of world.old parcel.old.owner ≡ Next.Build kind n seed }
    requires room { CanBuild (Next.Build kind n seed) parcel.old }
    ensures ok { IfOk result (HappensInside parcel.old.owner world.old world.new) }
    ensures agrees { Agrees (heap_of world.new) parcel.new }
    ensures others { OthersAgree (heap_of world.old) (heap_of world.new) parcel.old.owner }
    ensures owner { parcel.new.owner ≡ parcel.old.owner }
    ensures err { OnErr result (world.new ≡ world.old) }
{
    parcel.build(kind, n, seed);
    let _name = world.commit(parcel)?;
    Ok(world.inhibits(parcel.owner()))
}

/// The event of a thread that has no command left.
#[cold]
#[inline(never)]
fn end(world: &mut World, parcel: &mut Parcel) -> Result<bool, Memory>
    requires thread { parcel.old.owner < length world.old.program.threads }
    requires agrees { Agrees (heap_of world.old) parcel.old }
    requires ends { next_of world.old parcel.old.owner ≡ Next.End }
    ensures ok { IfOk result (HappensInside parcel.old.owner world.old world.new) }
    ensures agrees { Agrees (heap_of world.new) parcel.new }
    ensures others { OthersAgree (heap_of world.old) (heap_of world.new) parcel.old.owner }
    ensures owner { parcel.new.owner ≡ parcel.old.owner }
    ensures err { OnErr result (world.new ≡ world.old) }
{
    world.end(parcel)?;
    Ok(world.inhibits(parcel.owner()))
}

/// One event of thread t, which may go on: its collection where one is due, and else an event inside
/// its section. For want of memory the World is as it was.
pub fn turn(world: &mut World, parcels: &mut [Parcel], t: u32) -> Result<(), Memory>
    requires ready { AreReady world.old parcels.old }
    requires goes { MayGo world.old t }
    ensures ok { OnOk result (Happens t world.old world.new) }
    ensures ready { AreReady world.new parcels.new }
    ensures err { OnErr result (world.new ≡ world.old) }
{
    if world.is_due(t) {
        return collect_alone(world, t, parcels);
    }
    let _stays = event(world, &mut parcels[t as usize])?;
    Ok(())
}
