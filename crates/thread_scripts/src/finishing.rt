//! What is left once all workers have returned, by turns.

ghost use Rattle.std.specs.Prelude.{◌≡◌, OnOk, IfOk, MatchOption};
ghost use Rattle.heap_terms.specs.Complete.{IsComplete};
ghost use Rattle.heap_turns.specs.Parcels.{AreReady};
ghost use Rattle.heap_turns.specs.Turns.{MayGo, NoneInhibits};
ghost use Rattle.thread_scripts.specs.Finished.{AllDone, NoneOut};

use heap_terms::Memory;
use heap_turns::turn;
use lisp_heap::{Parcel, World, put_away_all};

/// Runs a World to its end, each thread as the rules say: a thread that inhibits goes first, since no
/// collection can be made before it allows them.
pub(crate) fn finish(world: World) -> Result<World, Memory>
    ensures program { IfOk result (λ after. after.program ≡ world.program) }
    ensures done { IfOk result AllDone }
    ensures regions { IfOk result NoneOut }
    ensures complete { IfOk result (λ after. IsComplete world.program after.history) }
{
    let (mut world, mut parcels) = world.recall()?;
    let ended = end_all(&mut world, parcels.as_mut_slice());
    put_away_all(parcels);
    ended?;
    // Looked into here, for what a World keeps true.
    let _history = world.history();
    Ok(world)
}

/// Turns of the threads until each has ended.
fn end_all(world: &mut World, parcels: &mut [Parcel]) -> Result<(), Memory>
    requires { AreReady world.old parcels.old }
    ensures program { world.new.program ≡ world.old.program }
    ensures done { OnOk result (AllDone world.new) }
{
    while let Some(t) = who_goes_on(world) {
        // Looked into here: what a World keeps true bounds its history.
        let _history = world.history();
        turn(world, parcels, t)?;
    }
    Ok(())
}

/// The lowest thread that inhibits, and where none does the lowest that has not ended.
fn who_goes_on(world: &World) -> Option<u32>
    ensures { MatchOption result (AllDone world.now) (MayGo world.now) }
{
    match lowest_inhibiting(world) {
        Some(t) => Some(t),
        None => lowest_alive(world),
    }
}

/// The lowest thread that inhibits.
fn lowest_inhibiting(world: &World) -> Option<u32>
    ensures { MatchOption result (NoneInhibits world.now) (MayGo world.now) }
{
    // Looked into here, for what a World keeps true.
    let _history = world.history();
    for t in 0..world.threads() {
        if world.inhibits(t) {
            return Some(t);
        }
    }
    None
}

/// The lowest thread that has not ended, while nobody inhibits.
fn lowest_alive(world: &World) -> Option<u32>
    requires { NoneInhibits world.now }
    ensures { MatchOption result (AllDone world.now) (MayGo world.now) }
{
    // Looked into here, for what a World keeps true.
    let _history = world.history();
    for t in 0..world.threads() {
        if !world.has_ended(t) {
            return Some(t);
        }
    }
    None
}
