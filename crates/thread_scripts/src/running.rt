//! A whole run of a program on threads.

ghost use Rattle.std.specs.Prelude.{◌≡◌, ◌≤◌, [], length, All, IfOk, vec_len, vec_capacity};
ghost use Rattle.heap_terms.specs.Complete.{IsComplete};
ghost use Rattle.heap_terms.specs.Valid.{IsValid};
ghost use Rattle.lisp_heap.specs.Agreement.{AreFresh};
ghost use Rattle.stop_words.specs.Seats.{threads_of};
ghost use Rattle.thread_scripts.specs.Finished.{AllDone, NoneOut};
ghost use Rattle.thread_scripts.specs.Workers.{IsAt};

use crate::desk::Desk;
use crate::finishing::finish;
use crate::gate::Gate;
use crate::naming::Naming;
use crate::workers::work;
use heap_terms::{Memory, Program};
use lisp_heap::{Parcel, World, put_away_all};
use std::alloc::Global;
use std::marker::Brand;
use std::sync::{Mutex, Wait};
use std::thread::{Threads, for_each_mut};
use stop_words::{NoTable, Place, StopSeat, StopWords};

/// Runs a valid program on threads, one worker for each thread of the script: where a thread cannot
/// be started its worker runs in the caller's. The order of the events is the order in which the
/// workers get the heap's one lock. What is left once all workers have returned is done by turns.
///
/// It may wait. Where it returns, and memory did not run out, every thread has ended, no region is
/// out, and the history is complete.
pub fn run_threads<R: Threads + Wait + Sync, G: Gate>(
    rt: &R,
    alloc: Global,
    program: Program,
    gate: &G,
) -> Result<World, Memory>
    requires { IsValid program }
    ensures program { IfOk result (λ world. world.program ≡ program) }
    ensures done { IfOk result AllDone }
    ensures regions { IfOk result NoneOut }
    ensures complete { IfOk result (λ world. IsComplete program world.history) }
{
    run_named::<Brand, R, G>(rt, alloc, program, gate)
}

/// The same of the program of a name.
fn run_named<N: Naming + Send, R: Threads + Wait + Sync, G: Gate>(
    rt: &R,
    alloc: Global,
    program: Program,
    gate: &G,
) -> Result<World, Memory>
    requires valid { IsValid program }
    requires named { program ≡ N.program }
    ensures program { IfOk result (λ world. world.program ≡ program) }
    ensures done { IfOk result AllDone }
    ensures regions { IfOk result NoneOut }
    ensures complete { IfOk result (λ world. IsComplete program world.history) }
{
    let (world, parcels) = World::new(alloc, program)?;
    let world = run_workers::<N, R, G>(rt, alloc, world, parcels, gate)?;
    finish(world)
}

/// All workers, from the first step of the first to the return of the last.
fn run_workers<N: Naming + Send, R: Threads + Wait + Sync, G: Gate>(
    rt: &R,
    alloc: Global,
    world: World,
    parcels: Vec<Parcel>,
    gate: &G,
) -> Result<World, Memory>
    requires valid { IsValid N.program }
    requires named { world.program ≡ N.program }
    requires parcels { AreFresh parcels.items (length N.program.threads) }
    ensures { IfOk result (λ world. world.program ≡ N.program) }
{
    let Ok(back) = Vec::with_capacity(alloc, parcels.len()) else {
        put_away_all(parcels);
        return Err(Memory);
    };
    match StopWords::new(alloc, parcels) {
        Ok((words, mut seats)) => {
            let desk = Mutex::new(Desk::<N>::new(world));
            run_all(rt, alloc, &words, &desk, gate, seats.as_mut_slice());
            put_away_all(words.close(back));
            desk.into_inner().into_world()
        }
        Err(NoTable { parcels }) => {
            put_away_all(parcels);
            put_away_all(back);
            Err(Memory)
        }
    }
}

/// Runs the worker of each seat, and waits for all of them.
fn run_all<N: Naming + Send, R: Threads + Wait + Sync, G: Gate>(
    rt: &R,
    alloc: Global,
    words: &StopWords<Parcel>,
    desk: &Mutex<Desk<N>>,
    gate: &G,
    seats: &mut [StopSeat<Parcel>],
)
    requires count { threads_of words.now ≡ length N.program.threads }
    requires seats { All (λ seat. IsAt words.now seat Place.Parked) seats.old }
{
    let threads = seats.len().max(1);
    for_each_mut(
        rt,
        seats,
        threads,
        &|_: usize, seat: &mut StopSeat<Parcel>|
            requires count { threads_of words.now ≡ length N.program.threads }
            requires seat { IsAt words.now seat.now Place.Parked }
        { work(rt, alloc, words, desk, gate, seat) },
    );
}
