//! The sections of a worker: its events, and its collections.

ghost use Rattle.std.specs.Prelude.{◌≡◌, ◌<◌, ◌≤◌, [], length, true, false, vec_capacity, MatchOption};
ghost use Rattle.stop_words.specs.Owners.{ByOwner};
ghost use Rattle.stop_words.specs.Seats.{view_of, is_out, IsSeatOf, threads_of, parcels_of};
ghost use Rattle.stop_words.specs.Views.{PostedToAll};
ghost use Rattle.thread_scripts.specs.Workers.{IsAt, HasTaken};

use crate::desk::{Desk, Step};
use crate::gate::{Gate, GatePlace};
use crate::naming::Naming;
use heap_terms::Owned;
use lisp_heap::Parcel;
use std::alloc::Global;
use std::sync::{Mutex, Wait};
use std::thread::yield_now;
use stop_words::{Claim, Gathered, NotYet, Place, StopSeat, StopWords};

/// The events of one section, up to where it is to be left.
#[inline(always)]
pub(crate) fn section<N: Naming, R: Wait, G: Gate>(
    rt: &R,
    desk: &Mutex<Desk<N>>,
    gate: &G,
    parcel: &mut Parcel,
) -> Step
    requires { parcel.old.owner < length N.program.threads }
    ensures { parcel.new.owner ≡ parcel.old.owner }
{
    let t = parcel.owner();
    for _ in rt.forever() {
        gate.at(t, GatePlace::Inside);
        match desk.lock(rt).event(parcel) {
            Step::Again => yield_now(),
            Step::Stay => gate.at(t, GatePlace::After),
            Step::GiveUp => return Step::GiveUp,
            step => {
                gate.at(t, GatePlace::After);
                return step;
            }
        }
    }
    unreachable!()
}

/// Posts a stop to each other thread.
fn post_to_all(words: &StopWords<Parcel>, seat: &mut StopSeat<Parcel>, threads: u32)
    requires seat { IsAt words.now seat.old Place.Holding }
    requires threads { threads ≡ threads_of words.now }
    ensures seat { IsAt words.now seat.new Place.Holding }
    ensures thread { (view_of seat.new).thread ≡ (view_of seat.old).thread }
    ensures posted { PostedToAll (view_of seat.new) threads }
{
    let own = seat.thread();
    for other in 0..threads {
        if other != own {
            words.post(seat, other);
        }
    }
}

/// Gathers the parcels of all threads, as soon as each other thread has parked.
fn gather<R: Wait>(
    rt: &R,
    words: &StopWords<Parcel>,
    seat: &mut StopSeat<Parcel>,
    own: Parcel,
    into: Vec<Parcel>,
) -> Gathered<Parcel>
    requires seat { IsAt words.now seat.old Place.Holding }
    requires posted { PostedToAll (view_of seat.old) (threads_of words.now) }
    requires own { own.owner ≡ (view_of seat.old).thread }
    requires room { (into.items ≡ []) × (threads_of words.now ≤ vec_capacity into) }
    ensures taken { HasTaken words.now seat.new result }
    ensures thread { (view_of seat.new).thread ≡ (view_of seat.old).thread }
{
    let mut hand = (own, into);
    for _ in rt.forever() {
        match words.gather(seat, hand.0, hand.1) {
            Ok(gathered) => return gathered,
            Err(NotYet { own, into, .. }) => hand = (own, into),
        }
        yield_now();
    }
    unreachable!()
}

/// The holder of the turn stops all other threads and makes the collection that is due for it.
fn collect_all<N: Naming, R: Wait>(
    rt: &R,
    words: &StopWords<Parcel>,
    desk: &Mutex<Desk<N>>,
    seat: &mut StopSeat<Parcel>,
    own: Parcel,
    into: Vec<Parcel>,
) -> (Parcel, Step)
    requires count { threads_of words.now ≡ length N.program.threads }
    requires seat { IsAt words.now seat.old Place.Holding }
    requires own { own.owner ≡ (view_of seat.old).thread }
    requires room { (into.items ≡ []) × (threads_of words.now ≤ vec_capacity into) }
    ensures seat { IsAt words.now seat.new Place.Outside }
    ensures thread { (view_of seat.new).thread ≡ (view_of seat.old).thread }
    ensures own { result.0.owner ≡ (view_of seat.old).thread }
{
    let t = seat.thread();
    let threads = words.threads();
    post_to_all(words, seat, threads);
    let mut gathered = gather(rt, words, seat, own, into);
    let step = desk.lock(rt).collect(t, gathered.parcels());
    let (own, into) = words.release(seat, gathered);
    into.destroy_empty();
    (own, step)
}

/// What a worker does for a collection that is due for its thread. `None` where it has parked, since
/// another thread collects.
pub(crate) fn collect<N: Naming, R: Wait, G: Gate>(
    rt: &R,
    alloc: Global,
    words: &StopWords<Parcel>,
    desk: &Mutex<Desk<N>>,
    gate: &G,
    seat: &mut StopSeat<Parcel>,
    own: Parcel,
) -> Option<(Parcel, Step)>
    requires count { threads_of words.now ≡ length N.program.threads }
    requires seat { IsAt words.now seat.old Place.Outside }
    requires own { own.owner ≡ (view_of seat.old).thread }
    ensures seat { MatchOption result (IsAt words.now seat.new Place.Parked) (λ r. IsAt words.now seat.new Place.Outside) }
    ensures own { MatchOption result (threads_of words.now ≡ length N.program.threads) (λ r. r.0.owner ≡ (view_of seat.new).thread) }
{
    // The list is made before the turn is claimed, so that want of memory never meets a thread that
    // has stopped the others.
    let Ok(into) = Vec::with_capacity(alloc, words.threads() as usize) else {
        desk.lock(rt).give_up();
        return Some((own, Step::GiveUp));
    };
    let Claim::Claimed = words.claim(seat) else {
        into.destroy_empty();
        words.park(seat, own);
        return None;
    };
    let (own, step) = collect_all(rt, words, desk, seat, own, into);
    gate.at(seat.thread(), GatePlace::After);
    Some((own, step))
}
