//! A worker: one thread of a script, from its first step to its last park.

ghost use Rattle.std.specs.Prelude.{◌≡◌, ◌<◌, length, false, MatchOption};
ghost use Rattle.stop_words.specs.Seats.{view_of, threads_of};
ghost use Rattle.thread_scripts.specs.Workers.{IsAt};

use crate::desk::{Desk, Step};
use crate::gate::Gate;
use crate::naming::Naming;
use crate::sections::{collect, section};
use lisp_heap::Parcel;
use std::alloc::Global;
use std::sync::{Mutex, Wait};
use std::thread::yield_now;
use stop_words::{Entry, Place, Resumed, StopSeat, StopWords};

/// What a worker does while it is not parked, up to where it parks. It answers what comes once it
/// runs again: a section or a collection, or nothing where it has parked for the last time.
fn run<N: Naming, R: Wait, G: Gate>(
    rt: &R,
    alloc: Global,
    words: &StopWords<Parcel>,
    desk: &Mutex<Desk<N>>,
    gate: &G,
    seat: &mut StopSeat<Parcel>,
    own: Parcel,
    first: Step,
) -> Step
    requires count { threads_of words.now ≡ length N.program.threads }
    requires seat { IsAt words.now seat.old Place.Outside }
    requires own { own.owner ≡ (view_of seat.old).thread }
    ensures { IsAt words.now seat.new Place.Parked }
{
    let mut own = own;
    let mut step = first;
    for _ in rt.forever() {
        match step {
            Step::Finish | Step::GiveUp => {
                words.park(seat, own);
                return step;
            }
            Step::Collect | Step::Again => {
                match collect(rt, alloc, words, desk, gate, seat, own) {
                    None => return Step::Collect,
                    Some((back, next)) => {
                        own = back;
                        step = next;
                    }
                }
            }
            Step::Leave | Step::Stay => {
                let Entry::Entered = words.enter(seat) else {
                    words.park(seat, own);
                    return step;
                };
                step = section(rt, desk, gate, &mut own);
                if words.leave(seat) {
                    words.park(seat, own);
                    return step;
                }
            }
        }
    }
    unreachable!()
}

/// The whole way of a thread.
pub(crate) fn work<N: Naming, R: Wait, G: Gate>(
    rt: &R,
    alloc: Global,
    words: &StopWords<Parcel>,
    desk: &Mutex<Desk<N>>,
    gate: &G,
    seat: &mut StopSeat<Parcel>,
)
    requires count { threads_of words.now ≡ length N.program.threads }
    requires seat { IsAt words.now seat.old Place.Parked }
{
    let mut step = Step::Leave;
    for _ in rt.forever() {
        match words.resume(seat) {
            Resumed::StillStopped => yield_now(),
            Resumed::Back(own) => step = run(rt, alloc, words, desk, gate, seat, own, step),
        }
        if let Step::Finish | Step::GiveUp = step {
            return;
        }
    }
}
