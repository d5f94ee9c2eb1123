//! A worker over the public calls alone, for the tests. No function here takes a handle, so none of
//! the calls waits or takes a lock.
ghost use Rattle.std.specs.Prelude.{◌≡◌, ◌≤◌, true, false, [], vec_capacity, IfOk, IfErr, MatchOption, MatchResult};
ghost use Rattle.stop_words.specs.Places.{is_in};
ghost use Rattle.stop_words.specs.Views.{PostedToAll};
ghost use Rattle.stop_words.specs.Seats.{view_of, is_out, IsSeatOf, threads_of};

use crate::{Claim, Entry, NotYet, Place, Resumed, StopSeat, StopWords};
use heap_terms::Owned;

/// One section. The thread parks where a stop is posted to it, and keeps its parcel where not.
pub fn section<P: Owned>(words: &StopWords<P>, seat: &mut StopSeat<P>, parcel: P) -> Option<P>
    requires seat { IsSeatOf seat.old words.now × (is_out seat.old ≡ false) }
    requires place { ((view_of seat.old).place ≡ Place.Outside) × (P.owner_of parcel ≡ (view_of seat.old).thread) }
    ensures seat { IsSeatOf seat.new words.now × (is_out seat.new ≡ false) }
    ensures thread { (view_of seat.new).thread ≡ (view_of seat.old).thread }
    ensures place { MatchOption result ((view_of seat.new).place ≡ Place.Parked) (λ p. ((view_of seat.new).place ≡ Place.Outside) × (P.owner_of p ≡ (view_of seat.new).thread)) }
{
    if let Entry::StopSeen = words.enter(seat) {
        words.park(seat, parcel);
        return None;
    }
    if words.leave(seat) {
        words.park(seat, parcel);
        return None;
    }
    Some(parcel)
}

/// Posts a stop to each other thread.
pub fn post_to_all<P: Owned>(words: &StopWords<P>, seat: &mut StopSeat<P>, threads: u32)
    requires seat { IsSeatOf seat.old words.now × (threads ≡ threads_of words.now) }
    requires place { (view_of seat.old).place ≡ Place.Holding }
    ensures seat { IsSeatOf seat.new words.now × (is_out seat.new ≡ is_out seat.old) }
    ensures place { ((view_of seat.new).thread ≡ (view_of seat.old).thread) × ((view_of seat.new).place ≡ Place.Holding) }
    ensures posted { PostedToAll (view_of seat.new) threads }
{
    let own = seat.thread();
    for other in 0..threads {
        if other != own {
            words.post(seat, other);
        }
    }
}

/// Gathers, and releases at once.
pub fn collect<P: Owned>(
    words: &StopWords<P>,
    seat: &mut StopSeat<P>,
    own: P,
    into: Vec<P>,
) -> Result<(P, Vec<P>), NotYet<P>>
    requires seat { IsSeatOf seat.old words.now × (is_out seat.old ≡ false) }
    requires place { ((view_of seat.old).place ≡ Place.Holding) × PostedToAll (view_of seat.old) (threads_of words.now) }
    requires own { P.owner_of own ≡ (view_of seat.old).thread }
    requires room { (into.items ≡ []) × (threads_of words.now ≤ vec_capacity into) }
    ensures seat { IsSeatOf seat.new words.now × (is_out seat.new ≡ false) }
    ensures thread { (view_of seat.new).thread ≡ (view_of seat.old).thread }
    ensures place { MatchResult result (λ _. (view_of seat.new).place ≡ Place.Outside) (λ _. (view_of seat.new).place ≡ Place.Holding) }
    ensures posted { IfErr result (λ _. (view_of seat.new).posted ≡ (view_of seat.old).posted) }
    ensures given { MatchResult result (λ r. (P.owner_of r.0 ≡ (view_of seat.old).thread) × (r.1.items ≡ []) × (threads_of words.now ≤ vec_capacity r.1)) (λ e. (P.owner_of e.own ≡ (view_of seat.old).thread) × (e.into.items ≡ []) × (threads_of words.now ≤ vec_capacity e.into)) }
{
    let gathered = words.gather(seat, own, into)?;
    Ok(words.release(seat, gathered))
}

/// A parked thread runs a section and then tries to stop all others. It ends parked, or holding the
/// turn.
pub fn work<P: Owned>(
    words: &StopWords<P>,
    seat: &mut StopSeat<P>,
    into: Vec<P>,
    threads: u32,
) -> Result<Vec<P>, NotYet<P>>
    requires seat { IsSeatOf seat.old words.now × (is_out seat.old ≡ false) × (threads ≡ threads_of words.now) }
    requires place { (view_of seat.old).place ≡ Place.Parked }
    requires room { (into.items ≡ []) × (threads_of words.now ≤ vec_capacity into) }
    ensures seat { IsSeatOf seat.new words.now × (is_out seat.new ≡ false) }
    ensures place { MatchResult result (λ _. (view_of seat.new).place ≡ Place.Parked) (λ _. (view_of seat.new).place ≡ Place.Holding) }
    ensures room { IfOk result (λ into. (into.items ≡ []) × (threads_of words.now ≤ vec_capacity into)) }
{
    let parcel = match words.resume(seat) {
        Resumed::Back(parcel) => parcel,
        Resumed::StillStopped => return Ok(into),
    };
    let parcel = match section(words, seat, parcel) {
        Some(parcel) => parcel,
        None => return Ok(into),
    };
    if let Claim::Taken(_) = words.claim(seat) {
        words.park(seat, parcel);
        return Ok(into);
    }
    post_to_all(words, seat, threads);
    let (own, into) = collect(words, seat, parcel, into)?;
    words.park(seat, own);
    Ok(into)
}
