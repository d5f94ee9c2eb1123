//! What the holder of the turn does once it has posted to all: it gathers the parcels, and releases
//! the threads.
ghost use Rattle.std.specs.Prelude.{◌≡◌, ◌≢◌, ◌⊎◌, ℕ, ◌+◌, ◌-◌, ◌<◌, ◌≤◌, List, [], ◌∷◌, ◌++◌, suc, true, false, None, Some, Option, map, reverse, length, slice_get, is_ok, vec_len, vec_capacity, MatchOption, IfOk, IfErr, OnOk};
ghost use Rattle.heap_terms.specs.WordMachine.{has};
ghost use Rattle.stop_words.specs.Places.{is_in};
ghost use Rattle.stop_words.specs.Hands.{labels, labelled, lying};
ghost use Rattle.stop_words.specs.Owners.{ByOwner, numbers_from};
ghost use Rattle.stop_words.specs.Views.{view_after, PostedToAll, SeenAll};
ghost use Rattle.stop_words.specs.Gathers.{OnlyLooked, AllSeen, Unseen, PutBack, GaveBack};

use crate::rule::{Releases, Returns};
use crate::seats::{StopSeat, StopWords};
use crate::steps::word_index;
use crate::view::{Place, View};
use atomic_table::Seat;
use heap_terms::{Owned, WordStep};
use pseudo_atomic::STOP;

/// The parcels of all threads, by owner, while the other threads are parked.
///
/// It has no `Drop`: `release` takes it back.
pub struct Gathered<P> {
    pub(crate) parcels: Vec<P>,
}

/// A thread has not parked yet. The parcel and the list come back as they were.
#[derive(Drop)]
pub struct NotYet<P> {
    /// The lowest other thread that was not found parked.
    pub thread: u32,
    /// The parcel that was handed in.
    pub own: P,
    /// The list that was handed in, empty.
    pub into: Vec<P>,
}

impl<P: Owned> StopWords<P> {
    ghost use Rattle.stop_words.specs.Seats.{view_of, is_out, IsSeatOf, Did, threads_of};
    ghost use Rattle.stop_words.specs.Looks.{LookedOver};
    ghost use Rattle.stop_words.specs.Seats.{parcels_of};

    /// Looks at the threads of a range, in ascending order, up to the first that has not parked.
    fn look_range(&self, seat: &mut StopSeat<P>, from: u32, to: u32) -> Option<u32>
        requires seat { IsSeatOf seat.old self.now }
        requires holder { ((view_of seat.old).place ≡ Place.Holding) × PostedToAll (view_of seat.old) (threads_of self.now) }
        requires range { (from ≤ to) × (to ≤ threads_of self.now) × ((to ≤ (view_of seat.old).thread) ⊎ ((view_of seat.old).thread < from)) }
        ensures seat { IsSeatOf seat.new self.now × (is_out seat.new ≡ is_out seat.old) }
        ensures looked { LookedOver from to (view_of seat.old) (view_of seat.new) result }
    {
        for other in from..to {
            if !self.look(seat, other) {
                return Some(other);
            }
        }
        None
    }

    /// Looks at all other threads, in ascending order, up to the first that has not parked.
    fn look_at_all(&self, seat: &mut StopSeat<P>) -> Option<u32>
        requires seat { IsSeatOf seat.old self.now }
        requires holder { ((view_of seat.old).place ≡ Place.Holding) × PostedToAll (view_of seat.old) (threads_of self.now) }
        ensures seat { IsSeatOf seat.new self.now × (is_out seat.new ≡ is_out seat.old) }
        ensures looked { MatchOption result (AllSeen (threads_of self.now) (view_of seat.old) (view_of seat.new)) (λ u. Unseen (threads_of self.now) u (view_of seat.old) (view_of seat.new)) }
    {
        let (thread, threads) = (seat.thread, self.threads);
        match self.look_range(seat, 0, thread) {
            Some(other) => Some(other),
            None => self.look_range(seat, thread + 1, threads),
        }
    }

    /// Takes the parcels out of the slots of a range, which come first in the hand. Those slots are
    /// last then.
    fn take_range(&self, seat: &mut Seat<Option<P>, View>, into: &mut Vec<P>, from: u32, to: u32)
        requires table { seat.old.table_id ≡ self.now.table.shared.table_id }
        requires range { from ≤ to }
        requires hand { (tail : List (ℕ × Option ℕ)) × (labels P.owner_of seat.old.me.1 ≡ labelled (lying false) from (to - from) ++ tail) }
        requires room { vec_len into.old + (to - from) ≤ vec_capacity into.old }
        ensures seat { (seat.new.table_id ≡ seat.old.table_id) × (seat.new.me.0 ≡ seat.old.me.0) }
        ensures hand { (tail : List (ℕ × Option ℕ)) → labels P.owner_of seat.old.me.1 ≡ labelled (lying false) from (to - from) ++ tail → labels P.owner_of seat.new.me.1 ≡ tail ++ labelled (lying true) from (to - from) }
        ensures parcels { (more : List P) × (into.new.items ≡ into.old.items ++ more) × (map P.owner_of more ≡ numbers_from from (to - from)) }
        ensures room { (vec_len into.new ≡ vec_len into.old + (to - from)) × (vec_capacity into.new ≡ vec_capacity into.old) }
    {
        let shared = &self.table.shared;
        for slot in from..to {
            let parcel = shared.exchange(seat, slot as usize, None);
            into.push_reserved(parcel.unwrap());
            seat.turn();
        }
    }

    /// Takes all parcels out of the slots, the own one among them.
    fn take_all(
        &self,
        seat: &mut Seat<Option<P>, View>,
        thread: u32,
        own: P,
        mut into: Vec<P>,
    ) -> Vec<P>
        requires table { seat.old.table_id ≡ self.now.table.shared.table_id }
        requires thread { thread < threads_of self.now }
        requires own { P.owner_of own ≡ thread }
        requires hand { labels P.owner_of seat.old.me.1 ≡ (thread, None) ∷ (labelled (lying false) 0 thread ++ labelled (lying false) (thread + 1) (threads_of self.now - (thread + 1))) }
        requires room { (into.items ≡ []) × (threads_of self.now ≤ vec_capacity into) }
        ensures seat { (seat.new.table_id ≡ seat.old.table_id) × (seat.new.me.0 ≡ seat.old.me.0) }
        ensures hand { labels P.owner_of seat.new.me.1 ≡ (thread, None) ∷ (labelled (lying true) 0 thread ++ labelled (lying true) (thread + 1) (threads_of self.now - (thread + 1))) }
        ensures parcels { ByOwner P.owner_of (threads_of self.now) result.items }
        ensures own { slice_get result.items thread ≡ Some own }
    {
        let threads = self.threads;
        seat.turn();
        self.take_range(seat, &mut into, 0, thread);
        into.push_reserved(own);
        self.take_range(seat, &mut into, thread + 1, threads);
        into
    }

    /// Puts a parcel into the slot of its thread, which comes first in the hand, and takes back the
    /// thread's stop.
    fn put_back(&self, seat: &mut Seat<Option<P>, View>, slot: u32, parcel: P)
        requires table { seat.old.table_id ≡ self.now.table.shared.table_id }
        requires slot { (slot < threads_of self.now) × (P.owner_of parcel ≡ slot) }
        requires holder { (seat.old.me.0.place ≡ Place.Holding) × (is_in slot seat.old.me.0.seen ≡ true) }
        requires hand { (tail : List (ℕ × Option ℕ)) × (labels P.owner_of seat.old.me.1 ≡ (slot, None) ∷ tail) }
        ensures table { seat.new.table_id ≡ seat.old.table_id }
        ensures step { seat.new.me.0 ≡ view_after (WordStep.Release slot) 6 seat.old.me.0 }
        ensures hand { (tail : List (ℕ × Option ℕ)) → labels P.owner_of seat.old.me.1 ≡ (slot, None) ∷ tail → labels P.owner_of seat.new.me.1 ≡ tail }
    {
        let shared = &self.table.shared;
        let word = word_index(slot);
        let before = shared.exchange(seat, slot as usize, Some(parcel));
        let None = before else { unreachable!() };
        shared.fetch_and::<Releases<P>>(seat, word, !STOP);
    }

    /// Puts the parcels of a range of threads back, whose slots come first in the hand, and takes
    /// their stops back.
    fn put_range(&self, seat: &mut Seat<Option<P>, View>, parcels: &mut Vec<P>, from: u32, to: u32)
        requires table { seat.old.table_id ≡ self.now.table.shared.table_id }
        requires range { (from ≤ to) × (to ≤ threads_of self.now) }
        requires holder { (seat.old.me.0.place ≡ Place.Holding) × ((u : ℕ) → from ≤ u → u < to → is_in u seat.old.me.0.seen ≡ true) }
        requires hand { (tail : List (ℕ × Option ℕ)) × (labels P.owner_of seat.old.me.1 ≡ labelled (lying true) from (to - from) ++ tail) }
        requires parcels { (more : List ℕ) × (reverse (map P.owner_of parcels.old.items) ≡ numbers_from from (to - from) ++ more) }
        ensures table { seat.new.table_id ≡ seat.old.table_id }
        ensures steps { PutBack from to seat.old.me.0 seat.new.me.0 }
        ensures hand { (tail : List (ℕ × Option ℕ)) → labels P.owner_of seat.old.me.1 ≡ labelled (lying true) from (to - from) ++ tail → labels P.owner_of seat.new.me.1 ≡ tail }
        ensures parcels { (more : List ℕ) → reverse (map P.owner_of parcels.old.items) ≡ numbers_from from (to - from) ++ more → reverse (map P.owner_of parcels.new.items) ≡ more }
        ensures put { (put : List P) × (parcels.old.items ≡ parcels.new.items ++ put) × (length put ≡ to - from) }
        ensures room { vec_capacity parcels.new ≡ vec_capacity parcels.old }
    {
        for slot in from..to {
            let parcel = parcels.pop().unwrap();
            self.put_back(seat, slot, parcel);
        }
    }

    /// Puts all parcels but the own one back, takes the stops of the other threads back, and gives
    /// the turn back.
    fn put_all(
        &self,
        seat: &mut Seat<Option<P>, View>,
        thread: u32,
        mut parcels: Vec<P>,
    ) -> (P, Vec<P>)
        requires table { seat.old.table_id ≡ self.now.table.shared.table_id }
        requires thread { (thread < threads_of self.now) × (seat.old.me.0.thread ≡ thread) }
        requires holder { (seat.old.me.0.place ≡ Place.Holding) × SeenAll seat.old.me.0 (threads_of self.now) }
        requires hand { labels P.owner_of seat.old.me.1 ≡ (thread, None) ∷ (labelled (lying true) 0 thread ++ labelled (lying true) (thread + 1) (threads_of self.now - (thread + 1))) }
        requires parcels { ByOwner P.owner_of (threads_of self.now) parcels.items }
        ensures table { seat.new.table_id ≡ seat.old.table_id }
        ensures steps { GaveBack (threads_of self.now) seat.old.me.0 seat.new.me.0 }
        ensures hand { labels P.owner_of seat.new.me.1 ≡ (thread, None) ∷ [] }
        ensures own { P.owner_of result.0 ≡ thread }
        ensures parcel { slice_get parcels.items thread ≡ Some result.0 }
        ensures room { (result.1.items ≡ []) × (threads_of self.now ≤ vec_capacity result.1) }
    {
        let threads = self.threads;
        parcels.reverse();
        seat.turn();
        self.put_range(seat, &mut parcels, 0, thread);
        let own = parcels.pop().unwrap();
        self.put_range(seat, &mut parcels, thread + 1, threads);
        self.table.shared.swap::<Returns<P>>(seat, 0, 0);
        (own, parcels)
    }

    /// Gathers the parcels of all threads, once each other thread has parked.
    ///
    /// The seat holds the turn, has posted to all others, and has no `Gathered` out. `own` is the
    /// parcel of the seat's thread, and `into` is empty, with room for all parcels. It looks at the
    /// words of the other threads in ascending order, with one load each, up to the first that has
    /// not parked: this one is told by `NotYet`. It takes no memory and does not wait.
    pub fn gather(
        &self,
        seat: &mut StopSeat<P>,
        own: P,
        into: Vec<P>,
    ) -> Result<Gathered<P>, NotYet<P>>
        requires seat { IsSeatOf seat.old self.now }
        requires holder { ((view_of seat.old).place ≡ Place.Holding) × PostedToAll (view_of seat.old) (threads_of self.now) }
        requires none_out { is_out seat.old ≡ false }
        requires own { P.owner_of own ≡ (view_of seat.old).thread }
        requires room { (into.items ≡ []) × (threads_of self.now ≤ vec_capacity into) }
        ensures seat { IsSeatOf seat.new self.now }
        ensures out { is_out seat.new ≡ is_ok result }
        ensures seen { OnOk result (AllSeen (threads_of self.now) (view_of seat.old) (view_of seat.new)) }
        ensures parcels { IfOk result (λ gathered. ByOwner P.owner_of (threads_of self.now) (parcels_of gathered)) }
        ensures own { IfOk result (λ gathered. slice_get (parcels_of gathered) (view_of seat.old).thread ≡ Some own) }
        ensures not_yet { IfErr result (λ early. Unseen (threads_of self.now) early.thread (view_of seat.old) (view_of seat.new)) }
        ensures returned { IfErr result (λ early. (early.own ≡ own) × (early.into.items ≡ []) × (threads_of self.now ≤ vec_capacity early.into)) }
    {
        let thread = seat.thread;
        if let Some(thread) = self.look_at_all(seat) {
            return Err(NotYet { thread, own, into });
        }
        let parcels = self.take_all(&mut seat.seat, thread, own, into);
        seat.out = true;
        Ok(Gathered { parcels })
    }

    /// Puts the parcels of all other threads back, takes their stops back, in ascending order, and
    /// gives the turn back.
    ///
    /// The seat holds the turn, has seen all others parked, and has a `Gathered` out, in which the
    /// i-th parcel belongs to thread i. It answers the parcel at the own place, and the empty list,
    /// which still has room for all parcels. It takes no memory and does not wait.
    pub fn release(&self, seat: &mut StopSeat<P>, gathered: Gathered<P>) -> (P, Vec<P>)
        requires seat { IsSeatOf seat.old self.now }
        requires holder { ((view_of seat.old).place ≡ Place.Holding) × SeenAll (view_of seat.old) (threads_of self.now) }
        requires out { is_out seat.old ≡ true }
        requires parcels { ByOwner P.owner_of (threads_of self.now) (parcels_of gathered) }
        ensures seat { IsSeatOf seat.new self.now × (is_out seat.new ≡ false) }
        ensures steps { GaveBack (threads_of self.now) (view_of seat.old) (view_of seat.new) }
        ensures own { P.owner_of result.0 ≡ (view_of seat.old).thread }
        ensures parcel { slice_get (parcels_of gathered) (view_of seat.old).thread ≡ Some result.0 }
        ensures room { (result.1.items ≡ []) × (threads_of self.now ≤ vec_capacity result.1) }
    {
        let thread = seat.thread;
        let Gathered { parcels } = gathered;
        let given = self.put_all(&mut seat.seat, thread, parcels);
        seat.out = false;
        given
    }
}

impl<P> Gathered<P> {
    ghost use Rattle.std.specs.Borrow.{sem};
    ghost use Rattle.stop_words.specs.Lending.{LendsParcels};

    /// The parcels, the i-th that of thread i. The thread that gathered them may change them in
    /// place.
    pub fn parcels(&mut self) -> &mut [P]
        ensures* writes_back { sem 𝓛 (LendsParcels P.row self.entry result) }
        ensures value { result.now ≡ self.old.parcels.items }
    {
        self.parcels.as_mut_slice()
    }
}
