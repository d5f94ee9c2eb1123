//! The steps of a thread on its own word and on the turn.
ghost use Rattle.std.specs.Prelude.{◌≡◌, ◌≢◌, ◌+◌, ◌<◌, ◌≤◌, [], ◌∷◌, suc, true, None, MatchOption};
ghost use Rattle.heap_terms.specs.WordMachine.{answer};
ghost use Rattle.stop_words.specs.Places.{is_in};
ghost use Rattle.stop_words.specs.Views.{view_after};
ghost use Rattle.stop_words.specs.Hands.{labels};
ghost use Rattle.stop_words.specs.Plays.{IsWordAt, IsWord};

use crate::replies::{Claim, Entry, Resumed};
use crate::rule::{Claims, Enters, Leaves, Looks, Parks, Posts, Resumes};
use crate::seats::{StopSeat, StopWords};
use crate::view::{Place, View};
use atomic_table::Seat;
use heap_terms::{Owned, WordStep};
use pseudo_atomic::{INSIDE, PARKED, STOP};

/// The number of a thread's word.
pub(crate) fn word_index(thread: u32) -> usize
    ensures { result ≡ suc thread }
{
    thread as usize + 1
}

impl<P: Owned> StopWords<P> {
    ghost use Rattle.stop_words.specs.Seats.{view_of, is_out, IsSeatOf, Did, threads_of};
    ghost use Rattle.stop_words.specs.Replies.{entry_of, claim_of, is_stop, is_inside, is_done, after_resume, after_enter, after_claim, Answers};

    /// Runs again after having been parked, unless a stop stands in the thread's own word.
    ///
    /// It is one compare and exchange on that word. It takes no memory and does not wait.
    pub fn resume(&self, seat: &mut StopSeat<P>) -> Resumed<P>
        requires seat { IsSeatOf seat.old self.now }
        requires place { (view_of seat.old).place ≡ Place.Parked }
        ensures seat { IsSeatOf seat.new self.now × (is_out seat.new ≡ is_out seat.old) }
        ensures place { ((view_of seat.new).thread ≡ (view_of seat.old).thread) × ((view_of seat.new).place ≡ after_resume result) }
        ensures step { Did WordStep.Resume seat.old seat.new }
        ensures word { IsWordAt Place.Parked (view_of seat.new).found }
        ensures answer { Answers P.owner_of (view_of seat.new) result }
    {
        let thread = seat.thread;
        match self.come_back(&mut seat.seat, thread) {
            Some(parcel) => Resumed::Back(parcel),
            None => Resumed::StillStopped,
        }
    }

    /// The step of `resume`, and the parcel out of the slot.
    fn come_back(&self, seat: &mut Seat<Option<P>, View>, thread: u32) -> Option<P>
        requires table { seat.old.table_id ≡ self.now.table.shared.table_id }
        requires number { (seat.old.me.0.thread ≡ thread) × (thread < threads_of self.now) }
        requires place { (seat.old.me.0.place ≡ Place.Parked) × (seat.old.me.1 ≡ []) }
        ensures table { seat.new.table_id ≡ seat.old.table_id }
        ensures step { seat.new.me.0 ≡ view_after WordStep.Resume seat.new.me.0.found seat.old.me.0 }
        ensures word { IsWordAt Place.Parked seat.new.me.0.found }
        ensures answer { MatchOption result ((seat.new.me.0.found ≢ 4) × (seat.new.me.1 ≡ [])) (λ p. (seat.new.me.0.found ≡ 4) × (P.owner_of p ≡ thread) × (labels P.owner_of seat.new.me.1 ≡ (thread, None) ∷ [])) }
    {
        let shared = &self.table.shared;
        let word = word_index(thread);
        let found = shared.compare_exchange::<Resumes<P>>(seat, word, PARKED, 0);
        if found == PARKED {
            shared.exchange(seat, thread as usize, None)
        } else {
            None
        }
    }

    /// Enters a section, unless a stop stands in the thread's own word.
    ///
    /// It is one compare and exchange on that word. It takes no memory and does not wait.
    pub fn enter(&self, seat: &mut StopSeat<P>) -> Entry
        requires seat { IsSeatOf seat.old self.now }
        requires place { (view_of seat.old).place ≡ Place.Outside }
        ensures seat { IsSeatOf seat.new self.now × (is_out seat.new ≡ is_out seat.old) }
        ensures place { ((view_of seat.new).thread ≡ (view_of seat.old).thread) × ((view_of seat.new).place ≡ after_enter result) }
        ensures step { Did WordStep.Enter seat.old seat.new }
        ensures word { IsWordAt Place.Outside (view_of seat.new).found }
        ensures answer { result ≡ entry_of (answer WordStep.Enter (view_of seat.new).found) }
    {
        let word = word_index(seat.thread);
        let found = self
            .table
            .shared
            .compare_exchange::<Enters<P>>(&mut seat.seat, word, 0, INSIDE);
        if found == 0 {
            Entry::Entered
        } else {
            Entry::StopSeen
        }
    }

    /// Leaves the section, and tells whether a stop was posted to this thread.
    ///
    /// It is one atomic "and" on the thread's own word. It takes no memory and does not wait.
    pub fn leave(&self, seat: &mut StopSeat<P>) -> bool
        requires seat { IsSeatOf seat.old self.now }
        requires place { (view_of seat.old).place ≡ Place.Inside }
        ensures seat { IsSeatOf seat.new self.now × (is_out seat.new ≡ is_out seat.old) }
        ensures place { ((view_of seat.new).thread ≡ (view_of seat.old).thread) × ((view_of seat.new).place ≡ Place.Outside) }
        ensures step { Did WordStep.Leave seat.old seat.new }
        ensures word { IsWordAt Place.Inside (view_of seat.new).found }
        ensures answer { result ≡ is_stop (answer WordStep.Leave (view_of seat.new).found) }
    {
        let word = word_index(seat.thread);
        let found = self
            .table
            .shared
            .fetch_and::<Leaves<P>>(&mut seat.seat, word, !INSIDE);
        found & STOP != 0
    }

    /// Parks, and leaves the parcel in the thread's slot. The last park of a thread is its finish.
    ///
    /// It is one atomic "or" on the thread's own word. It takes no memory and does not wait.
    pub fn park(&self, seat: &mut StopSeat<P>, parcel: P)
        requires seat { IsSeatOf seat.old self.now }
        requires place { (view_of seat.old).place ≡ Place.Outside }
        requires owner { P.owner_of parcel ≡ (view_of seat.old).thread }
        ensures seat { IsSeatOf seat.new self.now × (is_out seat.new ≡ is_out seat.old) }
        ensures place { ((view_of seat.new).thread ≡ (view_of seat.old).thread) × ((view_of seat.new).place ≡ Place.Parked) }
        ensures step { Did WordStep.Park seat.old seat.new }
        ensures word { IsWordAt Place.Outside (view_of seat.new).found }
    {
        let thread = seat.thread;
        self.lie_down(&mut seat.seat, thread, parcel);
    }

    /// The parcel into the slot, and the step of `park`.
    fn lie_down(&self, seat: &mut Seat<Option<P>, View>, thread: u32, parcel: P)
        requires table { seat.old.table_id ≡ self.now.table.shared.table_id }
        requires number { (seat.old.me.0.thread ≡ thread) × (thread < threads_of self.now) }
        requires place { (seat.old.me.0.place ≡ Place.Outside) × (labels P.owner_of seat.old.me.1 ≡ (thread, None) ∷ []) }
        requires owner { P.owner_of parcel ≡ thread }
        ensures table { seat.new.table_id ≡ seat.old.table_id }
        ensures step { seat.new.me.0 ≡ view_after WordStep.Park seat.new.me.0.found seat.old.me.0 }
        ensures word { IsWordAt Place.Outside seat.new.me.0.found }
        ensures hand { seat.new.me.1 ≡ [] }
    {
        let shared = &self.table.shared;
        let word = word_index(thread);
        let before = shared.exchange(seat, thread as usize, Some(parcel));
        let None = before else { unreachable!() };
        shared.fetch_or::<Parks<P>>(seat, word, PARKED);
    }

    /// Claims the turn to collect, unless another thread holds it.
    ///
    /// It is one compare and exchange on the turn. It takes no memory and does not wait.
    pub fn claim(&self, seat: &mut StopSeat<P>) -> Claim
        requires seat { IsSeatOf seat.old self.now }
        requires place { (view_of seat.old).place ≡ Place.Outside }
        ensures seat { IsSeatOf seat.new self.now × (is_out seat.new ≡ is_out seat.old) }
        ensures place { ((view_of seat.new).thread ≡ (view_of seat.old).thread) × ((view_of seat.new).place ≡ after_claim result) }
        ensures step { Did WordStep.Claim seat.old seat.new }
        ensures word { ((view_of seat.new).found ≤ threads_of self.now) × ((view_of seat.new).found ≢ suc (view_of seat.old).thread) }
        ensures answer { result ≡ claim_of (answer WordStep.Claim (view_of seat.new).found) }
    {
        let turn = seat.thread as u64 + 1;
        let found = self
            .table
            .shared
            .compare_exchange::<Claims<P>>(&mut seat.seat, 0, 0, turn);
        if found == 0 {
            Claim::Claimed
        } else {
            Claim::Taken((found - 1) as u32)
        }
    }

    /// Posts a stop to another thread, and tells whether that thread is inside a section.
    ///
    /// It is one atomic "or" on the other thread's word. It takes no memory and does not wait.
    pub fn post(&self, seat: &mut StopSeat<P>, other: u32) -> bool
        requires seat { IsSeatOf seat.old self.now }
        requires place { (view_of seat.old).place ≡ Place.Holding }
        requires other { (other < threads_of self.now) × (other ≢ (view_of seat.old).thread) }
        ensures seat { IsSeatOf seat.new self.now × (is_out seat.new ≡ is_out seat.old) }
        ensures place { ((view_of seat.new).thread ≡ (view_of seat.old).thread) × ((view_of seat.new).place ≡ Place.Holding) }
        ensures posted { (view_of seat.new).posted ≡ other ∷ (view_of seat.old).posted }
        ensures step { Did (WordStep.Post other) seat.old seat.new }
        ensures word { IsWord (view_of seat.new).found }
        ensures answer { result ≡ is_inside (answer (WordStep.Post other) (view_of seat.new).found) }
    {
        let word = word_index(other);
        let found = self
            .table
            .shared
            .fetch_or::<Posts<P>>(&mut seat.seat, word, STOP);
        found & INSIDE != 0
    }

    /// Looks whether another thread, to which a stop was posted, has parked.
    ///
    /// It is one load of the other thread's word. It takes no memory and does not wait. From a look
    /// that found the thread parked until its stop is taken back the thread stays parked, and its
    /// parcel is with the holder.
    pub fn look(&self, seat: &mut StopSeat<P>, other: u32) -> bool
        requires seat { IsSeatOf seat.old self.now }
        requires place { (view_of seat.old).place ≡ Place.Holding }
        requires other { (other < threads_of self.now) × (is_in other (view_of seat.old).posted ≡ true) }
        ensures seat { IsSeatOf seat.new self.now × (is_out seat.new ≡ is_out seat.old) }
        ensures place { ((view_of seat.new).thread ≡ (view_of seat.old).thread) × ((view_of seat.new).place ≡ Place.Holding) }
        ensures posted { (view_of seat.new).posted ≡ (view_of seat.old).posted }
        ensures seen { result ≡ true → is_in other (view_of seat.new).seen ≡ true }
        ensures step { Did (WordStep.Look other) seat.old seat.new }
        ensures word { IsWord (view_of seat.new).found }
        ensures answer { result ≡ is_done (answer (WordStep.Look other) (view_of seat.new).found) }
    {
        let word = word_index(other);
        let found = self.table.shared.load::<Looks<P>>(&mut seat.seat, word);
        found & PARKED != 0
    }
}

impl<P: Owned> StopSeat<P> {
    ghost use Rattle.stop_words.specs.Seats.{view_of};

    /// The number of the seat's thread.
    pub fn thread(&self) -> u32
        ensures { result ≡ (view_of self.now).thread }
    {
        self.thread
    }
}
