//! Making the stop words, and taking the parcels out at the end.
ghost use Rattle.std.specs.Prelude.{◌≡◌, ◌+◌, ◌<◌, ◌≤◌, ◌^◌, [], ◌∷◌, ◌++◌, map, option_to_list, replicate, vec_len, vec_capacity, Some, IfOk, IfErr};
ghost use Rattle.stop_words.specs.Owners.{ByOwner};
ghost use Rattle.stop_words.specs.ParcelSlots.{parcels_in, ClosesWith};

use crate::rule::NextSeat;
use crate::seats::{StopSeat, StopWords};
use crate::view::View;
use atomic_table::{Refused, Seat, Table};
use heap_terms::Owned;
use pseudo_atomic::PARKED;
use std::alloc::{AllocError, Global};

/// Want of memory, and nothing else. The parcels come back as they were.
#[derive(Drop)]
pub struct NoTable<P> {
    /// The parcels that were handed in, in their order.
    pub parcels: Vec<P>,
}

/// Moves the parcels into slots, in their order. It takes no memory.
fn into_slots<P>(parcels: &mut Vec<P>, slots: &mut Vec<Option<P>>)
    requires { (slots.old.items ≡ []) × (vec_len parcels.old ≤ vec_capacity slots.old) }
    ensures slots { slots.new.items ≡ map Some parcels.old.items }
    ensures parcels { (parcels.new.items ≡ []) × (vec_capacity parcels.new ≡ vec_capacity parcels.old) }
{
    parcels.reverse();
    while let Some(parcel) = parcels.pop() {
        slots.push_reserved(Some(parcel));
    }
}

/// Moves what lies in the slots into a list with room for it, in their order. It takes no memory.
fn out_of_slots<P>(mut slots: Vec<Option<P>>, parcels: &mut Vec<P>)
    requires { (parcels.old.items ≡ []) × (vec_len slots ≤ vec_capacity parcels.old) }
    ensures { parcels.new.items ≡ parcels_in slots.items }
{
    slots.reverse();
    while let Some(slot) = slots.pop() {
        if let Some(parcel) = slot {
            parcels.push_reserved(parcel);
        }
    }
    slots.destroy_empty();
}

/// Adds what lies in a slot to a list with room for it. It takes no memory.
fn keep<P>(slot: Option<P>, into: &mut Vec<P>)
    requires { vec_len into.old < vec_capacity into.old }
    ensures items { into.new.items ≡ into.old.items ++ option_to_list slot }
    ensures room { (vec_len into.new ≤ vec_len into.old + 1) × (vec_capacity into.new ≡ vec_capacity into.old) }
{
    if let Some(parcel) = slot {
        into.push_reserved(parcel);
    }
}

/// The words at the start.
fn first_words(alloc: Global, threads: usize) -> Result<Vec<u64>, AllocError>
    requires { threads < 2 ^ 32 }
    ensures { IfOk result (λ words. words.items ≡ 0 ∷ replicate threads 4) }
{
    let mut words = vec![in alloc; PARKED; threads + 1]?;
    words[0] = 0;
    Ok(words)
}

/// Room for the words, the seats and the slots of a number of threads.
fn room<P: Owned>(
    alloc: Global,
    threads: usize,
) -> Result<(Vec<u64>, Vec<StopSeat<P>>, Vec<Option<P>>), AllocError>
    requires { threads < 2 ^ 32 }
    ensures words { IfOk result (λ room. room.0.items ≡ 0 ∷ replicate threads 4) }
    ensures seats { IfOk result (λ room. (room.1.items ≡ []) × (threads ≤ vec_capacity room.1)) }
    ensures slots { IfOk result (λ room. (room.2.items ≡ []) × (threads ≤ vec_capacity room.2)) }
{
    let words = first_words(alloc, threads)?;
    let seats = Vec::with_capacity(alloc, threads)?;
    let slots = Vec::with_capacity(alloc, threads)?;
    Ok((words, seats, slots))
}

impl<P: Owned> StopWords<P> {
    ghost use Rattle.stop_words.specs.Seats.{threads_of, AllFresh, OthersFresh};
    ghost use Rattle.stop_words.specs.Rule.{first_view, giving};

    /// The stop words of as many threads as there are parcels, and the seat of each thread.
    ///
    /// There is at least one parcel, there are fewer than 2^32, and the i-th belongs to thread i.
    /// Each thread is parked, with its parcel in its slot. Refuses only for want of memory.
    pub fn new(
        alloc: Global,
        parcels: Vec<P>,
    ) -> Result<(StopWords<P>, Vec<StopSeat<P>>), NoTable<P>>
        requires count { (0 < vec_len parcels) × (vec_len parcels < 2 ^ 32) }
        requires owners { ByOwner P.owner_of (vec_len parcels) parcels.items }
        ensures threads { IfOk result (λ made. threads_of made.0 ≡ vec_len parcels) }
        ensures seats { IfOk result (λ made. (vec_len made.1 ≡ vec_len parcels) × AllFresh made.0 made.1.items) }
        ensures err { IfErr result (λ refused. refused.parcels.items ≡ parcels.items) }
    {
        match room(alloc, parcels.len()) {
            Ok((words, seats, slots)) => StopWords::filled(
                alloc,
                words.as_slice(),
                seats,
                slots,
                parcels,
            ),
            Err(_) => Err(NoTable { parcels }),
        }
    }

    /// Moves the parcels into the slots, and makes the table.
    fn filled(
        alloc: Global,
        words: &[u64],
        seats: Vec<StopSeat<P>>,
        mut slots: Vec<Option<P>>,
        mut parcels: Vec<P>,
    ) -> Result<(StopWords<P>, Vec<StopSeat<P>>), NoTable<P>>
        requires count { (0 < vec_len parcels) × (vec_len parcels < 2 ^ 32) }
        requires owners { ByOwner P.owner_of (vec_len parcels) parcels.items }
        requires words { words.now ≡ 0 ∷ replicate (vec_len parcels) 4 }
        requires seats { (seats.items ≡ []) × (vec_len parcels ≤ vec_capacity seats) }
        requires slots { (slots.items ≡ []) × (vec_len parcels ≤ vec_capacity slots) }
        ensures threads { IfOk result (λ made. threads_of made.0 ≡ vec_len parcels) }
        ensures seats { IfOk result (λ made. (vec_len made.1 ≡ vec_len parcels) × AllFresh made.0 made.1.items) }
        ensures err { IfErr result (λ refused. refused.parcels.items ≡ parcels.items) }
    {
        let threads = parcels.len() as u32;
        into_slots(&mut parcels, &mut slots);
        match Table::new(alloc, words, slots, &threads) {
            Ok((table, first)) => {
                parcels.destroy_empty();
                let words = StopWords { table, threads };
                let seats = words.seated(first, seats);
                Ok((words, seats))
            }
            Err(Refused { slots }) => {
                out_of_slots(slots, &mut parcels);
                Err(NoTable { parcels })
            }
        }
    }

    /// The seats, the first among them.
    fn seated(
        &self,
        mut first: Seat<Option<P>, View>,
        mut seats: Vec<StopSeat<P>>,
    ) -> Vec<StopSeat<P>>
        requires table { first.table_id ≡ self.now.table.shared.table_id }
        requires first { first.me ≡ (first_view, []) }
        requires seats { (seats.items ≡ []) × (threads_of self.now ≤ vec_capacity seats) }
        ensures count { vec_len result ≡ threads_of self.now }
        ensures seats { AllFresh self.now result.items }
    {
        self.split_all(&mut first, &mut seats);
        let seat = StopSeat {
            seat: first,
            thread: 0,
            out: false,
        };
        if let Err(_) = seats.insert(0, seat) {
            unreachable!();
        }
        seats
    }

    /// The first seat splits off the others, in the order of their numbers.
    fn split_all(&self, first: &mut Seat<Option<P>, View>, seats: &mut Vec<StopSeat<P>>)
        requires table { first.old.table_id ≡ self.now.table.shared.table_id }
        requires first { first.old.me ≡ (first_view, []) }
        requires seats { (seats.old.items ≡ []) × (threads_of self.now ≤ vec_capacity seats.old) }
        ensures first { (first.new.table_id ≡ first.old.table_id) × (first.new.me ≡ (giving (threads_of self.now), [])) }
        ensures count { (vec_len seats.new + 1 ≡ threads_of self.now) × (vec_capacity seats.new ≡ vec_capacity seats.old) }
        ensures seats { OthersFresh self.now seats.new.items }
    {
        for thread in 1..self.threads {
            let seat = self.table.shared.split_seat::<NextSeat>(first);
            seats.push_reserved(StopSeat {
                seat,
                thread,
                out: false,
            });
        }
    }

    /// How many threads there are. It takes no memory.
    pub fn threads(&self) -> u32
        ensures { result ≡ threads_of self.now }
    {
        self.threads
    }

    /// Takes the parcels out of the slots, by ascending thread, and ends the stop words. It takes
    /// no memory.
    ///
    /// `into` is empty, with room for one parcel for each thread.
    pub fn close(self, mut into: Vec<P>) -> Vec<P>
        requires { (into.items ≡ []) × (threads_of self ≤ vec_capacity into) }
        ensures { ClosesWith P.owner_of (threads_of self) result.items }
    {
        let StopWords { table, threads: _ } = self;
        let mut closed = table.close();
        let mut slot = 0;
        while slot < closed.slot_count() {
            keep(closed.take(slot), &mut into);
            slot += 1;
        }
        closed.free();
        into
    }
}
