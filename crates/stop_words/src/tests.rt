ghost use Rattle.std.specs.Prelude.{◌≡◌, ◌-◌, ◌≤◌, ◌<◌, [], vec_len, vec_capacity, IfOk};
ghost use Rattle.stop_words.specs.Owners.{ByOwner};
ghost use Rattle.stop_words.specs.Seats.{Fresh, AllFresh, threads_of};

use crate::worker::{collect, post_to_all, work};
use crate::{Claim, Entry, NotYet, Resumed, StopSeat, StopWords};
use heap_terms::Owned;
use std::alloc::{AllocError, Global};
use std::test::Fail;

/// A parcel that is no more than its owner's number.
#[derive(Clone, Copy, Debug, PartialEq, Eq)]
struct Chip {
    thread: u32,
}

impl Owned for Chip {
    ghost owner_of = { λ chip. chip.thread };

    fn owner(&self) -> u32 {
        self.thread
    }
}

fn may_cross<T: Send>(_value: &T) {}

fn may_be_shared<T: Sync>(_value: &T) {}

/// Seats may cross threads, and the stop words may be shared.
fn crosses<P: Owned>(words: &StopWords<P>, seat: &StopSeat<P>) {
    may_cross(words);
    may_be_shared(words);
    may_cross(seat);
}

/// The parcels of a number of threads.
fn chips(alloc: Global, threads: u32) -> Result<Vec<Chip>, AllocError>
    ensures { IfOk result (λ chips. ByOwner ⟦<Chip as Owned>⟧.owner_of threads chips.items × (vec_len chips ≡ threads)) }
{
    let mut chips = Vec::with_capacity(alloc, threads as usize)?;
    for thread in 0..threads {
        chips.push(Chip { thread })?;
    }
    Ok(chips)
}

/// The last seat of a list.
fn last_seat(words: &StopWords<Chip>, seats: &mut Vec<StopSeat<Chip>>) -> StopSeat<Chip>
    requires { (0 < vec_len seats.old) × AllFresh words.now seats.old.items }
    ensures rest { (vec_len seats.new ≡ vec_len seats.old - 1) × AllFresh words.now seats.new.items }
    ensures seat { Fresh words.now (vec_len seats.old - 1) result }
{
    seats.pop().unwrap()
}

/// Two threads: a collection waits for the section of the other thread. Both park again at the end.
fn waits_for_a_section(
    words: &StopWords<Chip>,
    first: &mut StopSeat<Chip>,
    second: &mut StopSeat<Chip>,
    into: Vec<Chip>,
) -> bool
    requires count { threads_of words.now ≡ 2 }
    requires first { Fresh words.now 0 first.old }
    requires second { Fresh words.now 1 second.old }
    requires room { (into.items ≡ []) × (2 ≤ vec_capacity into) }
{
    let Resumed::Back(own) = words.resume(first) else {
        return false;
    };
    let Resumed::Back(other) = words.resume(second) else {
        return false;
    };
    let Entry::Entered = words.enter(second) else {
        return false;
    };
    let Claim::Claimed = words.claim(first) else {
        return false;
    };
    if !words.post(first, 1) {
        return false;
    }
    post_to_all(words, first, 2);
    let Err(early) = collect(words, first, own, into) else {
        return false;
    };
    let NotYet { thread, own, into } = early;
    if thread != 1 || !words.leave(second) || words.claim(second) != Claim::Taken(0) {
        return false;
    }
    words.park(second, other);
    if !words.look(first, 1) {
        return false;
    }
    let Ok((own, _into)) = collect(words, first, own, into) else {
        return false;
    };
    words.park(first, own);
    let Resumed::Back(other) = words.resume(second) else {
        return false;
    };
    words.park(second, other);
    true
}

#[test]
fn a_collection_waits_for_the_section_of_the_other(rt: HostRuntime) -> Result<(), Fail> {
    let parcels = chips(rt.alloc(), 2)?;
    let into = Vec::with_capacity(rt.alloc(), 2)?;
    let back = Vec::with_capacity(rt.alloc(), 2)?;
    let Ok((words, mut seats)) = StopWords::new(rt.alloc(), parcels) else {
        panic!(rt; "there was no memory")
    };
    let mut second = last_seat(&words, &mut seats);
    let mut first = last_seat(&words, &mut seats);
    let done = waits_for_a_section(&words, &mut first, &mut second, into);
    let left = words.close(back);
    assert!(rt; done && left.as_slice() == [Chip { thread: 0 }, Chip { thread: 1 }].as_slice());
    Ok(())
}

#[test]
fn one_thread_alone_collects_at_once(rt: HostRuntime) -> Result<(), Fail> {
    let parcels = chips(rt.alloc(), 1)?;
    let into = Vec::with_capacity(rt.alloc(), 1)?;
    let back = Vec::with_capacity(rt.alloc(), 1)?;
    let Ok((words, mut seats)) = StopWords::new(rt.alloc(), parcels) else {
        panic!(rt; "there was no memory")
    };
    let mut seat = last_seat(&words, &mut seats);
    let done = work(&words, &mut seat, into, 1).is_ok();
    let left = words.close(back);
    assert!(rt; done && seat.thread() == 0 && left.as_slice() == [Chip { thread: 0 }].as_slice());
    Ok(())
}

#[test]
fn eight_threads_collect_in_turn(rt: HostRuntime) -> Result<(), Fail> {
    let parcels = chips(rt.alloc(), 8)?;
    let back = Vec::with_capacity(rt.alloc(), 8)?;
    let into = Vec::with_capacity(rt.alloc(), 8)?;
    let Ok((words, mut seats)) = StopWords::new(rt.alloc(), parcels) else {
        panic!(rt; "there was no memory")
    };
    let mut last = last_seat(&words, &mut seats);
    let mut before = last_seat(&words, &mut seats);
    let done = match work(&words, &mut last, into, 8) {
        Ok(into) => work(&words, &mut before, into, 8).is_ok(),
        Err(_) => false,
    };
    let left = words.close(back);
    assert!(rt; done && last.thread() == 7 && before.thread() == 6);
    assert!(rt; left.len() == 8 && left[0].thread == 0 && left[7].thread == 7);
    Ok(())
}
