//! Collections.

ghost use Rattle.std.specs.Prelude.{◌≡◌, ◌↔◌, ◌<◌, ℕ, length, map, IsTrue, MatchOption, IfOk, OnOk, OnErr};
ghost use Rattle.heap_terms.specs.declared.pages.Next.{Next};
ghost use Rattle.heap_terms.specs.Heap.{thread_at};
ghost use Rattle.trace_laws.specs.Rooted.{Rooted};
ghost use Rattle.lisp_heap.specs.Agreement.{Agrees};
ghost use Rattle.lisp_heap.specs.Events.{Happens};
ghost use Rattle.lisp_heap.specs.ParcelView.{empty_parcel};
ghost use Rattle.lisp_heap.specs.Ready.{AllLet, AreByOwner, AreReady, IsLowestBusy, TellsBusy, all_empty, owner_of};
ghost use Rattle.lisp_heap.specs.Rooting.{rooted_in};
ghost use Rattle.lisp_heap.specs.View.{heap_of, next_of};
ghost use Rattle.lisp_heap.specs.WorldSound.{IsRoomFor};

use crate::all_passes::make_passes;
use crate::parcels::Parcel;
use crate::recording::{MOST_PASSES, RecordSizes, reserve_rooms};
use crate::rooting::gather;
use crate::scratch::{Scratch, commands_of};
use crate::world::World;
use heap_terms::{Event, Memory, Next, Seq};

/// Why a collection was not made. Nothing changed.
#[derive(Clone, Copy, Debug, PartialEq, Eq)]
pub enum CollectFault {
    /// The lowest thread that inhibits, or whose parcel does not agree.
    Busy(u32),
    /// There was no memory.
    Memory,
}

/// Closes all regions of all parcels.
fn close_parcels(parcels: &mut [Parcel])
    ensures { parcels.new ≡ all_empty parcels.old }
{
    for parcel in parcels.iter_mut() {
        parcel.close_all();
    }
}

impl World {
    /// Makes the collection that thread t owes. There is one parcel for each thread, by owner. All
    /// regions are closed: afterwards all parcels are empty, with the same owners in the same places.
    /// `Busy` names the lowest thread that inhibits or whose parcel does not agree. Where the
    /// collection is refused, nothing changes.
    pub fn collect(&mut self, t: u32, parcels: &mut [Parcel]) -> Result<(), CollectFault>
        requires thread { t < length self.old.program.threads }
        requires owners { AreByOwner parcels.old (length self.old.program.threads) }
        requires collects { (last : ℕ) × (next_of self.old t ≡ Next.Collect last) }
        ensures ok { OnOk result (Happens t self.old self.new) }
        ensures ready { OnOk result (AreReady (heap_of self.new) parcels.new (length self.new.program.threads)) }
        ensures empty { OnOk result (parcels.new ≡ all_empty parcels.old) }
        ensures busy { TellsBusy (heap_of self.old) parcels.old result }
        ensures owners { map owner_of parcels.new ≡ map owner_of parcels.old }
        ensures err { OnErr result (self.new ≡ self.old) }
        ensures kept { OnErr result (parcels.new ≡ parcels.old) }
    {
        // Looked into here, so that what follows may use what a World keeps true.
        let _program = &self.program;
        if let Some(u) = self.lowest_busy(parcels) {
            return Err(CollectFault::Busy(u));
        }
        if self.make_collection(t).is_err() {
            return Err(CollectFault::Memory);
        }
        close_parcels(parcels);
        Ok(())
    }

    /// The lowest thread that inhibits or whose parcel does not agree.
    fn lowest_busy(&self, parcels: &[Parcel]) -> Option<u32>
        requires { length parcels.now ≡ length self.now.program.threads }
        ensures { MatchOption result (AllLet (heap_of self.now) parcels.now) (IsLowestBusy (heap_of self.now) parcels.now) }
    {
        for u in 0..self.threads() {
            if self.inhibits(u) || !self.agrees(&parcels[u as usize]) {
                return Some(u);
            }
        }
        None
    }

    /// The collection that thread t owes is made, while nobody inhibits. For want of memory nothing
    /// changes.
    fn make_collection(&mut self, t: u32) -> Result<(), Memory>
        requires thread { t < length self.old.program.threads }
        requires collects { (last : ℕ) × (next_of self.old t ≡ Next.Collect last) }
        requires allowed { (u : ℕ) → (thread_at (heap_of self.old) u).inhibits ≡ 0 }
        ensures ok { OnOk result (Happens t self.old self.new) }
        ensures agrees { OnOk result ((u : ℕ) → Agrees (heap_of self.new) (empty_parcel u)) }
        ensures err { OnErr result (self.new ≡ self.old) }
    {
        let last = self.due(t);
        let mut scratch = self.take_scratch()?;
        let result = self.collect_with(&mut scratch, t, last);
        self.scratch = Some(scratch);
        result
    }

    /// Up to which generation thread t collects next.
    fn due(&self, t: u32) -> u8
        requires thread { t < length self.now.program.threads }
        requires collects { (last : ℕ) × (next_of self.now t ≡ Next.Collect last) }
        ensures { next_of self.now t ≡ Next.Collect result }
    {
        match self.next(t) {
            Next::Collect(last) => last,
            _ => unreachable!(),
        }
    }

    /// What collections work with, as the latest one left it. The first collection makes it.
    fn take_scratch(&mut self) -> Result<Scratch, Memory>
        ensures room { IfOk result (IsRoomFor self.old.program) }
        ensures same { self.new ≡ self.old }
    {
        match self.scratch.take() {
            Some(scratch) => Ok(scratch),
            None => Scratch::new(
                self.alloc,
                self.program.pages,
                self.program.threads.len() as u32,
                commands_of(&self.program),
            ),
        }
    }

    /// Makes the collection of thread t. All memory is taken before the first change.
    fn collect_with(&mut self, scratch: &mut Scratch, t: u32, last: u8) -> Result<(), Memory>
        ghost h: { Rooted }
        requires roots { h ≡ rooted_in self.old }
        requires thread { t < length self.old.program.threads }
        requires collects { next_of self.old t ≡ Next.Collect last }
        requires allowed { (u : ℕ) → (thread_at (heap_of self.old) u).inhibits ≡ 0 }
        requires room { IsRoomFor self.old.program scratch.old }
        ensures ok { OnOk result (Happens t self.old self.new) }
        ensures agrees { OnOk result ((u : ℕ) → Agrees (heap_of self.new) (empty_parcel u)) }
        ensures room { IsRoomFor self.old.program scratch.new }
        ensures err { OnErr result (self.new ≡ self.old) }
    {
        gather(&self.cells, &self.pins, &mut scratch.roots)?;
        let objects = self.commits as usize;
        let queued = self.finalizers.len();
        let sizes = RecordSizes {
            moves: objects,
            pins: scratch.roots.ambiguous.len(),
            // Each event adds one pair at most.
            culls: self.history.len(),
            breaks: objects,
            queued: queued as usize,
            freed: self.pages.len() as usize,
        };
        let mut rooms = reserve_rooms(self.alloc, &mut scratch.rooms, sizes)?;
        scratch.room.reserve_queued(queued)?;
        let mut passes = Vec::with_capacity(self.alloc, MOST_PASSES)?;
        self.history.reserve(1)?;
        self.states.close_regions();
        make_passes(
            &mut self.space,
            &mut self.pages,
            &mut self.finalizers,
            &mut self.labels,
            scratch,
            &mut self.stats,
            last,
            &mut rooms,
            &mut passes,
        );
        scratch.rooms = rooms;
        self.cells.rewrite(scratch.roots.exact.as_slice());
        self.history
            .push(Event::Collected {
                thread: t,
                last,
                passes: Seq::from_vec(passes),
            })
            .unwrap();
        self.states.set_owed(t as usize, None);
        Ok(())
    }
}
