//! What the lock keeps: the World, and whether memory ran out.

ghost use Rattle.std.specs.Prelude.{◌≡◌, ◌<◌, length, map, IfOk};
ghost use Rattle.lisp_heap.specs.Ready.{AreByOwner, owner_of};
ghost use Rattle.lisp_heap.specs.View.{View};

use crate::naming::Naming;
use heap_terms::{Memory, Owned};
use heap_turns::event;
use lisp_heap::{CollectFault, Parcel, World};
use std::marker::PhantomData;

/// What a worker does once it has let the lock go.
#[derive(Clone, Copy, Debug, PartialEq, Eq)]
pub(crate) enum Step {
    /// Nothing happened, and the worker tries again.
    Again,
    /// The section goes on.
    Stay,
    /// The section is to be left, and the next one comes.
    Leave,
    /// The section is to be left, and a collection is due.
    Collect,
    /// The thread has ended: the section is to be left, and the worker parks for the last time.
    Finish,
    /// Memory ran out: the worker parks for the last time.
    GiveUp,
}

/// The World under the lock. Its type keeps that the World is sound, and that its program is the one
/// that the type names.
#[derive(Drop)]
pub(crate) struct Desk<N: Naming> {
    world: World,
    /// Want of memory was met. No worker does anything more.
    out_of_memory: bool,
    of: PhantomData<N>,
    ghost named: { world.program ≡ N.program },
}

impl<N: Naming> Desk<N> {
    /// A desk with a World of the program of this name.
    pub(crate) fn new(world: World) -> Desk<N>
        requires { world.program ≡ N.program }
    {
        Desk {
            world,
            out_of_memory: false,
            of: PhantomData,
        }
    }

    /// The World, unless memory ran out.
    pub(crate) fn into_world(self) -> Result<World, Memory>
        ensures { IfOk result (λ world. world.program ≡ N.program) }
    {
        let Desk {
            world,
            out_of_memory,
            of: _,
        } = self;
        if out_of_memory {
            Err(Memory)
        } else {
            Ok(world)
        }
    }

    /// Notes that memory ran out.
    pub(crate) fn give_up(&mut self) {
        self.out_of_memory = true;
    }

    /// What a thread does outside.
    fn outside(&self, t: u32) -> Step
        requires { t < length N.program.threads }
    {
        if self.world.is_due(t) {
            Step::Collect
        } else if self.world.has_ended(t) {
            Step::Finish
        } else {
            Step::Leave
        }
    }

    /// One event of the parcel's owner, inside its section. Where the parcel does not agree nothing
    /// happens.
    #[inline(always)]
    pub(crate) fn event(&mut self, parcel: &mut Parcel) -> Step
        requires { parcel.old.owner < length N.program.threads }
        ensures { parcel.new.owner ≡ parcel.old.owner }
    {
        let t = parcel.owner();
        if self.out_of_memory {
            return Step::GiveUp;
        }
        if !self.world.agrees(parcel) {
            return Step::Again;
        }
        if self.world.is_due(t) || self.world.has_ended(t) {
            return self.outside(t);
        }
        match event(&mut self.world, parcel) {
            Ok(true) => Step::Stay,
            Ok(false) => self.outside(t),
            Err(Memory) => {
                self.out_of_memory = true;
                Step::GiveUp
            }
        }
    }

    /// The collection of thread t, with the parcels of all threads. Where some thread keeps it from
    /// being made nothing happens.
    pub(crate) fn collect(&mut self, t: u32, parcels: &mut [Parcel]) -> Step
        requires thread { t < length N.program.threads }
        requires owners { AreByOwner parcels.old (length N.program.threads) }
        ensures { map owner_of parcels.new ≡ map owner_of parcels.old }
    {
        if self.out_of_memory {
            return Step::GiveUp;
        }
        if !self.world.is_due(t) {
            return self.outside(t);
        }
        match self.world.collect(t, parcels) {
            Ok(()) => self.outside(t),
            Err(CollectFault::Busy(_)) => Step::Again,
            Err(CollectFault::Memory) => {
                self.out_of_memory = true;
                Step::GiveUp
            }
        }
    }
}
