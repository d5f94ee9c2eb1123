//! Opening regions, and the ends of threads.

ghost use Rattle.std.specs.Prelude.{◌≡◌, ◌≢◌, ◌<◌, ℕ, length, OnOk, OnErr, IfOk};
ghost use Rattle.heap_terms.specs.declared.pages.Next.{Next};
ghost use Rattle.heap_terms.specs.Histories.{IsOpening, command_at, wish_at, wished_size};
ghost use Rattle.heap_terms.specs.Regions.{HasNoRun, Make, pages_needed};
ghost use Rattle.alloc_region.specs.View.{opened_region};
ghost use Rattle.lisp_heap.specs.Agreement.{Adopts, Agrees, OthersAgree, Lends};
ghost use Rattle.lisp_heap.specs.Events.{Happens};
ghost use Rattle.lisp_heap.specs.ParcelView.{IsMaking, ParcelView, empty_parcel, with_region};
ghost use Rattle.lisp_heap.specs.View.{heap_of, next_of};

use crate::parcels::{Making, Parcel};
use crate::wishes::wish;
use crate::world::World;
use alloc_region::Region;
use heap_terms::{Answer, Event, Memory, Owned, PageType, Refusal};
use lisp_words::{page_type, size_of};
use page_table::pages_needed;

/// What `lend` did.
#[derive(Clone, Copy, Debug, PartialEq, Eq)]
pub enum Lent {
    /// A region was opened and is in the parcel.
    Opened,
    /// No run of free pages is long enough: the command was answered `!exhausted`.
    Exhausted,
}

impl World {
    /// Opens a region for the object that the parcel's owner allocates next, or answers the
    /// command with `!exhausted` where no run of free pages is long enough. For want of memory
    /// nothing changes.
    pub fn lend(&mut self, parcel: &mut Parcel) -> Result<Lent, Memory>
        requires thread { parcel.old.owner < length self.old.program.threads }
        requires agrees { Agrees (heap_of self.old) parcel.old }
        requires opens { next_of self.old parcel.old.owner ≡ Next.Open }
        ensures ok { OnOk result (Happens parcel.old.owner self.old self.new) }
        ensures lent { IfOk result (Lends self.old parcel.old.owner) }
        ensures agrees { OnOk result (Agrees (heap_of self.new) parcel.new) }
        ensures others { OnOk result (OthersAgree (heap_of self.old) (heap_of self.new) parcel.old.owner) }
        ensures parcel { IfOk result (Adopts self.old parcel.old parcel.new) }
        ensures owner { parcel.new.owner ≡ parcel.old.owner }
        ensures err { OnErr result (self.new ≡ self.old) }
        ensures kept { OnErr result (parcel.new ≡ parcel.old) }
    {
        let t = parcel.owner();
        let making = self.wished(t as usize);
        let pages = pages_needed(size_of(making.kind, making.n));
        match self.pages.find_run(pages) {
            None => {
                self.refuse(t)?;
                Ok(Lent::Exhausted)
            }
            Some(first) => {
                let region = self.open(t, page_type(making.kind), first, pages)?;
                parcel.adopt(region);
                Ok(Lent::Opened)
            }
        }
    }

    /// The object that thread t wants made, for which it has no room.
    fn wished(&self, t: usize) -> Making
        requires thread { t < length self.now.program.threads }
        requires opens { next_of self.now t ≡ Next.Open }
        ensures wish { wish_at (command_at self.now.program (heap_of self.now) t) ≡ Make result.kind result.n result.seed }
        ensures making { IsMaking result.kind result.n result.seed }
    {
        // Looked into here, so that what follows may use what a World keeps true.
        let _program = &self.program;
        wish(self.current(t)).unwrap()
    }

    /// Answers thread t's command with `!exhausted`.
    fn refuse(&mut self, t: u32) -> Result<(), Memory>
        requires thread { t < length self.old.program.threads }
        requires opens { next_of self.old t ≡ Next.Open }
        requires none { HasNoRun (heap_of self.old).pages (pages_needed (wished_size (wish_at (command_at self.old.program (heap_of self.old) t)))) }
        ensures ok { OnOk result (Happens t self.old self.new) }
        ensures agrees { OnOk result ((q : ParcelView) → Agrees (heap_of self.old) q → Agrees (heap_of self.new) q) }
        ensures err { OnErr result (self.new ≡ self.old) }
    {
        let command = self.current(t as usize);
        self.history.push(Event::Did {
            thread: t,
            command,
            answer: Answer::Refused(Refusal::Exhausted),
        })?;
        self.states.advance(t as usize);
        Ok(())
    }

    /// Opens a run of free pages of a type for thread t.
    fn open(&mut self, t: u32, ty: PageType, first: u32, pages: u32) -> Result<Region, Memory>
        requires thread { t < length self.old.program.threads }
        requires opens { next_of self.old t ≡ Next.Open }
        requires opening { IsOpening (heap_of self.old) (wish_at (command_at self.old.program (heap_of self.old) t)) ty first pages }
        ensures ok { OnOk result (Happens t self.old self.new) }
        ensures region { IfOk result (λ region. region ≡ opened_region ty first pages) }
        ensures agrees { OnOk result ((q : ParcelView) → q.owner ≡ t → Agrees (heap_of self.old) q → Agrees (heap_of self.new) (with_region q ty first pages)) }
        ensures others { OnOk result (OthersAgree (heap_of self.old) (heap_of self.new) t) }
        ensures err { OnErr result (self.new ≡ self.old) }
    {
        self.history.reserve(1)?;
        let region = Region::open(self.alloc, ty, first, pages)?;
        self.history
            .push(Event::Opened {
                thread: t,
                ty,
                first,
                pages,
            })
            .unwrap();
        self.pages.take_run(first, pages, ty, 0);
        self.states.open_region(t as usize, ty, first, pages);
        Ok(region)
    }

    /// Ends the parcel's owner, which has no command left: its regions are closed and its cells
    /// cleared. For want of memory nothing changes.
    pub fn end(&mut self, parcel: &mut Parcel) -> Result<(), Memory>
        requires thread { parcel.old.owner < length self.old.program.threads }
        requires agrees { Agrees (heap_of self.old) parcel.old }
        requires ends { next_of self.old parcel.old.owner ≡ Next.End }
        ensures ok { OnOk result (Happens parcel.old.owner self.old self.new) }
        ensures empty { OnOk result (parcel.new ≡ empty_parcel parcel.old.owner) }
        ensures agrees { OnOk result (Agrees (heap_of self.new) parcel.new) }
        ensures others { OnOk result (OthersAgree (heap_of self.old) (heap_of self.new) parcel.old.owner) }
        ensures owner { parcel.new.owner ≡ parcel.old.owner }
        ensures err { OnErr result (self.new ≡ self.old) }
        ensures kept { OnErr result (parcel.new ≡ parcel.old) }
    {
        let t = parcel.owner();
        self.end_thread(t)?;
        parcel.close_all();
        Ok(())
    }

    /// Ends thread t.
    fn end_thread(&mut self, t: u32) -> Result<(), Memory>
        requires thread { t < length self.old.program.threads }
        requires ends { next_of self.old t ≡ Next.End }
        ensures ok { OnOk result (Happens t self.old self.new) }
        ensures agrees { OnOk result (Agrees (heap_of self.new) (empty_parcel t)) }
        ensures others { OnOk result (OthersAgree (heap_of self.old) (heap_of self.new) t) }
        ensures err { OnErr result (self.new ≡ self.old) }
    {
        self.history.push(Event::Ended { thread: t })?;
        self.cells.clear(t as usize);
        self.pins.clear(t as usize);
        self.states.end(t as usize);
        Ok(())
    }
}
