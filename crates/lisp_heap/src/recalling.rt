//! Parcels made anew, once the parcels of running threads are gone.

ghost use Rattle.std.specs.Prelude.{◌≡◌, ◌<◌, ◌≤◌, length, None, IfOk, OnOk};
ghost use Rattle.std.specs.Option.{ForSome};
ghost use Rattle.heap_terms.specs.WellFormed.{IsOpenRun};
ghost use Rattle.lisp_heap.specs.Agreement.{Agrees};
ghost use Rattle.lisp_heap.specs.ParcelView.{empty_parcel, small_region, with_small};
ghost use Rattle.lisp_heap.specs.Ready.{AreReady};
ghost use Rattle.lisp_heap.specs.Recalling.{leases_on, leases_of};
ghost use Rattle.lisp_heap.specs.View.{heap_of};

use crate::parcels::{Parcel, put_away_all};
use crate::world::World;
use alloc_region::Region;
use heap_terms::{Entry, Memory, Owned, PAGE_WORDS, PageType};

impl World {
    /// The World as it is, and a parcel for each thread made anew, by owner: each has just the
    /// regions that are out for its owner. It takes the World by value, so nobody who is only lent a
    /// World can call it. Where there is no memory the World is gone.
    pub fn recall(self) -> Result<(World, Vec<Parcel>), Memory>
        ensures world { IfOk result (λ made. made.0 ≡ self) }
        ensures ready { IfOk result (λ made. AreReady (heap_of self) made.1.items (length self.program.threads)) }
    {
        let parcels = self.parcels_anew()?;
        Ok((self, parcels))
    }

    /// A parcel for each thread, by owner, with the regions that are out for it.
    fn parcels_anew(&self) -> Result<Vec<Parcel>, Memory>
        ensures { IfOk result (λ parcels. AreReady (heap_of self.now) parcels.items (length self.now.program.threads)) }
    {
        let threads = self.threads();
        let mut parcels = Vec::with_capacity(self.alloc, threads as usize)?;
        for t in 0..threads {
            match self.parcel_anew(t) {
                Ok(parcel) => parcels.push_reserved(parcel),
                Err(memory) => {
                    put_away_all(parcels);
                    return Err(memory);
                }
            }
        }
        Ok(parcels)
    }

    /// A parcel of thread t, with the regions that are out for it.
    fn parcel_anew(&self, t: u32) -> Result<Parcel, Memory>
        requires { t < length self.now.program.threads }
        ensures owner { IfOk result (λ parcel. parcel.owner ≡ t) }
        ensures agrees { IfOk result (Agrees (heap_of self.now)) }
    {
        let mut parcel = Parcel::empty(t);
        match self.fill_anew(&mut parcel) {
            Ok(()) => Ok(parcel),
            Err(memory) => {
                let _regions = parcel.put_away();
                Err(memory)
            }
        }
    }

    /// Opens the regions again that are out for a parcel's owner. The parcel is empty.
    fn fill_anew(&self, parcel: &mut Parcel) -> Result<(), Memory>
        requires empty { parcel.old ≡ empty_parcel parcel.old.owner }
        requires thread { parcel.old.owner < length self.now.program.threads }
        ensures owner { OnOk result (parcel.new.owner ≡ parcel.old.owner) }
        ensures agrees { OnOk result (Agrees (heap_of self.now) parcel.new) }
    {
        // Looked into here, so that what follows may use what a World keeps true.
        let _history = self.history();
        let state = self.thread_state(parcel.owner() as usize);
        self.take_page(parcel, PageType::Cons, state.cons_page)?;
        self.take_page(parcel, PageType::Boxed, state.boxed_page)?;
        self.take_page(parcel, PageType::Unboxed, state.unboxed_page)?;
        self.take_run(parcel, state.open_run)
    }

    /// Opens the small region of a type again on an open page, where there is one.
    fn take_page(&self, parcel: &mut Parcel, ty: PageType, page: Option<u32>) -> Result<(), Memory>
        requires none { small_region parcel.old ty ≡ None }
        requires page { ForSome page (λ page. page < length (heap_of self.now).pages) }
        ensures { OnOk result (parcel.new ≡ with_small parcel.old ty (leases_on (heap_of self.now).pages ty page)) }
    {
        if let Some(page) = page {
            let fill = self.fill(page);
            let region = Region::reopen(self.alloc, ty, page, 1, PAGE_WORDS * page + fill)?;
            parcel.adopt(region);
        }
        Ok(())
    }

    /// Opens the run for a large object again, where there is one.
    fn take_run(&self, parcel: &mut Parcel, run: Option<u32>) -> Result<(), Memory>
        requires none { parcel.old.run ≡ None }
        requires run { ForSome run (IsOpenRun (heap_of self.now).pages) }
        ensures { OnOk result (parcel.new ≡ record parcel.old { run = leases_of (heap_of self.now).pages run }) }
    {
        let Some(first) = run else {
            return Ok(());
        };
        match self.pages.entry(first) {
            Entry::Free => Ok(()),
            Entry::Used { ty, run_pages, .. } => {
                let region = Region::reopen(self.alloc, ty, first, run_pages, PAGE_WORDS * first)?;
                parcel.adopt(region);
                Ok(())
            }
        }
    }
}
