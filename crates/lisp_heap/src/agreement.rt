//! Whether a parcel agrees with a World.

ghost use Rattle.std.specs.Prelude.{◌≡◌, ◌↔◌, ◌≤◌, ◌<◌, length, option_map, IsTrue};
ghost use Rattle.std.specs.Option.{ForSome};
ghost use Rattle.heap_terms.specs.declared.kinds.PageType.{PageType};
ghost use Rattle.heap_terms.specs.declared.limits.TheConstants.{MOST_PAGES};
ghost use Rattle.heap_terms.specs.Heap.{entry_at, fill_of, thread_at};
ghost use Rattle.heap_terms.specs.Layout.{page_words};
ghost use Rattle.lisp_heap.specs.Agreement.{Agrees, run_out, run_pages_of, run_type_of, small_out};
ghost use Rattle.lisp_heap.specs.ParcelView.{place_of, small_region};
ghost use Rattle.lisp_heap.specs.State.{state_of, state_page};
ghost use Rattle.lisp_heap.specs.View.{heap_of};

use crate::parcels::{Parcel, RegionPlace};
use crate::states::ThreadState;
use crate::world::World;
use heap_terms::{Entry, Owned, PAGE_WORDS, PageType};

impl World {
    /// Whether the parcel has just the regions that are out for its owner. It takes no memory.
    pub fn agrees(&self, parcel: &Parcel) -> bool
        ensures { IsTrue result ↔ Agrees (heap_of self.now) parcel.now }
    {
        let owner = parcel.owner() as usize;
        let state = self.thread_state(owner);
        self.small_agrees(parcel, state, PageType::Cons)
            && self.small_agrees(parcel, state, PageType::Boxed)
            && self.small_agrees(parcel, state, PageType::Unboxed)
            && self.run_agrees(parcel, state)
            && parcel.run_type() == self.run_type(state)
    }

    /// The state of a thread. A number that no thread has stands for a thread that has ended.
    pub(crate) fn thread_state(&self, t: usize) -> ThreadState
        ensures state { result ≡ state_of (thread_at (heap_of self.now) t) }
        ensures pages { (ty : PageType) → ForSome (state_page result ty) (λ page. page < length (heap_of self.now).pages) }
        ensures run { ForSome result.open_run (λ page. page < length (heap_of self.now).pages) }
    {
        if t < self.states.len() {
            self.states.at(t)
        } else {
            ThreadState {
                ended: true,
                ..ThreadState::fresh()
            }
        }
    }

    /// Whether the parcel's small region of a type is on the open page of a state.
    fn small_agrees(&self, parcel: &Parcel, state: ThreadState, ty: PageType) -> bool
        requires { ForSome (state_page state ty) (λ page. page < length (heap_of self.now).pages) }
        ensures { IsTrue result ↔ (option_map place_of (small_region parcel.now ty) ≡ option_map (small_out (heap_of self.now).pages) (state_page state ty)) }
    {
        match (parcel.small_place(ty), state.open_page(ty)) {
            (None, None) => true,
            (Some(RegionPlace { first, pages, next }), Some(page)) => {
                let fill = self.fill(page);
                first == page && pages == 1 && next == PAGE_WORDS * page + fill
            }
            _ => false,
        }
    }

    /// Whether the parcel's run is the open run of a state.
    fn run_agrees(&self, parcel: &Parcel, state: ThreadState) -> bool
        requires { ForSome state.open_run (λ page. page < length (heap_of self.now).pages) }
        ensures { IsTrue result ↔ (option_map place_of parcel.now.run ≡ option_map (run_out (heap_of self.now).pages) state.open_run) }
    {
        match (parcel.run_place(), state.open_run) {
            (None, None) => true,
            (Some(RegionPlace { first, pages, next }), Some(page)) => {
                first == page && pages == self.run_pages(page) && next == PAGE_WORDS * page
            }
            _ => false,
        }
    }

    /// The type of the pages of a state's open run.
    fn run_type(&self, state: ThreadState) -> Option<PageType>
        requires { ForSome state.open_run (λ page. page < length (heap_of self.now).pages) }
        ensures { result ≡ run_type_of (heap_of self.now).pages state.open_run }
    {
        match state.open_run {
            None => None,
            Some(page) => match self.pages.entry(page) {
                Entry::Free => None,
                Entry::Used { ty, .. } => Some(ty),
            },
        }
    }

    /// How many words of a page are used.
    pub(crate) fn fill(&self, page: u32) -> u32
        requires { page < length (heap_of self.now).pages }
        ensures value { result ≡ fill_of (entry_at (heap_of self.now).pages page) }
        ensures most { result ≤ page_words }
        ensures page { page < MOST_PAGES }
    {
        match self.pages.entry(page) {
            Entry::Free => 0,
            Entry::Used { fill, .. } => fill,
        }
    }

    /// How many pages the run of a page has.
    fn run_pages(&self, page: u32) -> u32
        requires { page < length (heap_of self.now).pages }
        ensures value { result ≡ run_pages_of (entry_at (heap_of self.now).pages page) }
        ensures page { page < MOST_PAGES }
    {
        match self.pages.entry(page) {
            Entry::Free => 0,
            Entry::Used { run_pages, .. } => run_pages,
        }
    }
}
