//! What the World keeps of each thread beside its cells.

ghost use Rattle.std.specs.Prelude.{◌≡◌, ◌+◌, ◌<◌, ◌^◌, length, map, slice_get, slice_index_or, replicate, IfOk};
ghost use Rattle.std.specs.Option.{ForSome};
ghost use Rattle.lisp_heap.specs.State.{advanced, fresh_state, state_closed, state_due, state_page, state_with_page, state_with_region, with_asked, with_ended, with_inhibits, with_owed, with_placed, with_region_open};

use heap_terms::{Memory, PAGE_WORDS, PageType};
use std::alloc::Global;
use std::marker::Model;

/// How many of its commands a thread has done, how often it inhibits collections, up to which
/// generation it owes one, whether it has ended, its open page of each type, and the first page of
/// its open run.
#[derive(Clone, Copy)]
pub struct ThreadState {
    /// How many of its commands it has done.
    pub done: usize,
    /// How many sections it is in that inhibit collections.
    pub inhibits: u32,
    /// The generation up to which it owes a collection.
    pub owed: Option<u8>,
    /// Whether it has ended.
    pub ended: bool,
    /// Its open page of conses.
    pub cons_page: Option<u32>,
    /// Its open page of boxed objects.
    pub boxed_page: Option<u32>,
    /// Its open page of unboxed objects.
    pub unboxed_page: Option<u32>,
    /// The first page of its open run.
    pub open_run: Option<u32>,
}

/// The states of all threads.
#[derive(Drop)]
pub struct States {
    states: Vec<ThreadState>,
}

impl Model for States {
    ghost use Rattle.std.specs.Prelude.{List};
    ghost use Rattle.lisp_heap.specs.declared.states.ThreadState.{ThreadState};

    ghost Value = { List ThreadState };

    ghost view = { λ s. s.states.items };
}

impl ThreadState {
    /// The state of a thread before its first event.
    pub fn fresh() -> ThreadState
        ensures { result ≡ fresh_state }
    {
        ThreadState {
            done: 0,
            inhibits: 0,
            owed: None,
            ended: false,
            cons_page: None,
            boxed_page: None,
            unboxed_page: None,
            open_run: None,
        }
    }

    /// The open page of a type.
    pub fn open_page(&self, ty: PageType) -> Option<u32>
        ensures { result ≡ state_page self.now ty }
    {
        match ty {
            PageType::Cons => self.cons_page,
            PageType::Boxed => self.boxed_page,
            PageType::Unboxed => self.unboxed_page,
        }
    }

    /// The generation up to which the thread must collect now: what it owes, while it does not
    /// inhibit.
    #[inline(always)]
    pub fn due(&self) -> Option<u8>
        ensures { result ≡ state_due self.now }
    {
        if self.inhibits == 0 { self.owed } else { None }
    }

    /// The state with another open page of a type.
    fn with_page(self, ty: PageType, page: u32) -> ThreadState
        ensures { result ≡ state_with_page self ty page }
    {
        let page = Some(page);
        match ty {
            PageType::Cons => ThreadState {
                cons_page: page,
                ..self
            },
            PageType::Boxed => ThreadState {
                boxed_page: page,
                ..self
            },
            PageType::Unboxed => ThreadState {
                unboxed_page: page,
                ..self
            },
        }
    }

    /// The state without open regions.
    fn closed(&self) -> ThreadState
        ensures { result ≡ state_closed self.now }
    {
        ThreadState {
            cons_page: None,
            boxed_page: None,
            unboxed_page: None,
            open_run: None,
            ..*self
        }
    }

    /// The state with a run of pages of a type open: one page is its open page of that type, a
    /// longer run its open run.
    fn with_region(self, ty: PageType, first: u32, pages: u32) -> ThreadState
        ensures { result ≡ state_with_region self ty first pages }
    {
        if pages == 1 {
            self.with_page(ty, first)
        } else {
            ThreadState {
                open_run: Some(first),
                ..self
            }
        }
    }
}

/// Closes the regions of all states.
fn close_all(states: &mut [ThreadState])
    ensures { states.new ≡ map state_closed states.old }
{
    for state in states.iter_mut() {
        *state = state.closed();
    }
}

impl States {
    /// The states of so many threads before their first events.
    pub fn fresh(alloc: Global, threads: usize) -> Result<States, Memory>
        ensures { IfOk result (λ states. states ≡ replicate threads fresh_state) }
    {
        let mut states = Vec::new(alloc);
        match states.resize(threads, ThreadState::fresh()) {
            Ok(()) => Ok(States { states }),
            Err(_) => Err(Memory),
        }
    }

    /// How many threads there are.
    pub fn len(&self) -> usize
        ensures { result ≡ length self.now }
    {
        self.states.len()
    }

    /// The state of one thread.
    pub fn at(&self, t: usize) -> ThreadState
        requires { t < length self.now }
        ensures { result ≡ slice_index_or self.now t result }
    {
        self.states[t]
    }

    /// One thread is one command further in its script.
    #[inline(always)]
    pub fn advance(&mut self, t: usize)
        requires thread { t < length self.old }
        requires room { ForSome (slice_get self.old t) (λ state. state.done + 1 < 2 ^ 64) }
        ensures { self.new ≡ advanced self.old t }
    {
        self.states[t].done += 1;
    }

    /// One thread's object of a size was committed: it is one command further in its script, and a
    /// large object uses its run up.
    #[inline(always)]
    pub fn place(&mut self, t: usize, size: u32)
        requires thread { t < length self.old }
        requires room { ForSome (slice_get self.old t) (λ state. state.done + 1 < 2 ^ 64) }
        ensures { self.new ≡ with_placed self.old t size }
    {
        if size <= PAGE_WORDS {
            self.states[t].done += 1;
        } else {
            let state = self.states[t];
            self.states[t] = ThreadState {
                done: state.done + 1,
                open_run: None,
                ..state
            };
        }
    }

    /// A run of pages of a type is open for one thread from now on.
    pub fn open_region(&mut self, t: usize, ty: PageType, first: u32, pages: u32)
        requires { t < length self.old }
        ensures { self.new ≡ with_region_open self.old t ty first pages }
    {
        self.states[t] = self.states[t].with_region(ty, first, pages);
    }

    /// One thread has this inhibit count from now on.
    #[inline(always)]
    pub fn set_inhibits(&mut self, t: usize, count: u32)
        requires { t < length self.old }
        ensures { self.new ≡ with_inhibits self.old t count }
    {
        self.states[t].inhibits = count;
    }

    /// One thread owes a collection up to this generation from now on, or none.
    #[inline(always)]
    pub fn set_owed(&mut self, t: usize, owed: Option<u8>)
        requires { t < length self.old }
        ensures { self.new ≡ with_owed self.old t owed }
    {
        self.states[t].owed = owed;
    }

    /// One thread owes at least a collection of generation 0 from now on.
    pub fn ask(&mut self, t: usize)
        requires { t < length self.old }
        ensures { self.new ≡ with_asked self.old t }
    {
        self.states[t].owed = Some(self.states[t].owed.unwrap_or(0));
    }

    /// No thread has an open region from now on.
    pub fn close_regions(&mut self)
        ensures { self.new ≡ map state_closed self.old }
    {
        close_all(self.states.as_mut_slice());
    }

    /// One thread has ended.
    pub fn end(&mut self, t: usize)
        requires { t < length self.old }
        ensures { self.new ≡ with_ended self.old t }
    {
        self.states[t] = ThreadState {
            done: self.states[t].done,
            ended: true,
            ..ThreadState::fresh()
        };
    }
}
