//! The World.

ghost use Rattle.std.specs.Prelude.{◌≡◌, ◌↔◌, ◌<◌, ◌≤◌, ◌==◌, not, ℕ, [], length, IsSome, IsTrue, OnOk, OnErr, Some};
ghost use Rattle.std.specs.Option.{ForSome};
ghost use Rattle.heap_terms.specs.Heap.{thread_at};
ghost use Rattle.heap_terms.specs.declared.limits.TheConstants.{MOST_ELEMENTS, MOST_WORDS};
ghost use Rattle.heap_terms.specs.Layout.{size_of};
ghost use Rattle.heap_terms.specs.Regions.{Make, wish_of, has_room, page_has_room, run_has_room};
ghost use Rattle.heap_terms.specs.declared.pages.Next.{Next};
ghost use Rattle.heap_terms.specs.Histories.{Lawful, command_at, next_for};
ghost use Rattle.heap_terms.specs.Valid.{IsValid};
ghost use Rattle.heap_terms.specs.WellFormed.{IsWellFormed};
ghost use Rattle.lisp_heap.specs.Agreement.{Agrees, CanBuild};
ghost use Rattle.lisp_heap.specs.Events.{Happens};
ghost use Rattle.lisp_heap.specs.ParcelView.{ParcelView};
ghost use Rattle.lisp_heap.specs.Plan.{IsPlan};
ghost use Rattle.lisp_heap.specs.Standing.{Holds};
ghost use Rattle.lisp_heap.specs.State.{state_of};
ghost use Rattle.lisp_heap.specs.Wishes.{HasOpen, Wishes};
ghost use Rattle.lisp_heap.specs.View.{heap_of, next_of};

use crate::cells::CellWords;
use crate::parcels::Making;
use crate::pins::Pins;
use crate::plan::{Plan, apply};
use crate::scratch::Scratch;
use crate::states::{States, ThreadState};
use crate::wishes::wish;
use finalizers::Finalizers;
use generation_policy::GenStats;
use heap_terms::{Command, Entry, Event, Kind, Memory, Next, PAGE_WORDS, PageType, Program};
use lisp_words::{page_type, size_of};
use page_table::{PageTable, pages_needed};
use std::alloc::Global;
use std::marker::Model;
use word_space::{Prefilled, Space};

/// A script's heap: its words, pages, cells and history.
#[derive(Drop)]
pub struct World {
    /// Regions are opened with it.
    pub(crate) alloc: Global,
    pub(crate) program: Program,
    pub(crate) space: Space,
    pub(crate) pages: PageTable,
    /// For each double word the name of the object that starts there. Only printing reads it.
    pub(crate) labels: Prefilled<u32>,
    pub(crate) cells: CellWords,
    pub(crate) states: States,
    pub(crate) pins: Pins,
    pub(crate) commits: u32,
    /// The policy's numbers.
    pub(crate) stats: GenStats,
    /// The words that were committed since `auto` last asked for a collection; 0 without `auto`.
    pub(crate) counted: u64,
    /// How many commits let `auto` ask for a collection.
    pub(crate) triggered: u32,
    /// What is registered for objects, and what waits to be run.
    pub(crate) finalizers: Finalizers,
    pub(crate) history: Vec<Event>,
    /// What collections work with. A script without collections never needs it.
    pub(crate) scratch: Option<Scratch>,
}

impl Model for World {
    ghost use Rattle.lisp_heap.specs.View.{View};

    ghost Value = { View };

    ghost use Rattle.lisp_heap.specs.WorldSound.{view_of, IsSound};

    ghost view = { view_of };

    ghost invariant = { IsSound };
}

impl World {
    /// How many threads there are. It takes no memory.
    pub fn threads(&self) -> u32
        ensures { result ≡ length self.now.program.threads }
    {
        self.program.threads.len() as u32
    }

    /// The script that it runs. It takes no memory.
    pub fn program(&self) -> &Program
        ensures program { result.now ≡ self.now.program }
        ensures valid { IsValid self.now.program }
    {
        &self.program
    }

    /// What has happened so far: a lawful history of a valid program. What the World keeps stands
    /// for the heap that it leaves. It takes no memory.
    pub fn history(&self) -> &[Event]
        ensures history { result.now ≡ self.now.history }
        ensures lawful { Lawful self.now.program self.now.history }
        ensures valid { IsValid self.now.program }
        ensures stands { Holds (heap_of self.now) self.now.parts }
        ensures well_formed { IsWellFormed self.now.program (heap_of self.now) }
    {
        self.history.as_slice()
    }

    /// The command at thread t's place in its script.
    fn command(&self, t: usize) -> Option<Command>
        requires { t < length self.now.program.threads }
        ensures { result ≡ command_at self.now.program (heap_of self.now) t }
    {
        let script = self.program.threads.item(t);
        let done = self.states.at(t).done;
        if done < script.len() {
            Some(script.at(done))
        } else {
            None
        }
    }

    /// The command at thread t's place in its script, which is not done yet.
    #[inline(always)]
    pub(crate) fn current(&self, t: usize) -> Command
        requires thread { t < length self.now.program.threads }
        requires there { IsSome (command_at self.now.program (heap_of self.now) t) }
        ensures { command_at self.now.program (heap_of self.now) t ≡ Some result }
    {
        self.program.threads.item(t).at(self.states.at(t).done)
    }

    /// What thread t does next. Where it builds an object, every parcel of t that agrees has room
    /// for it. It takes no memory.
    #[inline(always)]
    pub fn next(&self, t: u32) -> Next
        requires { t < length self.now.program.threads }
        ensures next { result ≡ next_of self.now t }
        ensures room { (q : ParcelView) → q.owner ≡ t → Agrees (heap_of self.now) q → CanBuild result q }
    {
        let state = self.states.at(t as usize);
        if state.ended {
            return Next::Done;
        }
        if let Some(last) = state.due() {
            return Next::Collect(last);
        }
        match self.command(t as usize) {
            None => Next::End,
            Some(command) => self.next_for(state, command),
        }
    }

    /// Whether thread t has ended. It takes no memory.
    pub fn has_ended(&self, t: u32) -> bool
        requires { t < length self.now.program.threads }
        ensures { result ≡ (thread_at (heap_of self.now) t).ended }
    {
        self.states.at(t as usize).ended
    }

    /// Whether thread t inhibits collections. It takes no memory.
    pub fn inhibits(&self, t: u32) -> bool
        requires { t < length self.now.program.threads }
        ensures { result ≡ not ((thread_at (heap_of self.now) t).inhibits == 0) }
    {
        self.states.at(t as usize).inhibits != 0
    }

    /// What a thread in a state does for a command.
    #[inline(always)]
    fn next_for(&self, state: ThreadState, command: Command) -> Next
        requires { Wishes (heap_of self.now) state command }
        ensures { (t : ℕ) → state ≡ state_of (thread_at (heap_of self.now) t) →
            result ≡ next_for (heap_of self.now) t (wish_of command) }
    {
        // A cons has a way of its own, since it is the most usual object.
        match command {
            Command::NewCons { .. } => self.next_made(state, Kind::Cons, 2, 0),
            Command::NewVector { .. }
            | Command::NewInstance { .. }
            | Command::NewClosure { .. }
            | Command::NewWords { .. }
            | Command::NewWeak { .. }
            | Command::NewTable { .. } => self.next_wished(state, command),
            _ => Next::Simple,
        }
    }

    /// The same, for an object that is no cons.
    #[inline(never)]
    fn next_wished(&self, state: ThreadState, command: Command) -> Next
        requires { Wishes (heap_of self.now) state command }
        ensures { (t : ℕ) → state ≡ state_of (thread_at (heap_of self.now) t) →
            result ≡ next_for (heap_of self.now) t (wish_of command) }
    {
        match wish(command) {
            None => Next::Simple,
            Some(Making { kind, n, seed }) => self.next_made(state, kind, n, seed),
        }
    }

    /// What a thread in a state does that wants an object made.
    #[inline(always)]
    fn next_made(&self, state: ThreadState, kind: Kind, n: u32, seed: u64) -> Next
        requires regions { HasOpen (heap_of self.now) state }
        requires n { n ≤ MOST_ELEMENTS }
        ensures { (t : ℕ) → state ≡ state_of (thread_at (heap_of self.now) t) →
            result ≡ next_for (heap_of self.now) t (Make kind n seed) }
    {
        if self.has_room(state, kind, n) {
            Next::Build { kind, n, seed }
        } else {
            Next::Open
        }
    }

    /// Whether a thread in a state has room for an object of a kind with n words of payload: a small
    /// one in its open page of that type, a large one in the run that was opened for it.
    #[inline(always)]
    fn has_room(&self, state: ThreadState, kind: Kind, n: u32) -> bool
        requires regions { HasOpen (heap_of self.now) state }
        requires n { n ≤ MOST_ELEMENTS }
        ensures { (t : ℕ) → state ≡ state_of (thread_at (heap_of self.now) t) →
            result ≡ has_room (heap_of self.now) t kind (size_of kind n) }
    {
        let size = size_of(kind, n);
        if size <= PAGE_WORDS {
            self.page_has_room(state.open_page(page_type(kind)), size)
        } else {
            self.run_has_room(state.open_run, page_type(kind), size)
        }
    }

    /// Whether an open page has room for an object of a size.
    #[inline(always)]
    fn page_has_room(&self, page: Option<u32>, size: u32) -> bool
        requires page { ForSome page (λ page. page < length (heap_of self.now).pages) }
        requires size { size ≤ MOST_WORDS }
        ensures { result ≡ page_has_room (heap_of self.now).pages page size }
    {
        match page {
            None => false,
            Some(page) => match self.pages.entry(page) {
                Entry::Free => false,
                Entry::Used { fill, .. } => fill + size <= PAGE_WORDS,
            },
        }
    }

    /// Whether an open run was opened for a large object of a type and a size.
    #[inline(never)]
    fn run_has_room(&self, run: Option<u32>, ty: PageType, size: u32) -> bool
        requires run { ForSome run (λ page. page < length (heap_of self.now).pages) }
        requires size { size ≤ MOST_WORDS }
        ensures { result ≡ run_has_room (heap_of self.now).pages run ty size }
    {
        match run {
            None => false,
            Some(first) => match self.pages.entry(first) {
                Entry::Free => false,
                Entry::Used {
                    ty: own,
                    run_pages,
                    ..
                } => own == ty && run_pages == pages_needed(size),
            },
        }
    }

    /// Thread t does its next command, which allocates nothing. For want of memory nothing changes.
    pub fn perform(&mut self, t: u32) -> Result<(), Memory>
        requires thread { t < length self.old.program.threads }
        requires simple { next_of self.old t ≡ Next.Simple }
        ensures ok { OnOk result (Happens t self.old self.new) }
        ensures others { OnOk result ((q : ParcelView) → Agrees (heap_of self.old) q → Agrees (heap_of self.new) q) }
        ensures err { OnErr result (self.new ≡ self.old) }
    {
        // Looked into here, so that what follows may use what a World keeps true.
        let _program = &self.program;
        let command = self.current(t as usize);
        // Each command has a way of its own to the history, so that its entry is built once.
        match command {
            Command::Fix { d, n } => {
                let plan = self.fixed(t as usize, d, n);
                self.carry_out(t, command, plan)
            }
            Command::MakeNil { d } => {
                let plan = self.made_nil(t as usize, d);
                self.carry_out(t, command, plan)
            }
            Command::Move { d, c } => {
                let plan = self.moved(t as usize, d, c);
                self.carry_out(t, command, plan)
            }
            Command::Get { d, c, i } => {
                let plan = self.got(t as usize, d, c, i);
                self.carry_out(t, command, plan)
            }
            Command::Put { c, i, a } => {
                let plan = self.put(t as usize, c, i, a);
                self.carry_out(t, command, plan)
            }
            Command::RawGet { r, c, i } => {
                let plan = self.raw_got(t as usize, r, c, i);
                self.carry_out(t, command, plan)
            }
            Command::RawPut { c, i, r } => {
                let plan = self.raw_put(t as usize, c, i, r);
                self.carry_out(t, command, plan)
            }
            Command::Same { a, b } => {
                let plan = self.compared(t as usize, a, b);
                self.carry_out(t, command, plan)
            }
            Command::Show { c } => {
                let plan = self.shown(t as usize, c);
                self.carry_out(t, command, plan)
            }
            Command::Addr { r, c } => {
                let plan = self.addressed(t as usize, r, c);
                self.carry_out(t, command, plan)
            }
            Command::SetRaw { r, w } => {
                let plan = self.set(t as usize, r, w);
                self.carry_out(t, command, plan)
            }
            Command::AddRaw { r, k } => {
                let plan = self.added(t as usize, r, k);
                self.carry_out(t, command, plan)
            }
            Command::Inhibit => {
                let plan = self.inhibited(t as usize);
                self.carry_out(t, command, plan)
            }
            Command::Allow => {
                let plan = self.allowed(t as usize);
                self.carry_out(t, command, plan)
            }
            Command::Pin { c } => {
                let plan = self.pinned(t as usize, c);
                self.carry_out(t, command, plan)
            }
            Command::Unpin => {
                let plan = self.unpinned(t as usize);
                self.carry_out(t, command, plan)
            }
            Command::Collect { g } => {
                let plan = self.asked(t as usize, g);
                self.carry_out(t, command, plan)
            }
            Command::ShowPage { p } => {
                let plan = self.viewed(t as usize, p)?;
                self.carry_out(t, command, plan)
            }
            Command::Stat { g } => {
                let plan = self.told(t as usize, g);
                self.carry_out(t, command, plan)
            }
            Command::WeakVal { d, c } => {
                let plan = self.weak_read(t as usize, d, c);
                self.carry_out(t, command, plan)
            }
            Command::TableCount { c } => {
                let plan = self.pairs_counted(t as usize, c);
                self.carry_out(t, command, plan)
            }
            Command::TablePut { c, k, v } => self.put_pair(t, c, k, v),
            Command::TableGet { d, c, k } => self.get_value(t, d, c, k),
            Command::TableRem { c, k } => self.remove_pair(t, c, k),
            Command::Finalize { c, id } => self.finalized(t, command, c, id),
            Command::Cancel { c } => self.cancelled(t, command, c),
            Command::RunFinalizers => self.ran(t, command),
            // These allocate.
            Command::NewCons { .. }
            | Command::NewVector { .. }
            | Command::NewInstance { .. }
            | Command::NewClosure { .. }
            | Command::NewWords { .. }
            | Command::NewWeak { .. }
            | Command::NewTable { .. } => unreachable!(),
        }
    }

    /// Thread t's command is answered, and the word that it changes is written.
    #[inline(always)]
    pub(crate) fn carry_out(&mut self, t: u32, command: Command, plan: Plan) -> Result<(), Memory>
        requires thread { t < length self.old.program.threads }
        requires command { command_at self.old.program (heap_of self.old) t ≡ Some command }
        requires simple { next_of self.old t ≡ Next.Simple }
        requires plan { IsPlan (heap_of self.old) t command plan.answer plan.change }
        ensures ok { OnOk result (Happens t self.old self.new) }
        ensures others { OnOk result ((q : ParcelView) → Agrees (heap_of self.old) q → Agrees (heap_of self.new) q) }
        ensures err { OnErr result (self.new ≡ self.old) }
    {
        let Plan { answer, change } = plan;
        self.history.push(Event::Did {
            thread: t,
            command,
            answer,
        })?;
        apply(
            &mut self.cells,
            &mut self.space,
            &mut self.states,
            &mut self.pins,
            t as usize,
            change,
        );
        self.states.advance(t as usize);
        Ok(())
    }
}
