//! Committing objects.

ghost use Rattle.std.specs.Prelude.{◌≡◌, ◌≢◌, ◌<◌, ℕ, [], Some, length, OnOk, OnErr, IfOk};
ghost use Rattle.heap_terms.specs.declared.commands.Command.TheVariants as commands;
ghost use Rattle.heap_terms.specs.declared.kinds.Kind.TheVariants as kinds;
ghost use Rattle.heap_terms.specs.Fresh.{fresh_contents};
ghost use Rattle.heap_terms.specs.Histories.{command_at};
ghost use Rattle.heap_terms.specs.Regions.{Make, initial_contents, wish_of};
ghost use Rattle.heap_terms.specs.Spelling.{spelling};
ghost use Rattle.lisp_heap.specs.Agreement.{Agrees, IsBuiltFor, OthersAgree, accepted_for};
ghost use Rattle.lisp_heap.specs.Commits.{CanFill, IsCommit, pages_filled};
ghost use Rattle.lisp_heap.specs.Events.{Happens};
ghost use Rattle.lisp_heap.specs.ParcelView.{ParcelView};
ghost use Rattle.lisp_heap.specs.View.{heap_of, next_of};

use crate::counting::{add_words, count_words};
use crate::parcels::{Making, Parcel};
use crate::wishes::{destination, wish};
use crate::world::World;
use heap_terms::{Answer, Cell, Command, Event, Kind, Memory, Owned, PAGE_WORDS};
use lisp_words::{size_of, tag};
use page_table::PageTable;

/// Says in the page table that an object of a size lies from an index on: a small one on its page, a
/// large one in the whole run that begins there.
#[inline(always)]
fn fill_pages(pages: &mut PageTable, index: u32, size: u32)
    requires { CanFill pages.old index size }
    ensures { pages.new ≡ pages_filled pages.old index size }
{
    let page = index / PAGE_WORDS;
    if size <= PAGE_WORDS {
        pages.set_fill(page, index % PAGE_WORDS + size);
    } else {
        pages.fill_run(page, size);
    }
}

impl World {
    /// Commits the object that is built in the parcel, and answers its name. For want of memory
    /// nothing changes.
    pub fn commit(&mut self, parcel: &mut Parcel) -> Result<u32, Memory>
        requires thread { parcel.old.owner < length self.old.program.threads }
        requires agrees { Agrees (heap_of self.old) parcel.old }
        requires built { IsBuiltFor (next_of self.old parcel.old.owner) parcel.old }
        ensures ok { OnOk result (Happens parcel.old.owner self.old self.new) }
        ensures name { IfOk result (λ name. name ≡ length (heap_of self.old).objects) }
        ensures agrees { OnOk result (Agrees (heap_of self.new) parcel.new) }
        ensures others { OnOk result (OthersAgree (heap_of self.old) (heap_of self.new) parcel.old.owner) }
        ensures accepted { OnOk result (parcel.new ≡ accepted_for (next_of self.old parcel.old.owner) parcel.old) }
        ensures owner { parcel.new.owner ≡ parcel.old.owner }
        ensures err { OnErr result (self.new ≡ self.old) }
        ensures kept { OnErr result (parcel.new ≡ parcel.old) }
    {
        // Looked into here, so that what follows may use what a World keeps true.
        let _program = &self.program;
        let command = self.current(parcel.owner() as usize);
        match command {
            Command::NewCons { d, a, b } => self.commit_cons(parcel, d, a, b),
            _ => self.commit_built(parcel, command),
        }
    }

    /// Commits a cons. Both its words come from cells, so they are written as they are read, and
    /// nothing is copied from where the region builds: with the bump of the region's next index a
    /// cons costs two words written, a label, a fill, a cell and the counts.
    #[inline(always)]
    fn commit_cons(&mut self, parcel: &mut Parcel, d: Cell, a: Cell, b: Cell) -> Result<u32, Memory>
        requires thread { parcel.old.owner < length self.old.program.threads }
        requires agrees { Agrees (heap_of self.old) parcel.old }
        requires built { IsBuiltFor (next_of self.old parcel.old.owner) parcel.old }
        requires command { command_at self.old.program (heap_of self.old) parcel.old.owner ≡ Some (commands.NewCons d a b) }
        ensures ok { OnOk result (Happens parcel.old.owner self.old self.new) }
        ensures name { IfOk result (λ name. name ≡ length (heap_of self.old).objects) }
        ensures agrees { OnOk result (Agrees (heap_of self.new) parcel.new) }
        ensures others { OnOk result (OthersAgree (heap_of self.old) (heap_of self.new) parcel.old.owner) }
        ensures accepted { OnOk result (parcel.new ≡ accepted_for (next_of self.old parcel.old.owner) parcel.old) }
        ensures owner { parcel.new.owner ≡ parcel.old.owner }
        ensures err { OnErr result (self.new ≡ self.old) }
        ensures kept { OnErr result (parcel.new ≡ parcel.old) }
    {
        // Looked into here, so that what follows may use what a World keeps true.
        let _program = &self.program;
        let t = parcel.owner();
        let words = [self.cell(t as usize, a), self.cell(t as usize, b)];
        let index = parcel.next_for(Kind::Cons, 2);
        let command = Command::NewCons { d, a, b };
        let name = self.place(t, command, d, index, Kind::Cons, 2, &words)?;
        parcel.accept(Making {
            kind: Kind::Cons,
            n: 2,
            seed: 0,
        });
        Ok(name)
    }

    /// Commits an object of any other kind, whose words were built in its region.
    #[inline(never)]
    fn commit_built(&mut self, parcel: &mut Parcel, command: Command) -> Result<u32, Memory>
        requires thread { parcel.old.owner < length self.old.program.threads }
        requires agrees { Agrees (heap_of self.old) parcel.old }
        requires built { IsBuiltFor (next_of self.old parcel.old.owner) parcel.old }
        requires command { command_at self.old.program (heap_of self.old) parcel.old.owner ≡ Some command }
        requires no_cons { (seed : ℕ) → wish_of command ≢ Make kinds.Cons 2 seed }
        ensures ok { OnOk result (Happens parcel.old.owner self.old self.new) }
        ensures name { IfOk result (λ name. name ≡ length (heap_of self.old).objects) }
        ensures agrees { OnOk result (Agrees (heap_of self.new) parcel.new) }
        ensures others { OnOk result (OthersAgree (heap_of self.old) (heap_of self.new) parcel.old.owner) }
        ensures accepted { OnOk result (parcel.new ≡ accepted_for (next_of self.old parcel.old.owner) parcel.old) }
        ensures owner { parcel.new.owner ≡ parcel.old.owner }
        ensures err { OnErr result (self.new ≡ self.old) }
        ensures kept { OnErr result (parcel.new ≡ parcel.old) }
    {
        // Looked into here, so that what follows may use what a World keeps true.
        let _program = &self.program;
        let t = parcel.owner();
        let making = wish(command).unwrap();
        let d = destination(command).unwrap();
        let index = parcel.next_for(making.kind, making.n);
        let words = parcel.built(making);
        let name = self.place_built(t, command, d, index, making, words)?;
        parcel.accept(making);
        Ok(name)
    }

    /// Commits thread t's object at an index, whose words are as a region builds them. What a weak
    /// pointer points to comes from a cell.
    fn place_built(
        &mut self,
        t: u32,
        command: Command,
        d: Cell,
        index: u32,
        making: Making,
        built: &[u64],
    ) -> Result<u32, Memory>
        requires thread { t < length self.old.program.threads }
        requires commit { IsCommit self.old t command d index making.kind making.n }
        requires wish { wish_of command ≡ Make making.kind making.n making.seed }
        requires no_cons { making.kind ≢ kinds.Cons }
        requires built { built.now ≡ spelling [] (fresh_contents making.kind making.n making.seed) }
        ensures ok { OnOk result (Happens t self.old self.new) }
        ensures name { IfOk result (λ name. name ≡ length (heap_of self.old).objects) }
        ensures agrees { OnOk result ((q : ParcelView) → q.owner ≡ t → Agrees (heap_of self.old) q → Agrees (heap_of self.new) (accepted_for (next_of self.old t) q)) }
        ensures others { OnOk result (OthersAgree (heap_of self.old) (heap_of self.new) t) }
        ensures err { OnErr result (self.new ≡ self.old) }
    {
        // Looked into here, so that what follows may use what a World keeps true.
        let _program = &self.program;
        let Making { kind, n, .. } = making;
        if let Command::NewWeak { c, .. } = command {
            let words = [built[0], self.cell(t as usize, c)];
            return self.place(t, command, d, index, kind, n, &words);
        }
        self.place(t, command, d, index, kind, n, built)
    }

    /// Commits thread t's object at an index.
    #[inline(always)]
    fn place(
        &mut self,
        t: u32,
        command: Command,
        d: Cell,
        index: u32,
        kind: Kind,
        n: u32,
        words: &[u64],
    ) -> Result<u32, Memory>
        requires thread { t < length self.old.program.threads }
        requires commit { IsCommit self.old t command d index kind n }
        requires words { words.now ≡ spelling (heap_of self.old).objects (initial_contents (heap_of self.old) t command) }
        ensures ok { OnOk result (Happens t self.old self.new) }
        ensures name { IfOk result (λ name. name ≡ length (heap_of self.old).objects) }
        ensures agrees { OnOk result ((q : ParcelView) → q.owner ≡ t → Agrees (heap_of self.old) q → Agrees (heap_of self.new) (accepted_for (next_of self.old t) q)) }
        ensures others { OnOk result (OthersAgree (heap_of self.old) (heap_of self.new) t) }
        ensures err { OnErr result (self.new ≡ self.old) }
    {
        let name = self.commits;
        self.history.push(Event::Did {
            thread: t,
            command,
            answer: Answer::Placed { name, index },
        })?;
        let size = size_of(kind, n);
        self.space.write_all(index, words);
        self.labels.set((index / 2) as usize, name);
        fill_pages(&mut self.pages, index, size);
        self.cells.write(t as usize, d, tag(index, kind));
        self.commits += 1;
        self.states.place(t as usize, size);
        add_words(&mut self.stats, size);
        count_words(
            self.program.auto,
            &mut self.counted,
            &mut self.triggered,
            &mut self.states,
            t as usize,
            size,
        );
        Ok(name)
    }
}
