//! The commands on finalizers: `finalize`, `cancel` and `runfin`. Each takes its memory before it
//! changes anything.

ghost use Rattle.std.specs.Prelude.{◌≡◌, ◌<◌, length, OnOk, OnErr, Some};
ghost use Rattle.heap_terms.specs.declared.answers.Answer.{Answer};
ghost use Rattle.heap_terms.specs.declared.commands.Command.TheVariants as commands;
ghost use Rattle.heap_terms.specs.declared.pages.Next.{Next};
ghost use Rattle.heap_terms.specs.Histories.{command_at};
ghost use Rattle.heap_terms.specs.Valid.{IsCell};
ghost use Rattle.lisp_heap.specs.Agreement.{Agrees};
ghost use Rattle.lisp_heap.specs.Events.{Happens};
ghost use Rattle.lisp_heap.specs.FinalizerPlan.{IsFinalizerPlan, count_for, with_one_more, without, without_queue};
ghost use Rattle.lisp_heap.specs.ParcelView.{ParcelView};
ghost use Rattle.lisp_heap.specs.View.{heap_of, next_of};

use crate::plan::{Change, Plan};
use crate::world::World;
use heap_terms::{Answer, Cell, Command, Event, Memory, Refusal, Seq};

impl World {
    /// `finalize`.
    #[cold]
    #[inline(never)]
    pub(crate) fn finalized(
        &mut self,
        t: u32,
        command: Command,
        c: Cell,
        id: u32,
    ) -> Result<(), Memory>
        requires thread { t < length self.old.program.threads }
        requires command { command_at self.old.program (heap_of self.old) t ≡ Some command }
        requires simple { next_of self.old t ≡ Next.Simple }
        requires is { command ≡ commands.Finalize c id }
        requires c { IsCell c }
        ensures ok { OnOk result (Happens t self.old self.new) }
        ensures others { OnOk result ((q : ParcelView) → Agrees (heap_of self.old) q → Agrees (heap_of self.new) q) }
        ensures err { OnErr result (self.new ≡ self.old) }
    {
        // Looked into here, so that what follows may use what a World keeps true.
        let _cells = &self.cells;
        let word = self.cell(t as usize, c);
        match self.referent(word) {
            Some(_) => self.register(t, command, word, id),
            None => {
                let plan = Plan::refused(Refusal::NotType);
                self.carry_out(t, command, plan)
            }
        }
    }

    /// Registers an id for the object of a word.
    fn register(&mut self, t: u32, command: Command, word: u64, id: u32) -> Result<(), Memory>
        requires thread { t < length self.old.program.threads }
        requires command { command_at self.old.program (heap_of self.old) t ≡ Some command }
        requires simple { next_of self.old t ≡ Next.Simple }
        requires plan { IsFinalizerPlan (heap_of self.old) t command Answer.Done (with_one_more self.old.parts.finalizers word id) }
        ensures ok { OnOk result (Happens t self.old self.new) }
        ensures others { OnOk result ((q : ParcelView) → Agrees (heap_of self.old) q → Agrees (heap_of self.new) q) }
        ensures err { OnErr result (self.new ≡ self.old) }
    {
        self.history.reserve(1)?;
        self.finalizers.add(word, id)?;
        self.history.push_reserved(Event::Did {
            thread: t,
            command,
            answer: Answer::Done,
        });
        self.states.advance(t as usize);
        Ok(())
    }

    /// `cancel`.
    #[cold]
    #[inline(never)]
    pub(crate) fn cancelled(&mut self, t: u32, command: Command, c: Cell) -> Result<(), Memory>
        requires thread { t < length self.old.program.threads }
        requires command { command_at self.old.program (heap_of self.old) t ≡ Some command }
        requires simple { next_of self.old t ≡ Next.Simple }
        requires is { command ≡ commands.Cancel c }
        requires c { IsCell c }
        ensures ok { OnOk result (Happens t self.old self.new) }
        ensures others { OnOk result ((q : ParcelView) → Agrees (heap_of self.old) q → Agrees (heap_of self.new) q) }
        ensures err { OnErr result (self.new ≡ self.old) }
    {
        // Looked into here, so that what follows may use what a World keeps true.
        let _cells = &self.cells;
        let word = self.cell(t as usize, c);
        match self.referent(word) {
            Some(_) => self.cancel_all(t, command, word),
            None => {
                let plan = Plan::refused(Refusal::NotType);
                self.carry_out(t, command, plan)
            }
        }
    }

    /// Cancels all that is registered for the object of a word.
    fn cancel_all(&mut self, t: u32, command: Command, word: u64) -> Result<(), Memory>
        requires thread { t < length self.old.program.threads }
        requires command { command_at self.old.program (heap_of self.old) t ≡ Some command }
        requires simple { next_of self.old t ≡ Next.Simple }
        requires plan { IsFinalizerPlan (heap_of self.old) t command (Answer.Count (count_for self.old.parts.finalizers word)) (without self.old.parts.finalizers word) }
        ensures ok { OnOk result (Happens t self.old self.new) }
        ensures others { OnOk result ((q : ParcelView) → Agrees (heap_of self.old) q → Agrees (heap_of self.new) q) }
        ensures err { OnErr result (self.new ≡ self.old) }
    {
        self.history.reserve(1)?;
        let count = self.finalizers.cancel(word);
        self.history.push_reserved(Event::Did {
            thread: t,
            command,
            answer: Answer::Count(u64::from(count)),
        });
        self.states.advance(t as usize);
        Ok(())
    }

    /// `runfin`.
    #[cold]
    #[inline(never)]
    pub(crate) fn ran(&mut self, t: u32, command: Command) -> Result<(), Memory>
        requires thread { t < length self.old.program.threads }
        requires command { command_at self.old.program (heap_of self.old) t ≡ Some command }
        requires simple { next_of self.old t ≡ Next.Simple }
        requires is { command ≡ commands.RunFinalizers }
        ensures ok { OnOk result (Happens t self.old self.new) }
        ensures others { OnOk result ((q : ParcelView) → Agrees (heap_of self.old) q → Agrees (heap_of self.new) q) }
        ensures err { OnErr result (self.new ≡ self.old) }
    {
        if self.finalizers.queue_len() == 0 {
            let plan = Plan {
                answer: Answer::Absent,
                change: Change::Nothing,
            };
            return self.carry_out(t, command, plan);
        }
        self.run_queue(t, command)
    }

    /// Empties the queue, and answers what was in it.
    fn run_queue(&mut self, t: u32, command: Command) -> Result<(), Memory>
        requires thread { t < length self.old.program.threads }
        requires command { command_at self.old.program (heap_of self.old) t ≡ Some command }
        requires simple { next_of self.old t ≡ Next.Simple }
        requires plan { IsFinalizerPlan (heap_of self.old) t command (Answer.Ran self.old.parts.finalizers.queue) (without_queue self.old.parts.finalizers) }
        ensures ok { OnOk result (Happens t self.old self.new) }
        ensures others { OnOk result ((q : ParcelView) → Agrees (heap_of self.old) q → Agrees (heap_of self.new) q) }
        ensures err { OnErr result (self.new ≡ self.old) }
    {
        let mut ids = Vec::with_capacity(self.alloc, self.finalizers.queue_len() as usize)?;
        self.history.reserve(1)?;
        self.finalizers.take_queue(&mut ids);
        self.history.push_reserved(Event::Did {
            thread: t,
            command,
            answer: Answer::Ran(Seq::from_vec(ids)),
        });
        self.states.advance(t as usize);
        Ok(())
    }
}
