//! The commands on the fields of conses, vectors, instances and closures: `get` and `put`.

ghost use Rattle.std.specs.Prelude.{◌≡◌, ◌<◌, length};
ghost use Rattle.heap_terms.specs.declared.commands.Command.TheVariants as commands;
ghost use Rattle.heap_terms.specs.Valid.{IsCell};
ghost use Rattle.lisp_heap.specs.Plan.{IsPlan};
ghost use Rattle.lisp_heap.specs.View.{heap_of};

use crate::plan::{Change, Plan};
use crate::world::World;
use heap_terms::{Answer, Cell, Refusal};

impl World {
    /// `get`.
    #[inline(always)]
    pub(crate) fn got(&self, t: usize, d: Cell, c: Cell, i: u32) -> Plan
        requires thread { t < length self.now.program.threads }
        requires d { IsCell d }
        requires c { IsCell c }
        ensures { IsPlan (heap_of self.now) t (commands.Get d c i) result.answer result.change }
    {
        // Looked into here, so that what follows may use what a World keeps true.
        let _space = &self.space;
        let of = self.cell(t, c);
        let Some(fields) = self.fields(of) else {
            return Plan::refused(Refusal::NotType);
        };
        if i >= fields.count {
            return Plan::refused(Refusal::OutOfRange);
        }
        let word = self.space.read(fields.first + i);
        Plan {
            answer: Answer::Val(self.value_of(word)),
            change: Change::InCell { cell: d, word },
        }
    }

    /// `put`.
    #[inline(always)]
    pub(crate) fn put(&self, t: usize, c: Cell, i: u32, a: Cell) -> Plan
        requires thread { t < length self.now.program.threads }
        requires c { IsCell c }
        requires a { IsCell a }
        ensures { IsPlan (heap_of self.now) t (commands.Put c i a) result.answer result.change }
    {
        // Looked into here, so that what follows may use what a World keeps true.
        let _space = &self.space;
        let of = self.cell(t, c);
        let Some(fields) = self.fields(of) else {
            return Plan::refused(Refusal::NotType);
        };
        if i >= fields.count {
            return Plan::refused(Refusal::OutOfRange);
        }
        let word = self.cell(t, a);
        Plan {
            answer: Answer::Done,
            change: Change::InSpace {
                index: fields.first + i,
                word,
            },
        }
    }
}
