//! The commands on raw words: `addr`, `raw`, `add`, `rawget` and `rawput`.

ghost use Rattle.std.specs.Prelude.{◌≡◌, ◌<◌, length};
ghost use Rattle.heap_terms.specs.declared.commands.Command.TheVariants as commands;
ghost use Rattle.heap_terms.specs.RawCells.{raw_value};
ghost use Rattle.heap_terms.specs.Valid.{IsCell, IsRaw};
ghost use Rattle.lisp_heap.specs.Plan.{IsPlan};
ghost use Rattle.lisp_heap.specs.View.{heap_of};

use crate::plan::{Change, Plan};
use crate::world::World;
use heap_terms::{Answer, Cell, Raw, Refusal};

impl World {
    /// The word in a raw cell of thread t.
    #[inline(always)]
    fn raw(&self, t: usize, r: Raw) -> u64
        requires thread { t < length self.now.program.threads }
        requires cell { IsRaw r }
        ensures { result ≡ raw_value (heap_of self.now) t r }
    {
        self.cells.raw(t, r)
    }

    /// `addr`.
    #[inline(always)]
    pub(crate) fn addressed(&self, t: usize, r: Raw, c: Cell) -> Plan
        requires thread { t < length self.now.program.threads }
        requires r { IsRaw r }
        requires c { IsCell c }
        ensures { IsPlan (heap_of self.now) t (commands.Addr r c) result.answer result.change }
    {
        let word = self.cell(t, c);
        Plan {
            answer: Answer::Word(word),
            change: Change::InRaw { r, word },
        }
    }

    /// `raw`.
    #[inline(always)]
    pub(crate) fn set(&self, t: usize, r: Raw, word: u64) -> Plan
        requires r { IsRaw r }
        ensures { IsPlan (heap_of self.now) t (commands.SetRaw r word) result.answer result.change }
    {
        Plan {
            answer: Answer::Done,
            change: Change::InRaw { r, word },
        }
    }

    /// `add`.
    #[inline(always)]
    pub(crate) fn added(&self, t: usize, r: Raw, k: i64) -> Plan
        requires thread { t < length self.now.program.threads }
        requires r { IsRaw r }
        ensures { IsPlan (heap_of self.now) t (commands.AddRaw r k) result.answer result.change }
    {
        let word = self.raw(t, r).wrapping_add_signed(k);
        Plan {
            answer: Answer::Word(word),
            change: Change::InRaw { r, word },
        }
    }

    /// `rawget`.
    #[inline(always)]
    pub(crate) fn raw_got(&self, t: usize, r: Raw, c: Cell, i: u32) -> Plan
        requires thread { t < length self.now.program.threads }
        requires r { IsRaw r }
        requires c { IsCell c }
        ensures { IsPlan (heap_of self.now) t (commands.RawGet r c i) result.answer result.change }
    {
        // Looked into here, so that what follows may use what a World keeps true.
        let _space = &self.space;
        let of = self.cell(t, c);
        let Some(words) = self.raws(of) else {
            return Plan::refused(Refusal::NotType);
        };
        if i >= words.count {
            return Plan::refused(Refusal::OutOfRange);
        }
        let word = self.space.read(words.first + i);
        Plan {
            answer: Answer::Word(word),
            change: Change::InRaw { r, word },
        }
    }

    /// `rawput`.
    #[inline(always)]
    pub(crate) fn raw_put(&self, t: usize, c: Cell, i: u32, r: Raw) -> Plan
        requires thread { t < length self.now.program.threads }
        requires c { IsCell c }
        requires r { IsRaw r }
        ensures { IsPlan (heap_of self.now) t (commands.RawPut c i r) result.answer result.change }
    {
        // Looked into here, so that what follows may use what a World keeps true.
        let _space = &self.space;
        let of = self.cell(t, c);
        let Some(words) = self.raws(of) else {
            return Plan::refused(Refusal::NotType);
        };
        if i >= words.count {
            return Plan::refused(Refusal::OutOfRange);
        }
        let word = self.raw(t, r);
        Plan {
            answer: Answer::Done,
            change: Change::InSpace {
                index: words.first + i,
                word,
            },
        }
    }
}
