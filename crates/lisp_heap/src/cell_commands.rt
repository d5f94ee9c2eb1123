//! The commands on cells alone: `fix`, `nil`, `move`, `eq` and `show`.

ghost use Rattle.std.specs.Prelude.{◌≡◌, ◌<◌, length};
ghost use Rattle.heap_terms.specs.declared.cells.Cell.{Cell};
ghost use Rattle.heap_terms.specs.declared.commands.Command.TheVariants as commands;
ghost use Rattle.heap_terms.specs.Cells.{cell_value};
ghost use Rattle.heap_terms.specs.Valid.{IsCell, IsFixnum};
ghost use Rattle.heap_terms.specs.Spelling.{word_of};
ghost use Rattle.lisp_heap.specs.Plan.{IsPlan};
ghost use Rattle.lisp_heap.specs.View.{heap_of};

use crate::plan::{Change, Plan};
use crate::world::World;
use heap_terms::{Answer, Cell};
use lisp_words::fixnum;

/// The word of NIL. The number is this project's own.
pub(crate) const NIL_WORD: u64 = 0x117;

impl World {
    /// The word in a cell of thread t.
    #[inline(always)]
    pub(crate) fn cell(&self, t: usize, cell: Cell) -> u64
        requires thread { t < length self.now.program.threads }
        requires cell { IsCell cell }
        ensures { result ≡ word_of (heap_of self.now).objects (cell_value (heap_of self.now) t cell) }
    {
        self.cells.read(t, cell)
    }

    /// `fix`.
    #[inline(always)]
    pub(crate) fn fixed(&self, t: usize, d: Cell, n: i64) -> Plan
        requires d { IsCell d }
        requires n { IsFixnum n }
        ensures { IsPlan (heap_of self.now) t (commands.Fix d n) result.answer result.change }
    {
        let word = fixnum(n).unwrap();
        Plan {
            answer: Answer::Done,
            change: Change::InCell { cell: d, word },
        }
    }

    /// `nil`.
    #[inline(always)]
    pub(crate) fn made_nil(&self, t: usize, d: Cell) -> Plan
        requires d { IsCell d }
        ensures { IsPlan (heap_of self.now) t (commands.MakeNil d) result.answer result.change }
    {
        Plan {
            answer: Answer::Done,
            change: Change::InCell {
                cell: d,
                word: NIL_WORD,
            },
        }
    }

    /// `move`.
    #[inline(always)]
    pub(crate) fn moved(&self, t: usize, d: Cell, c: Cell) -> Plan
        requires thread { t < length self.now.program.threads }
        requires d { IsCell d }
        requires c { IsCell c }
        ensures { IsPlan (heap_of self.now) t (commands.Move d c) result.answer result.change }
    {
        let word = self.cell(t, c);
        Plan {
            answer: Answer::Done,
            change: Change::InCell { cell: d, word },
        }
    }

    /// `eq`: two values are the same just where their words are.
    #[inline(always)]
    pub(crate) fn compared(&self, t: usize, a: Cell, b: Cell) -> Plan
        requires thread { t < length self.now.program.threads }
        requires a { IsCell a }
        requires b { IsCell b }
        ensures { IsPlan (heap_of self.now) t (commands.Same a b) result.answer result.change }
    {
        // Looked into here, so that what follows may use what a World keeps true.
        let _cells = &self.cells;
        let same = self.cell(t, a) == self.cell(t, b);
        Plan {
            answer: if same { Answer::Yes } else { Answer::No },
            change: Change::Nothing,
        }
    }

    /// `show`.
    #[inline(always)]
    pub(crate) fn shown(&self, t: usize, c: Cell) -> Plan
        requires thread { t < length self.now.program.threads }
        requires c { IsCell c }
        ensures { IsPlan (heap_of self.now) t (commands.Show c) result.answer result.change }
    {
        // Looked into here, so that what follows may use what a World keeps true.
        let _cells = &self.cells;
        let word = self.cell(t, c);
        Plan {
            answer: Answer::Val(self.value_of(word)),
            change: Change::Nothing,
        }
    }
}
