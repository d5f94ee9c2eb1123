//! The command on weak pointers: `weakval`.

ghost use Rattle.std.specs.Prelude.{◌≡◌, ◌<◌, length};
ghost use Rattle.heap_terms.specs.declared.commands.Command.TheVariants as commands;
ghost use Rattle.heap_terms.specs.Valid.{IsCell};
ghost use Rattle.lisp_heap.specs.Plan.{IsPlan};
ghost use Rattle.lisp_heap.specs.View.{heap_of};

use crate::cell_commands::NIL_WORD;
use crate::plan::{Change, Plan};
use crate::world::World;
use heap_terms::{Answer, Cell, Kind, Refusal};

/// The word of Unbound, to which a broken weak pointer points. The number is this project's own.
const UNBOUND_WORD: u64 = 0x51;

impl World {
    /// `weakval`.
    pub(crate) fn weak_read(&self, t: usize, d: Cell, c: Cell) -> Plan
        requires thread { t < length self.now.program.threads }
        requires d { IsCell d }
        requires c { IsCell c }
        ensures { IsPlan (heap_of self.now) t (commands.WeakVal d c) result.answer result.change }
    {
        // Looked into here, so that what follows may use what a World keeps true.
        let _space = &self.space;
        let of = self.cell(t, c);
        let Some(index) = self.object_of_kind(of, Kind::Weak) else {
            return Plan::refused(Refusal::NotType);
        };
        let word = self.space.read(index + 1);
        if word == UNBOUND_WORD {
            return Plan {
                answer: Answer::Broken,
                change: Change::InCell {
                    cell: d,
                    word: NIL_WORD,
                },
            };
        }
        Plan {
            answer: Answer::Live(self.value_of(word)),
            change: Change::InCell { cell: d, word },
        }
    }
}
