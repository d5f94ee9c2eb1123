//! The commands on a thread's pins: `pin` and `unpin`.

ghost use Rattle.std.specs.Prelude.{◌<◌, length};
ghost use Rattle.heap_terms.specs.declared.commands.Command.TheVariants as commands;
ghost use Rattle.heap_terms.specs.Valid.{IsCell};
ghost use Rattle.lisp_heap.specs.Plan.{IsPlan};
ghost use Rattle.lisp_heap.specs.View.{heap_of};

use crate::plan::{Change, Plan};
use crate::world::World;
use heap_terms::{Answer, Cell, MOST_PINS, Refusal};

impl World {
    /// `pin`.
    pub(crate) fn pinned(&self, t: usize, c: Cell) -> Plan
        requires thread { t < length self.now.program.threads }
        requires c { IsCell c }
        ensures { IsPlan (heap_of self.now) t (commands.Pin c) result.answer result.change }
    {
        let pins = self.pins.at(t);
        if pins.len() >= MOST_PINS as usize {
            return Plan::refused(Refusal::PinsFull);
        }
        Plan {
            answer: Answer::Done,
            change: Change::PushPin {
                word: self.cell(t, c),
            },
        }
    }

    /// `unpin`.
    pub(crate) fn unpinned(&self, t: usize) -> Plan
        requires { t < length self.now.program.threads }
        ensures { IsPlan (heap_of self.now) t commands.Unpin result.answer result.change }
    {
        let pins = self.pins.at(t);
        if pins.is_empty() {
            return Plan::refused(Refusal::Nothing);
        }
        Plan {
            answer: Answer::Done,
            change: Change::PopPin,
        }
    }
}
