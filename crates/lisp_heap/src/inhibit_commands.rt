//! The commands by which a thread inhibits collections: `nogc` and `gcok`.

ghost use Rattle.std.specs.Prelude.{◌≡◌, ◌<◌, Some, length};
ghost use Rattle.heap_terms.specs.declared.commands.Command.TheVariants as commands;
ghost use Rattle.heap_terms.specs.Histories.{command_at};
ghost use Rattle.lisp_heap.specs.Plan.{IsPlan};
ghost use Rattle.lisp_heap.specs.View.{heap_of};

use crate::plan::{Change, Plan};
use crate::world::World;
use heap_terms::{Answer, Refusal};

impl World {
    /// `nogc`.
    #[inline(always)]
    pub(crate) fn inhibited(&self, t: usize) -> Plan
        requires thread { t < length self.now.program.threads }
        requires command { command_at self.now.program (heap_of self.now) t ≡ Some commands.Inhibit }
        ensures { IsPlan (heap_of self.now) t commands.Inhibit result.answer result.change }
    {
        let count = self.states.at(t).inhibits;
        Plan {
            answer: Answer::Done,
            change: Change::Inhibits { count: count + 1 },
        }
    }

    /// `gcok`.
    #[inline(always)]
    pub(crate) fn allowed(&self, t: usize) -> Plan
        requires { t < length self.now.program.threads }
        ensures { IsPlan (heap_of self.now) t commands.Allow result.answer result.change }
    {
        let count = self.states.at(t).inhibits;
        if count == 0 {
            return Plan::refused(Refusal::Nothing);
        }
        Plan {
            answer: Answer::Done,
            change: Change::Inhibits { count: count - 1 },
        }
    }
}
