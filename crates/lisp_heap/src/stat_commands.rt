//! The command that tells the policy's numbers: `stat`.

ghost use Rattle.std.specs.Prelude.{◌≤◌};
ghost use Rattle.heap_terms.specs.declared.commands.Command.TheVariants as commands;
ghost use Rattle.heap_terms.specs.declared.limits.TheConstants.{OLDEST_GENERATION};
ghost use Rattle.lisp_heap.specs.Plan.{IsPlan};
ghost use Rattle.lisp_heap.specs.View.{heap_of};

use crate::plan::{Change, Plan};
use crate::world::World;
use heap_terms::Answer;

impl World {
    /// `stat`.
    pub(crate) fn told(&self, t: usize, g: u8) -> Plan
        requires { g ≤ OLDEST_GENERATION }
        ensures { IsPlan (heap_of self.now) t (commands.Stat g) result.answer result.change }
    {
        let place = g as usize;
        Plan {
            answer: Answer::Stat {
                allocated: self.stats.allocated[place],
                cum: self.stats.cum[place],
                num: self.stats.num[place],
            },
            change: Change::Nothing,
        }
    }
}
