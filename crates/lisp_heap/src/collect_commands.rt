//! The command that asks for a collection: `gc`.

ghost use Rattle.std.specs.Prelude.{◌≡◌, ◌<◌, length};
ghost use Rattle.heap_terms.specs.declared.commands.Command.TheVariants as commands;
ghost use Rattle.heap_terms.specs.Outcomes.CollectionCommands.{owing};
ghost use Rattle.lisp_heap.specs.Plan.{IsPlan};
ghost use Rattle.lisp_heap.specs.View.{heap_of};

use crate::plan::{Change, Plan};
use crate::world::World;
use heap_terms::Answer;

/// The greater of what a thread owes and another generation.
fn greater(owed: Option<u8>, g: u8) -> u8
    ensures { owing owed g ≡ Some result }
{
    match owed {
        None => g,
        Some(last) => last.max(g),
    }
}

impl World {
    /// `gc`: the thread owes the greater of what it owed and this.
    pub(crate) fn asked(&self, t: usize, g: u8) -> Plan
        requires { t < length self.now.program.threads }
        ensures { IsPlan (heap_of self.now) t (commands.Collect g) result.answer result.change }
    {
        let last = greater(self.states.at(t).owed, g);
        Plan {
            answer: Answer::Done,
            change: Change::Owes { last },
        }
    }
}
