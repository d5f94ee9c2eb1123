//! Whether a collection is due for a thread.

ghost use Rattle.std.specs.Prelude.{◌≡◌, ◌<◌, length};
ghost use Rattle.heap_terms.specs.Phases.{collects};
ghost use Rattle.lisp_heap.specs.View.{next_of};

use crate::world::World;

impl World {
    /// Whether a collection is what thread t does next: it owes one and does not inhibit. It takes
    /// no memory.
    #[inline(always)]
    pub fn is_due(&self, t: u32) -> bool
        requires { t < length self.now.program.threads }
        ensures { result ≡ collects (next_of self.now t) }
    {
        let state = self.states.at(t as usize);
        !state.ended && state.due().is_some()
    }
}
