//! The collection of a thread that is alone.

ghost use Rattle.std.specs.Prelude.{◌≡◌, ◌<◌, ℕ, length, true, OnErr, OnOk};
ghost use Rattle.heap_terms.specs.Heap.{thread_at};
ghost use Rattle.heap_terms.specs.Phases.{collects};
ghost use Rattle.lisp_heap.specs.Events.{Happens};
ghost use Rattle.lisp_heap.specs.View.{heap_of, next_of};
ghost use Rattle.heap_turns.specs.Parcels.{AreReady};

use heap_terms::Memory;
use lisp_heap::{CollectFault, Parcel, World};

/// The collection that is due for thread t, while nobody inhibits and every parcel agrees: no thread
/// keeps it from being made. For want of memory nothing changes.
#[cold]
#[inline(never)]
pub fn collect_alone(world: &mut World, t: u32, parcels: &mut [Parcel]) -> Result<(), Memory>
    requires thread { t < length world.old.program.threads }
    requires ready { AreReady world.old parcels.old }
    requires due { collects (next_of world.old t) ≡ true }
    requires allowed { (u : ℕ) → (thread_at (heap_of world.old) u).inhibits ≡ 0 }
    ensures ok { OnOk result (Happens t world.old world.new) }
    ensures ready { AreReady world.new parcels.new }
    ensures err { OnErr result (world.new ≡ world.old) }
{
    match world.collect(t, parcels) {
        Ok(()) => Ok(()),
        Err(CollectFault::Memory) => Err(Memory),
        Err(CollectFault::Busy(_)) => unreachable!(),
    }
}
