//! All passes of a collection over the fields of a World.

ghost use Rattle.std.specs.Prelude.{◌≡◌, ◌+◌, ◌<◌, ◌≤◌, ◌∷◌, ◌++◌, [], Some, length, vec_len, vec_capacity};
ghost use Rattle.collect_pass.specs.Pass.{CanQueue, IsReservedFor};
ghost use Rattle.finalizers.specs.Standing.{FinalizersStand};
ghost use Rattle.heap_terms.specs.declared.events.PassRecord.{PassRecord as Record};
ghost use Rattle.heap_terms.specs.Collections.{ArePasses, after_pass_of, after_passes};
ghost use Rattle.trace_laws.specs.Rooted.{Rooted};
ghost use Rattle.lisp_heap.specs.AllPasses.{AreRooms, IsNextPass, IsStepped, Stand, StandNow};
ghost use Rattle.lisp_heap.specs.Recording.{HasRoom, sizes_of};

use crate::one_pass::make_counted_pass;
use crate::recording::RecordRoom;
use crate::scratch::Scratch;
use copy_space::Pass;
use finalizers::Finalizers;
use generation_policy::{GenStats, plan_next};
use heap_terms::PassRecord;
use page_table::PageTable;
use word_space::{Prefilled, Space};

/// Makes the pass that is planned, adds its record, and answers which pass follows.
fn make_next(
    space: &mut Space,
    pages: &mut PageTable,
    finalizers: &mut Finalizers,
    labels: &mut Prefilled<u32>,
    scratch: &mut Scratch,
    stats: &mut GenStats,
    last: u8,
    pass: Pass,
    room: RecordRoom,
    passes: &mut Vec<PassRecord>,
) -> Option<Pass>
    ghost h: { Rooted }
    requires stand { StandNow h h.heap (length passes.old.items) space.old pages.old labels.old scratch.old.roots.exact.items scratch.old.roots.ambiguous.items stats.old }
    requires next { IsNextPass h.heap last (length passes.old.items) pass }
    requires reserved { IsReservedFor scratch.old.room (length h.heap.pages) (length scratch.old.roots.ambiguous.items) (length h.heap.objects) }
    requires room { HasRoom room (sizes_of h.heap (length scratch.old.roots.ambiguous.items)) }
    requires push { vec_len passes.old < vec_capacity passes.old }
    requires queue { CanQueue h.heap finalizers.old scratch.old.room }
    ensures stepped { (r : Record) × (passes.new.items ≡ passes.old.items ++ r ∷ [])
        × IsStepped h last (length passes.old.items) pass space.new pages.new labels.new scratch.new.roots.exact.items scratch.new.roots.ambiguous.items stats.new r result
        × FinalizersStand (after_pass_of h.heap last (length passes.old.items) r) finalizers.new }
    ensures fewer { length finalizers.new.registered ≤ length finalizers.old.registered }
    ensures ambiguous { scratch.new.roots.ambiguous.items ≡ scratch.old.roots.ambiguous.items }
    ensures room_pages { scratch.new.room.pages ≡ scratch.old.room.pages }
    ensures room_ambiguous { scratch.new.room.ambiguous ≡ scratch.old.room.ambiguous }
    ensures room_weak { scratch.new.room.weak ≡ scratch.old.room.weak }
    ensures room_queued { scratch.new.room.queued ≡ scratch.old.room.queued }
    ensures count { vec_len passes.new ≡ vec_len passes.old + 1 }
    ensures capacity { vec_capacity passes.new ≡ vec_capacity passes.old }
{
    let made = make_counted_pass(space, pages, finalizers, labels, scratch, stats, pass, room);
    passes.push_reserved(made);
    plan_next(stats, last, Some(pass))
}

/// Makes the passes of a collection up to a generation, and adds their records to an empty list. At
/// most six are made, each with a room of its own for its record. It takes no memory, and leaves the rooms
/// that it did not need.
pub fn make_passes(
    space: &mut Space,
    pages: &mut PageTable,
    finalizers: &mut Finalizers,
    labels: &mut Prefilled<u32>,
    scratch: &mut Scratch,
    stats: &mut GenStats,
    last: u8,
    rooms: &mut Vec<RecordRoom>,
    passes: &mut Vec<PassRecord>,
)
    ghost h: { Rooted }
    requires stand { Stand h last space.old pages.old labels.old scratch.old.roots.exact.items scratch.old.roots.ambiguous.items stats.old [] }
    requires reserved { IsReservedFor scratch.old.room (length h.heap.pages) (length scratch.old.roots.ambiguous.items) (length h.heap.objects) }
    requires rooms { AreRooms rooms.old.items (sizes_of h.heap (length scratch.old.roots.ambiguous.items)) }
    requires six { vec_len rooms.old ≡ 6 }
    requires none { passes.old.items ≡ [] }
    requires capacity { 6 ≤ vec_capacity passes.old }
    requires queue { CanQueue h.heap finalizers.old scratch.old.room }
    ensures stand { Stand h last space.new pages.new labels.new scratch.new.roots.exact.items scratch.new.roots.ambiguous.items stats.new passes.new.items }
    ensures passes { ArePasses h.heap last 0 passes.new.items }
    ensures finalizers { FinalizersStand (after_passes h.heap last 0 passes.new.items) finalizers.new }
    ensures ambiguous { scratch.new.roots.ambiguous.items ≡ scratch.old.roots.ambiguous.items }
    ensures room_pages { scratch.new.room.pages ≡ scratch.old.room.pages }
    ensures room_ambiguous { scratch.new.room.ambiguous ≡ scratch.old.room.ambiguous }
    ensures room_weak { scratch.new.room.weak ≡ scratch.old.room.weak }
{
    let mut planned = plan_next(stats, last, None);
    while let Some(pass) = planned {
        let room = rooms.pop().unwrap();
        planned = make_next(
            space, pages, finalizers, labels, scratch, stats, last, pass, room, passes,
        );
    }
}
