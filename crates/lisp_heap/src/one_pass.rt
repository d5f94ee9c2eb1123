//! One pass of a collection over the fields of a World.

ghost use Rattle.std.specs.Prelude.{◌≡◌, ◌+◌, ◌<◌, ◌^◌, length, slice_index};
ghost use Rattle.generation_policy.specs.Numbers.{IsPossible, StatsStand};
ghost use Rattle.collect_pass.specs.Pass.{CanQueue};
ghost use Rattle.finalizers.specs.Standing.{FinalizersStand};
ghost use Rattle.heap_terms.specs.Passes.{after_pass};
ghost use Rattle.trace_laws.specs.Rooted.{Rooted};
ghost use Rattle.lisp_heap.specs.Collecting.{CanMake, IsMade};
ghost use Rattle.lisp_heap.specs.Counted.{CanCount, HasKept, counted_heap};

use crate::kept::kept_words;
use crate::recording::{RecordRoom, relabel, write_record};
use crate::scratch::Scratch;
use collect_pass::run_pass;
use copy_space::Pass;
use finalizers::Finalizers;
use generation_policy::{GenStats, account_after, account_before};
use heap_terms::PassRecord;
use page_table::PageTable;
use word_space::{Prefilled, Space};

/// Makes one pass, moves the labels with their objects, and answers what it did. A collection of
/// several passes does this once for each. It takes no memory.
pub fn make_pass(
    space: &mut Space,
    pages: &mut PageTable,
    finalizers: &mut Finalizers,
    labels: &mut Prefilled<u32>,
    scratch: &mut Scratch,
    pass: Pass,
    room: RecordRoom,
) -> PassRecord
    ghost h: { Rooted }
    requires can { CanMake h space.old pages.old labels.old scratch.old.roots.exact.items scratch.old.roots.ambiguous.items pass scratch.old.room room }
    requires queue { CanQueue h.heap finalizers.old scratch.old.room }
    ensures made { IsMade h space.new pages.new labels.new scratch.new.roots.exact.items scratch.new.roots.ambiguous.items pass result }
    ensures finalizers { FinalizersStand (after_pass h.heap result) finalizers.new }
    ensures ambiguous { scratch.new.roots.ambiguous.items ≡ scratch.old.roots.ambiguous.items }
    ensures room_pages { scratch.new.room.pages ≡ scratch.old.room.pages }
    ensures room_ambiguous { scratch.new.room.ambiguous ≡ scratch.old.room.ambiguous }
    ensures room_weak { scratch.new.room.weak ≡ scratch.old.room.weak }
    ensures room_queued { scratch.new.room.queued ≡ scratch.old.room.queued }
{
    run_pass(
        space,
        pages,
        finalizers,
        &mut scratch.roots,
        pass,
        &mut scratch.room,
    );
    let record = write_record(scratch.room.notes(), labels, room);
    relabel(labels, record.moves.as_slice());
    record
}

/// What a pass kept is counted: its generation has no other words, and they are its target's.
fn count_kept(stats: &mut GenStats, pass: Pass, kept: u64)
    requires possible { IsPossible pass }
    requires fits { slice_index stats.old.allocated (pass.generation + 1) + kept < 2 ^ 64 }
    ensures { HasKept stats.old stats.new pass kept }
{
    let place = pass.generation as usize;
    if pass.raise {
        stats.allocated[place] = 0;
        stats.allocated[place + 1] += kept;
    } else {
        stats.allocated[place] = kept;
    }
}

/// Makes one pass, and the policy's numbers are those of the heap after it.
pub fn make_counted_pass(
    space: &mut Space,
    pages: &mut PageTable,
    finalizers: &mut Finalizers,
    labels: &mut Prefilled<u32>,
    scratch: &mut Scratch,
    stats: &mut GenStats,
    pass: Pass,
    room: RecordRoom,
) -> PassRecord
    ghost h: { Rooted }
    requires can { CanMake h space.old pages.old labels.old scratch.old.roots.exact.items scratch.old.roots.ambiguous.items pass scratch.old.room room }
    requires counts { CanCount h.heap stats.old pass }
    requires queue { CanQueue h.heap finalizers.old scratch.old.room }
    ensures made { IsMade h space.new pages.new labels.new scratch.new.roots.exact.items scratch.new.roots.ambiguous.items pass result }
    ensures finalizers { FinalizersStand (after_pass h.heap result) finalizers.new }
    ensures numbers { StatsStand (counted_heap h.heap result pass) stats.new }
    ensures ambiguous { scratch.new.roots.ambiguous.items ≡ scratch.old.roots.ambiguous.items }
    ensures room_pages { scratch.new.room.pages ≡ scratch.old.room.pages }
    ensures room_ambiguous { scratch.new.room.ambiguous ≡ scratch.old.room.ambiguous }
    ensures room_weak { scratch.new.room.weak ≡ scratch.old.room.weak }
    ensures room_queued { scratch.new.room.queued ≡ scratch.old.room.queued }
{
    account_before(stats, pass);
    let made = make_pass(space, pages, finalizers, labels, scratch, pass, room);
    let kept = kept_words(space, &made);
    count_kept(stats, pass, kept);
    account_after(stats, pass);
    made
}
