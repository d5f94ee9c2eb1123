//! The pass itself.

ghost use Rattle.std.specs.Prelude.{◌≡◌, ◌≤◌, false};
ghost use Rattle.heap_terms.specs.declared.limits.TheConstants.{OLDEST_COLLECTED};
ghost use Rattle.heap_terms.specs.Policy.{target_of as target_after};
ghost use Rattle.collect_pass.specs.Pass.{CanPass, CanQueue, IsPassDone};
ghost use Rattle.trace_laws.specs.Rooted.{Rooted};

use crate::notes::{clear_notes, finish_notes};
use crate::room::PassRoom;
use crate::tracing::trace;
use ambiguous_roots::find_pins;
use copy_space::{Pass, clear_marks};
use finalizers::Finalizers;
use page_sweep::{Traced, sweep};
use page_table::PageTable;
use word_space::Space;

/// The roots of a heap.
#[derive(Drop)]
pub struct Roots {
    /// The words in exact cells. A pass rewrites them.
    pub exact: Vec<u64>,
    /// The words that pin what they hit. No pass changes them.
    pub ambiguous: Vec<u64>,
}

/// The generation of what remains of a pass.
fn target_of(pass: Pass) -> u8
    requires { pass.generation ≤ OLDEST_COLLECTED }
    ensures { result ≡ target_after pass.generation pass.raise }
{
    if pass.raise {
        pass.generation + 1
    } else {
        pass.generation
    }
}

/// Makes one pass. It takes no memory and cannot be refused.
pub fn run_pass(
    space: &mut Space,
    pages: &mut PageTable,
    finalizers: &mut Finalizers,
    roots: &mut Roots,
    pass: Pass,
    room: &mut PassRoom,
)
    ghost h: { Rooted }
    requires can { CanPass h space.old pages.old roots.old.exact.items roots.old.ambiguous.items pass room.old }
    requires queue { CanQueue h.heap finalizers.old room.old }
    ensures done { IsPassDone h space.new pages.new finalizers.new roots.new.exact.items roots.new.ambiguous.items pass room.new.notes }
    ensures ambiguous { roots.new.ambiguous.items ≡ roots.old.ambiguous.items }
    ensures room_pages { room.new.pages ≡ room.old.pages }
    ensures room_ambiguous { room.new.ambiguous ≡ room.old.ambiguous }
    ensures room_weak { room.new.weak ≡ room.old.weak }
    ensures room_queued { room.new.queued ≡ room.old.queued }
{
    clear_notes(&mut room.notes);
    let ambiguous = roots.ambiguous.as_slice();
    let count = find_pins(
        space,
        pages,
        pass.generation,
        ambiguous,
        &mut room.hints,
        &mut room.pins,
    );
    let exact = roots.exact.as_mut_slice();
    trace(
        space,
        pages,
        &mut room.marks,
        &room.pins,
        pass,
        exact,
        &mut room.notes,
        &mut room.weak,
        &mut room.waiting,
        finalizers,
        count,
    );
    let target = target_of(pass);
    let traced = Traced {
        marks: &room.marks,
        pins: &room.pins,
        moves: room.notes.moves.as_slice(),
        pass,
        target,
    };
    sweep(space, pages, &traced, &mut room.held, &mut room.notes.freed);
    finish_notes(&mut room.notes, &room.pins, pass, target, count);
    clear_marks(&mut room.marks, &room.pins, room.notes.moves.as_slice());
    room.pins.clear();
    room.weak.clear();
}
