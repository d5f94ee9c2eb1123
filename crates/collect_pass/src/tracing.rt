//! Tracing: the roots are evacuated, and what they reach is scanned, until nothing is left. Then dead
//! pairs are culled, weak pointers broken, and the finalizers of what died queued.

ghost use Rattle.std.specs.Prelude.{◌≡◌, count_by};
ghost use Rattle.heap_terms.specs.Generations.{is_of, names};
ghost use Rattle.heap_terms.specs.Heap.{NamedHeap};
ghost use Rattle.copy_space.specs.Settled.{is_settled};
ghost use Rattle.copy_space.specs.State.{state};
ghost use Rattle.finalizers.specs.Sweeping.{IsSwept};
ghost use Rattle.scavenge.specs.Fields.{IsSameCopier};
ghost use Rattle.scavenge.specs.Noting.{Notes};
ghost use Rattle.trace_laws.specs.Rooted.{Rooted};
ghost use Rattle.trace_laws.specs.Traced.{IsTraced};
ghost use Rattle.collect_pass.specs.Evacuated.{CanEvacuateRoots, AreEvacuated};
ghost use Rattle.collect_pass.specs.Settling.{CanSettleAll, AreAllSettled, Settles};
ghost use Rattle.collect_pass.specs.Tracing.{AreTraceNotes, CanFinalize, CanTrace, end_state};

use copy_space::{Copier, Marks, Pass, PassNotes};
use finalizers::Finalizers;
use heap_terms::MOST_PAGES;
use page_table::PageTable;
use pin_set::PinSet;
use scavenge::{Scanned, scavenge_all, scavenge_older};
use weak_refs::{Waiting, break_dead, cull, ready_entries};
use word_space::Space;

/// Gives each exact root the word of its value after the pass; what that refers to moves.
fn evacuate_roots(copier: &mut Copier, exact: &mut [u64])
    ghost h: { Rooted }
    requires { CanEvacuateRoots h (state copier.old) exact.old }
    ensures roots { AreEvacuated h (state copier.old) (state copier.new) exact.new }
    ensures same { IsSameCopier copier.old copier.new }
{
    for word in exact.iter_mut() {
        *word = copier.evacuate(*word);
    }
}

/// Moves all that is live of the generation of a pass, as far as it finds places, rewrites the exact
/// roots and the fields of all objects, culls dead pairs, breaks weak pointers to what is dead, and
/// queues the finalizers of what is dead. `weak` lists the weak pointers and tables then. `count` is
/// how many objects the generation has; where it has none nothing is looked at.
pub(crate) fn trace(
    space: &mut Space,
    pages: &mut PageTable,
    marks: &mut Marks,
    pins: &PinSet,
    pass: Pass,
    exact: &mut [u64],
    notes: &mut PassNotes,
    weak: &mut PinSet,
    waiting: &mut Waiting,
    finalizers: &mut Finalizers,
    count: u32,
)
    ghost h: { Rooted }
    requires can { CanTrace h space.old pages.old marks.old pins.now.listed pass exact.old notes.old weak.old }
    requires queue { CanFinalize h.heap finalizers.old notes.old }
    requires count { count ≡ count_by (is_of h.heap pass.generation) (names h.heap) }
    ensures traced { IsTraced h (end_state h.heap space.new pages.new marks.new pins.now.listed pass notes.new.moves.items) exact.new }
    ensures notes { AreTraceNotes h.heap (is_settled h.heap (end_state h.heap space.new pages.new marks.new pins.now.listed pass notes.new.moves.items)) notes.old notes.new }
    ensures finalizers { IsSwept h.heap (end_state h.heap space.new pages.new marks.new pins.now.listed pass notes.new.moves.items) h.heap.finalizers finalizers.old finalizers.new }
    ensures most { weak.new.most ≡ weak.old.most }
{
    prove!(pages.len() <= MOST_PAGES);
    if count == 0 {
        return;
    }
    trace_live(
        space, pages, marks, pins, pass, exact, notes, weak, waiting, finalizers,
    );
}

/// The same of a generation that has objects.
fn trace_live(
    space: &mut Space,
    pages: &mut PageTable,
    marks: &mut Marks,
    pins: &PinSet,
    pass: Pass,
    exact: &mut [u64],
    notes: &mut PassNotes,
    weak: &mut PinSet,
    waiting: &mut Waiting,
    finalizers: &mut Finalizers,
)
    ghost h: { Rooted }
    requires can { CanTrace h space.old pages.old marks.old pins.now.listed pass exact.old notes.old weak.old }
    requires queue { CanFinalize h.heap finalizers.old notes.old }
    ensures traced { IsTraced h (end_state h.heap space.new pages.new marks.new pins.now.listed pass notes.new.moves.items) exact.new }
    ensures notes { AreTraceNotes h.heap (is_settled h.heap (end_state h.heap space.new pages.new marks.new pins.now.listed pass notes.new.moves.items)) notes.old notes.new }
    ensures finalizers { IsSwept h.heap (end_state h.heap space.new pages.new marks.new pins.now.listed pass notes.new.moves.items) h.heap.finalizers finalizers.old finalizers.new }
    ensures most { weak.new.most ≡ weak.old.most }
{
    let mut copier = Copier::new(space, pages, marks, pins, pass, notes);
    evacuate_roots(&mut copier, exact);
    scavenge_older(&mut copier, weak);
    settle_all(&mut copier, weak, waiting);
    cull(weak, &mut copier);
    break_dead(weak, &mut copier);
    finalizers.sweep(&mut copier);
}

/// Scans what is settled, and settles what that and the pairs of tables keep, until nothing is left.
/// What is settled then is the least set that the roots and everything settled keep.
fn settle_all(copier: &mut Copier, weak: &mut PinSet, waiting: &mut Waiting)
    ghost a: { NamedHeap }
    requires { CanSettleAll a (state copier.old) weak.old }
    ensures settles { Settles a (state copier.old) (state copier.new) }
    ensures settled { AreAllSettled a (state copier.new) weak.new.listed }
    ensures noting { Notes a (state copier.new) weak.old weak.new }
    ensures same { IsSameCopier copier.old copier.new }
{
    waiting.begin();
    let nothing = Scanned { pins: 0, moves: 0 };
    let mut done = scavenge_all(copier, weak, nothing);
    while ready_entries(weak, copier, waiting) {
        done = scavenge_all(copier, weak, done);
    }
}
