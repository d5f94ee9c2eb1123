//! The sweep.

ghost use Rattle.std.specs.Prelude.{◌≡◌, ℕ, ◌<◌, ◌≤◌, [], false, length, replicate, filter, vec_capacity, slice_set};
ghost use Rattle.std.specs.List.{range_with_len};
ghost use Rattle.heap_terms.specs.declared.limits.TheConstants.{OLDEST_GENERATION};
ghost use Rattle.heap_terms.specs.Heap.{entry_at};
ghost use Rattle.page_sweep.specs.Held.{is_freed, swept_entry};
ghost use Rattle.page_sweep.specs.Sweeping.{CanSweep, AreHeld, CanSweepPage, IsPageSwept};
ghost use Rattle.page_sweep.specs.Swept.{IsSwept};
ghost use Rattle.page_sweep.specs.Wiping.{Tracing};

use crate::held::{HeldPages, flag_pins, flag_stays};
use crate::wiping::wipe;
use copy_space::{Marks, Move, Pass, SCRATCH_GENERATION};
use heap_terms::Entry;
use page_table::PageTable;
use pin_set::PinSet;
use word_space::Space;

/// What tracing found out in a pass; a sweep only reads it.
#[derive(Clone, Copy)]
pub struct Traced<'m, 'p, 'n> {
    /// The marks.
    pub marks: &'m Marks,
    /// The pinned starts.
    pub pins: &'p PinSet,
    /// The moves and stays.
    pub moves: &'n [Move],
    /// The pass.
    pub pass: Pass,
    /// The generation of what remains, at most 6.
    pub target: u8,
}

/// Frees the pages of the pass's generation on which nothing remains, and wipes and retags the
/// others; pages that the pass took are retagged too. It lists the freed pages, ascending. It takes
/// no memory and cannot be refused.
pub fn sweep(
    space: &mut Space,
    pages: &mut PageTable,
    traced: &Traced<'_, '_, '_>,
    held: &mut HeldPages,
    freed: &mut Vec<u32>,
)
    ghost at: { Tracing }
    requires can { CanSweep at space.old pages.old traced.now }
    requires clear { held.old ≡ replicate (length pages.old) false }
    requires none { freed.old.items ≡ [] }
    requires room { length pages.old ≤ vec_capacity freed.old }
    ensures swept { IsSwept at.heap at.state traced.now.target space.new pages.new freed.new.items }
    ensures held { held.new ≡ held.old }
    ensures capacity { vec_capacity freed.new ≡ vec_capacity freed.old }
{
    flag_pins(held, traced.pins, true);
    flag_stays(held, traced.moves, true);
    sweep_pages(space, pages, traced, held, freed);
    flag_pins(held, traced.pins, false);
    flag_stays(held, traced.moves, false);
}

/// Sweeps one page after another.
fn sweep_pages(
    space: &mut Space,
    pages: &mut PageTable,
    traced: &Traced<'_, '_, '_>,
    held: &HeldPages,
    freed: &mut Vec<u32>,
)
    ghost at: { Tracing }
    requires can { CanSweep at space.old pages.old traced.now }
    requires held { AreHeld at held.now }
    requires none { freed.old.items ≡ [] }
    requires room { length pages.old ≤ vec_capacity freed.old }
    ensures swept { IsSwept at.heap at.state traced.now.target space.new pages.new freed.new.items }
    ensures capacity { vec_capacity freed.new ≡ vec_capacity freed.old }
{
    for page in 0..pages.used_end() {
        if sweep_page(space, pages, traced, held, page) {
            freed.push_reserved(page);
        }
    }
}

/// Sweeps one page, and says whether it became free.
fn sweep_page(
    space: &mut Space,
    pages: &mut PageTable,
    traced: &Traced<'_, '_, '_>,
    held: &HeldPages,
    page: u32,
) -> bool
    ghost at: { Tracing }
    requires can { CanSweepPage at space.old pages.old traced.now page }
    requires held { AreHeld at held.now }
    ensures words { IsPageSwept at space.old space.new page traced.now.target }
    ensures entry { pages.new ≡ slice_set pages.old page (swept_entry at.state.pins at.state.moves at.state.pass.generation traced.now.target (entry_at at.state.pages page)) }
    ensures freed { result ≡ is_freed at.state.pins at.state.moves at.state.pass.generation (entry_at at.state.pages page) }
{
    let Entry::Used {
        ty,
        generation,
        fill,
        run_first,
        run_pages,
    } = pages.entry(page)
    else {
        return false;
    };
    if generation == SCRATCH_GENERATION {
        pages.set_gen(page, traced.target);
        return false;
    }
    if generation != traced.pass.generation {
        return false;
    }
    if !held.at(run_first) {
        pages.free_page(page);
        return true;
    }
    // A longer run has just the one object that is held.
    if run_pages == 1 {
        wipe(space, traced.marks, page, ty, fill);
    }
    pages.set_gen(page, traced.target);
    false
}
