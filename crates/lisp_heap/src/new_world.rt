//! A World before its first event.

ghost use Rattle.std.specs.Prelude.{◌≡◌, [], length, IfOk};
ghost use Rattle.heap_terms.specs.Valid.{IsValid};
ghost use Rattle.lisp_heap.specs.Agreement.{AreFresh};
ghost use Rattle.lisp_heap.specs.Parts.{fresh_parts};

use crate::cells::CellWords;
use crate::parcels::Parcel;
use crate::pins::Pins;
use crate::states::States;
use crate::world::World;
use finalizers::Finalizers;
use generation_policy::GenStats;
use heap_terms::{Memory, Program};
use page_table::PageTable;
use std::alloc::Global;
use word_space::{Prefilled, Space};

/// How many double words a page has, each of which has a label.
const PAGE_LABELS: usize = 256;

/// The parcels of so many threads, each empty.
fn fresh_parcels(alloc: Global, threads: u32) -> Result<Vec<Parcel>, Memory>
    ensures { IfOk result (λ parcels. AreFresh parcels.items threads) }
{
    let mut parcels = Vec::with_capacity(alloc, threads as usize)?;
    for t in 0..threads {
        parcels.push_reserved(Parcel::empty(t));
    }
    Ok(parcels)
}

/// About how many events a run of the program has. It is a guess: where there are more, the
/// history grows.
fn events_of(program: &Program) -> usize {
    let mut events: usize = 64;
    for t in 0..program.threads.len() {
        events = events.saturating_add(program.threads.item(t).len());
    }
    events
}

impl World {
    /// The World of a valid program before its first event, and one empty parcel for each thread,
    /// by owner.
    pub fn new(alloc: Global, program: Program) -> Result<(World, Vec<Parcel>), Memory>
        requires { IsValid program }
        ensures program { IfOk result (λ made. made.0.program ≡ program) }
        ensures history { IfOk result (λ made. made.0.history ≡ []) }
        ensures parts { IfOk result (λ made. made.0.parts ≡ fresh_parts program) }
        ensures parcels { IfOk result (λ made. AreFresh made.1.items (length program.threads)) }
    {
        let threads = program.threads.len();
        let space = Space::new(alloc, program.pages)?;
        let pages = PageTable::new(alloc, program.pages)?;
        let labels = Prefilled::new(alloc, PAGE_LABELS * program.pages as usize, 0)?;
        let cells = CellWords::new(alloc, threads)?;
        let states = States::fresh(alloc, threads)?;
        let pins = Pins::none(alloc, threads)?;
        let history = Vec::with_capacity(alloc, events_of(&program))?;
        let parcels = fresh_parcels(alloc, threads as u32)?;
        let stats = GenStats::new();
        let finalizers = Finalizers::new(alloc);
        let world = World {
            alloc,
            program,
            space,
            pages,
            labels,
            cells,
            states,
            pins,
            commits: 0,
            stats,
            counted: 0,
            triggered: 0,
            finalizers,
            history,
            scratch: None,
        };
        Ok((world, parcels))
    }
}
