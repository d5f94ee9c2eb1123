//! What collections work with beside the heap.

ghost use Rattle.std.specs.Prelude.{◌≡◌, ◌*◌, ◌≤◌, length, IfOk};
ghost use Rattle.std.specs.List.{sum_by};
ghost use Rattle.heap_terms.specs.declared.limits.TheConstants.{MOST_PAGES, MOST_THREADS};
ghost use Rattle.heap_terms.specs.Valid.{IsValid};
ghost use Rattle.collect_pass.specs.Pass.{IsReservedFor};

use crate::recording::RecordRoom;
use collect_pass::{PassRoom, Roots};
use heap_terms::{Memory, Program};
use std::alloc::Global;

/// How many words of a thread pin what they hit, at most: its cells s and r and its pins.
const AMBIGUOUS: u32 = 56;

/// How many commands all threads of a program have; it makes at most as many objects.
pub fn commands_of(program: &Program) -> u32
    requires { IsValid program.now }
    ensures { result ≡ sum_by length program.now.threads }
{
    let mut commands: u32 = 0;
    for t in 0..program.threads.len() {
        commands += program.threads.item(t).len() as u32;
    }
    commands
}

/// The room for passes and the lists of roots. They are made at the first collection and kept.
#[derive(Drop)]
pub struct Scratch {
    /// The room for passes.
    pub room: PassRoom,
    /// The roots of the pass that is made.
    pub roots: Roots,
    /// Rooms for records of passes that the latest collection did not need.
    pub rooms: Vec<RecordRoom>,
}

impl Scratch {
    /// Room for the collections of a heap of so many pages and threads, and at most so many objects.
    pub fn new(alloc: Global, pages: u32, threads: u32, objects: u32) -> Result<Scratch, Memory>
        requires pages { pages ≤ MOST_PAGES }
        requires threads { threads ≤ MOST_THREADS }
        ensures { IfOk result (λ scratch. IsReservedFor scratch.room pages (56 * threads) objects) }
    {
        let room = PassRoom::reserve(alloc, pages, AMBIGUOUS * threads, objects)?;
        let roots = Roots {
            exact: Vec::new(alloc),
            ambiguous: Vec::new(alloc),
        };
        Ok(Scratch {
            room,
            roots,
            rooms: Vec::new(alloc),
        })
    }
}
