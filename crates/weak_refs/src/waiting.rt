//! Which pairs wait for an object to be settled. Without it a chain of pairs that stand in the wrong
//! order would take a look at all pairs for each link of the chain.
//!
//! What stands here are hints, and nothing but time hangs on them: a pair that a hint leads to is
//! looked at as it stands in its table, and a pass ends only after a look at all pairs that settled
//! nothing.

ghost use Rattle.std.specs.Prelude.{◌≤◌};
ghost use Rattle.heap_terms.specs.declared.limits.TheConstants.{MOST_PAGES};

use heap_terms::{MOST_PAIRS, Memory, PAGE_WORDS};
use std::alloc::Global;
use word_space::Prefilled;

/// How many sides a table has, at most.
pub(crate) const SIDES: u32 = 2 * MOST_PAIRS;

/// The sides of pairs that wait, in a chain for each object that they wait for. Sides are numbered
/// by the place of their table in a list, 128 for each.
#[derive(Drop)]
pub struct Waiting {
    /// For each double word the first side that waits for the object there, plus 1; 0 for none.
    heads: Prefilled<u32>,
    /// For each side the next one that waits for the same object, plus 1; 0 for none.
    links: Prefilled<u32>,
    /// So many of the listed tables have been looked at.
    pub(crate) met: u32,
    /// For the objects of so many moves nothing waits any more.
    pub(crate) released: u32,
    /// Whether something has waited.
    pub(crate) any: bool,
}

impl Waiting {
    /// Room for a heap of so many pages with at most so many weak pointers and tables. It is refused
    /// only for want of memory.
    pub fn new(alloc: Global, pages: u32, weak: u32) -> Result<Waiting, Memory>
        requires { pages ≤ MOST_PAGES }
    {
        let any = (weak > 0) as usize;
        Ok(Waiting {
            heads: Prefilled::new(alloc, any * (PAGE_WORDS / 2 * pages) as usize, 0)?,
            links: Prefilled::new(alloc, SIDES as usize * weak as usize, 0)?,
            met: 0,
            released: 0,
            any: false,
        })
    }

    /// Begins a pass: nothing has been looked at.
    pub fn begin(&mut self) {
        self.met = 0;
        self.released = 0;
        self.any = false;
    }

    /// How many sides there are.
    pub(crate) fn sides(&self) -> usize {
        self.links.len()
    }

    /// The first side that waits for the object at an index, plus 1; nothing waits for it then.
    pub(crate) fn take(&mut self, index: u32) -> u32 {
        let place = (index / 2) as usize;
        if place >= self.heads.len() {
            return 0;
        }
        let first = self.heads.at(place);
        if first != 0 {
            self.heads.set(place, 0);
        }
        first
    }

    /// The next side behind one that waits for the same object, plus 1.
    pub(crate) fn next(&self, side: u32) -> u32 {
        let place = side as usize;
        if place < self.links.len() {
            self.links.at(place)
        } else {
            0
        }
    }

    /// Lets a side wait for the object at an index. Without room for it nothing happens.
    pub(crate) fn wait(&mut self, index: u32, side: u32) {
        if side == u32::MAX {
            return;
        }
        let place = (index / 2) as usize;
        if side as usize >= self.links.len() || place >= self.heads.len() {
            return;
        }
        self.links.set(side as usize, self.heads.at(place));
        self.heads.set(place, side + 1);
        self.any = true;
    }
}
