//! Pseudo-random numbers, and what is drawn by one of them.

ghost use Rattle.std.specs.Prelude.{◌≡◌, ◌+◌, ◌<◌, ◌≤◌};
ghost use Rattle.heap_terms.specs.Generated.{cell_drawn, draw, next_state, number_from, raw_drawn, weakness_numbered};

use heap_terms::{CELLS, Cell, Raw, Weakness};

/// The factor of Knuth's linear congruential generator for MMIX.
const FACTOR: u64 = 6_364_136_223_846_793_005;

/// What it adds.
const SUMMAND: u64 = 1_442_695_040_888_963_407;

/// How many low bits of a state are dropped, since they repeat soon.
const LOW_BITS: u32 = 33;

/// The pseudo-random numbers that follow a seed: Knuth's linear congruential generator for MMIX.
#[derive(Drop)]
pub(crate) struct Draws {
    pub(crate) state: u64,
}

impl Draws {
    /// The next number below `limit`.
    pub(crate) fn below(&mut self, limit: u32) -> u32
        requires { 1 ≤ limit }
        ensures drawn { result ≡ draw self.old.state 1 limit }
        ensures state { self.new.state ≡ next_state self.old.state }
        ensures below { result < limit }
    {
        self.step();
        ((self.state >> LOW_BITS) % u64::from(limit)) as u32
    }

    /// The next state.
    fn step(&mut self)
        ensures { self.new.state ≡ next_state self.old.state }
    {
        self.state = self.state.wrapping_mul(FACTOR).wrapping_add(SUMMAND);
    }

    /// The next Lisp cell.
    pub(crate) fn cell(&mut self) -> Cell
        ensures drawn { result ≡ cell_drawn self.old.state 1 }
        ensures state { self.new.state ≡ next_state self.old.state }
    {
        let cells = CELLS as u8;
        let number = self.below(3 * CELLS) as u8;
        if number < cells {
            Cell::Stack(number)
        } else if number < 2 * cells {
            Cell::Exact(number - cells)
        } else {
            Cell::Shared(number - 2 * cells)
        }
    }

    /// The next raw cell.
    pub(crate) fn raw(&mut self) -> Raw
        ensures drawn { result ≡ raw_drawn self.old.state 1 }
        ensures state { self.new.state ≡ next_state self.old.state }
    {
        Raw(self.below(8) as u8)
    }

    /// The next weakness.
    pub(crate) fn weakness(&mut self) -> Weakness
        ensures drawn { result ≡ weakness_numbered (draw self.old.state 1 5) }
        ensures state { self.new.state ≡ next_state self.old.state }
    {
        match self.below(5) {
            0 => Weakness::Strong,
            1 => Weakness::Key,
            2 => Weakness::Value,
            3 => Weakness::KeyAndValue,
            _ => Weakness::KeyOrValue,
        }
    }
}
