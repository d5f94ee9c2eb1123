//! The numbers that the policy keeps of each generation.

ghost use Rattle.std.specs.Prelude.{◌≡◌};
ghost use Rattle.heap_terms.specs.declared.programs.Program.{Program};
ghost use Rattle.heap_terms.specs.Heap.{start};
ghost use Rattle.generation_policy.specs.Numbers.{StatsStand, fresh_stats};

/// The generations 0 to 6.
pub const GENERATIONS: usize = 7;

/// The policy's numbers, at place g those of generation g.
#[derive(Clone, Copy, Debug, PartialEq, Eq)]
pub struct GenStats {
    /// The words that its objects take, the sum of their sizes.
    pub allocated: [u64; GENERATIONS],
    /// At each raise into it since it was last collected, the words that were in it before, added up.
    pub cum: [u64; GENERATIONS],
    /// The passes over it since it was last raised.
    pub num: [u32; GENERATIONS],
}

impl GenStats {
    /// The numbers of a heap before its first event: all are 0.
    pub fn new() -> GenStats
        ensures fresh { result ≡ fresh_stats }
        ensures stand { (p : Program) → StatsStand (start p) result }
    {
        GenStats {
            allocated: [0; GENERATIONS],
            cum: [0; GENERATIONS],
            num: [0; GENERATIONS],
        }
    }
}
