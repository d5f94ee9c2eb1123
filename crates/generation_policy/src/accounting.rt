//! What a pass changes of the policy's numbers. How many words remain in each generation is for the caller to count.

ghost use Rattle.std.specs.Prelude.{◌≡◌, ◌+◌, ◌-◌, ◌^◌, ◌<◌, IsTrue, false, slice_index};
ghost use Rattle.heap_terms.specs.Heap.{NamedHeap};
ghost use Rattle.generation_policy.specs.Numbers.{IsPossible, StatsStand};
ghost use Rattle.generation_policy.specs.Plan.{IsAccountedBefore, IsAccountedAfter, cum_raised, cum_collected, num_passed};

use crate::stats::GenStats;
use copy_space::Pass;

/// Accounts for a pass that is about to be made: where it raises, the words of the next generation, as they are before
/// the pass, are added to that generation's `cum`.
#[inline]
pub fn account_before(stats: &mut GenStats, pass: Pass)
    requires possible { IsPossible pass }
    requires fits { IsTrue pass.raise
        → slice_index stats.old.cum (pass.generation + 1) + slice_index stats.old.allocated (pass.generation + 1) < 2 ^ 64 }
    ensures numbers { stats.new ≡ record stats.old { cum = cum_raised stats.old pass } }
    ensures stand { (a : NamedHeap) → StatsStand a stats.old → IsAccountedBefore a pass stats.new }
{
    if pass.raise {
        let next = pass.generation as usize + 1;
        stats.cum[next] += stats.allocated[next];
    }
}

/// Accounts for a pass that was made: its generation was collected, and it was raised or passed over once more.
#[inline]
pub fn account_after(stats: &mut GenStats, pass: Pass)
    requires possible { IsPossible pass }
    requires fits { pass.raise ≡ false → slice_index stats.old.num pass.generation < 2 ^ 32 - 1 }
    ensures numbers { stats.new ≡ record stats.old { cum = cum_collected stats.old pass; num = num_passed stats.old pass } }
    ensures stand { (a : NamedHeap) → IsAccountedBefore a pass stats.old → IsAccountedAfter a pass stats.new }
{
    let place = pass.generation as usize;
    stats.cum[place] = 0;
    stats.num[place] = if pass.raise { 0 } else { stats.num[place] + 1 };
}
