//! Which pass a collection makes next, if any.

ghost use Rattle.std.specs.Prelude.{◌≡◌, ◌+◌, ◌<◌, ◌≤◌, IsTrue};
ghost use Rattle.std.specs.Option.{ForSome};
ghost use Rattle.heap_terms.specs.Heap.{NamedHeap};
ghost use Rattle.heap_terms.specs.Policy.{has_age, is_continued};
ghost use Rattle.generation_policy.specs.Numbers.{IsMeasurable, IsPossible, StatsStand};
ghost use Rattle.generation_policy.specs.Plan.{pass_over, planned};

use crate::stats::GenStats;
use copy_space::Pass;
use heap_terms::OLDEST_COLLECTED;

/// A generation is raised once so many passes over it did not raise it.
const BEFORE: u32 = 1;

/// An older generation than those that are asked for is collected only where it has more words than this.
const BETWEEN: u64 = 1_024;

/// The first pass of a collection whose oldest generation for certain is `last`, or, where `previous` was made, the
/// pass after it; none exactly where the collection ends. The numbers are those after `previous`.
#[inline]
pub fn plan_next(stats: &GenStats, last: u8, previous: Option<Pass>) -> Option<Pass>
    requires possible { ForSome previous IsPossible }
    requires measurable { ForSome previous (λ pass. pass.generation < OLDEST_COLLECTED → IsMeasurable stats.now (pass.generation + 1)) }
    ensures planned { (a : NamedHeap) → StatsStand a stats.now → result ≡ planned a last previous }
    ensures possible { ForSome result IsPossible }
{
    match previous {
        None => Some(pass_over(stats, last, 0)),
        Some(pass) if is_continued(stats, last, pass) => Some(pass_over(
            stats,
            last,
            pass.generation + 1,
        )),
        Some(_) => None,
    }
}

/// The pass over a generation, in a collection up to `last`.
#[inline]
#[tactic(auto, unfolding(heap_terms::specs::Policy::is_raised))]
fn pass_over(stats: &GenStats, last: u8, generation: u8) -> Pass
    requires { generation ≤ OLDEST_COLLECTED }
    ensures planned { (a : NamedHeap) → StatsStand a stats.now → result ≡ pass_over a last generation }
    ensures possible { IsPossible result }
{
    let raise = generation < OLDEST_COLLECTED
        && (generation < last || stats.num[generation as usize] >= BEFORE);
    Pass { generation, raise }
}

/// Whether a collection up to `last` goes on after a pass.
#[inline]
#[tactic(auto, unfolding(heap_terms::specs::Policy::is_continued))]
fn is_continued(stats: &GenStats, last: u8, pass: Pass) -> bool
    requires measurable { pass.generation < OLDEST_COLLECTED → IsMeasurable stats.now (pass.generation + 1) }
    ensures continued { (a : NamedHeap) → StatsStand a stats.now
        → result ≡ is_continued a last pass.generation pass.raise }
    ensures collected { IsTrue result → pass.generation < OLDEST_COLLECTED }
{
    if pass.generation >= OLDEST_COLLECTED {
        return false;
    }
    let next = pass.generation + 1;
    next <= last || (pass.raise && stats.allocated[next as usize] > BETWEEN && has_age(stats, next))
}

/// Whether the average age of a generation is above three quarters.
#[inline]
fn has_age(stats: &GenStats, generation: u8) -> bool
    requires there { generation ≤ OLDEST_COLLECTED }
    requires measurable { IsMeasurable stats.now generation }
    ensures { (a : NamedHeap) → StatsStand a stats.now → result ≡ has_age a generation }
{
    let place = generation as usize;
    3 * stats.allocated[place] < 4 * stats.cum[place]
}
