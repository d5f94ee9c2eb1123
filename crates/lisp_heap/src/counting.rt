//! What a commit adds to the policy's numbers, and what `auto` counts of commits.

ghost use Rattle.std.specs.Prelude.{◌≡◌, ◌+◌, ◌<◌, ◌^◌, length, slice_index};
ghost use Rattle.lisp_heap.specs.Counting.{HasMore, counted_after, states_counted, triggered_after};

use crate::states::States;
use generation_policy::GenStats;
use heap_terms::MOST_TRIGGERS;

/// Adds the words of a commit to those of generation 0.
#[inline(always)]
pub fn add_words(stats: &mut GenStats, size: u32)
    requires { slice_index stats.old.allocated 0 + size < 2 ^ 64 }
    ensures { HasMore stats.old stats.new size }
{
    stats.allocated[0] += u64::from(size);
}

/// Counts the words of thread t's commit for `auto`, which lets a thread owe a collection every so
/// many words.
#[inline(always)]
pub fn count_words(
    auto: u64,
    counted: &mut u64,
    triggered: &mut u32,
    states: &mut States,
    t: usize,
    size: u32,
)
    requires thread { t < length states.old }
    requires room { counted.old + size < 2 ^ 64 }
    ensures counted { counted.new ≡ counted_after auto counted.old triggered.old size }
    ensures triggered { triggered.new ≡ triggered_after auto counted.old triggered.old size }
    ensures states { states.new ≡ states_counted auto counted.old triggered.old states.old t size }
{
    if auto == 0 {
        return;
    }
    let sum = *counted + u64::from(size);
    if sum >= auto && *triggered < MOST_TRIGGERS {
        *counted = 0;
        *triggered += 1;
        states.ask(t);
    } else {
        *counted = sum;
    }
}
