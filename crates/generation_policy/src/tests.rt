//! The loop and its numbers on plain values, worked out by hand.

use crate::{GenStats, account_after, account_before, plan_next};
use copy_space::Pass;
use std::test::Fail;

/// Numbers with so many words and such a sum of generation 1, and so many passes over generation 0.
fn stats_with(allocated: u32, cum: u32, num: u32) -> GenStats {
    let mut stats = GenStats::new();
    stats.allocated[1] = u64::from(allocated);
    stats.cum[1] = u64::from(cum);
    stats.num[0] = num;
    stats
}

/// The pass after another, as far as the numbers are small.
fn next(stats: &GenStats, last: u8, previous: Pass) -> Option<Pass> {
    let place = previous.generation as usize + 1;
    if place <= 5 && stats.allocated[place] < 1_000_000 && stats.cum[place] < 1_000_000 {
        plan_next(stats, last, Some(previous))
    } else {
        None
    }
}

/// The pass after one over generation 0.
fn after_first(stats: &GenStats, last: u8, raise: bool) -> Option<Pass> {
    next(
        stats,
        last,
        Pass {
            generation: 0,
            raise,
        },
    )
}

/// Accounts for a pass, as far as the numbers are small.
fn account(stats: &mut GenStats, generation: u8, raise: bool) {
    let pass = Pass { generation, raise };
    let place = generation as usize;
    if place < 5
        && stats.cum[place + 1] < 1_000_000
        && stats.allocated[place + 1] < 1_000_000
        && stats.num[place] < 1_000_000
    {
        account_before(stats, pass);
        account_after(stats, pass);
    }
}

#[test]
fn a_collection_begins_with_the_youngest(rt: HostRuntime) {
    let kept = Some(Pass {
        generation: 0,
        raise: false,
    });
    let raised = Some(Pass {
        generation: 0,
        raise: true,
    });
    assert_eq!(rt; plan_next(&GenStats::new(), 0, None), kept);
    assert_eq!(rt; plan_next(&GenStats::new(), 1, None), raised);
    assert_eq!(rt; plan_next(&stats_with(0, 0, 1), 0, None), raised);
}

#[test]
fn a_collection_goes_on_as_asked_and_by_age(rt: HostRuntime) {
    let kept = Some(Pass {
        generation: 1,
        raise: false,
    });
    assert_eq!(rt; after_first(&stats_with(1_026, 770, 0), 0, true), kept);
    assert_eq!(rt; after_first(&stats_with(1_028, 771, 0), 0, true), None);
    assert_eq!(rt; after_first(&stats_with(1_024, 1_024, 0), 0, true), None);
    assert_eq!(rt; after_first(&stats_with(1_026, 770, 0), 0, false), None);
    assert_eq!(rt; after_first(&stats_with(0, 0, 0), 1, true), kept);
}

#[test]
fn a_full_collection_ends_with_generation_5(rt: HostRuntime) {
    let stats = GenStats::new();
    let Some(mut pass) = plan_next(&stats, 5, None) else {
        return;
    };
    let mut generations = [pass.generation; 6];
    for generation in &mut generations {
        *generation = pass.generation;
        assert_eq!(rt; pass.raise, pass.generation < 5);
        if let Some(after) = next(&stats, 5, pass) {
            pass = after;
        }
    }
    assert_eq!(rt; generations, [0, 1, 2, 3, 4, 5]);
    let oldest = Pass {
        generation: 5,
        raise: false,
    };
    assert_eq!(rt; plan_next(&stats, 5, Some(oldest)), None);
}

#[test]
fn a_raise_adds_the_words_that_were_there(rt: HostRuntime) -> Result<(), Fail> {
    let mut stats = stats_with(700, 30, 1);
    account(&mut stats, 0, true);
    assert_eq!(rt; stats.cum, [0, 730, 0, 0, 0, 0, 0]);
    assert_eq!(rt; stats.num, [0; 7]);
    account(&mut stats, 1, false);
    assert_eq!(rt; stats.cum, [0; 7]);
    assert_eq!(rt; stats.num, [0, 1, 0, 0, 0, 0, 0]);
    assert_eq!(rt; stats.allocated, [0, 700, 0, 0, 0, 0, 0]);
    Ok(())
}
