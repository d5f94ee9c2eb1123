//! Each call once with ample memory, and `find_run` against a plain search.

ghost use Rattle.std.specs.Prelude.{◌≤◌};

use crate::PageTable;
use heap_terms::{Entry, PageType};
use std::test::Fail;

/// Takes what another thread may own and what threads may share.
fn crosses_threads<T: Send + Sync>(_value: &T) {}

/// Takes the lowest free page, if there is one.
fn take_lowest(table: &mut PageTable) {
    if let Some(first) = table.find_run(1) {
        table.take_run(first, 1, PageType::Cons, 0);
    }
}

/// Makes a page free, if there is one in use.
fn free_if_used(table: &mut PageTable, p: u32) {
    if p < table.len() {
        if let Entry::Used { .. } = table.entry(p) {
            table.free_page(p);
        }
    }
}

/// The entry of a page, if there is such a page.
fn entry_of(table: &PageTable, p: u32) -> Option<Entry> {
    if p < table.len() {
        Some(table.entry(p))
    } else {
        None
    }
}

/// The first index of the run of a page, if there is such a page and it is in use.
fn start_of(table: &PageTable, p: u32) -> Option<u32> {
    if p < table.len() {
        if let Entry::Used { .. } = table.entry(p) {
            return Some(table.owner_start(p));
        }
    }
    None
}

/// The lowest place from which k pages are not used, tried one after another.
fn plain_search(used: &[bool], k: usize) -> Option<usize>
    requires { 1 ≤ k }
{
    used.windows(k)
        .position(|run| run.iter().all(|is_used| !*is_used))
}

#[test]
fn the_lowest_run_is_that_of_a_plain_search(rt: HostRuntime) -> Result<(), Fail> {
    let mut table = PageTable::new(rt.alloc(), 6)?;
    for mask in 0..64u32 {
        let used = [1, 2, 4, 8, 16, 32].map(|bit: u32| mask & bit != 0);
        for _ in 0..6 {
            take_lowest(&mut table);
        }
        for (p, is_used) in used.iter().enumerate() {
            if !is_used {
                free_if_used(&mut table, p as u32);
            }
        }
        for k in 1..8u32 {
            let want = plain_search(used.as_slice(), k as usize);
            assert_eq!(rt;
                table.find_run(k).map(|p| p as usize),
                want,
                "mask {mask}, k {k}"
            );
        }
    }
    Ok(())
}

#[test]
fn a_run_is_taken_filled_raised_and_freed(rt: HostRuntime) -> Result<(), Fail> {
    let mut table = PageTable::new(rt.alloc(), 4)?;
    assert_eq!(rt; table.len(), 4);
    take_lowest(&mut table);
    if let Some(first) = table.find_run(2) {
        table.take_run(first, 2, PageType::Boxed, 1);
        table.set_fill(first, 512);
        table.set_gen(first, 3);
    }
    assert_eq!(rt; start_of(&table, 2), Some(512));
    let used = |generation, fill| Entry::Used {
        ty: PageType::Boxed,
        generation,
        fill,
        run_first: 1,
        run_pages: 2,
    };
    assert_eq!(rt; entry_of(&table, 1), Some(used(3, 512)));
    assert_eq!(rt; entry_of(&table, 2), Some(used(1, 0)));
    assert_eq!(rt; entry_of(&table, 3), Some(Entry::Free));
    free_if_used(&mut table, 1);
    assert_eq!(rt; entry_of(&table, 1), Some(Entry::Free));
    crosses_threads(&table);
    Ok(())
}
