//! Each call once with ample memory, and the words of each kind from the table of layouts.

ghost use Rattle.std.specs.Prelude.{◌≡◌, ◌≤◌};
ghost use Rattle.heap_terms.specs.Fresh.{IsBuildable};
ghost use Rattle.heap_terms.specs.Layout.{page_type_of};
ghost use Rattle.heap_terms.specs.Layout as layout;

use crate::{Closed, Region};
use heap_terms::{Kind, PageType};
use std::alloc::Global;
use std::test::Fail;

/// Takes what another thread may own.
fn crosses_threads<T: Send>(_value: &T) {}

/// Whether a region of one boxed page builds these words, in place of those that it built before.
fn builds(alloc: Global, kind: Kind, n: u32, seed: u64, words: &[u64]) -> Result<bool, Fail>
    requires buildable { IsBuildable kind n seed }
    requires of_type { page_type_of kind ≡ PageType.Boxed }
    requires fits { layout.size_of kind n ≤ 512 }
{
    let mut region = Region::open(alloc, PageType::Boxed, 0, 1)?;
    region.build(Kind::Vector, 2, 0);
    region.build(kind, n, seed);
    let are_these = region.built() == words;
    let closed = region.close();
    Ok(are_these && closed.next == 0)
}

#[test]
fn an_object_of_each_boxed_kind_has_its_words(rt: HostRuntime) -> Result<(), Fail> {
    let alloc = rt.alloc();
    assert!(rt; builds(alloc, Kind::Vector, 2, 0, &[0x221, 0, 0, 0])?);
    assert!(rt; builds(alloc, Kind::Instance, 1, 0, &[0x129, 0])?);
    assert!(rt; builds(alloc, Kind::Closure, 0, 0, &[0x35, 0])?);
    assert!(rt; builds(alloc, Kind::Weak, 1, 0, &[0x12D, 0])?);
    let table = [0x731, 4, 0, 0, 0x51, 0x51, 0, 0];
    assert!(rt; builds(alloc, Kind::Table, 7, 2, &table)?);
    Ok(())
}

#[test]
fn a_cons_is_two_words_and_moves_next_by_two(rt: HostRuntime) -> Result<(), Fail> {
    let mut region = Region::open(rt.alloc(), PageType::Cons, 3, 1)?;
    crosses_threads(&region);
    region.build(Kind::Cons, 2, 0);
    let is_built = region.built() == [0, 0].as_slice();
    region.accept();
    let (next, room) = (region.next(), region.room());
    let closed = region.close();
    let end = Closed {
        first: 3,
        pages: 1,
        next: 1538,
    };
    assert!(rt; is_built && next == 1538 && room == 510 && closed == end);
    Ok(())
}

#[test]
fn a_large_run_holds_one_large_object(rt: HostRuntime) -> Result<(), Fail> {
    let mut region = Region::open(rt.alloc(), PageType::Unboxed, 0, 129)?;
    region.build(Kind::Words, 3, 7);
    let are_sevens = region.built() == [0x325, 7, 7, 7].as_slice();
    region.build(Kind::Words, 65535, 9);
    let largest = region.built().len();
    region.accept();
    let room = region.room();
    let closed = region.close();
    assert!(rt; are_sevens && largest == 65536 && room == 512 && closed.next == 65536);
    Ok(())
}

#[test]
fn a_region_is_opened_again_where_it_was_filled_to(rt: HostRuntime) -> Result<(), Fail> {
    let mut region = Region::reopen(rt.alloc(), PageType::Cons, 3, 1, 1538)?;
    region.build(Kind::Cons, 2, 0);
    region.accept();
    let (next, room) = (region.next(), region.room());
    let closed = region.close();
    assert!(rt; next == 1540 && room == 508 && closed.next == 1540);
    Ok(())
}
