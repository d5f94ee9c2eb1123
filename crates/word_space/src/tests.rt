//! Each call once, with ample memory.

use crate::{Prefilled, Space};
use std::test::Fail;

/// Takes what another thread may own and what threads may share.
fn crosses_threads<T: Send + Sync>(_value: &T) {}

#[test]
fn words_are_zero_then_written_then_copied(rt: HostRuntime) -> Result<(), Fail> {
    let mut space = Space::new(rt.alloc(), 2)?;
    assert_eq!(rt; space.pages(), 2);
    assert_eq!(rt; space.read(1023), 0);
    space.write(0, 7);
    space.write(1, 8);
    space.copy(0, 1022, 2);
    space.copy(1023, 0, 1);
    let found = [
        space.read(0),
        space.read(1),
        space.read(1021),
        space.read(1022),
        space.read(1023),
    ];
    assert_eq!(rt; found, [8, 8, 0, 7, 8]);
    crosses_threads(&space);
    Ok(())
}

#[test]
fn a_long_list_is_blank_but_where_it_was_written(rt: HostRuntime) -> Result<(), Fail> {
    let mut list = Prefilled::new(rt.alloc(), 2000, 9)?;
    assert_eq!(rt; list.len(), 2000);
    list.set(600, 1);
    list.copy(599, 1998, 2);
    let found = [
        list.at(0),
        list.at(599),
        list.at(600),
        list.at(1997),
        list.at(1998),
        list.at(1999),
    ];
    assert_eq!(rt; found, [9, 9, 1, 9, 9, 1]);
    crosses_threads(&list);
    Ok(())
}
