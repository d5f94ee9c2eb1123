//! Each call once, and a set that is filled again after it was cleared.

use crate::PinSet;
use heap_terms::Memory;
use std::test::Fail;

/// Takes what another thread may own and what threads may share.
fn crosses_threads<T: Send + Sync>(_value: &T) {}

/// Puts a start in, while the set is small.
fn put(set: &mut PinSet, start: u32) -> Result<bool, Memory> {
    if set.len() < 100 {
        set.insert(start)
    } else {
        Ok(false)
    }
}

/// Start number i, if there are so many.
fn start_at(set: &PinSet, i: u32) -> Option<u32> {
    if i < set.len() { Some(set.at(i)) } else { None }
}

#[test]
fn starts_stand_once_and_in_order(rt: HostRuntime) -> Result<(), Fail> {
    let mut set = PinSet::new(rt.alloc(), 2)?;
    let new = [
        put(&mut set, 512)?,
        put(&mut set, 4)?,
        put(&mut set, 512)?,
        put(&mut set, 0)?,
    ];
    assert_eq!(rt; new, [true, true, false, true]);
    let found = [0, 1, 2, 3].map(|i: u32| start_at(&set, i));
    assert_eq!(rt; found, [Some(512), Some(4), Some(0), None]);
    assert!(rt; set.contains(0) && !set.contains(2));
    set.clear();
    assert_eq!(rt; set.len(), 0);
    assert!(rt; put(&mut set, 512)? && set.contains(512));
    crosses_threads(&set);
    Ok(())
}
