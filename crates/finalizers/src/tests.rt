//! Each call but `sweep` once; that one needs words that stand for a heap, so whole passes test it.

use crate::Finalizers;
use heap_terms::Memory;
use std::alloc::Global;
use std::test::Fail;

/// The word of the cons at an index.
fn cons(index: u64) -> u64 {
    0x10_0000_0007 + 8 * (index % 512)
}

/// Takes what another thread may own and what threads may share.
fn crosses_threads<T: Send + Sync>(_value: &T) {}

/// Registers a number for an object, while there are few.
fn register(finalizers: &mut Finalizers, object: u64, id: u32) -> Result<(), Memory> {
    if finalizers.len() < 100 && finalizers.queue_len() < 100 {
        finalizers.add(object, id)
    } else {
        Ok(())
    }
}

/// What is queued.
fn queued(alloc: Global, finalizers: &mut Finalizers) -> Result<Vec<u32>, Memory> {
    let mut ids = Vec::with_capacity(alloc, finalizers.queue_len() as usize)?;
    finalizers.take_queue(&mut ids);
    Ok(ids)
}

#[test]
fn what_is_registered_for_an_object_is_cancelled_at_once(rt: HostRuntime) -> Result<(), Fail> {
    let mut finalizers = Finalizers::new(rt.alloc());
    register(&mut finalizers, cons(0), 7)?;
    register(&mut finalizers, cons(2), 9)?;
    register(&mut finalizers, cons(0), 7)?;
    assert_eq!(rt; finalizers.len(), 3);
    assert_eq!(rt; finalizers.cancel(cons(4)), 0);
    assert_eq!(rt; finalizers.cancel(cons(0)), 2);
    assert_eq!(rt; finalizers.len(), 1);
    assert_eq!(rt; finalizers.cancel(cons(0)), 0);
    assert_eq!(rt; finalizers.cancel(cons(2)), 1);
    assert_eq!(rt; finalizers.len(), 0);
    crosses_threads(&finalizers);
    Ok(())
}

#[test]
fn no_object_has_died_so_nothing_is_queued(rt: HostRuntime) -> Result<(), Fail> {
    let mut finalizers = Finalizers::new(rt.alloc());
    register(&mut finalizers, cons(0), 7)?;
    assert_eq!(rt; finalizers.queue_len(), 0);
    let ids = queued(rt.alloc(), &mut finalizers)?;
    assert_eq!(rt; ids.len(), 0);
    assert_eq!(rt; finalizers.len(), 1);
    Ok(())
}
