//! Each call on a table for three pairs: empty, full, and at its first, middle and last pair. The
//! table lies at the start of a space, and a word behind it is looked at in the end.

ghost use Rattle.std.specs.Prelude.{◌≡◌, IfOk, length};
ghost use Rattle.heap_terms.specs.Layout.{page_words};
ghost use Rattle.eq_index.specs.Tables.{HasTable};

use crate::{Inserted, count, find, insert, look_up, needs_rehash, rehash, remove, remove_at};
use heap_terms::Memory;
use std::alloc::Global;
use std::test::Fail;
use word_space::Space;

/// A header of a table with 15 words of payload, in words of a script.
const HEADER: u64 = 15 * 256 + 0x31;

/// A space of one page with an empty key-weak table for three pairs at its start.
fn three_pairs(alloc: Global) -> Result<Space, Memory>
    ensures table { IfOk result (λ space. HasTable space 0) }
    ensures long { IfOk result (λ space. length space ≡ page_words) }
{
    let mut space = Space::new(alloc, 1)?;
    let words = [
        HEADER, 2, 0, 0, 0x51, 0x51, 0x51, 0x51, 0x51, 0x51, 0, 0, 0, 0, 0, 0,
    ];
    space.write_all(0, words.as_slice());
    Ok(space)
}

/// Puts a pair in.
fn put(space: &mut Space, key: u64, value: u64) -> Inserted
    requires { HasTable space.old 0 }
    ensures table { HasTable space.new 0 }
    ensures long { length space.new ≡ length space.old }
{
    insert(space, 0, key, value)
}

/// The value of a key.
fn get(space: &mut Space, key: u64) -> Option<u64>
    requires { HasTable space.old 0 }
    ensures table { HasTable space.new 0 }
    ensures long { length space.new ≡ length space.old }
{
    look_up(space, 0, key)
}

/// Takes a key out.
fn take_out(space: &mut Space, key: u64) -> bool
    requires { HasTable space.old 0 }
    ensures table { HasTable space.new 0 }
    ensures long { length space.new ≡ length space.old }
{
    remove(space, 0, key)
}

/// Takes out the pair of a key, by its number; answers that number.
fn take_found(space: &mut Space, key: u64) -> Option<u32>
    requires { HasTable space.old 0 }
    ensures table { HasTable space.new 0 }
    ensures long { length space.new ≡ length space.old }
{
    let slot = find(space, 0, key)?;
    remove_at(space, 0, slot);
    Some(slot)
}

/// A table that is made ready for look-ups stays a table.
fn made_ready(space: &mut Space)
    requires { HasTable space.old 0 }
    ensures table { HasTable space.new 0 }
    ensures long { length space.new ≡ length space.old }
{
    if needs_rehash(space, 0) {
        rehash(space, 0);
    }
}

#[test]
fn an_empty_table_has_no_pair(rt: HostRuntime) -> Result<(), Fail> {
    let mut space = three_pairs(rt.alloc())?;
    made_ready(&mut space);
    let found = (get(&mut space, 2), take_found(&mut space, 2));
    assert_eq!(rt; found, (None, None));
    assert!(rt; !take_out(&mut space, 2));
    assert_eq!(rt; count(&space, 0), 0);
    Ok(())
}

#[test]
fn a_full_table_takes_a_value_for_a_key_and_no_key_more(rt: HostRuntime) -> Result<(), Fail> {
    let mut space = three_pairs(rt.alloc())?;
    let first = put(&mut space, 10, 11);
    let middle = put(&mut space, 20, 21);
    let last = put(&mut space, 30, 31);
    assert_eq!(rt;
        (first, middle, last),
        (Inserted::Added, Inserted::Added, Inserted::Added)
    );
    let more = put(&mut space, 40, 41);
    let same = put(&mut space, 20, 22);
    assert_eq!(rt; (more, same), (Inserted::Full, Inserted::Replaced));
    let values = (
        get(&mut space, 10),
        get(&mut space, 20),
        get(&mut space, 30),
        get(&mut space, 40),
    );
    assert_eq!(rt; values, (Some(11), Some(22), Some(31), None));
    let kept = (space.read(1), space.read(16), count(&space, 0));
    assert_eq!(rt; kept, (2, 0, 3));
    Ok(())
}

#[test]
fn those_behind_a_removed_pair_close_up(rt: HostRuntime) -> Result<(), Fail> {
    let mut space = three_pairs(rt.alloc())?;
    put(&mut space, 10, 11);
    put(&mut space, 20, 21);
    put(&mut space, 30, 31);
    assert!(rt; take_out(&mut space, 10));
    let words = (space.read(4), space.read(5), space.read(6), space.read(8));
    assert_eq!(rt; words, (20, 21, 30, 0x51));
    assert_eq!(rt; put(&mut space, 10, 12), Inserted::Added);
    // The pairs are now those of 20, 30 and 10.
    let middle = take_found(&mut space, 30);
    let last = take_found(&mut space, 10);
    assert_eq!(rt; (middle, last), (Some(1), Some(1)));
    let left = (
        get(&mut space, 20),
        get(&mut space, 30),
        get(&mut space, 10),
    );
    assert_eq!(rt; left, (Some(21), None, None));
    let words = (space.read(3), space.read(6), space.read(7));
    assert_eq!(rt; words, (2, 0x51, 0x51));
    Ok(())
}
