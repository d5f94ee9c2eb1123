//! Where a pass puts objects of each kind and size class, up to the last page of the heap, what stays where
//! there is no place, and a long list.

use crate::passes::{
    Case, Reply, address, assert_case, cons, field, nil, one_word, page, program_of, put, raw_word,
    reply_of, the_pass, vector,
};
use heap_terms::Cell::{Exact, Stack};
use heap_terms::Command::{Collect, Get, NewClosure, NewCons, NewInstance, NewTable, NewWeak};
use heap_terms::PageType::{Boxed, Cons, Unboxed};
use heap_terms::{Command, Event, Memory, PassRecord, Value, Weakness};
use replay_core::run_history;
use std::alloc::Global;
use std::process::Abort;

/// Two vectors of 400 words and one of 10, and one page for them to move to.
#[test]
fn one_that_stays_does_not_keep_a_smaller_one_from_moving(rt: HostRuntime) -> Result<(), Memory> {
    let case = Case {
        pages: 3,
        made: &[
            vector(Exact(0), 399),
            vector(Exact(1), 399),
            vector(Exact(2), 9),
        ],
        moves: &[(0, Some(1024)), (512, None), (912, Some(1424))],
        pins: &[],
        freed: &[0],
        dead: 0,
        then: &[
            page(0, Reply::Free),
            page(1, Reply::Small(Boxed, 410)),
            page(2, Reply::Small(Boxed, 410)),
            address(Exact(0), 0x10_0000_200f),
            address(Exact(1), 0x10_0000_100f),
            address(Exact(2), 0x10_0000_2c8f),
        ],
    };
    assert_case(&rt, rt.alloc(), case)
}

/// A vector of two pages and a cons, and one page for them to move to.
#[test]
fn a_large_object_without_a_run_stays_and_a_smaller_one_moves(
    rt: HostRuntime,
) -> Result<(), Memory> {
    let case = Case {
        pages: 4,
        made: &[
            vector(Exact(0), 600),
            cons(Exact(1), Exact(0), Exact(0)),
            put(Exact(0), 599, Exact(1)),
        ],
        moves: &[(0, None), (1024, Some(1536))],
        pins: &[],
        freed: &[2],
        dead: 0,
        then: &[
            page(0, Reply::Large(Boxed, 2)),
            page(1, Reply::Large(Boxed, 2)),
            page(2, Reply::Free),
            page(3, Reply::Small(Cons, 2)),
            address(Exact(0), 0x10_0000_000f),
            field(Exact(2), Exact(0), 599, 1),
            address(Exact(2), 0x10_0000_3007),
            field(Exact(3), Exact(1), 0, 0),
        ],
    };
    assert_case(&rt, rt.alloc(), case)
}

/// A vector that fills a page, and two that fill one together.
#[test]
fn what_fits_exactly_goes_into_the_page_up_to_the_last_of_the_heap(
    rt: HostRuntime,
) -> Result<(), Memory> {
    let case = Case {
        pages: 4,
        made: &[
            vector(Exact(0), 511),
            vector(Exact(1), 399),
            vector(Exact(2), 111),
        ],
        moves: &[(0, Some(1024)), (512, Some(1536)), (912, Some(1936))],
        pins: &[],
        freed: &[0, 1],
        dead: 0,
        then: &[
            page(2, Reply::Small(Boxed, 512)),
            page(3, Reply::Small(Boxed, 512)),
            address(Exact(2), 0x10_0000_3c8f),
        ],
    };
    assert_case(&rt, rt.alloc(), case)
}

/// A vector that fills two pages, and moves to the last two.
#[test]
fn a_large_object_that_fits_exactly_takes_the_last_run(rt: HostRuntime) -> Result<(), Memory> {
    let case = Case {
        pages: 4,
        made: &[vector(Exact(0), 1_023)],
        moves: &[(0, Some(1024))],
        pins: &[],
        freed: &[0, 1],
        dead: 0,
        then: &[
            page(1, Reply::Free),
            page(2, Reply::Large(Boxed, 2)),
            page(3, Reply::Large(Boxed, 2)),
            address(Exact(0), 0x10_0000_200f),
        ],
    };
    assert_case(&rt, rt.alloc(), case)
}

/// A vector of two pages, a weak pointer and a table in roots, and from the vector on an instance, a cons, a
/// closure and a raw word, of which the cons refers to the vector.
#[test]
fn objects_of_every_kind_move_with_what_refers_to_them(rt: HostRuntime) -> Result<(), Memory> {
    let case = Case {
        pages: 12,
        made: &[
            cons(Exact(0), Stack(0), Stack(0)),
            NewInstance { d: Exact(1), n: 2 },
            NewClosure { d: Exact(2), n: 1 },
            one_word(Exact(3)),
            vector(Exact(4), 600),
            NewWeak {
                d: Exact(5),
                c: Exact(4),
            },
            NewTable {
                d: Exact(6),
                w: Weakness::Key,
                b: 1,
            },
            put(Exact(1), 0, Exact(0)),
            put(Exact(1), 1, Exact(2)),
            put(Exact(2), 0, Exact(3)),
            put(Exact(0), 0, Exact(4)),
            put(Exact(4), 599, Exact(1)),
            nil(Exact(0)),
            nil(Exact(1)),
            nil(Exact(2)),
            nil(Exact(3)),
        ],
        moves: &[
            (1536, Some(2560)),
            (518, Some(3584)),
            (520, Some(3586)),
            (512, Some(3594)),
            (0, Some(4096)),
            (516, Some(3598)),
            (1024, Some(4608)),
        ],
        pins: &[],
        freed: &[0, 1, 2, 3, 4],
        dead: 0,
        then: &[
            page(5, Reply::Large(Boxed, 2)),
            page(6, Reply::Large(Boxed, 2)),
            page(7, Reply::Small(Boxed, 16)),
            page(8, Reply::Small(Cons, 2)),
            page(9, Reply::Small(Unboxed, 2)),
            address(Exact(4), 0x10_0000_500f),
            address(Exact(5), 0x10_0000_700f),
            address(Exact(6), 0x10_0000_701f),
            field(Exact(0), Exact(4), 599, 1),
            address(Exact(0), 0x10_0000_7053),
            field(Exact(1), Exact(0), 1, 2),
            address(Exact(1), 0x10_0000_707b),
            field(Exact(2), Exact(1), 0, 3),
            address(Exact(2), 0x10_0000_900f),
            raw_word(Exact(2), 0, 0x10_0000_0007),
            field(Exact(3), Exact(0), 0, 0),
            field(Exact(3), Exact(3), 0, 4),
        ],
    };
    assert_case(&rt, rt.alloc(), case)
}

/// Appends a collection, and a walk to the end of the list.
fn add_walk(alloc: Global, script: &mut Vec<Command>) -> Result<(), Memory> {
    let (d, c) = (Exact(0), Exact(0));
    script.push(Collect { g: 0 })?;
    let walk = vec![in alloc; Get { d, c, i: 1 }; 9_999]?;
    script.extend_from_slice(&walk)?;
    Ok(())
}

/// A list of 10,000 conses in a root, a collection, and a walk to the end of the list.
fn long_list(alloc: Global) -> Result<Vec<Command>, Memory> {
    let (d, c) = (Exact(0), Exact(0));
    let mut script = vec![in alloc; NewCons { d, a: c, b: c }; 10_000]?;
    add_walk(alloc, &mut script)?;
    Ok(script)
}

/// The conses move in the order of the list, from its front, which was made last.
fn assert_in_order(rt: &impl Abort, pass: &PassRecord) {
    let mut old = 19_998u32;
    let mut new = 20_480u32;
    for placing in pass.moves.as_slice() {
        assert_eq!(rt; (placing.old, placing.new), (old, Some(new)));
        old = old.wrapping_sub(2);
        new = new.wrapping_add(2);
    }
}

/// Compares what the pass did with the list, and the end of the walk.
fn assert_list(rt: &impl Abort, history: &[Event]) {
    let pass = the_pass(history).expect(rt, "there was a pass");
    assert_in_order(rt, pass);
    assert_eq!(rt; (pass.moves.len(), pass.pins.len()), (10_000, 0));
    assert_eq!(rt; (pass.freed.len(), pass.dead), (40, 0));
    let last = history.iter().rev().nth(1).map(reply_of);
    assert_eq!(rt; last, Some(Reply::Field(Value::Ref(0))));
}

/// The list fills 40 pages, the last of them in part, and there are 40 more.
#[test]
fn a_list_of_10_000_conses_moves_from_its_front(rt: HostRuntime) -> Result<(), Memory> {
    let alloc = rt.alloc();
    let program = program_of(&rt, alloc, 80, &long_list(alloc)?)?;
    let world = run_history(alloc, program)?;
    assert_list(&rt, world.history());
    Ok(())
}
