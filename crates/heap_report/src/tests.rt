//! The numbers of a short history, counted by hand, and their text.

use super::*;
use heap_terms::{
    Answer, Cell, Command, Event, Memory, PassRecord, PinAt, Placing, Program, Seq, Value,
};
use std::alloc::Global;

/// A pass of generation 0 with two moves, a stay, a pin, a break and two pages that became free.
fn pass(alloc: Global) -> Result<PassRecord, Memory> {
    let moves = vec![in alloc;
        Placing {
            name: 0,
            old: 0,
            new: Some(512)
        },
        Placing {
            name: 1,
            old: 2,
            new: None
        },
        Placing {
            name: 4,
            old: 4,
            new: Some(514)
        },
    ]?;
    Ok(PassRecord {
        generation: 0,
        target: 0,
        moves: Seq::from_vec(moves),
        pins: Seq::from_vec(vec![in alloc; PinAt { name: 2, index: 6 }]?),
        culls: Seq::new(alloc),
        breaks: Seq::from_vec(vec![in alloc; 3]?),
        queued: Seq::from_vec(vec![in alloc; 7, 8, 9]?),
        freed: Seq::from_vec(vec![in alloc; 1, 2]?),
        dead: 5,
        kept: 4,
    })
}

#[test]
fn numbers_of_a_history(rt: HostRuntime) -> Result<(), Memory> {
    let alloc = rt.alloc();
    let commands = vec![in alloc; Command::Unpin, Command::Unpin]?;
    let threads = vec![in alloc; Seq::from_vec(commands), Seq::new(alloc)]?;
    let program = Program {
        pages: 9,
        auto: 0,
        threads: Seq::from_vec(threads),
        schedule: Seq::new(alloc),
    };
    let command = Command::Show { c: Cell::Stack(0) };
    let passes = vec![in alloc; pass(alloc)?, pass(alloc)?]?;
    let events = vec![in alloc;
        Event::Did {
            thread: 0,
            command,
            answer: Answer::Val(Value::Nil)
        },
        Event::Did {
            thread: 0,
            command,
            answer: Answer::Placed { name: 0, index: 0 }
        },
        Event::Collected {
            thread: 1,
            last: 0,
            passes: Seq::from_vec(passes)
        },
        Event::Ended { thread: 0 },
    ]?;
    let text = print_summary(alloc, &summary(&program, &events))?;
    let expected =
        "threads 2\npages 9\ncommands 2\nevents 4\nobjects 1\ncollections 1\npasses 2\nmoved 4\npinned 2\nstayed 2\ndead 10\nculled 0\nbroken 2\nqueued 6\nfreed 4\n";
    assert!(rt; text.as_slice() == expected.as_bytes());
    Ok(())
}

#[test]
fn the_largest_number_has_its_place(rt: HostRuntime) -> Result<(), Memory> {
    let alloc = rt.alloc();
    let program = Program {
        pages: 1,
        auto: 0,
        threads: Seq::new(alloc),
        schedule: Seq::new(alloc),
    };
    let mut totals = summary(&program, &[]);
    totals.freed = u64::MAX;
    let text = print_summary(alloc, &totals)?;
    let end = b"queued 0\nfreed 18446744073709551615\n";
    assert!(rt; text.as_slice().ends_with(end.as_slice()));
    Ok(())
}
