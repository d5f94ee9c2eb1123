//! The worked example of a script of one cons: each public call once, with ample memory.

ghost use Rattle.std.specs.Prelude.{◌≡◌, IfOk};
ghost use Rattle.heap_terms.specs.Valid.{IsValid};

use heap_terms::{
    Answer, Cell, Command, Event, Kind, Memory, Owned, PageType, Program, Refusal, Seq, Value,
};
use lisp_heap::{Lent, Next, Parcel, World};
use std::alloc::Global;
use std::process::Abort;

/// Takes what another thread may own.
fn crosses_threads<T: Send>(_value: &T) {}

/// One thread that makes a cons of two fixnums, reads it, writes it and shows it.
fn one_cons(alloc: Global) -> Result<Program, Memory>
    ensures { IfOk result IsValid }
{
    let (cons, first, second) = (Cell::Exact(0), Cell::Stack(0), Cell::Stack(1));
    let read = Cell::Stack(2);
    let commands = vec![in alloc;
        Command::Fix { d: first, n: 5 },
        Command::Fix { d: second, n: -6 },
        Command::NewCons {
            d: cons,
            a: first,
            b: second
        },
        Command::Get {
            d: read,
            c: cons,
            i: 0
        },
        Command::Put {
            c: cons,
            i: 1,
            a: first
        },
        Command::Get {
            d: read,
            c: cons,
            i: 1
        },
        Command::Show { c: cons },
    ]?;
    let threads = vec![in alloc; Seq::from_vec(commands)]?;
    Ok(Program {
        pages: 2,
        auto: 0,
        threads: Seq::from_vec(threads),
        schedule: Seq::new(alloc),
    })
}

/// What the thread did.
fn did(command: Command, answer: Answer) -> Event {
    Event::Did {
        thread: 0,
        command,
        answer,
    }
}

/// What the thread did when it read a field of its cons.
fn read(i: u32, n: i64) -> Event {
    let command = Command::Get {
        d: Cell::Stack(2),
        c: Cell::Exact(0),
        i,
    };
    did(command, Answer::Val(Value::Fix(n)))
}

/// What the thread did when it made a fixnum.
fn made(cell: u8, n: i64) -> Event {
    let d = Cell::Stack(cell);
    did(Command::Fix { d, n }, Answer::Done)
}

/// The history of that script.
fn expected_history(alloc: Global) -> Result<Vec<Event>, Memory> {
    let (cons, first, second) = (Cell::Exact(0), Cell::Stack(0), Cell::Stack(1));
    let opened = Event::Opened {
        thread: 0,
        ty: PageType::Cons,
        first: 0,
        pages: 1,
    };
    let new_cons = Command::NewCons {
        d: cons,
        a: first,
        b: second,
    };
    let put = Command::Put {
        c: cons,
        i: 1,
        a: first,
    };
    let show = Command::Show { c: cons };
    let events = vec![in alloc;
        made(0, 5),
        made(1, -6),
        opened,
        did(new_cons, Answer::Placed { name: 0, index: 0 }),
        read(0, 5),
        did(put, Answer::Done),
        read(1, 5),
        did(show, Answer::Val(Value::Ref(0))),
        Event::Ended { thread: 0 },
    ]?;
    Ok(events)
}

/// The parcel of the one thread.
fn only(rt: &impl Abort, mut parcels: Vec<Parcel>) -> Parcel {
    let parcel = parcels.pop().expect(rt, "the thread has a parcel");
    assert!(rt; parcels.is_empty());
    parcels.destroy_empty();
    parcel
}

/// One turn of the parcel's owner.
fn turn(rt: &impl Abort, world: &mut World, parcel: &mut Parcel) -> Result<(), Memory> {
    let t = parcel.owner();
    assert!(rt; t < world.threads());
    assert!(rt; world.agrees(parcel));
    match world.next(t) {
        Next::Simple => world.perform(t),
        Next::Open => {
            assert_eq!(rt; world.lend(parcel)?, Lent::Opened);
            Ok(())
        }
        Next::Build { kind, n, seed } => {
            parcel.build(kind, n, seed);
            assert!(rt; parcel.has_built(Kind::Cons, 2, 0));
            assert!(rt; world.agrees(parcel));
            assert_eq!(rt; world.commit(parcel)?, 0);
            Ok(())
        }
        Next::End => world.end(parcel),
        Next::Collect(_) | Next::Done => Ok(()),
    }
}

/// The nine turns of the script.
fn turns(rt: &impl Abort, world: &mut World, parcel: &mut Parcel) -> Result<(), Memory> {
    for _ in 0..9 {
        turn(rt, world, parcel)?;
    }
    Ok(())
}

/// Compares what a new World of that script tells.
fn assert_new(rt: &impl Abort, world: &World) {
    assert_eq!(rt;
        (
            world.threads(),
            world.program().pages,
            world.history().len()
        ),
        (1, 2, 0)
    );
}

/// Compares what the World tells after the script.
fn assert_done(rt: &impl Abort, alloc: Global, world: &World) -> Result<(), Memory> {
    crosses_threads(world);
    assert!(rt; 0 < world.threads());
    assert_eq!(rt; world.next(0), Next::Done);
    let expected = expected_history(alloc)?;
    assert!(rt; world.history() == expected.as_slice());
    Ok(())
}

/// Runs the script with the parcel of its thread.
fn run_one_cons(rt: &impl Abort, world: &mut World, mut parcel: Parcel) -> Result<(), Memory> {
    crosses_threads(&parcel);
    assert!(rt; !parcel.has_built(Kind::Cons, 2, 0));
    let ran = turns(rt, world, &mut parcel);
    assert_eq!(rt; parcel.put_away(), 0);
    ran
}

/// Compares a new World of that script, runs it to its end, and compares again.
fn assert_one_cons(
    rt: &impl Abort,
    alloc: Global,
    world: &mut World,
    parcels: Vec<Parcel>,
) -> Result<(), Memory> {
    assert_new(rt, world);
    run_one_cons(rt, world, only(rt, parcels))?;
    assert_done(rt, alloc, world)
}

// The World is borrowed at once: the fewer steps a function takes that owns it, the less its proof costs.
#[test]
fn a_script_of_one_cons(rt: HostRuntime) -> Result<(), Memory> {
    let alloc = rt.alloc();
    let (mut world, parcels) = World::new(alloc, one_cons(alloc)?)?;
    assert_one_cons(&rt, alloc, &mut world, parcels)
}

/// A thread that takes a pin off, pins a cell, takes the pin off, and asks for a collection; and one
/// that inhibits collections.
fn pinned_and_inhibited(alloc: Global) -> Result<Program, Memory>
    ensures { IfOk result IsValid }
{
    let first = vec![in alloc;
        Command::Unpin,
        Command::Pin { c: Cell::Stack(0) },
        Command::Unpin,
        Command::Collect { g: 0 },
    ]?;
    let second = vec![in alloc; Command::Inhibit]?;
    let threads = vec![in alloc; Seq::from_vec(first), Seq::from_vec(second)]?;
    Ok(Program {
        pages: 1,
        auto: 0,
        threads: Seq::from_vec(threads),
        schedule: Seq::new(alloc),
    })
}

/// So many commands of thread t, which allocate nothing.
fn commands(rt: &impl Abort, world: &mut World, t: u32, count: u32) -> Result<(), Memory> {
    for _ in 0..count {
        assert!(rt; t < world.threads());
        assert_eq!(rt; world.next(t), Next::Simple);
        world.perform(t)?;
    }
    Ok(())
}

/// The fault of a command.
fn refused(world: &World, i: usize) -> Option<Refusal> {
    match world.history().get(i) {
        Some(
            Event::Did {
                answer: Answer::Refused(refusal),
                ..
            },
        ) => Some(*refusal),
        _ => None,
    }
}

/// Runs that script up to the collection, and compares.
fn assert_pins(rt: &impl Abort, world: &mut World) -> Result<(), Memory> {
    commands(rt, world, 1, 1)?;
    commands(rt, world, 0, 4)?;
    assert!(rt; 1 < world.threads());
    assert!(rt; world.inhibits(1));
    assert_eq!(rt; world.next(0), Next::Collect(0));
    assert_eq!(rt; refused(world, 1), Some(Refusal::Nothing));
    assert_eq!(rt; refused(world, 2), None);
    assert_eq!(rt; refused(world, 3), None);
    Ok(())
}

/// Puts parcels away in which there is no region.
fn put_away_empty(rt: &impl Abort, mut parcels: Vec<Parcel>) {
    while let Some(parcel) = parcels.pop() {
        assert_eq!(rt; parcel.put_away(), 0);
    }
    parcels.destroy_empty();
}

#[test]
fn pins_and_a_collection_that_is_due(rt: HostRuntime) -> Result<(), Memory> {
    let alloc = rt.alloc();
    let (mut world, parcels) = World::new(alloc, pinned_and_inhibited(alloc)?)?;
    put_away_empty(&rt, parcels);
    assert_pins(&rt, &mut world)
}
