//! Whole histories of small programs.

ghost use Rattle.std.specs.Prelude.{◌≡◌, ◌<◌, length, IfOk};
ghost use Rattle.heap_terms.specs.Valid.{IsValid};
ghost use Rattle.replay_core.specs.MachineView.{program_of};

use crate::passes;
use heap_terms::{
    Answer, Cell, Command, Event, Memory, PageType, Program, Refusal, ReplayLine, Seq, StepAnswer,
    WordLine, WordStep,
};
use replay_core::{Machine, Replay, Stepped, run_schedule};
use std::alloc::Global;
use std::process::Abort;

/// Two threads without commands.
fn two_idle_threads(alloc: Global) -> Result<Program, Memory>
    ensures { IfOk result IsValid }
{
    let first = vec![in alloc]?;
    let second = vec![in alloc]?;
    let threads = vec![in alloc; Seq::from_vec(first), Seq::from_vec(second)]?;
    Ok(Program {
        pages: 1,
        auto: 0,
        threads: Seq::from_vec(threads),
        schedule: Seq::new(alloc),
    })
}

/// The word step of a thread that went.
fn stepped(thread: u32, step: WordStep) -> WordLine {
    WordLine {
        thread,
        step,
        answer: StepAnswer::Went,
    }
}

/// Its line.
fn went(thread: u32, step: WordStep) -> ReplayLine {
    ReplayLine::Word(stepped(thread, step))
}

/// Compares the run of those threads.
fn assert_idle(rt: &impl Abort, alloc: Global, replay: &Replay) -> Result<(), Memory> {
    let expected = vec![in alloc; Event::Ended { thread: 0 }, Event::Ended { thread: 1 }]?;
    assert!(rt; replay.world.history() == expected.as_slice());
    let lines = vec![in alloc;
        went(0, WordStep::Resume),
        went(1, WordStep::Resume),
        went(0, WordStep::Enter),
        went(1, WordStep::Enter),
        ReplayLine::Event(0),
        ReplayLine::Event(1),
        went(0, WordStep::Leave),
        went(1, WordStep::Leave),
        went(0, WordStep::Park),
        went(1, WordStep::Park),
    ]?;
    assert!(rt; replay.lines == Seq::from_vec(lines));
    Ok(())
}

// What holds a World is borrowed at once: the fewer steps a function takes that owns it, the less its proof costs.
#[test]
fn threads_without_commands_end_in_turn(rt: HostRuntime) -> Result<(), Memory> {
    let alloc = rt.alloc();
    let replay = run_schedule(alloc, two_idle_threads(alloc)?)?;
    assert_idle(&rt, alloc, &replay)
}

/// Two threads that make a fixnum each, and a schedule in which the second has its turns first.
fn two_fixnums(alloc: Global) -> Result<Program, Memory>
    ensures valid { IfOk result IsValid }
    ensures threads { IfOk result (λ program. length program.threads ≡ 2) }
{
    let first = vec![in alloc;
        Command::Fix {
            d: Cell::Stack(0),
            n: 1
        },
    ]?;
    let second = vec![in alloc;
        Command::Fix {
            d: Cell::Stack(0),
            n: 2
        },
    ]?;
    let threads = vec![in alloc; Seq::from_vec(first), Seq::from_vec(second)]?;
    let turns = vec![in alloc; 1, 1, 0]?;
    Ok(Program {
        pages: 2,
        auto: 0,
        threads: Seq::from_vec(threads),
        schedule: Seq::from_vec(turns),
    })
}

/// What thread t does when it makes the fixnum n.
fn made(thread: u32, n: i64) -> Event {
    Event::Did {
        thread,
        command: Command::Fix {
            d: Cell::Stack(0),
            n,
        },
        answer: Answer::Done,
    }
}

/// Compares the history of those threads.
fn assert_second_first(rt: &impl Abort, alloc: Global, history: &[Event]) -> Result<(), Memory> {
    let ends = (Event::Ended { thread: 1 }, Event::Ended { thread: 0 });
    let expected = vec![in alloc; made(1, 2), made(0, 1), ends.0, ends.1]?;
    assert!(rt; history == expected.as_slice());
    Ok(())
}

#[test]
fn the_schedule_decides_which_thread_goes_first(rt: HostRuntime) -> Result<(), Memory> {
    let alloc = rt.alloc();
    let replay = run_schedule(alloc, two_fixnums(alloc)?)?;
    assert_second_first(&rt, alloc, replay.world.history())
}

/// One turn of thread 1.
fn second_steps(machine: &mut Machine) -> Result<Stepped, Memory>
    requires { 1 < length (program_of machine.old).threads }
    ensures { 1 < length (program_of machine.new).threads }
{
    machine.step(1)
}

/// Compares the turns of thread 1.
fn assert_rows(rt: &impl Abort, machine: &mut Machine)
    requires { 1 < length (program_of machine.old).threads }
{
    let turns = [
        second_steps(machine),
        second_steps(machine),
        second_steps(machine),
        second_steps(machine),
        second_steps(machine),
        second_steps(machine),
        second_steps(machine),
        second_steps(machine),
        second_steps(machine),
    ];
    assert!(rt;
        turns
            == [
                Ok(Stepped::Word(stepped(1, WordStep::Resume))),
                Ok(Stepped::Word(stepped(1, WordStep::Enter))),
                Ok(Stepped::Happened),
                Ok(Stepped::Word(stepped(1, WordStep::Leave))),
                Ok(Stepped::Word(stepped(1, WordStep::Enter))),
                Ok(Stepped::Happened),
                Ok(Stepped::Word(stepped(1, WordStep::Leave))),
                Ok(Stepped::Word(stepped(1, WordStep::Park))),
                Ok(Stepped::Ended),
            ]
    );
}

/// Compares the history of those turns.
fn assert_second_alone(rt: &impl Abort, alloc: Global, history: &[Event]) -> Result<(), Memory> {
    let expected = vec![in alloc; made(1, 2), Event::Ended { thread: 1 }]?;
    assert!(rt; history == expected.as_slice());
    Ok(())
}

#[test]
fn a_turn_is_one_row_of_the_table(rt: HostRuntime) -> Result<(), Memory> {
    let alloc = rt.alloc();
    let mut machine = Machine::new(alloc, two_fixnums(alloc)?)?;
    assert_rows(&rt, &mut machine);
    let world = machine.into_world();
    assert_second_alone(&rt, alloc, world.history())
}

/// A thread whose reads of a field are refused: of a fixnum, and of a cons past its end.
fn refused_reads(rt: &impl Abort, alloc: Global) -> Result<Program, Memory>
    ensures { IfOk result IsValid }
{
    let (cons, fixnum) = (Cell::Exact(0), Cell::Stack(0));
    let d = Cell::Stack(1);
    let commands = [
        Command::Get { d, c: fixnum, i: 0 },
        Command::NewCons {
            d: cons,
            a: fixnum,
            b: fixnum,
        },
        Command::Get { d, c: cons, i: 2 },
    ];
    passes::program_of(rt, alloc, 1, &commands)
}

/// Compares the history of that thread.
fn assert_refused(rt: &impl Abort, alloc: Global, history: &[Event]) -> Result<(), Memory> {
    let (cons, fixnum) = (Cell::Exact(0), Cell::Stack(0));
    let read = Cell::Stack(1);
    let expected = vec![in alloc;
        Event::Did {
            thread: 0,
            command: Command::Get {
                d: read,
                c: fixnum,
                i: 0
            },
            answer: Answer::Refused(Refusal::NotType),
        },
        Event::Opened {
            thread: 0,
            ty: PageType::Cons,
            first: 0,
            pages: 1
        },
        Event::Did {
            thread: 0,
            command: Command::NewCons {
                d: cons,
                a: fixnum,
                b: fixnum
            },
            answer: Answer::Placed { name: 0, index: 0 },
        },
        Event::Did {
            thread: 0,
            command: Command::Get {
                d: read,
                c: cons,
                i: 2
            },
            answer: Answer::Refused(Refusal::OutOfRange),
        },
        Event::Ended { thread: 0 },
    ]?;
    assert!(rt; history == expected.as_slice());
    Ok(())
}

#[test]
fn a_refused_read_goes_on(rt: HostRuntime) -> Result<(), Memory> {
    let alloc = rt.alloc();
    let replay = run_schedule(alloc, refused_reads(&rt, alloc)?)?;
    assert_refused(&rt, alloc, replay.world.history())
}
