//! Runs on threads: single scripts against their journals, held threads, and many runs of one script, each of
//! which is checked by running its turns again.

ghost use Rattle.std.specs.Prelude.{◌≡◌, ◌<◌, length, IsTrue};
ghost use Rattle.heap_terms.specs.Valid.{IsValid};
ghost use Rattle.heap_turns.specs.Parcels.{AreReady};
ghost use Rattle.heap_turns.specs.Turns.{MayGo, NoneInhibits};

use super::{FIRST, FIRST_JOURNAL, WHOLE, sinks_of, source_of, spoken_words};
use crate::on_threads::lispheap;
use heap_terms::{Event, Memory, Program};
use heap_turns::turn;
use lisp_heap::{Parcel, World, put_away_all};
use script_text::parse;
use std::alloc::Global;
use std::process::Abort;
use std::sync::Wait;
use std::sync::atomic::{AtomicU64, Ordering};
use std::test::Fail;
use std::thread::{Threads, yield_now};
use thread_scripts::{Gate, GatePlace, OpenGate, run_threads};

/// Calls the program on words and an input, and compares status, output and what is said.
fn assert_runs<R: Threads + Wait + Sync, G: Gate>(
    abort: &impl Abort,
    rt: &R,
    alloc: Global,
    words: &[&str],
    input: &[u8],
    gate: &G,
    status: u8,
    outputs: &[&str],
    said: &str,
) -> Result<(), Fail> {
    let spoken = spoken_words(alloc, words)?;
    let mut source = source_of(alloc, input, WHOLE)?;
    let (mut out, mut err) = sinks_of(alloc, WHOLE)?;
    let got = lispheap(rt, alloc, &spoken, &mut source, &mut out, &mut err, gate);
    assert_eq!(abort; got, status, "{said}");
    assert!(abort;
        outputs
            .iter()
            .any(|output| out.bytes() == output.as_bytes())
    );
    assert_eq!(abort; err.bytes(), said.as_bytes(), "{said}");
    Ok(())
}

#[test]
fn a_script_of_one_thread_runs_as_its_schedule_says(rt: HostRuntime) -> Result<(), Fail> {
    assert_runs(
        &rt,
        &rt,
        rt.alloc(),
        &["run"],
        FIRST.as_bytes(),
        &OpenGate,
        0,
        &[FIRST_JOURNAL],
        "",
    )
}

#[test]
fn other_words_and_refused_scripts_are_told_as_ever(rt: HostRuntime) -> Result<(), Fail> {
    let alloc = rt.alloc();
    let usage = "lispheap: usage\n";
    assert_runs(
        &rt,
        &rt,
        alloc,
        &["run", "--fast"],
        b"",
        &OpenGate,
        2,
        &[""],
        usage,
    )?;
    assert_runs(&rt, &rt, alloc, &[], b"", &OpenGate, 2, &[""], usage)?;
    assert_runs(
        &rt,
        &rt,
        alloc,
        &["replay"],
        FIRST.as_bytes(),
        &OpenGate,
        0,
        &[FIRST_JOURNAL],
        "",
    )?;
    for (input, said) in [
        (
            "lispheap 1\nheap 1025\nthread\nend\n",
            "lispheap: limit pages 1024\n",
        ),
        (
            "lispheap 1\nheap 1\nthread\nthread\nthread\nthread\nthread\nthread\nthread\nthread\nthread\nend\n",
            "lispheap: limit threads 8\n",
        ),
    ] {
        assert_runs(
            &rt,
            &rt,
            alloc,
            &["run"],
            input.as_bytes(),
            &OpenGate,
            6,
            &[""],
            said,
        )?;
    }
    let long = vec![in alloc; b'a'; 4_194_305]?;
    let said = "lispheap: limit bytes 4194304\n";
    assert_runs(&rt, &rt, alloc, &["run"], &long, &OpenGate, 6, &[""], said)
}

/// How many turns a hold lasts at most. A hold that ends so is a failure.
const MOST_TURNS: u64 = 20_000_000;

/// How many turns thread 0 is held inside its section after thread 1 asked for its collection. A collection that
/// does not wait for the section would be made in that time.
const TURNS_MORE: u64 = 200_000;

/// A gate that holds thread 1 at its first event until thread 0 is at its own, and thread 0 there until thread 1
/// has had two events, and then for some turns more.
#[derive(Drop)]
struct HoldingGate {
    // How often each of the two threads was at an event, and how many events thread 1 has had.
    first: AtomicU64,
    second: AtomicU64,
    events: AtomicU64,
    // A hold ended before what it waited for came.
    failed: AtomicU64,
}

impl HoldingGate {
    fn new() -> HoldingGate {
        HoldingGate {
            first: AtomicU64::new(0),
            second: AtomicU64::new(0),
            events: AtomicU64::new(0),
            failed: AtomicU64::new(0),
        }
    }

    /// Holds a thread until a count has come to a number.
    fn hold(&self, count: &AtomicU64, number: u64) {
        for _ in 0..MOST_TURNS {
            if count.load(Ordering::SeqCst) >= number {
                return;
            }
            yield_now();
        }
        self.failed.store(1, Ordering::SeqCst);
    }
}

impl Gate for HoldingGate {
    fn at(&self, thread: u32, place: GatePlace) {
        match (thread, place) {
            (0, GatePlace::Inside) => {
                if self.first.fetch_add(1, Ordering::SeqCst) == 0 {
                    self.hold(&self.events, 2);
                    for _ in 0..TURNS_MORE {
                        yield_now();
                    }
                }
            }
            (1, GatePlace::Inside) => {
                if self.second.fetch_add(1, Ordering::SeqCst) == 0 {
                    self.hold(&self.first, 1);
                }
            }
            (1, GatePlace::After) => {
                self.events.fetch_add(1, Ordering::SeqCst);
            }
            _ => {}
        }
    }
}

#[test]
fn a_collection_waits_for_the_section_of_a_held_thread(rt: HostRuntime) -> Result<(), Fail> {
    let input = "lispheap 1\nheap 2\nthread\nfix s0 5\nthread\nfix s0 7\ngc 0\nend\n";
    let gate = HoldingGate::new();
    let outputs = [
        "1 fix s0 7 -> ok\n1 gc 0 -> ok\n0 fix s0 5 -> ok\n0 end\n1 collect 0\npass 0 0\nswept 0 0\n1 end\ndone 6\n",
        "1 fix s0 7 -> ok\n1 gc 0 -> ok\n0 fix s0 5 -> ok\n1 collect 0\npass 0 0\nswept 0 0\n0 end\n1 end\ndone 6\n",
        "1 fix s0 7 -> ok\n1 gc 0 -> ok\n0 fix s0 5 -> ok\n1 collect 0\npass 0 0\nswept 0 0\n1 end\n0 end\ndone 6\n",
    ];
    assert_runs(
        &rt,
        &rt,
        rt.alloc(),
        &["run"],
        input.as_bytes(),
        &gate,
        0,
        &outputs,
        "",
    )?;
    assert_eq!(rt; gate.failed.load(Ordering::SeqCst), 0);
    Ok(())
}

/// Eight threads that make objects, pin them, inhibit collections and ask for them, and have weak
/// pointers, tables and finalizers, all on a few pages.
const EIGHT_THREADS: &str =
    "lispheap 1\nheap 48\nauto 512\nthread\ncons b0 s0 s0\nvector b1 20\nput b1 3 b0\ngc 0\ncons b2 b1 b0\npin b2\ngc 1\nget b3 b2 0\nunpin\ncons b4 b3 b3\ntable g7 key-or-value 8\ntput g7 b1 b4\nfinalize b4 1\nnil b4\ngc 0\nthread\nnogc\nvector s1 30\ncons b0 s1 s1\ngc 0\nput s1 0 b0\ngcok\ncons g1 b0 b0\nnil s1\ngc 0\nthread\ninstance b0 7\nput b0 2 g1\ncons b1 b0 b0\ngc 2\nget b2 b0 2\nshow b2\nweak b3 b1\ntput g7 b1 b2\nnil b1\ngc 1\nweakval b4 b3\nthread\nwords b0 40 0x12\nraw r0 0x1000000007\ncons b1 b0 b0\ngc 0\nvector b2 9\nput b2 8 b1\ngc 0\nfinalize b1 77\nnil b1\ngc 0\nrunfin\nthread\nclosure b0 5\ncons g4 b0 b0\npin g4\ncons b2 g4 g4\ngc 1\nunpin\neq b2 g4\ntable b3 value 4\ntput b3 b2 b2\ngc 0\ntcount b3\nthread\nvector b0 600\nput b0 599 g4\ngc 0\nget b1 b0 599\ncons b2 b1 b0\nthread\ncons s0 g1 g4\nnogc\ncons s1 s0 s0\ngc 3\ngcok\nmove g6 s1\ncons b0 g6 g6\nthread\nstat 0\npage 0\ncons b0 s0 s0\nput b0 0 b0\ngc 0\nput b0 1 g1\ncons b1 b0 b0\npage 1\nfinalize b1 9\nfinalize b1 10\ncancel b1\ntcount g7\ntget b5 g7 b0\nrunfin\nend\n";

/// Whether thread t may have the next event.
fn may_go(world: &World, t: u32) -> bool
    ensures { IsTrue result → MayGo world.now t }
{
    if t >= world.threads() {
        return false;
    }
    if world.has_ended(t) {
        return false;
    }
    if world.is_due(t) {
        return none_inhibits(world);
    }
    true
}

/// Whether no thread inhibits collections.
fn none_inhibits(world: &World) -> bool
    ensures { IsTrue result → NoneInhibits world.now }
{
    // Looked into here, for what a World keeps true.
    let _history = world.history();
    for t in 0..world.threads() {
        if world.inhibits(t) {
            return false;
        }
    }
    true
}

/// The thread of an event.
fn thread_of(event: &Event) -> u32 {
    match event {
        Event::Did { thread, .. }
        | Event::Opened { thread, .. }
        | Event::Collected { thread, .. }
        | Event::Ended { thread } => *thread,
    }
}

/// Gives the threads their turns in the order of a history, and says whether each could have its own.
fn go_again(world: &mut World, parcels: &mut [Parcel], history: &[Event]) -> Result<bool, Memory>
    requires { AreReady world.old parcels.old }
{
    for event in history {
        let t = thread_of(event);
        if !may_go(world, t) {
            return Ok(false);
        }
        turn(world, parcels, t)?;
    }
    Ok(true)
}

/// Whether each thread has ended.
fn all_ended(world: &World) -> bool {
    for t in 0..world.threads() {
        if !world.has_ended(t) {
            return false;
        }
    }
    true
}

/// Whether a history is what comes of a program if its threads take turns in the order of the history's events,
/// and is complete.
fn comes_again(alloc: Global, program: Program, history: &[Event]) -> Result<bool, Memory>
    requires { IsValid program }
{
    let (mut world, mut parcels) = World::new(alloc, program)?;
    let went = go_again(&mut world, parcels.as_mut_slice(), history);
    put_away_all(parcels);
    Ok(went? && all_ended(&world) && world.history() == history)
}

/// The program of the eight threads.
fn eight_threads(rt: &impl Abort, alloc: Global) -> Program
    ensures { IsValid result }
{
    match parse(alloc, EIGHT_THREADS.as_bytes()) {
        Ok(program) => program,
        Err(_) => panic!(rt; "the script is refused"),
    }
}

/// Runs the eight threads, and compares their history with what their turns give again.
fn assert_comes_again<R: Threads + Wait + Sync>(
    abort: &impl Abort,
    rt: &R,
    alloc: Global,
) -> Result<(), Fail> {
    let world = run_threads(rt, alloc, eight_threads(abort, alloc), &OpenGate)?;
    let again = eight_threads(abort, alloc);
    assert!(abort; comes_again(alloc, again, world.history())?);
    Ok(())
}

#[test]
fn each_of_many_runs_is_a_complete_history(rt: HostRuntime) -> Result<(), Fail> {
    for _ in 0..200u32 {
        assert_comes_again(&rt, &rt, rt.alloc())?;
    }
    Ok(())
}
