//! Whole inputs against whole outputs, statuses and what is said. The values are worked by hand.

ghost use Rattle.std.specs.Prelude.{◌≤◌};

mod collections;
mod finalizing;
mod generations;
mod generator;
mod tables;
mod threads;
mod weakness;

use crate::still::lispheap_still;
use heap_io::{MemorySink, MemorySource};
use std::alloc::{AllocError, Global};
use std::process::Abort;
use std::test::Fail;

/// The numbers, places and answers of the first commands.
const FIRST: &str =
    "lispheap 1\nheap 2\nthread\nfix s0 5\nfix s1 -6\ncons b0 s0 s1\nget s2 b0 0\nput b0 1 s0\nget s2 b0 1\nshow b0\nend\n";

const FIRST_JOURNAL: &str =
    "0 fix s0 5 -> ok\n0 fix s1 -6 -> ok\n0 open cons 0 1\n0 cons b0 s0 s1 -> #0 @0\n0 get s2 b0 0 -> 5\n0 put b0 1 s0 -> ok\n0 get s2 b0 1 -> 5\n0 show b0 -> #0\n0 end\ndone 9\n";

/// Three threads share a cell, and a schedule gives turns; then they take turns from thread 0 on.
const THREE_THREADS: &str =
    "lispheap 1\nheap 4\nthread\nfix s0 7\ncons g0 s0 s0\nget b0 g0 0\nthread\ncons b1 g0 g0\nshow b1\nthread\nshow g0\nput g0 1 g0\nschedule 0*5 2*2 1\nend\n";

const THREE_THREADS_JOURNAL: &str =
    "0 fix s0 7 -> ok\n0 open cons 0 1\n2 show g0 -> 0\n0 cons g0 s0 s0 -> #0 @0\n1 open cons 1 1\n1 cons b1 g0 g0 -> #1 @512\n2 put g0 1 g0 -> ok\n0 get b0 g0 0 -> 7\n1 show b1 -> #1\n2 end\n0 end\n1 end\ndone 12\n";

/// Two threads, of which the second has the first turns.
const TWO_THREADS: &str =
    "lispheap 1\nheap 2\nthread\nfix s0 1\nthread\nfix s0 2\nschedule 1*2 0\nend\n";

/// Each line is one turn: a word step, or an event.
const TWO_THREADS_STEPS: &str =
    "1 : resume\n1 : enter\n0 : resume\n0 : enter\n1 fix s0 2 -> ok\n0 fix s0 1 -> ok\n1 : leave\n0 : leave\n1 : enter\n0 : enter\n1 end\n0 end\n1 : leave\n0 : leave\n1 : park\n0 : park\ndone 4\n";

/// What one call does: its status, what was written, and what was said.
#[derive(Drop)]
struct Ended {
    status: u8,
    out: MemorySink,
    err: MemorySink,
}

/// How the streams of a call behave.
#[derive(Clone, Copy)]
struct Streams<'a> {
    // The most bytes that one call passes.
    most: u64,
    // The numbers of the calls of the source, and of the output, that fail.
    source_fails: &'a [u64],
    out_fails: &'a [u64],
}

const WHOLE: Streams<'static> = Streams {
    most: 1_000_000,
    source_fails: &[],
    out_fails: &[],
};

/// The words of a call.
fn spoken_words(alloc: Global, words: &[&str]) -> Result<Vec<String>, Fail> {
    let mut spoken = Vec::new(alloc);
    for word in words {
        spoken.push(String::from_str(alloc, word)?)?;
    }
    Ok(spoken)
}

/// The source of a call.
fn source_of(alloc: Global, input: &[u8], streams: Streams) -> Result<MemorySource, Fail>
    requires { 1 ≤ streams.most }
{
    let fails = Vec::from_slice(alloc, streams.source_fails)?;
    Ok(MemorySource::new(Vec::from_slice(alloc, input)?, streams.most, fails))
}

/// The output of a call, and what takes what it says.
fn sinks_of(alloc: Global, streams: Streams) -> Result<(MemorySink, MemorySink), Fail>
    requires { 1 ≤ streams.most }
{
    let fails = Vec::from_slice(alloc, streams.out_fails)?;
    let out = MemorySink::new(alloc, streams.most, 1_000_000, fails)?;
    let err = MemorySink::new(alloc, 1000, 1000, Vec::new(alloc))?;
    Ok((out, err))
}

/// Calls the program on words and an input.
fn outcome_of(alloc: Global, words: &[&str], input: &[u8], streams: Streams) -> Result<Ended, Fail>
    requires { 1 ≤ streams.most }
{
    let spoken = spoken_words(alloc, words)?;
    let mut source = source_of(alloc, input, streams)?;
    let (mut out, mut err) = sinks_of(alloc, streams)?;
    let status = lispheap_still(alloc, &spoken, &mut source, &mut out, &mut err);
    Ok(Ended { status, out, err })
}

/// Calls `replay` and compares status, output and what is said.
fn assert_replay(
    rt: &impl Abort,
    alloc: Global,
    input: &[u8],
    status: u8,
    out: &str,
    err: &str,
) -> Result<(), Fail> {
    let got = outcome_of(alloc, &["replay"], input, WHOLE)?;
    assert_eq!(rt; got.status, status, "{out}{err}");
    assert_eq!(rt; got.out.bytes(), out.as_bytes(), "{out}");
    assert_eq!(rt; got.err.bytes(), err.as_bytes(), "{err}");
    Ok(())
}

#[test]
fn scripts_give_their_journals(rt: HostRuntime) -> Result<(), Fail> {
    for (input, journal) in [
        (FIRST, FIRST_JOURNAL),
        (THREE_THREADS, THREE_THREADS_JOURNAL),
        (
            "lispheap 1\nheap 1\nthread\nthread\nend\n",
            "0 end\n1 end\ndone 2\n",
        ),
        (
            "lispheap 1\nheap 1\nthread\nget s1 s0 0\ncons b0 s0 s0\nget s1 b0 2\nend\n",
            "0 get s1 s0 0 -> !type\n0 open cons 0 1\n0 cons b0 s0 s0 -> #0 @0\n0 get s1 b0 2 -> !range\n0 end\ndone 5\n",
        ),
        (
            TWO_THREADS,
            "1 fix s0 2 -> ok\n0 fix s0 1 -> ok\n1 end\n0 end\ndone 4\n",
        ),
    ] {
        assert_replay(&rt, rt.alloc(), input.as_bytes(), 0, journal, "")?;
    }
    Ok(())
}

#[test]
fn cells_are_moved_compared_and_addressed(rt: HostRuntime) -> Result<(), Fail> {
    let alloc = rt.alloc();
    for (input, journal) in [
        (
            "lispheap 1\nheap 1\nthread\nfix s0 4611686018427387903\naddr r0 s0\nend\n",
            "0 fix s0 4611686018427387903 -> ok\n0 addr r0 s0 -> 0x7ffffffffffffffe\n0 end\ndone 3\n",
        ),
        (
            "lispheap 1\nheap 1\nthread\ncons b0 s0 s0\nmove g3 b0\neq g3 b0\nnil g3\neq g3 b0\nshow b0\nshow g3\naddr r7 b0\naddr r7 g3\nend\n",
            "0 open cons 0 1\n0 cons b0 s0 s0 -> #0 @0\n0 move g3 b0 -> ok\n0 eq g3 b0 -> yes\n0 nil g3 -> ok\n0 eq g3 b0 -> no\n0 show b0 -> #0\n0 show g3 -> nil\n0 addr r7 b0 -> 0x0000001000000007\n0 addr r7 g3 -> 0x0000000000000117\n0 end\ndone 11\n",
        ),
        (
            "lispheap 1\nheap 1\nthread\nraw r0 0xfFfffFffffffffff\nadd r0 2\nadd r0 -9223372036854775808\nadd\tr0  9223372036854775807\nadd r1 -1\nend\n",
            "0 raw r0 0xffffffffffffffff -> ok\n0 add r0 2 -> 0x0000000000000001\n0 add r0 -9223372036854775808 -> 0x8000000000000001\n0 add r0 9223372036854775807 -> 0x0000000000000000\n0 add r1 -1 -> 0xffffffffffffffff\n0 end\ndone 6\n",
        ),
        (
            "lispheap 1\nheap 1\nthread\nrawget r0 s0 0\nrawput s0 0 r0\ncons b0 s0 s0\nrawget r0 b0 9\nrawput b0 9 r0\nget b0 b0 0\nput b0 0 b0\nend\n",
            "0 rawget r0 s0 0 -> !type\n0 rawput s0 0 r0 -> !type\n0 open cons 0 1\n0 cons b0 s0 s0 -> #0 @0\n0 rawget r0 b0 9 -> !type\n0 rawput b0 9 r0 -> !type\n0 get b0 b0 0 -> 0\n0 put b0 0 b0 -> !type\n0 end\ndone 9\n",
        ),
    ] {
        assert_replay(&rt, alloc, input.as_bytes(), 0, journal, "")?;
    }
    for (input, said) in [
        (
            "lispheap 1\nheap 1\nthread\nfix s0 4611686018427387903\naddr r0 s0\nfix s0 4611686018427387904\nend\n",
            "lispheap: line 6: range\n",
        ),
        (
            "lispheap 1\nheap 1\nthread\nadd r0 9223372036854775808\n",
            "lispheap: line 4: range\n",
        ),
        (
            "lispheap 1\nheap 1\nthread\nraw r8 0x0\n",
            "lispheap: line 4: form\n",
        ),
        (
            "lispheap 1\nheap 1\nthread\nraw r0 0x00000000000000000\n",
            "lispheap: line 4: form\n",
        ),
        (
            "lispheap 1\nheap 1\nthread\nrawget s0 s0 0\n",
            "lispheap: line 4: form\n",
        ),
    ] {
        assert_replay(&rt, alloc, input.as_bytes(), 3, "", said)?;
    }
    Ok(())
}

/// A thread that inhibits collections stays inside its section.
const INHIBITS: &str = "lispheap 1\nheap 1\nthread\nnogc\nfix s0 1\ngcok\ngcok\nend\n";

const INHIBITS_STEPS: &str =
    "0 : resume\n0 : enter\n0 nogc -> ok\n0 fix s0 1 -> ok\n0 gcok -> ok\n0 : leave\n0 : enter\n0 gcok -> !empty\n0 : leave\n0 : enter\n0 end\n0 : leave\n0 : park\ndone 5\n";

#[test]
fn word_steps_stand_between_the_events(rt: HostRuntime) -> Result<(), Fail> {
    let words = ["replay", "--words"];
    for (input, steps) in [(TWO_THREADS, TWO_THREADS_STEPS), (INHIBITS, INHIBITS_STEPS)] {
        let got = outcome_of(rt.alloc(), &words, input.as_bytes(), WHOLE)?;
        assert_eq!(rt; got.status, 0);
        assert_eq!(rt; got.out.bytes(), steps.as_bytes());
        assert_eq!(rt; got.err.bytes(), b"".as_slice());
    }
    Ok(())
}

/// Appends the commands that fill a page with conses, and their lines.
fn fill_a_page(alloc: Global, input: &mut String, journal: &mut String) -> Result<(), Fail> {
    for k in 0..256u32 {
        input.push_str("cons b0 b1 b1\n")?;
        let at = k * 2;
        journal.push_str(format!(in alloc; "0 cons b0 b1 b1 -> #{k} @{at}\n")?.as_str())?;
    }
    Ok(())
}

#[test]
fn the_257th_cons_of_a_page_is_refused(rt: HostRuntime) -> Result<(), Fail> {
    let alloc = rt.alloc();
    let mut input = String::from_str(alloc, "lispheap 1\nheap 1\nthread\n")?;
    let mut journal = String::from_str(alloc, "0 open cons 0 1\n")?;
    fill_a_page(alloc, &mut input, &mut journal)?;
    input.push_str("cons b0 b1 b1\nend\n")?;
    journal.push_str("0 cons b0 b1 b1 -> !exhausted\n0 end\ndone 259\n")?;
    assert_replay(&rt, alloc, input.as_bytes(), 0, journal.as_str(), "")
}

/// Appends the commands that make objects of a kind, from the largest small one to the largest of all, on pages
/// that they just fill, and their lines.
fn add_sizes(
    alloc: Global,
    (kind, ty, seed): (&str, &str, &str),
    input: &mut String,
    journal: &mut String,
) -> Result<(), Fail> {
    for (k, n, open, at) in [
        (0u32, 511u32, "0 1", 0u32),
        (1, 512, "1 2", 512),
        (2, 513, "3 2", 1536),
        (3, 1024, "5 3", 2560),
        (4, 65535, "8 128", 4096),
    ] {
        input.push_str(format!(in alloc; "{kind} b{k} {n}{seed}\n")?.as_str())?;
        journal.push_str(format!(in alloc;
            "0 open {ty} {open}\n0 {kind} b{k} {n}{seed} -> #{k} @{at}\n"
        )?.as_str())?;
    }
    input.push_str(format!(in alloc; "{kind} b5 0{seed}\n")?.as_str())?;
    journal.push_str(format!(in alloc; "0 {kind} b5 0{seed} -> !exhausted\n")?.as_str())?;
    Ok(())
}

/// Appends the reads, and their lines.
fn add_reads(
    alloc: Global,
    reads: &[(&str, &str); 4],
    input: &mut String,
    journal: &mut String,
) -> Result<(), Fail> {
    for (line, answer) in reads {
        input.push_str(format!(in alloc; "{line}\n")?.as_str())?;
        journal.push_str(format!(in alloc; "0 {line} -> {answer}\n")?.as_str())?;
    }
    Ok(())
}

/// A script of one thread that makes objects of every size of a kind, and reads the last of them; and its journal.
fn of_every_size(
    alloc: Global,
    kind: (&str, &str, &str),
    reads: &[(&str, &str); 4],
) -> Result<(String, String), Fail> {
    let mut input = String::from_str(alloc, "lispheap 1\nheap 136\nthread\n")?;
    let mut journal = String::new(alloc);
    add_sizes(alloc, kind, &mut input, &mut journal)?;
    add_reads(alloc, reads, &mut input, &mut journal)?;
    input.push_str("end\n")?;
    journal.push_str("0 end\ndone 16\n")?;
    Ok((input, journal))
}

#[test]
fn objects_of_every_size_are_made(rt: HostRuntime) -> Result<(), Fail> {
    let alloc = rt.alloc();
    for (kind, reads) in [
        (
            ("vector", "boxed", ""),
            [
                ("addr r0 b4", "0x000000100000800f"),
                ("get s0 b4 65534", "0"),
                ("get s0 b3 1024", "!range"),
                ("rawget r0 b4 0", "!type"),
            ],
        ),
        (
            ("instance", "boxed", ""),
            [
                ("addr r0 b4", "0x0000001000008003"),
                ("get s0 b4 65534", "0"),
                ("get s0 b2 513", "!range"),
                ("rawget r0 b4 0", "!type"),
            ],
        ),
        (
            ("closure", "boxed", ""),
            [
                ("addr r0 b4", "0x000000100000800b"),
                ("get s0 b4 65534", "0"),
                ("get s0 b1 512", "!range"),
                ("rawget r0 b4 0", "!type"),
            ],
        ),
        (
            ("words", "unboxed", " 0xfedcba9876543210"),
            [
                ("addr r0 b4", "0x000000100000800f"),
                ("rawget r0 b4 65534", "0xfedcba9876543210"),
                ("rawget r0 b0 511", "!range"),
                ("get s0 b4 0", "!type"),
            ],
        ),
    ] {
        let (input, journal) = of_every_size(alloc, kind, &reads)?;
        assert_replay(&rt, alloc, input.as_bytes(), 0, journal.as_str(), "")?;
    }
    Ok(())
}

#[test]
fn runs_are_opened_and_an_exhausted_thread_keeps_its_region(rt: HostRuntime) -> Result<(), Fail> {
    let alloc = rt.alloc();
    for (input, journal) in [
        (
            "lispheap 1\nheap 3\nthread\nvector b0 511\nvector b1 512\nvector b2 0\nend\n",
            "0 open boxed 0 1\n0 vector b0 511 -> #0 @0\n0 open boxed 1 2\n0 vector b1 512 -> #1 @512\n0 vector b2 0 -> !exhausted\n0 end\ndone 6\n",
        ),
        (
            "lispheap 1\nheap 2\nthread\ninstance b0 100\nwords b1 512 0x1\ninstance b2 411\nclosure b3 407\nwords b4 511 0x1\nput b3 406 b2\nget b5 b3 406\nend\n",
            "0 open boxed 0 1\n0 instance b0 100 -> #0 @0\n0 words b1 512 0x0000000000000001 -> !exhausted\n0 open boxed 1 1\n0 instance b2 411 -> #1 @512\n0 closure b3 407 -> !exhausted\n0 words b4 511 0x0000000000000001 -> !exhausted\n0 put b3 406 b2 -> !type\n0 get b5 b3 406 -> !type\n0 end\ndone 10\n",
        ),
        (
            "lispheap 1\nheap 1\nthread\nvector b0 100\nvector b1 511\nvector b2 407\nvector b3 0\nput b2 406 b0\nget b4 b2 406\nend\n",
            "0 open boxed 0 1\n0 vector b0 100 -> #0 @0\n0 vector b1 511 -> !exhausted\n0 vector b2 407 -> #1 @102\n0 vector b3 0 -> #2 @510\n0 put b2 406 b0 -> ok\n0 get b4 b2 406 -> #0\n0 end\ndone 8\n",
        ),
    ] {
        assert_replay(&rt, alloc, input.as_bytes(), 0, journal, "")?;
    }
    Ok(())
}

#[test]
fn bad_lines_and_limits_are_said_by_number(rt: HostRuntime) -> Result<(), Fail> {
    for (input, status, said) in [
        (
            "lispheap 1\nheap 1\nthread\nfi",
            3,
            "lispheap: line 4: word\n",
        ),
        (
            "lispheap 1\nheap 1\nthread\n",
            3,
            "lispheap: line 4: missing\n",
        ),
        ("", 3, "lispheap: line 1: missing\n"),
        ("thread\n", 3, "lispheap: line 1: order\n"),
        ("lispheap 1\nheap\n", 3, "lispheap: line 2: fields\n"),
        ("lispheap 1\nheap x\n", 3, "lispheap: line 2: form\n"),
        (
            "lispheap 1\nheap 1\nthread\nfix s0 4611686018427387904\nend\n",
            3,
            "lispheap: line 4: range\n",
        ),
        (
            "lispheap 1\nheap 1025\nthread\nend\n",
            6,
            "lispheap: limit pages 1024\n",
        ),
        (
            "lispheap 1\nheap 1\nthread\nthread\nthread\nthread\nthread\nthread\nthread\nthread\nthread\nend\n",
            6,
            "lispheap: limit threads 8\n",
        ),
    ] {
        assert_replay(&rt, rt.alloc(), input.as_bytes(), status, "", said)?;
    }
    Ok(())
}

/// So many lines without fields.
fn empty_lines(alloc: Global, count: usize) -> Result<Vec<u8>, AllocError> {
    vec![in alloc; b'\n'; count]
}

#[test]
fn too_many_bytes_are_no_script(rt: HostRuntime) -> Result<(), Fail> {
    let alloc = rt.alloc();
    let passed = empty_lines(alloc, 4_194_305)?;
    assert_replay(
        &rt,
        alloc,
        &passed,
        6,
        "",
        "lispheap: limit bytes 4194304\n",
    )?;
    let met = empty_lines(alloc, 4_194_304)?;
    assert_replay(&rt, alloc, &met, 3, "", "lispheap: line 4194305: missing\n")
}

#[test]
fn other_words_are_no_form(rt: HostRuntime) -> Result<(), Fail> {
    let lists: [&[&str]; 7] = [
        &[],
        &["--words"],
        &["replay", "--words", "--words"],
        &["run"],
        &["run", "--fast"],
        &["replay", "replay"],
        &["Replay"],
    ];
    for words in lists {
        let got = outcome_of(rt.alloc(), words, FIRST.as_bytes(), WHOLE)?;
        assert_eq!(rt; got.status, 2);
        assert_eq!(rt; got.out.bytes(), b"".as_slice());
        assert_eq!(rt; got.err.bytes(), b"lispheap: usage\n".as_slice());
    }
    Ok(())
}

#[test]
fn streams_that_fail_stop_the_program(rt: HostRuntime) -> Result<(), Fail> {
    for (streams, status, out, err) in [
        (
            Streams {
                most: 10,
                source_fails: &[],
                out_fails: &[1],
            },
            5,
            "0 fix s0 5",
            "lispheap: write fault\n",
        ),
        (
            Streams {
                most: 10,
                source_fails: &[0],
                out_fails: &[],
            },
            4,
            "",
            "lispheap: read fault\n",
        ),
        (
            Streams {
                most: 1,
                source_fails: &[],
                out_fails: &[],
            },
            0,
            FIRST_JOURNAL,
            "",
        ),
        // A journal of ten lines is one call, so the second, which would fail, is never made.
        (
            Streams {
                most: 1_000_000,
                source_fails: &[],
                out_fails: &[1],
            },
            0,
            FIRST_JOURNAL,
            "",
        ),
    ] {
        let got = outcome_of(rt.alloc(), &["replay"], FIRST.as_bytes(), streams)?;
        assert_eq!(rt; got.status, status);
        assert_eq!(rt; got.out.bytes(), out.as_bytes());
        assert_eq!(rt; got.err.bytes(), err.as_bytes());
    }
    Ok(())
}
