//! Scripts that print and parse back, and bytes that are none, with their line and reason.

use heap_terms::{Cell, Command, LimitKind, Why};
use script_text::{ScriptFault, parse, print};
use std::alloc::{AllocError, Global};
use std::test::*;

/// A script up to its first thread: three lines.
const HEAD: &str = "lispheap 1\nheap 2\nthread\n";

/// What is wrong with a script, or nothing where it is read.
fn fault_of(alloc: Global, script: &[u8]) -> Option<ScriptFault> {
    if script.len() >= 4_000_000_000 {
        return None;
    }
    match parse(alloc, script) {
        Ok(_) => None,
        Err(fault) => Some(fault),
    }
}

/// The head, a line so often, and more lines.
fn script(alloc: Global, line: &str, count: u32, more: &str) -> Result<Vec<u8>, AllocError> {
    let mut text = Vec::from_slice(alloc, HEAD.as_bytes())?;
    for _ in 0..count {
        text.extend_from_slice(line.as_bytes())?;
    }
    text.extend_from_slice(more.as_bytes())?;
    Ok(text)
}

#[test]
fn whole_scripts(rt: HostRuntime) {
    for (text, fault) in [
        ("", ScriptFault::Line(1, Why::Missing)),
        ("\n", ScriptFault::Line(2, Why::Missing)),
        ("; no line\n", ScriptFault::Line(2, Why::Missing)),
        ("lispheap 1", ScriptFault::Line(2, Why::Missing)),
        (
            "lispheap 1\nheap 2\nthread\n",
            ScriptFault::Line(4, Why::Missing),
        ),
        ("x", ScriptFault::Line(1, Why::Word)),
        ("Lispheap 1", ScriptFault::Line(1, Why::Word)),
        ("end\r", ScriptFault::Line(1, Why::Word)),
        ("\u{b}end", ScriptFault::Line(1, Why::Word)),
        ("end\r\n", ScriptFault::Line(1, Why::Order)),
        ("end", ScriptFault::Line(1, Why::Order)),
        ("heap x", ScriptFault::Line(1, Why::Order)),
        ("lispheap", ScriptFault::Line(1, Why::Fields)),
        ("lispheap x 1", ScriptFault::Line(1, Why::Fields)),
        ("lispheap 0x1", ScriptFault::Line(1, Why::Form)),
        (
            "lispheap 000000000000000000001",
            ScriptFault::Line(1, Why::Form),
        ),
        ("lispheap 0", ScriptFault::Line(1, Why::Range)),
        ("lispheap 2", ScriptFault::Line(1, Why::Range)),
        ("lispheap 1\nlispheap 1", ScriptFault::Line(2, Why::Order)),
        ("lispheap 1\nthread", ScriptFault::Line(2, Why::Order)),
        ("lispheap 01\n\theap  0 ", ScriptFault::Line(2, Why::Range)),
        ("lispheap 1\nheap -1", ScriptFault::Line(2, Why::Form)),
        (
            "lispheap 1\nheap 1025",
            ScriptFault::Limit(2, LimitKind::Pages),
        ),
        (
            "lispheap 1\nheap 99999999999999999999",
            ScriptFault::Limit(2, LimitKind::Pages),
        ),
        (
            "lispheap 1\nheap 1024\nend",
            ScriptFault::Line(3, Why::Order),
        ),
        (
            "lispheap 1\nheap 1024\nshow s0",
            ScriptFault::Line(3, Why::Order),
        ),
        ("lispheap 1\nauto 0", ScriptFault::Line(2, Why::Order)),
        (
            "lispheap 1\nheap 2\nauto",
            ScriptFault::Line(3, Why::Fields),
        ),
        (
            "lispheap 1\nheap 2\nauto -1",
            ScriptFault::Line(3, Why::Form),
        ),
        (
            "lispheap 1\nheap 2\nauto 511",
            ScriptFault::Line(3, Why::Range),
        ),
        (
            "lispheap 1\nheap 2\nauto 524289",
            ScriptFault::Line(3, Why::Range),
        ),
        (
            "lispheap 1\nheap 2\nauto 0\nauto 0",
            ScriptFault::Line(4, Why::Order),
        ),
        (
            "lispheap 1\nheap 2\nauto 512\nend",
            ScriptFault::Line(4, Why::Order),
        ),
        (
            "\n;c\n \t\r\nlispheap 1\nheap 0",
            ScriptFault::Line(5, Why::Range),
        ),
    ] {
        assert_eq!(rt;
            fault_of(rt.alloc(), text.as_bytes()),
            Some(fault),
            "{text}"
        );
    }
}

#[test]
fn lines_after_the_head(rt: HostRuntime) -> Result<(), Fail> {
    for (line, why) in [
        ("fixx s0 1", Why::Word),
        ("FIX s0 1", Why::Word),
        ("end\r ", Why::Word),
        ("lispheap 1", Why::Order),
        ("heap x y", Why::Order),
        ("auto 0", Why::Order),
        ("thread x", Why::Fields),
        ("end now", Why::Fields),
        ("show", Why::Fields),
        ("show s0 s1", Why::Fields),
        ("fix s0", Why::Fields),
        ("fix s16 1 2", Why::Fields),
        ("cons s0 s1", Why::Fields),
        ("cons s0 s1 s2 s3", Why::Fields),
        ("get s0 s1", Why::Fields),
        ("put s0 0", Why::Fields),
        ("schedule", Why::Fields),
        ("show s16", Why::Form),
        ("show s01", Why::Form),
        ("show S0", Why::Form),
        ("show s", Why::Form),
        ("show r0", Why::Form),
        ("show s1\r ", Why::Form),
        ("show s\r1", Why::Form),
        ("show s1\u{80}", Why::Form),
        ("fix s0 x", Why::Form),
        ("fix s0 +1", Why::Form),
        ("fix s0 -", Why::Form),
        ("fix s0 --1", Why::Form),
        ("fix s0 111111111111111111111", Why::Form),
        ("fix s16 4611686018427387904", Why::Form),
        ("get s0 s1 -0", Why::Form),
        ("put s0 s1 s2", Why::Form),
        ("cons s0 s1 2", Why::Form),
        ("schedule 0*", Why::Form),
        ("schedule *1", Why::Form),
        ("schedule 0*1*1", Why::Form),
        ("schedule 9*x", Why::Form),
        ("schedule 0 -0", Why::Form),
        ("fix s0 4611686018427387904", Why::Range),
        ("fix s0 -4611686018427387905", Why::Range),
        ("fix s0 99999999999999999999", Why::Range),
        ("fix s0 -99999999999999999999", Why::Range),
        ("get s0 s1 65536", Why::Range),
        ("put s0 65536 x", Why::Range),
        ("get s0 s1 18446744073709551616", Why::Range),
        ("gc 6", Why::Range),
        ("stat 7", Why::Range),
        ("schedule 1", Why::Range),
        ("schedule 0*0", Why::Range),
        ("schedule 0*65536", Why::Range),
        ("schedule 1 x", Why::Range),
    ] {
        let text = script(rt.alloc(), line, 1, "\nend\n")?;
        let wanted = Some(ScriptFault::Line(4, why));
        assert_eq!(rt; fault_of(rt.alloc(), text.as_slice()), wanted, "{line}");
    }
    Ok(())
}

#[test]
fn places_after_the_threads(rt: HostRuntime) -> Result<(), Fail> {
    for (more, fault) in [
        ("end\nx\n", ScriptFault::Line(5, Why::Word)),
        ("end\nend", ScriptFault::Line(5, Why::Order)),
        ("schedule 0\nshow s0\nend", ScriptFault::Line(5, Why::Order)),
        ("schedule 0\nthread\nend", ScriptFault::Line(5, Why::Order)),
        ("schedule 0\n", ScriptFault::Line(5, Why::Missing)),
    ] {
        let text = script(rt.alloc(), "", 0, more)?;
        assert_eq!(rt;
            fault_of(rt.alloc(), text.as_slice()),
            Some(fault),
            "{more}"
        );
    }
    Ok(())
}

#[test]
fn limits(rt: HostRuntime) -> Result<(), Fail> {
    for (line, count, more, fault) in [
        ("thread\n", 7, "end", None),
        (
            "thread\n",
            8,
            "end",
            Some(ScriptFault::Limit(11, LimitKind::Threads)),
        ),
        (
            "thread\n",
            7,
            "thread x",
            Some(ScriptFault::Line(11, Why::Fields)),
        ),
        ("show s0\n", 20_000, "end", None),
        (
            "show s0\n",
            20_001,
            "end",
            Some(ScriptFault::Limit(20_004, LimitKind::Commands)),
        ),
        (
            "show s0\n",
            20_000,
            "thread\nshow b1",
            Some(ScriptFault::Limit(20_005, LimitKind::Commands)),
        ),
        (
            "show s0\n",
            20_000,
            "show s16",
            Some(ScriptFault::Line(20_004, Why::Form)),
        ),
        ("gc 5\n", 64, "stat 6\nend", None),
        (
            "gc 0\n",
            64,
            "gc 5",
            Some(ScriptFault::Limit(68, LimitKind::Gcs)),
        ),
        (
            "gc 0\n",
            64,
            "gc 6",
            Some(ScriptFault::Line(68, Why::Range)),
        ),
        ("schedule 0*65535\n", 15, "schedule 0*16975\nend", None),
        (
            "schedule 0*65535\n",
            15,
            "schedule 0*16976\nend",
            Some(ScriptFault::Limit(19, LimitKind::Schedule)),
        ),
        (
            "schedule 0*65535\n",
            15,
            "schedule 0*16975 0",
            Some(ScriptFault::Limit(19, LimitKind::Schedule)),
        ),
        (
            "schedule 0*65535\n",
            16,
            "",
            Some(ScriptFault::Limit(19, LimitKind::Schedule)),
        ),
        (
            "schedule 0*65535\n",
            15,
            "schedule 0*65535 1",
            Some(ScriptFault::Line(19, Why::Range)),
        ),
    ] {
        let text = script(rt.alloc(), line, count, more)?;
        assert_eq!(rt;
            fault_of(rt.alloc(), text.as_slice()),
            fault,
            "{line} {count} {more}"
        );
    }
    Ok(())
}

#[test]
fn a_script_is_read_as_its_program(rt: HostRuntime) -> Result<(), Fail> {
    let text =
        b"; a script\r\nlispheap 1\nheap 1024\nauto 524288\nthread\n\tfix s0 4611686018427387903 \nfix g15 -4611686018427387904\r\n\nfix b9 -0\nthread\ncons b10 s15 g1\nget s1 b2 65535\nput b0 0 s3\nshow g7\nschedule 1 0*3\nschedule 01\nend";
    let program = parse(rt.alloc(), text.as_slice())
        .ok()
        .ok_or("the text is a script")?;
    assert_eq!(rt; program.pages, 1024);
    assert_eq!(rt; program.auto, 524_288);
    assert_eq!(rt; program.schedule.as_slice(), [1, 0, 0, 0, 1].as_slice());
    let first = [
        Command::Fix {
            d: Cell::Stack(0),
            n: 4611686018427387903,
        },
        Command::Fix {
            d: Cell::Shared(15),
            n: -4611686018427387904,
        },
        Command::Fix {
            d: Cell::Exact(9),
            n: 0,
        },
    ];
    let second = [
        Command::NewCons {
            d: Cell::Exact(10),
            a: Cell::Stack(15),
            b: Cell::Shared(1),
        },
        Command::Get {
            d: Cell::Stack(1),
            c: Cell::Exact(2),
            i: 65535,
        },
        Command::Put {
            c: Cell::Exact(0),
            i: 0,
            a: Cell::Stack(3),
        },
        Command::Show { c: Cell::Shared(7) },
    ];
    let threads = program.threads.as_slice();
    assert_eq!(rt; threads.len(), 2);
    for (commands, wanted) in threads.iter().zip([first.as_slice(), second.as_slice()]) {
        assert_eq!(rt; commands.as_slice(), wanted);
    }
    Ok(())
}

#[test]
fn gc_and_stat_name_generations(rt: HostRuntime) -> Result<(), Fail> {
    let text = b"lispheap 1\nheap 1\nauto 512\nthread\ngc 0\ngc 05\nstat 6\nend\n";
    let program = parse(rt.alloc(), text.as_slice())
        .ok()
        .ok_or("the text is a script")?;
    assert_eq!(rt; program.auto, 512);
    let wanted = [
        Command::Collect { g: 0 },
        Command::Collect { g: 5 },
        Command::Stat { g: 6 },
    ];
    for commands in program.threads.as_slice() {
        assert_eq!(rt; commands.as_slice(), wanted.as_slice());
    }
    let printed = print(rt.alloc(), &program)
        .ok()
        .ok_or("there is memory for it")?;
    assert_eq!(rt;
        printed.as_slice(),
        b"lispheap 1\nheap 1\nauto 512\nthread\ngc 0\ngc 5\nstat 6\nend\n".as_slice()
    );
    Ok(())
}

#[test]
fn a_script_is_printed_in_its_usual_spelling(rt: HostRuntime) -> Result<(), Fail> {
    let text =
        b"; a script\r\nlispheap 01\nheap  1024\nthread\n\tfix s0 -0 \nthread\ncons b10 s15 g1\nschedule 1 0*3\nschedule 00 1*65535 1\nend";
    let program = parse(rt.alloc(), text.as_slice())
        .ok()
        .ok_or("the text is a script")?;
    let printed = print(rt.alloc(), &program)
        .ok()
        .ok_or("there is memory for it")?;
    assert_eq!(rt;
        printed.as_slice(),
        b"lispheap 1\nheap 1024\nauto 0\nthread\nfix s0 0\nthread\ncons b10 s15 g1\nschedule 1 0*4 1*65535 1\nend\n".as_slice()
    );
    Ok(())
}
