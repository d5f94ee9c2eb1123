//! Journals that print and parse back, and bytes that are none, with their line and reason. The
//! values are worked by hand.

use heap_terms::Why;
use journal_text::{JournalFault, parse, print};
use std::alloc::Global;
use std::test::*;

/// Why the bytes are no journal, or nothing where they are read and print as they were.
fn fault_of(alloc: Global, bytes: &[u8]) -> Option<JournalFault> {
    if bytes.len() >= 4_000_000_000 {
        return Some(JournalFault::Memory);
    }
    match parse(alloc, bytes) {
        Err(fault) => Some(fault),
        Ok(events) => match print(alloc, &events) {
            Ok(again) => {
                if again.as_slice() == bytes {
                    None
                } else {
                    Some(JournalFault::Memory)
                }
            }
            Err(_) => Some(JournalFault::Memory),
        },
    }
}

/// Every kind of line once.
const ALL: &str =
    "0 fix s0 -5 -> ok\n0 nil b15 -> ok\n0 open boxed 3 2\n0 table g0 key-or-value 64 -> #0 @1536\n7 words s1 65535 0x00000000000000ff -> !exhausted\n1 get s2 b0 0 -> nil\n1 get s2 b0 0 -> -4611686018427387904\n1 rawget r7 b0 1 -> 0xffffffffffffffff\n1 add r0 -9223372036854775808 -> 0x8000000000000000\n1 eq s0 s1 -> yes\n1 weakval s0 s1 -> live #19999\n1 weakval s0 s1 -> broken\n1 tget s0 s1 s2 -> none\n1 tcount s0 -> 64\n1 cancel s0 -> 18446744073709551615\n1 runfin -> ran 1 4294967295\n1 page 3 -> boxed g5 fill 70 #0@1536 ~4@1602\n1 page 4 -> cons g0 fill 0\n1 page 5 -> unboxed g1 large 2 #4@2560\n1 page 6 -> free\n1 stat 6 -> allocated 0 cum 1 num 2\n1 pin s0 -> !pins\n1 unpin -> !empty\n1 tput s0 s1 s2 -> !full\n0 collect 5\npass 0 1\nmove #0 @1536 @0\nstay #1 @9\npin #2 @524287\ncull #0 5 #1\nbreak #3\nqueue 4294967295\nfree 1023\nswept 7 8\npass 5 6\nswept 0 0\n0 collect 0\n0 end\ndone 27\n";

#[test]
fn whole_journals(rt: HostRuntime) {
    for text in [
        "done 0\n",
        "0 collect 0\ndone 1\n",
        "0 fix s0 5 -> ok\n0 fix s1 -6 -> ok\n0 open cons 0 1\n0 cons b0 s0 s1 -> #0 @0\n0 get s2 b0 0 -> 5\n0 put b0 1 s0 -> ok\n0 get s2 b0 1 -> 5\n0 show b0 -> #0\n0 end\ndone 9\n",
        "0 fix b0 7 -> ok\n0 open cons 0 1\n0 cons b0 b0 b0 -> #0 @0\n0 cons b0 b0 b1 -> #1 @2\n0 get b1 b0 0 -> #0\n0 get b0 b1 1 -> 7\n0 end\ndone 7\n",
        "0 get s1 s0 0 -> !type\n0 open cons 0 1\n0 cons b0 s0 s0 -> #0 @0\n0 get s1 b0 2 -> !range\n0 show s1 -> 0\n0 end\ndone 6\n",
        "0 open cons 0 1\n1 open cons 1 1\n0 cons b0 b2 b2 -> #0 @0\n1 cons b0 b2 b2 -> #1 @512\n0 cons b1 b0 b0 -> #2 @2\n1 cons b1 b0 b0 -> #3 @514\n0 end\n1 end\ndone 8\n",
        "0 fix s0 7 -> ok\n0 open cons 0 1\n0 cons g0 s0 s0 -> #0 @0\n0 get b0 g0 0 -> 7\n0 end\n2 show g0 -> #0\n2 put g0 1 g0 -> ok\n1 open cons 1 1\n1 cons b1 g0 g0 -> #1 @512\n2 end\n1 show b1 -> #1\n1 end\ndone 12\n",
        "0 open cons 0 1\n1 fix g0 3 -> ok\n0 cons b0 b1 b1 -> #0 @0\n1 end\n0 show b0 -> #0\n0 end\ndone 6\n",
        ALL,
    ] {
        assert_eq!(rt; fault_of(rt.alloc(), text.as_bytes()), None, "{text}");
    }
}

#[test]
fn bad_journals(rt: HostRuntime) {
    for (text, number, why) in [
        ("", 1, Why::Missing),
        ("done 0", 1, Why::Missing),
        ("0 end\n", 2, Why::Missing),
        ("done 0\nx", 2, Why::Missing),
        ("done 1\n", 1, Why::Form),
        ("done 0\n\n", 2, Why::Form),
        ("done 00\n", 1, Why::Form),
        ("0 end\ndone 2\n", 2, Why::Form),
        ("8 end\n", 1, Why::Form),
        ("00 end\n", 1, Why::Form),
        (" 0 end\n", 1, Why::Form),
        ("0  end\n", 1, Why::Form),
        ("0 end \n", 1, Why::Form),
        ("0 end\r\n", 1, Why::Form),
        ("0 fix s16 5 -> ok\n", 1, Why::Form),
        ("0 fix s0 -0 -> ok\n", 1, Why::Form),
        ("0 fix s0 05 -> ok\n", 1, Why::Form),
        ("0 fix s0 4611686018427387904 -> ok\n", 1, Why::Form),
        ("0 fix s0 5 -> yes\n", 1, Why::Form),
        ("0 fix s0 5 ->\n", 1, Why::Form),
        ("0 show s0 -> unbound\n", 1, Why::Form),
        ("0 show s0 -> #20000\n", 1, Why::Form),
        ("0 raw r0 0xFF -> ok\n", 1, Why::Form),
        ("0 addr r0 s0 -> 0x00000000000000FF\n", 1, Why::Form),
        ("0 runfin -> ran\n", 1, Why::Form),
        ("0 page 0 -> cons g6 fill 0\n", 1, Why::Form),
        ("0 page 0 -> cons g0 fill 2 ~0@0\n", 1, Why::Form),
        ("0 open cons 1024 1\n", 1, Why::Form),
        ("0 open cons 0 0\n", 1, Why::Form),
        ("0 table s0 strong 65 -> #0 @0\n", 1, Why::Form),
        ("pass 0 1\n", 1, Why::Form),
        ("0 collect 0\nmove #0 @0 @2\n", 2, Why::Form),
        ("0 collect 0\npass 0 1\ndone 1\n", 3, Why::Form),
        (
            "0 collect 0\npass 0 1\npin #0 @0\nmove #1 @2 @4\n",
            4,
            Why::Form,
        ),
        ("0 collect 0\npass 0 1\nfree 0\n", 4, Why::Missing),
        ("0 collect 0\npass 0 1\nswept 0 4294967296\n", 3, Why::Form),
        ("0 end\ndone 1\n0 end\n", 3, Why::Form),
    ] {
        assert_eq!(rt;
            fault_of(rt.alloc(), text.as_bytes()),
            Some(JournalFault::Line(number, why)),
            "{text}"
        );
    }
}

/// Lines that are read in one go, at the ends of what is, and lines that only begin like them.
#[test]
fn usual_lines(rt: HostRuntime) {
    for text in [
        "7 fix s10 99999999999999999 -> ok\n0 fix b15 -99999999999999999 -> ok\n0 fix g9 0 -> ok\ndone 3\n",
        "0 fix s0 123456789012345678 -> ok\n0 fix s0 -4611686018427387904 -> ok\ndone 2\n",
        "0 cons s0 b1 g2 -> #19999 @524287\n0 cons s0 b1 g2 -> !exhausted\ndone 2\n",
        "0 get s0 b1 65535 -> nil\n0 get s0 b1 10 -> !range\n0 get s0 b1 0 -> -7\ndone 3\n",
        "0 put s0 0 b1 -> !type\n0 put s0 65535 b1 -> !range\n0 show b0 -> 0\n0 show b0 -> nil\ndone 4\n",
        "0 collect 0\n0 show b0 -> nil\n0 show b0 -> #0\ndone 3\n",
    ] {
        assert_eq!(rt; fault_of(rt.alloc(), text.as_bytes()), None, "{text}");
    }
    for (text, number) in [
        ("0 fix s0 00 -> ok\n", 1),
        ("0 fix s00 0 -> ok\n", 1),
        ("0 fix s0 - -> ok\n", 1),
        ("0 fix s0 5 -> !type\n", 1),
        ("0 fix r0 5 -> ok\n", 1),
        ("0 fix s0 5 -> ok \n", 1),
        ("0 put s0 0 b16 -> ok\n", 1),
        ("0 put s0 65536 b0 -> ok\n", 1),
        ("0 put s0 0 b0 -> 5\n", 1),
        ("0 get s0 b0 0 -> ok\n", 1),
        ("0 get s0 b0 0 -> -0\n", 1),
        ("0 show s0 -> !range\n", 1),
        ("0 show s0 -> #01\n", 1),
        ("0 cons s0 s1 s2 -> #0\n", 1),
        ("0 cons s0 s1 s2 -> #0 @0 \n", 1),
        ("0 collect 0\npass 0 1\n0 fix s0 5 -> ok\n", 3),
        ("0 collect 0\npass 0 1\nmove #0 @0 @2 \n", 3),
        ("0 collect 0\npass 0 1\nmove #0 @00 @2\n", 3),
    ] {
        assert_eq!(rt;
            fault_of(rt.alloc(), text.as_bytes()),
            Some(JournalFault::Line(number, Why::Form)),
            "{text}"
        );
    }
}

#[test]
fn each_field_at_the_edge_of_its_range(rt: HostRuntime) {
    for (text, number) in [
        ("0 collect 6\n", 1),
        ("0 collect 0\npass 6 6\n", 2),
        ("0 collect 0\npass 0 7\n", 2),
        ("0 collect 0\npass 0 1\nmove #20000 @0 @2\n", 3),
        ("0 collect 0\npass 0 1\nmove #0 @524288 @2\n", 3),
        ("0 collect 0\npass 0 1\nmove #0 @0 @524288\n", 3),
        ("0 collect 0\npass 0 1\nstay #20000 @0\n", 3),
        ("0 collect 0\npass 0 1\nstay #0 @524288\n", 3),
        ("0 collect 0\npass 0 1\npin #20000 @0\n", 3),
        ("0 collect 0\npass 0 1\npin #0 @524288\n", 3),
        ("0 collect 0\npass 0 1\ncull #20000 0 0\n", 3),
        ("0 collect 0\npass 0 1\ncull #0 #20000 0\n", 3),
        ("0 collect 0\npass 0 1\ncull #0 0 unbound\n", 3),
        ("0 collect 0\npass 0 1\ncull #0 0 -4611686018427387905\n", 3),
        ("0 collect 0\npass 0 1\nbreak #20000\n", 3),
        ("0 collect 0\npass 0 1\nqueue 4294967296\n", 3),
        ("0 collect 0\npass 0 1\nfree 1024\n", 3),
        ("0 collect 0\npass 0 1\nswept 4294967296 0\n", 3),
        ("0 collect 0\npass 0 1\nswept 0\n", 3),
        ("0 collect 0\npass 0 1\nswept 0 0 0\n", 3),
        ("0 open cons 0 1025\n", 1),
        ("0 open list 0 1\n", 1),
        ("0 cons b0 b1 b1 -> #20000 @0\n", 1),
        ("0 cons b0 b1 b1 -> #0 @524288\n", 1),
        ("0 cons b0 b1 b1 -> ok\n", 1),
        ("0 get s0 b0 65536 -> 0\n", 1),
        ("0 vector b0 65536 -> #0 @0\n", 1),
        ("0 gc 6 -> ok\n", 1),
        ("0 stat 7 -> allocated 0 cum 0 num 0\n", 1),
        ("0 finalize b0 4294967296 -> ok\n", 1),
        ("0 cancel b0 -> 18446744073709551616\n", 1),
        ("0 weakval s0 s1 -> live unbound\n", 1),
        ("0 page 4294967296 -> free\n", 1),
        ("0 page 0 -> cons g0 fill 4294967296\n", 1),
        ("0 page 0 -> cons g0 large 2 #20000@0\n", 1),
        ("0 page 0 -> cons g0 fill 2 #0@524288\n", 1),
        ("0 add r0 9223372036854775808 -> 0x0000000000000000\n", 1),
        ("0 jump\n", 1),
        ("x end\n", 1),
        ("0 end\n0 collect\n", 2),
    ] {
        assert_eq!(rt;
            fault_of(rt.alloc(), text.as_bytes()),
            Some(JournalFault::Line(number, Why::Form)),
            "{text}"
        );
    }
}

/// A front of a journal is no journal: the line that it lacks is told, and a line that was cut is
/// none.
#[test]
fn cut_after_every_byte(rt: HostRuntime) {
    let text =
        b"0 open cons 0 1\n0 cons b0 b1 b1 -> #0 @0\n0 collect 0\npass 0 0\nmove #0 @0 @512\nfree 0\nswept 0 1\n0 end\ndone 4\n";
    let mut line = 1;
    for (i, byte) in text.iter().enumerate() {
        let (front, _) = text.split_at(i);
        assert_eq!(rt;
            fault_of(rt.alloc(), front),
            Some(JournalFault::Line(line, Why::Missing))
        );
        if *byte == b'\n' && line < 1000 {
            line += 1;
        }
    }
    assert_eq!(rt; fault_of(rt.alloc(), text), None);
}
