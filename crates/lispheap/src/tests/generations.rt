//! Scripts whose collections promote, against their journals. The first of two tests were worked by hand
//! beforehand; the others are what a second program gave.

ghost use Rattle.std.specs.Prelude.{◌≤◌, length};

use super::{WHOLE, assert_replay, outcome_of};
use std::alloc::Global;
use std::test::Fail;

#[test]
fn an_old_object_keeps_a_young_one_even_as_garbage(rt: HostRuntime) -> Result<(), Fail> {
    for (input, journal) in [(
        "lispheap 1\nheap 4\nthread\nvector s0 1\ngc 0\ngc 0\ncons b0 b1 b1\nput s0 0 b0\nnil b0\ngc 0\nget b2 s0 0\nnil b2\nnil s0\ngc 0\npage 1\nend\n",
        "0 open boxed 0 1\n0 vector s0 1 -> #0 @0\n0 gc 0 -> ok\n0 collect 0\npass 0 0\npin #0 @0\nswept 0 1\n0 gc 0 -> ok\n0 collect 0\npass 0 1\npin #0 @0\nswept 0 1\n0 open cons 1 1\n0 cons b0 b1 b1 -> #1 @512\n0 put s0 0 b0 -> ok\n0 nil b0 -> ok\n0 gc 0 -> ok\n0 collect 0\npass 0 0\nmove #1 @512 @1024\nfree 1\nswept 0 1\n0 get b2 s0 0 -> #1\n0 nil b2 -> ok\n0 nil s0 -> ok\n0 gc 0 -> ok\n0 collect 0\npass 0 1\nmove #1 @1024 @512\nfree 2\nswept 0 1\n0 page 1 -> cons g1 fill 2 #1@512\n0 end\ndone 19\n",
    )] {
        assert_replay(&rt, rt.alloc(), input.as_bytes(), 0, journal, "")?;
    }
    Ok(())
}

#[test]
fn words_that_are_committed_ask_for_collections(rt: HostRuntime) -> Result<(), Fail> {
    for (input, journal) in [
        (
            "lispheap 1\nheap 2\nauto 512\nthread\nvector b0 511\nend\n",
            "0 open boxed 0 1\n0 vector b0 511 -> #0 @0\n0 collect 0\npass 0 0\nmove #0 @0 @512\nfree 0\nswept 0 1\n0 end\ndone 4\n",
        ),
        (
            "lispheap 1\nheap 4\nauto 512\nthread\nnogc\nvector b0 509\ncons b1 b0 b0\ncons b2 b0 b0\ngcok\nvector b0 510\nshow b1\nend\n",
            "0 nogc -> ok\n0 open boxed 0 1\n0 vector b0 509 -> #0 @0\n0 open cons 1 1\n0 cons b1 b0 b0 -> #1 @512\n0 cons b2 b0 b0 -> #2 @514\n0 gcok -> ok\n0 collect 0\npass 0 0\nmove #0 @0 @1024\nmove #1 @512 @1536\nmove #2 @514 @1538\nfree 0\nfree 1\nswept 0 3\n0 open boxed 0 1\n0 vector b0 510 -> #3 @0\n0 collect 0\npass 0 1\nmove #3 @0 @512\nstay #1 @1536\nstay #2 @1538\nstay #0 @1024\nfree 0\nswept 0 4\n0 show b1 -> #1\n0 end\ndone 13\n",
        ),
    ] {
        assert_replay(&rt, rt.alloc(), input.as_bytes(), 0, journal, "")?;
    }
    Ok(())
}

#[test]
fn collections_go_on_as_asked_and_by_age(rt: HostRuntime) -> Result<(), Fail> {
    for (input, journal) in [
        (
            "lispheap 1\nheap 16\nthread\nvector b0 598\nstat 0\ngc 0\nstat 0\ngc 0\nstat 0\nstat 1\nvector b1 999\ngc 1\nstat 0\nstat 1\nstat 2\ngc 0\ngc 0\nstat 1\ngc 0\ngc 0\nstat 1\nstat 2\ngc 5\nstat 5\nstat 6\nend\n",
            "0 open boxed 0 2\n0 vector b0 598 -> #0 @0\n0 stat 0 -> allocated 600 cum 0 num 0\n0 gc 0 -> ok\n0 collect 0\npass 0 0\nmove #0 @0 @1024\nfree 0\nfree 1\nswept 0 1\n0 stat 0 -> allocated 600 cum 0 num 1\n0 gc 0 -> ok\n0 collect 0\npass 0 1\nmove #0 @1024 @0\nfree 2\nfree 3\nswept 0 1\n0 stat 0 -> allocated 0 cum 0 num 0\n0 stat 1 -> allocated 600 cum 0 num 0\n0 open boxed 2 2\n0 vector b1 999 -> #1 @1024\n0 gc 1 -> ok\n0 collect 1\npass 0 1\nmove #1 @1024 @2048\nfree 2\nfree 3\nswept 0 1\npass 1 1\nmove #0 @0 @1024\nmove #1 @2048 @3072\nfree 0\nfree 1\nfree 4\nfree 5\nswept 0 2\n0 stat 0 -> allocated 0 cum 0 num 0\n0 stat 1 -> allocated 1600 cum 0 num 1\n0 stat 2 -> allocated 0 cum 0 num 0\n0 gc 0 -> ok\n0 collect 0\npass 0 0\nswept 0 0\n0 gc 0 -> ok\n0 collect 0\npass 0 1\nswept 0 0\npass 1 2\nmove #0 @1024 @0\nmove #1 @3072 @2048\nfree 2\nfree 3\nfree 6\nfree 7\nswept 0 2\n0 stat 1 -> allocated 0 cum 0 num 0\n0 gc 0 -> ok\n0 collect 0\npass 0 0\nswept 0 0\n0 gc 0 -> ok\n0 collect 0\npass 0 1\nswept 0 0\n0 stat 1 -> allocated 0 cum 0 num 0\n0 stat 2 -> allocated 1600 cum 0 num 0\n0 gc 5 -> ok\n0 collect 5\npass 0 1\nswept 0 0\npass 1 2\nswept 0 0\npass 2 3\nmove #0 @0 @1024\nmove #1 @2048 @3072\nfree 0\nfree 1\nfree 4\nfree 5\nswept 0 2\npass 3 4\nmove #0 @1024 @0\nmove #1 @3072 @2048\nfree 2\nfree 3\nfree 6\nfree 7\nswept 0 2\npass 4 5\nmove #0 @0 @1024\nmove #1 @2048 @3072\nfree 0\nfree 1\nfree 4\nfree 5\nswept 0 2\npass 5 5\nmove #0 @1024 @0\nmove #1 @3072 @2048\nfree 2\nfree 3\nfree 6\nfree 7\nswept 0 2\n0 stat 5 -> allocated 1600 cum 0 num 1\n0 stat 6 -> allocated 0 cum 0 num 0\n0 end\ndone 33\n",
        ),
        (
            "lispheap 1\nheap 24\nthread\nvector b0 1598\ngc 0\ngc 0\nstat 1\nvector b1 9\ngc 0\ngc 0\nstat 1\nstat 2\nvector b1 9\ngc 0\ngc 0\nstat 1\nstat 2\nend\n",
            "0 open boxed 0 4\n0 vector b0 1598 -> #0 @0\n0 gc 0 -> ok\n0 collect 0\npass 0 0\nmove #0 @0 @2048\nfree 0\nfree 1\nfree 2\nfree 3\nswept 0 1\n0 gc 0 -> ok\n0 collect 0\npass 0 1\nmove #0 @2048 @0\nfree 4\nfree 5\nfree 6\nfree 7\nswept 0 1\n0 stat 1 -> allocated 1600 cum 0 num 0\n0 open boxed 4 1\n0 vector b1 9 -> #1 @2048\n0 gc 0 -> ok\n0 collect 0\npass 0 0\nmove #1 @2048 @2560\nfree 4\nswept 0 1\n0 gc 0 -> ok\n0 collect 0\npass 0 1\nmove #1 @2560 @2048\nfree 5\nswept 0 1\npass 1 1\nmove #0 @0 @2560\nmove #1 @2048 @4608\nfree 0\nfree 1\nfree 2\nfree 3\nfree 4\nswept 0 2\n0 stat 1 -> allocated 1610 cum 0 num 1\n0 stat 2 -> allocated 0 cum 0 num 0\n0 open boxed 0 1\n0 vector b1 9 -> #2 @0\n0 gc 0 -> ok\n0 collect 0\npass 0 0\nmove #2 @0 @512\nfree 0\nswept 0 1\n0 gc 0 -> ok\n0 collect 0\npass 0 1\nmove #2 @512 @0\nfree 1\nswept 0 1\npass 1 2\nmove #0 @2560 @512\nmove #2 @0 @5120\nfree 0\nfree 5\nfree 6\nfree 7\nfree 8\nfree 9\nswept 1 2\n0 stat 1 -> allocated 0 cum 0 num 0\n0 stat 2 -> allocated 1610 cum 0 num 0\n0 end\ndone 24\n",
        ),
    ] {
        assert_replay(&rt, rt.alloc(), input.as_bytes(), 0, journal, "")?;
    }
    Ok(())
}

#[test]
fn three_threads_share_a_list_over_two_generations(rt: HostRuntime) -> Result<(), Fail> {
    for (input, journal) in [(
        "lispheap 1\nheap 8\nthread\nvector g0 2\ncons g1 b0 b0\nfix b1 11\nput g0 0 g1\ngc 0\nthread\ncons b0 b1 b1\ncons g2 b0 b0\nput g0 1 g2\ngc 1\nthread\nget s0 g0 0\nnil g1\ngc 1\npage 0\npage 1\nschedule 0*31 1*27\nend\n",
        "0 open boxed 0 1\n0 vector g0 2 -> #0 @0\n0 open cons 1 1\n0 cons g1 b0 b0 -> #1 @512\n0 fix b1 11 -> ok\n0 put g0 0 g1 -> ok\n0 gc 0 -> ok\n0 collect 0\npass 0 0\nmove #0 @0 @1024\nmove #1 @512 @1536\nfree 0\nfree 1\nswept 0 2\n0 end\n1 open cons 0 1\n1 cons b0 b1 b1 -> #2 @0\n1 cons g2 b0 b0 -> #3 @2\n1 put g0 1 g2 -> ok\n1 gc 1 -> ok\n1 collect 1\npass 0 1\nmove #2 @0 @512\nmove #0 @1024 @2048\nmove #1 @1536 @514\nmove #3 @2 @516\nfree 0\nfree 2\nfree 3\nswept 0 4\npass 1 1\nmove #2 @512 @0\nmove #0 @2048 @1024\nmove #1 @514 @2\nmove #3 @516 @4\nfree 1\nfree 4\nswept 0 4\n1 end\n2 get s0 g0 0 -> #1\n2 nil g1 -> ok\n2 gc 1 -> ok\n2 collect 1\npass 0 1\nswept 0 0\npass 1 2\nmove #0 @1024 @512\nmove #3 @4 @1536\nmove #2 @0 @1538\npin #1 @2\nfree 2\nswept 0 4\n2 page 0 -> cons g2 fill 6 ~2@0 #1@2 ~2@4\n2 page 1 -> boxed g2 fill 4 #0@512\n2 end\ndone 23\n",
    )] {
        assert_replay(&rt, rt.alloc(), input.as_bytes(), 0, journal, "")?;
    }
    Ok(())
}

/// A script that makes a list and a vector and collects until they are old. Then so many times it puts
/// a new cons into the vector, collects the young, and reads the vector.
fn old_graph(alloc: Global, rounds: usize) -> Result<Vec<u8>, Fail> {
    let mut script = Vec::from_slice(
        alloc,
        b"lispheap 1\nheap 64\nthread\nvector b2 1\n".as_slice(),
    )?;
    for _ in 0..300 {
        script.extend_from_slice(b"cons b0 b1 b0\n".as_slice())?;
    }
    script.extend_from_slice(b"gc 2\ngc 2\n".as_slice())?;
    for _ in 0..rounds {
        script.extend_from_slice(
            b"cons b3 b0 b2\nput b2 0 b3\nnil b3\ngc 0\nget b4 b2 0\nnil b4\n".as_slice(),
        )?;
    }
    script.extend_from_slice(b"end\n".as_slice())?;
    Ok(script)
}

/// How often a text stands in a journal.
fn count_of(journal: &[u8], text: &[u8]) -> usize
    requires { 1 ≤ length text.now }
{
    journal
        .windows(text.len())
        .filter(|part| *part == text)
        .count()
}

/// What the vector holds is told by the commands alone, as if there were no collections. A cons that the
/// vector no longer holds dies in the second collection after its own, which promotes the new one.
#[test]
fn forty_young_collections_keep_what_an_old_graph_holds(rt: HostRuntime) -> Result<(), Fail> {
    let script = old_graph(rt.alloc(), 40)?;
    let got = outcome_of(rt.alloc(), &["replay"], &script, WHOLE)?;
    assert_eq!(rt; got.status, 0);
    let journal = got.out.bytes();
    for name in 301..341u32 {
        let line = format!(in rt.alloc(); "\n0 get b4 b2 0 -> #{name}\n")?;
        assert_eq!(rt; count_of(journal, line.as_bytes()), 1);
    }
    for line in ["\npass 0 0\n", "\nswept 0 1\n", "\nswept 1 1\n"] {
        assert_eq!(rt; count_of(journal, line.as_bytes()), 20, "{line}");
    }
    Ok(())
}
