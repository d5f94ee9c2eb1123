//! Scripts with collections against their journals. The shorter ones were worked by hand beforehand; the
//! others are what this program and a second one both gave, and show changes rather than what is right.

use super::{WHOLE, assert_replay, outcome_of};
use journal_text::{parse, print};
use std::alloc::Global;
use std::test::Fail;

/// Whether bytes are a journal that prints as these bytes again.
fn reads_back(alloc: Global, journal: &[u8]) -> bool {
    if journal.len() >= 4_000_000_000 {
        return false;
    }
    let Ok(events) = parse(alloc, journal) else {
        return false;
    };
    match print(alloc, &events) {
        Ok(text) => text.as_slice() == journal,
        Err(_) => false,
    }
}

#[test]
fn a_pinned_object_keeps_its_page_and_its_neighbour_moves(rt: HostRuntime) -> Result<(), Fail> {
    for (input, journal) in [(
        "lispheap 1\nheap 4\nthread\ncons s0 b0 b0\ncons b1 s0 b0\ngc 0\npage 0\npage 1\nend\n",
        "0 open cons 0 1\n0 cons s0 b0 b0 -> #0 @0\n0 cons b1 s0 b0 -> #1 @2\n0 gc 0 -> ok\n0 collect 0\npass 0 0\nmove #1 @2 @512\npin #0 @0\nswept 0 2\n0 page 0 -> cons g0 fill 4 #0@0 ~2@2\n0 page 1 -> cons g0 fill 2 #1@512\n0 end\ndone 8\n",
    )] {
        assert_replay(&rt, rt.alloc(), input.as_bytes(), 0, journal, "")?;
    }
    Ok(())
}

#[test]
fn an_exact_cell_lets_an_object_move_and_an_ambiguous_one_does_not(
    rt: HostRuntime,
) -> Result<(), Fail> {
    for (input, journal) in [(
        "lispheap 1\nheap 4\nthread\ncons b0 b1 b1\naddr r0 b0\nraw r0 0x0\ngc 0\naddr r1 b0\nmove s0 b0\nraw r1 0x0\ngc 0\naddr r1 b0\nend\n",
        "0 open cons 0 1\n0 cons b0 b1 b1 -> #0 @0\n0 addr r0 b0 -> 0x0000001000000007\n0 raw r0 0x0000000000000000 -> ok\n0 gc 0 -> ok\n0 collect 0\npass 0 0\nmove #0 @0 @512\nfree 0\nswept 0 1\n0 addr r1 b0 -> 0x0000001000001007\n0 move s0 b0 -> ok\n0 raw r1 0x0000000000000000 -> ok\n0 gc 0 -> ok\n0 collect 0\npass 0 1\npin #0 @512\nswept 0 1\n0 addr r1 b0 -> 0x0000001000001007\n0 end\ndone 13\n",
    )] {
        assert_replay(&rt, rt.alloc(), input.as_bytes(), 0, journal, "")?;
    }
    Ok(())
}

#[test]
fn a_raw_word_keeps_an_object_and_with_another_lowtag_it_does_not(
    rt: HostRuntime,
) -> Result<(), Fail> {
    for (input, journal) in [(
        "lispheap 1\nheap 4\nthread\ncons b0 b1 b1\naddr r0 b0\nnil b0\ngc 0\nadd r0 2\ngc 0\npage 0\nend\n",
        "0 open cons 0 1\n0 cons b0 b1 b1 -> #0 @0\n0 addr r0 b0 -> 0x0000001000000007\n0 nil b0 -> ok\n0 gc 0 -> ok\n0 collect 0\npass 0 0\npin #0 @0\nswept 0 1\n0 add r0 2 -> 0x0000001000000009\n0 gc 0 -> ok\n0 collect 0\npass 0 1\nfree 0\nswept 1 0\n0 page 0 -> free\n0 end\ndone 11\n",
    )] {
        assert_replay(&rt, rt.alloc(), input.as_bytes(), 0, journal, "")?;
    }
    Ok(())
}

#[test]
fn pins_hold_until_they_are_dropped(rt: HostRuntime) -> Result<(), Fail> {
    for (input, journal) in [
        (
            "lispheap 1\nheap 2\nthread\ncons b0 b1 b1\npin b0\npin b0\nunpin\ngc 0\nunpin\nunpin\nend\n",
            "0 open cons 0 1\n0 cons b0 b1 b1 -> #0 @0\n0 pin b0 -> ok\n0 pin b0 -> ok\n0 unpin -> ok\n0 gc 0 -> ok\n0 collect 0\npass 0 0\npin #0 @0\nswept 0 1\n0 unpin -> ok\n0 unpin -> !empty\n0 end\ndone 10\n",
        ),
        (
            "lispheap 1\nheap 1\nthread\npin s0\npin s0\npin s0\npin s0\npin s0\npin s0\npin s0\npin s0\npin s0\npin s0\npin s0\npin s0\npin s0\npin s0\npin s0\npin s0\npin s0\npin s0\npin s0\npin s0\npin s0\npin s0\npin s0\npin s0\npin s0\npin s0\npin s0\npin s0\npin s0\npin s0\npin s0\npin s0\npin s0\nend\n",
            "0 pin s0 -> ok\n0 pin s0 -> ok\n0 pin s0 -> ok\n0 pin s0 -> ok\n0 pin s0 -> ok\n0 pin s0 -> ok\n0 pin s0 -> ok\n0 pin s0 -> ok\n0 pin s0 -> ok\n0 pin s0 -> ok\n0 pin s0 -> ok\n0 pin s0 -> ok\n0 pin s0 -> ok\n0 pin s0 -> ok\n0 pin s0 -> ok\n0 pin s0 -> ok\n0 pin s0 -> ok\n0 pin s0 -> ok\n0 pin s0 -> ok\n0 pin s0 -> ok\n0 pin s0 -> ok\n0 pin s0 -> ok\n0 pin s0 -> ok\n0 pin s0 -> ok\n0 pin s0 -> ok\n0 pin s0 -> ok\n0 pin s0 -> ok\n0 pin s0 -> ok\n0 pin s0 -> ok\n0 pin s0 -> ok\n0 pin s0 -> ok\n0 pin s0 -> ok\n0 pin s0 -> !pins\n0 end\ndone 34\n",
        ),
    ] {
        assert_replay(&rt, rt.alloc(), input.as_bytes(), 0, journal, "")?;
    }
    Ok(())
}

#[test]
fn an_object_stays_where_no_page_is_free(rt: HostRuntime) -> Result<(), Fail> {
    for (input, journal) in [
        (
            "lispheap 1\nheap 3\nthread\nvector b0 399\nvector b1 399\nvector b2 9\ngc 0\npage 1\nend\n",
            "0 open boxed 0 1\n0 vector b0 399 -> #0 @0\n0 open boxed 1 1\n0 vector b1 399 -> #1 @512\n0 vector b2 9 -> #2 @912\n0 gc 0 -> ok\n0 collect 0\npass 0 0\nmove #0 @0 @1024\nstay #1 @512\nmove #2 @912 @1424\nfree 0\nswept 0 3\n0 page 1 -> boxed g0 fill 410 #1@512 ~10@912\n0 end\ndone 9\n",
        ),
        (
            "lispheap 1\nheap 1\nthread\ncons b0 b1 b1\ngc 0\nend\n",
            "0 open cons 0 1\n0 cons b0 b1 b1 -> #0 @0\n0 gc 0 -> ok\n0 collect 0\npass 0 0\nstay #0 @0\nswept 0 1\n0 end\ndone 5\n",
        ),
    ] {
        assert_replay(&rt, rt.alloc(), input.as_bytes(), 0, journal, "")?;
    }
    Ok(())
}

#[test]
fn two_free_pages_apart_are_no_run(rt: HostRuntime) -> Result<(), Fail> {
    for (input, journal) in [(
        "lispheap 1\nheap 4\nthread\ncons s0 s1 s1\ninstance b1 1\nwords s2 1 0x0\nnil b1\ngc 0\nvector b3 512\npage 1\nend\n",
        "0 open cons 0 1\n0 cons s0 s1 s1 -> #0 @0\n0 open boxed 1 1\n0 instance b1 1 -> #1 @512\n0 open unboxed 2 1\n0 words s2 1 0x0000000000000000 -> #2 @1024\n0 nil b1 -> ok\n0 gc 0 -> ok\n0 collect 0\npass 0 0\npin #0 @0\npin #2 @1024\nfree 1\nswept 1 2\n0 vector b3 512 -> !exhausted\n0 page 1 -> free\n0 end\ndone 12\n",
    )] {
        assert_replay(&rt, rt.alloc(), input.as_bytes(), 0, journal, "")?;
    }
    Ok(())
}

#[test]
fn an_inhibited_collection_is_owed(rt: HostRuntime) -> Result<(), Fail> {
    for (input, journal) in [
        (
            "lispheap 1\nheap 1\nthread\nnogc\ngc 0\nfix s0 1\ngcok\ngcok\nend\n",
            "0 nogc -> ok\n0 gc 0 -> ok\n0 fix s0 1 -> ok\n0 gcok -> ok\n0 collect 0\npass 0 0\nswept 0 0\n0 gcok -> !empty\n0 end\ndone 7\n",
        ),
        (
            "lispheap 1\nheap 1\nthread\nnogc\ngc 0\nend\n",
            "0 nogc -> ok\n0 gc 0 -> ok\n0 end\ndone 3\n",
        ),
    ] {
        assert_replay(&rt, rt.alloc(), input.as_bytes(), 0, journal, "")?;
    }
    Ok(())
}

#[test]
fn a_cycle_is_kept_whole_and_dropped_whole(rt: HostRuntime) -> Result<(), Fail> {
    for (input, journal) in [(
        "lispheap 1\nheap 4\nthread\ncons b0 b1 b1\ncons b1 b0 s0\nput b0 0 b1\nnil b0\ngc 0\nget b2 b1 0\nnil b1\nnil b2\ngc 0\nend\n",
        "0 open cons 0 1\n0 cons b0 b1 b1 -> #0 @0\n0 cons b1 b0 s0 -> #1 @2\n0 put b0 0 b1 -> ok\n0 nil b0 -> ok\n0 gc 0 -> ok\n0 collect 0\npass 0 0\nmove #1 @2 @512\nmove #0 @0 @514\nfree 0\nswept 0 2\n0 get b2 b1 0 -> #0\n0 nil b1 -> ok\n0 nil b2 -> ok\n0 gc 0 -> ok\n0 collect 0\npass 0 1\nfree 1\nswept 2 0\n0 end\ndone 13\n",
    )] {
        assert_replay(&rt, rt.alloc(), input.as_bytes(), 0, journal, "")?;
    }
    Ok(())
}

#[test]
fn raw_words_of_an_object_keep_nothing(rt: HostRuntime) -> Result<(), Fail> {
    for (input, journal) in [(
        "lispheap 1\nheap 4\nthread\ncons b0 s0 s0\nwords s1 1 0x1000000007\nnil b0\ngc 0\nend\n",
        "0 open cons 0 1\n0 cons b0 s0 s0 -> #0 @0\n0 open unboxed 1 1\n0 words s1 1 0x0000001000000007 -> #1 @512\n0 nil b0 -> ok\n0 gc 0 -> ok\n0 collect 0\npass 0 0\npin #1 @512\nfree 0\nswept 1 1\n0 end\ndone 8\n",
    )] {
        assert_replay(&rt, rt.alloc(), input.as_bytes(), 0, journal, "")?;
    }
    Ok(())
}

#[test]
fn pages_are_shown_with_their_objects_and_gaps(rt: HostRuntime) -> Result<(), Fail> {
    for (input, journal) in [
        (
            "lispheap 1\nheap 8\nthread\ncons b0 b1 b1\ncons s0 b1 b1\ncons b2 b1 b1\ncons s1 b1 b1\ncons b3 b1 b1\nvector s2 3\nvector b4 1\nvector s3 1\nwords s4 2 0x1\ninstance s5 1\nclosure b5 2\nclosure s6 4\npage 0\npage 1\npage 2\npage 3\ngc 0\npage 0\npage 1\npage 2\npage 3\npage 4\npage 7\npage 8\nend\n",
            "0 open cons 0 1\n0 cons b0 b1 b1 -> #0 @0\n0 cons s0 b1 b1 -> #1 @2\n0 cons b2 b1 b1 -> #2 @4\n0 cons s1 b1 b1 -> #3 @6\n0 cons b3 b1 b1 -> #4 @8\n0 open boxed 1 1\n0 vector s2 3 -> #5 @512\n0 vector b4 1 -> #6 @516\n0 vector s3 1 -> #7 @518\n0 open unboxed 2 1\n0 words s4 2 0x0000000000000001 -> #8 @1024\n0 instance s5 1 -> #9 @520\n0 closure b5 2 -> #10 @522\n0 closure s6 4 -> #11 @526\n0 page 0 -> cons g0 fill 10 #0@0 #1@2 #2@4 #3@6 #4@8\n0 page 1 -> boxed g0 fill 20 #5@512 #6@516 #7@518 #9@520 #10@522 #11@526\n0 page 2 -> unboxed g0 fill 4 #8@1024\n0 page 3 -> free\n0 gc 0 -> ok\n0 collect 0\npass 0 0\nmove #0 @0 @1536\nmove #2 @4 @1538\nmove #4 @8 @1540\nmove #6 @516 @2048\nmove #10 @522 @2050\npin #1 @2\npin #3 @6\npin #5 @512\npin #7 @518\npin #9 @520\npin #11 @526\npin #8 @1024\nswept 0 12\n0 page 0 -> cons g0 fill 10 ~2@0 #1@2 ~2@4 #3@6 ~2@8\n0 page 1 -> boxed g0 fill 20 #5@512 ~2@516 #7@518 #9@520 ~4@522 #11@526\n0 page 2 -> unboxed g0 fill 4 #8@1024\n0 page 3 -> cons g0 fill 6 #0@1536 #2@1538 #4@1540\n0 page 4 -> boxed g0 fill 6 #6@2048 #10@2050\n0 page 7 -> free\n0 page 8 -> !range\n0 end\ndone 29\n",
        ),
        (
            "lispheap 1\nheap 8\nthread\nvector b0 511\nvector b0 1100\nnil b1\nthread\npage 0\npage 1\npage 2\npage 3\npage 4\nschedule 0*6 1*8\nend\n",
            "0 open boxed 0 1\n0 vector b0 511 -> #0 @0\n1 page 0 -> boxed g0 fill 512 #0@0\n1 page 1 -> free\n0 open boxed 1 3\n1 page 2 -> boxed g0 fill 0\n0 vector b0 1100 -> #1 @512\n1 page 3 -> boxed g0 large 3 #1@512\n0 nil b1 -> ok\n1 page 4 -> free\n0 end\n1 end\ndone 12\n",
        ),
    ] {
        assert_replay(&rt, rt.alloc(), input.as_bytes(), 0, journal, "")?;
    }
    Ok(())
}

/// Thread 1 claims while thread 0 is inside its section.
const STOPPED: &str =
    "lispheap 1\nheap 2\nthread\nfix s0 1\nthread\ngc 0\nschedule 0*2 1*7 0*4 1*3 0 1\nend\n";

const STOPPED_STEPS: &str =
    "0 : resume\n0 : enter\n1 : resume\n1 : enter\n1 gc 0 -> ok\n1 : leave\n1 : claim\n1 : post 0 inside\n0 fix s0 1 -> ok\n0 : leave stop\n0 : park\n1 : look 0\n1 collect 0\npass 0 0\nswept 0 0\n1 : release 0\n0 : resume\n1 : return\n0 : enter\n1 : enter\n0 end\n1 end\n0 : leave\n1 : leave\n0 : park\n1 : park\ndone 5\n";

#[test]
fn a_stop_waits_for_the_thread_that_is_inside(rt: HostRuntime) -> Result<(), Fail> {
    let got = outcome_of(
        rt.alloc(),
        &["replay", "--words"],
        STOPPED.as_bytes(),
        WHOLE,
    )?;
    assert_eq!(rt; got.status, 0);
    assert_eq!(rt; got.out.bytes(), STOPPED_STEPS.as_bytes());
    assert_eq!(rt; got.err.bytes(), b"".as_slice());
    Ok(())
}

#[test]
fn objects_of_every_kind_and_size_move(rt: HostRuntime) -> Result<(), Fail> {
    for (input, journal) in [(
        "lispheap 1\nheap 24\nthread\ncons b0 s0 s0\nvector b1 0\ninstance b2 1\nclosure b3 2\nwords b4 3 0x10000000ff\nvector b5 511\nwords b6 512 0x7\nvector b7 1022\nput b7 0 b0\nput b7 1021 b3\nput b3 1 b4\nput b2 0 b2\ngc 0\nget b8 b7 0\nget b9 b7 1021\neq b9 b3\nget b9 b9 1\nrawget r0 b9 2\nrawget r1 b6 511\nget b10 b2 0\neq b10 b2\nend\n",
        "0 open cons 0 1\n0 cons b0 s0 s0 -> #0 @0\n0 open boxed 1 1\n0 vector b1 0 -> #1 @512\n0 instance b2 1 -> #2 @514\n0 closure b3 2 -> #3 @516\n0 open unboxed 2 1\n0 words b4 3 0x00000010000000ff -> #4 @1024\n0 open boxed 3 1\n0 vector b5 511 -> #5 @1536\n0 open unboxed 4 2\n0 words b6 512 0x0000000000000007 -> #6 @2048\n0 open boxed 6 2\n0 vector b7 1022 -> #7 @3072\n0 put b7 0 b0 -> ok\n0 put b7 1021 b3 -> ok\n0 put b3 1 b4 -> ok\n0 put b2 0 b2 -> ok\n0 gc 0 -> ok\n0 collect 0\npass 0 0\nmove #0 @0 @4096\nmove #1 @512 @4608\nmove #2 @514 @4610\nmove #3 @516 @4612\nmove #4 @1024 @5120\nmove #5 @1536 @5632\nmove #6 @2048 @6144\nmove #7 @3072 @7168\nfree 0\nfree 1\nfree 2\nfree 3\nfree 4\nfree 5\nfree 6\nfree 7\nswept 0 8\n0 get b8 b7 0 -> #0\n0 get b9 b7 1021 -> #3\n0 eq b9 b3 -> yes\n0 get b9 b9 1 -> #4\n0 rawget r0 b9 2 -> 0x00000010000000ff\n0 rawget r1 b6 511 -> 0x0000000000000007\n0 get b10 b2 0 -> #2\n0 eq b10 b2 -> yes\n0 end\ndone 29\n",
    )] {
        assert_replay(&rt, rt.alloc(), input.as_bytes(), 0, journal, "")?;
    }
    Ok(())
}

#[test]
fn an_object_that_fits_exactly_is_moved_into_the_page(rt: HostRuntime) -> Result<(), Fail> {
    for (input, journal) in [
        (
            "lispheap 1\nheap 4\nthread\nvector b0 399\nvector b1 111\nvector b2 1\ngc 0\npage 0\npage 1\npage 2\npage 3\nend\n",
            "0 open boxed 0 1\n0 vector b0 399 -> #0 @0\n0 vector b1 111 -> #1 @400\n0 open boxed 1 1\n0 vector b2 1 -> #2 @512\n0 gc 0 -> ok\n0 collect 0\npass 0 0\nmove #0 @0 @1024\nmove #1 @400 @1424\nmove #2 @512 @1536\nfree 0\nfree 1\nswept 0 3\n0 page 0 -> free\n0 page 1 -> free\n0 page 2 -> boxed g0 fill 512 #0@1024 #1@1424\n0 page 3 -> boxed g0 fill 2 #2@1536\n0 end\ndone 12\n",
        ),
        (
            "lispheap 1\nheap 2\nthread\nvector b0 511\ngc 0\npage 0\npage 1\ngc 0\npage 0\nend\n",
            "0 open boxed 0 1\n0 vector b0 511 -> #0 @0\n0 gc 0 -> ok\n0 collect 0\npass 0 0\nmove #0 @0 @512\nfree 0\nswept 0 1\n0 page 0 -> free\n0 page 1 -> boxed g0 fill 512 #0@512\n0 gc 0 -> ok\n0 collect 0\npass 0 1\nmove #0 @512 @0\nfree 1\nswept 0 1\n0 page 0 -> boxed g1 fill 512 #0@0\n0 end\ndone 10\n",
        ),
    ] {
        assert_replay(&rt, rt.alloc(), input.as_bytes(), 0, journal, "")?;
    }
    Ok(())
}

#[test]
fn a_large_object_moves_to_the_lowest_run_or_is_pinned(rt: HostRuntime) -> Result<(), Fail> {
    for (input, journal) in [(
        "lispheap 1\nheap 8\nthread\ncons s0 s1 s1\nvector b0 600\nnil s0\ngc 0\npage 0\npage 1\npage 3\npage 4\nmove s2 b0\ngc 0\npage 4\nend\n",
        "0 open cons 0 1\n0 cons s0 s1 s1 -> #0 @0\n0 open boxed 1 2\n0 vector b0 600 -> #1 @512\n0 nil s0 -> ok\n0 gc 0 -> ok\n0 collect 0\npass 0 0\nmove #1 @512 @1536\nfree 0\nfree 1\nfree 2\nswept 1 1\n0 page 0 -> free\n0 page 1 -> free\n0 page 3 -> boxed g0 large 2 #1@1536\n0 page 4 -> boxed g0 large 2 #1@1536\n0 move s2 b0 -> ok\n0 gc 0 -> ok\n0 collect 0\npass 0 1\npin #1 @1536\nswept 0 1\n0 page 4 -> boxed g1 large 2 #1@1536\n0 end\ndone 16\n",
    )] {
        assert_replay(&rt, rt.alloc(), input.as_bytes(), 0, journal, "")?;
    }
    Ok(())
}

#[test]
fn an_ambiguous_word_must_have_the_lowtag_of_its_object(rt: HostRuntime) -> Result<(), Fail> {
    for (input, journal) in [(
        "lispheap 1\nheap 4\nthread\nvector b0 3\naddr r0 b0\nnil b0\nadd r0 8\ngc 0\nraw r1 0x1000000013\ngc 0\nend\n",
        "0 open boxed 0 1\n0 vector b0 3 -> #0 @0\n0 addr r0 b0 -> 0x000000100000000f\n0 nil b0 -> ok\n0 add r0 8 -> 0x0000001000000017\n0 gc 0 -> ok\n0 collect 0\npass 0 0\nfree 0\nswept 1 0\n0 raw r1 0x0000001000000013 -> ok\n0 gc 0 -> ok\n0 collect 0\npass 0 1\nswept 0 0\n0 end\ndone 11\n",
    )] {
        assert_replay(&rt, rt.alloc(), input.as_bytes(), 0, journal, "")?;
    }
    Ok(())
}

#[test]
fn eight_threads_hold_pin_and_drop_objects(rt: HostRuntime) -> Result<(), Fail> {
    for (input, journal) in [(
        "lispheap 1\nheap 24\nthread\nput s0 0 b2\nnil g2\ngcok\nnil s0\nmove s2 g1\nnil b2\npin s0\ngc 0\nthread\ngcok\nmove g1 b1\nvector g2 0\ngcok\npin b2\ngc 0\nnogc\nunpin\nthread\npin b2\ncons g2 g1 g0\nunpin\nunpin\ngcok\ngc 0\nmove s2 s0\nnil g1\nthread\ncons s2 b0 g2\nunpin\npin g2\ncons g0 s1 s0\ncons b1 s2 g0\ngc 0\nnogc\nvector b1 2\nthread\ngcok\nunpin\nnil s2\nput b0 0 g0\nunpin\ngcok\ngc 0\naddr r0 g1\nthread\naddr r0 b2\ngcok\nvector s2 1\ncons g2 b1 s0\npin g2\ncons s0 s0 b1\ngc 0\nput s0 0 s2\nthread\nvector s0 3\nunpin\nunpin\ngc 0\nnil g0\nput b2 0 s0\nunpin\npin s0\nthread\naddr r0 s1\nvector b1 0\nput b0 0 b2\npin s2\nput g1 0 b2\ncons b0 s1 b2\naddr r0 g1\ngc 0\nschedule 2*9 6*7 5*6 1*9 5*5 4*8 4*1 6*2 0*7 7*1 1*8 3*9 0*6 4*3 5*4 4*9 3*2 6*3 7*5 4*4 2*2 0*9 6*6 1*6 1*9 7*1 7*7 1*6 1*8 3*2\nend\n",
        "2 pin b2 -> ok\n2 open cons 0 1\n2 cons g2 g1 g0 -> #0 @0\n6 open boxed 1 1\n6 vector s0 3 -> #1 @512\n6 unpin -> !empty\n5 addr r0 b2 -> 0x0000000000000000\n5 gcok -> !empty\n1 gcok -> !empty\n1 move g1 b1 -> ok\n1 open boxed 2 1\n5 open boxed 3 1\n5 vector s2 1 -> #2 @1536\n4 gcok -> !empty\n4 unpin -> !empty\n4 nil s2 -> ok\n0 put s0 0 b2 -> !type\n0 nil g2 -> ok\n1 vector g2 0 -> #3 @1024\n1 gcok -> !empty\n1 pin b2 -> ok\n3 open cons 4 1\n3 cons s2 b0 g2 -> #4 @2048\n3 unpin -> !empty\n0 gcok -> !empty\n0 nil s0 -> ok\n4 put b0 0 g0 -> !type\n5 open cons 5 1\n5 cons g2 b1 s0 -> #5 @2560\n4 unpin -> !empty\n4 gcok -> !empty\n4 gc 0 -> ok\n3 pin g2 -> ok\n6 unpin -> !empty\n7 addr r0 s1 -> 0x0000000000000000\n7 open boxed 6 1\n2 unpin -> ok\n6 gc 0 -> ok\n7 vector b1 0 -> #6 @3072\n7 put b0 0 b2 -> !type\n7 pin s2 -> ok\n3 cons g0 s1 s0 -> #7 @2050\n2 unpin -> !empty\n5 pin g2 -> ok\n7 put g1 0 b2 -> !type\n3 cons b1 s2 g0 -> #8 @2052\n7 open cons 7 1\n7 cons b0 s1 b2 -> #9 @3584\n4 collect 0\npass 0 0\nmove #8 @2052 @4096\nmove #9 @3584 @4098\nmove #6 @3072 @4608\nmove #7 @2050 @4100\nmove #3 @1024 @4610\npin #1 @512\npin #2 @1536\npin #4 @2048\npin #5 @2560\nfree 0\nfree 2\nfree 6\nfree 7\nswept 1 9\n0 move s2 g1 -> ok\n1 gc 0 -> ok\n2 gcok -> !empty\n0 nil b2 -> ok\n3 gc 0 -> ok\n5 open cons 0 1\n5 cons s0 s0 b1 -> #10 @0\n2 gc 0 -> ok\n7 addr r0 g1 -> 0x0000000000000000\n0 pin s0 -> ok\n4 addr r0 g1 -> 0x0000000000000000\n5 gc 0 -> ok\n7 gc 0 -> ok\n4 end\n3 collect 0\npass 0 1\nmove #8 @4096 @1024\nmove #9 @4098 @1026\nmove #6 @4608 @3072\nmove #7 @4100 @1028\nmove #3 @4610 @3074\npin #10 @0\npin #1 @512\npin #2 @1536\npin #4 @2048\npin #5 @2560\nfree 8\nfree 9\nswept 0 10\n0 gc 0 -> ok\n3 nogc -> ok\n3 open boxed 7 1\n3 vector b1 2 -> #11 @3584\n3 end\n7 collect 0\npass 0 0\nfree 7\nswept 1 0\n7 end\n0 collect 0\npass 0 1\nswept 0 0\n0 end\n1 collect 0\npass 0 0\nswept 0 0\n1 nogc -> ok\n1 unpin -> ok\n1 end\n2 collect 0\npass 0 1\nswept 0 0\n2 move s2 s0 -> ok\n2 nil g1 -> ok\n5 collect 0\npass 0 0\nswept 0 0\n2 end\n5 put s0 0 s2 -> ok\n5 end\n6 collect 0\npass 0 1\nswept 0 0\n6 nil g0 -> ok\n6 put b2 0 s0 -> !type\n6 unpin -> !empty\n6 pin s0 -> ok\n6 end\ndone 90\n",
    )] {
        assert_replay(&rt, rt.alloc(), input.as_bytes(), 0, journal, "")?;
        assert!(rt; reads_back(rt.alloc(), journal.as_bytes()));
    }
    Ok(())
}

/// A script that makes a list of so many conses and collects.
fn long_list(alloc: Global, conses: usize) -> Result<Vec<u8>, Fail> {
    let mut script = Vec::from_slice(alloc, b"lispheap 1\nheap 80\nthread\n".as_slice())?;
    for _ in 0..conses {
        script.extend_from_slice(b"cons b0 s0 b0\n".as_slice())?;
    }
    script.extend_from_slice(b"gc 0\nend\n".as_slice())?;
    Ok(script)
}

#[test]
fn a_list_of_10000_conses_moves_whole(rt: HostRuntime) -> Result<(), Fail> {
    let script = long_list(rt.alloc(), 10_000)?;
    let got = outcome_of(rt.alloc(), &["replay"], &script, WHOLE)?;
    assert_eq!(rt; got.status, 0);
    assert!(rt;
        got.out.bytes().ends_with(
            b"free 38\nfree 39\nswept 0 10000\n0 end\ndone 10043\n".as_slice()
        )
    );
    assert!(rt; reads_back(rt.alloc(), got.out.bytes()));
    Ok(())
}
