//! Weak pointers and tables: their commands, and what a collection makes of them.

use super::assert_replay;
use std::test::Fail;

#[test]
fn weak_pointers_are_read_by_weakval_alone(rt: HostRuntime) -> Result<(), Fail> {
    let script =
        b"lispheap 1\nheap 2\nthread\ncons b0 s0 s0\nweak b1 b0\nweakval b2 b1\neq b2 b0\nweakval b1 b0\nget b2 b1 0\nrawget r0 b1 0\nrawput b1 0 r0\ntcount b1\nshow b2\nend\n";
    let journal =
        "0 open cons 0 1\n0 cons b0 s0 s0 -> #0 @0\n0 open boxed 1 1\n0 weak b1 b0 -> #1 @512\n0 weakval b2 b1 -> live #0\n0 eq b2 b0 -> yes\n0 weakval b1 b0 -> !type\n0 get b2 b1 0 -> !type\n0 rawget r0 b1 0 -> !type\n0 rawput b1 0 r0 -> !type\n0 tcount b1 -> !type\n0 show b2 -> #0\n0 end\ndone 13\n";
    assert_replay(&rt, rt.alloc(), script.as_slice(), 0, journal, "")
}

#[test]
fn a_full_table_refuses_a_new_key_and_replaces_an_old_one(rt: HostRuntime) -> Result<(), Fail> {
    let script =
        b"lispheap 1\nheap 1\nthread\ntable s0 key-or-value 1\nnil s1\nfix s2 -1\ntput s0 s1 s0\ntput s0 s2 s2\ntget s3 s0 s2\nshow s3\ntput s0 s1 s2\ntget s3 s0 s1\ntcount s0\nend\n";
    let journal =
        "0 open boxed 0 1\n0 table s0 key-or-value 1 -> #0 @0\n0 nil s1 -> ok\n0 fix s2 -1 -> ok\n0 tput s0 s1 s0 -> ok\n0 tput s0 s2 s2 -> !full\n0 tget s3 s0 s2 -> none\n0 show s3 -> nil\n0 tput s0 s1 s2 -> ok\n0 tget s3 s0 s1 -> -1\n0 tcount s0 -> 1\n0 end\ndone 12\n";
    assert_replay(&rt, rt.alloc(), script.as_slice(), 0, journal, "")
}

#[test]
fn a_removed_pair_is_gone_and_the_others_stay(rt: HostRuntime) -> Result<(), Fail> {
    let script =
        b"lispheap 1\nheap 1\nthread\ntable b0 strong 3\nfix s1 1\nfix s2 2\nfix s3 3\ntput b0 s1 s1\ntput b0 s2 s2\ntput b0 s3 s3\ntrem b0 s2\ntrem b0 s2\ntget s4 b0 s1\ntget s4 b0 s3\ntget s4 b0 s2\ntcount b0\nend\n";
    let journal =
        "0 open boxed 0 1\n0 table b0 strong 3 -> #0 @0\n0 fix s1 1 -> ok\n0 fix s2 2 -> ok\n0 fix s3 3 -> ok\n0 tput b0 s1 s1 -> ok\n0 tput b0 s2 s2 -> ok\n0 tput b0 s3 s3 -> ok\n0 trem b0 s2 -> yes\n0 trem b0 s2 -> no\n0 tget s4 b0 s1 -> 1\n0 tget s4 b0 s3 -> 3\n0 tget s4 b0 s2 -> none\n0 tcount b0 -> 2\n0 end\ndone 15\n";
    assert_replay(&rt, rt.alloc(), script.as_slice(), 0, journal, "")
}

#[test]
fn what_is_no_table_has_no_pairs(rt: HostRuntime) -> Result<(), Fail> {
    let script =
        b"lispheap 1\nheap 1\nthread\nvector b0 1\ntput b0 s0 s0\ntget b0 s0 s0\ntrem b0 s0\ntcount s0\nweakval b0 s0\nshow b0\nend\n";
    let journal =
        "0 open boxed 0 1\n0 vector b0 1 -> #0 @0\n0 tput b0 s0 s0 -> !type\n0 tget b0 s0 s0 -> !type\n0 trem b0 s0 -> !type\n0 tcount s0 -> !type\n0 weakval b0 s0 -> !type\n0 show b0 -> #0\n0 end\ndone 9\n";
    assert_replay(&rt, rt.alloc(), script.as_slice(), 0, journal, "")
}

#[test]
fn a_table_has_a_weakness_and_room_for_1_to_64_pairs(rt: HostRuntime) -> Result<(), Fail> {
    for (input, said) in [
        (
            "lispheap 1\nheap 1\nthread\ntable s0 weak 1\nend\n",
            "lispheap: line 4: form\n",
        ),
        (
            "lispheap 1\nheap 1\nthread\ntable s0 key 0\nend\n",
            "lispheap: line 4: range\n",
        ),
        (
            "lispheap 1\nheap 1\nthread\ntable s0 key 65\nend\n",
            "lispheap: line 4: range\n",
        ),
        (
            "lispheap 1\nheap 1\nthread\ntable s0 key\nend\n",
            "lispheap: line 4: fields\n",
        ),
    ] {
        assert_replay(&rt, rt.alloc(), input.as_bytes(), 3, "", said)?;
    }
    Ok(())
}

#[test]
fn a_live_key_keeps_its_value_where_the_table_is_weak_by_key(rt: HostRuntime) -> Result<(), Fail> {
    let script =
        b"lispheap 1\nheap 8\nthread\ntable s0 key 1\ntable s1 value 1\ntable s2 key-and-value 1\ntable s3 key-or-value 1\ncons s4 b0 b0\ncons s5 b0 b0\ntput s0 s4 s5\ncons s5 b0 b0\ntput s1 s4 s5\ncons s5 b0 b0\ntput s2 s4 s5\ncons s5 b0 b0\ntput s3 s4 s5\nnil s5\ngc 0\ntcount s0\ntcount s1\ntcount s2\ntcount s3\nend\n";
    let journal =
        "0 open boxed 0 1\n0 table s0 key 1 -> #0 @0\n0 table s1 value 1 -> #1 @8\n0 table s2 key-and-value 1 -> #2 @16\n0 table s3 key-or-value 1 -> #3 @24\n0 open cons 1 1\n0 cons s4 b0 b0 -> #4 @512\n0 cons s5 b0 b0 -> #5 @514\n0 tput s0 s4 s5 -> ok\n0 cons s5 b0 b0 -> #6 @516\n0 tput s1 s4 s5 -> ok\n0 cons s5 b0 b0 -> #7 @518\n0 tput s2 s4 s5 -> ok\n0 cons s5 b0 b0 -> #8 @520\n0 tput s3 s4 s5 -> ok\n0 nil s5 -> ok\n0 gc 0 -> ok\n0 collect 0\npass 0 0\nmove #5 @514 @1024\nmove #8 @520 @1026\npin #0 @0\npin #1 @8\npin #2 @16\npin #3 @24\npin #4 @512\ncull #1 #4 #6\ncull #2 #4 #7\nswept 2 7\n0 tcount s0 -> 1\n0 tcount s1 -> 0\n0 tcount s2 -> 0\n0 tcount s3 -> 1\n0 end\ndone 23\n";
    assert_replay(&rt, rt.alloc(), script.as_slice(), 0, journal, "")
}

#[test]
fn a_moved_key_is_found_and_a_cull_makes_room(rt: HostRuntime) -> Result<(), Fail> {
    let script =
        b"lispheap 1\nheap 4\nthread\ntable s0 key 1\ncons b0 b1 b1\nfix b2 7\ntput s0 b0 b2\ntput s0 b2 b2\ngc 0\ntget b3 s0 b0\nnil b0\ngc 0\ntput s0 b2 b2\ntget b3 s0 b2\nend\n";
    let journal =
        "0 open boxed 0 1\n0 table s0 key 1 -> #0 @0\n0 open cons 1 1\n0 cons b0 b1 b1 -> #1 @512\n0 fix b2 7 -> ok\n0 tput s0 b0 b2 -> ok\n0 tput s0 b2 b2 -> !full\n0 gc 0 -> ok\n0 collect 0\npass 0 0\nmove #1 @512 @1024\npin #0 @0\nfree 1\nswept 0 2\n0 tget b3 s0 b0 -> 7\n0 nil b0 -> ok\n0 gc 0 -> ok\n0 collect 0\npass 0 1\npin #0 @0\ncull #0 #1 7\nfree 2\nswept 1 1\n0 tput s0 b2 b2 -> ok\n0 tget b3 s0 b2 -> 7\n0 end\ndone 16\n";
    assert_replay(&rt, rt.alloc(), script.as_slice(), 0, journal, "")
}

#[test]
fn three_threads_share_a_table_over_three_collections(rt: HostRuntime) -> Result<(), Fail> {
    let script =
        b"lispheap 1\nheap 8\nthread\ntable g0 key 2\ncons g1 b0 b0\nfix b1 11\ntput g0 g1 b1\ngc 0\nthread\ncons b0 b1 b1\ncons g2 b0 b0\ntput g0 b0 g2\ngc 1\nthread\ntget s0 g0 g1\nnil g1\ngc 1\ntcount g0\nschedule 0*31 1*27\nend\n";
    let journal =
        "0 open boxed 0 1\n0 table g0 key 2 -> #0 @0\n0 open cons 1 1\n0 cons g1 b0 b0 -> #1 @512\n0 fix b1 11 -> ok\n0 tput g0 g1 b1 -> ok\n0 gc 0 -> ok\n0 collect 0\npass 0 0\nmove #0 @0 @1024\nmove #1 @512 @1536\nfree 0\nfree 1\nswept 0 2\n0 end\n1 open cons 0 1\n1 cons b0 b1 b1 -> #2 @0\n1 cons g2 b0 b0 -> #3 @2\n1 tput g0 b0 g2 -> ok\n1 gc 1 -> ok\n1 collect 1\npass 0 1\nmove #2 @0 @512\nmove #0 @1024 @2048\nmove #1 @1536 @514\nmove #3 @2 @516\nfree 0\nfree 2\nfree 3\nswept 0 4\npass 1 1\nmove #2 @512 @0\nmove #0 @2048 @1024\nmove #1 @514 @2\nmove #3 @516 @4\nfree 1\nfree 4\nswept 0 4\n1 end\n2 tget s0 g0 g1 -> 11\n2 nil g1 -> ok\n2 gc 1 -> ok\n2 collect 1\npass 0 1\nswept 0 0\npass 1 2\nmove #0 @1024 @512\nmove #3 @4 @1536\nmove #2 @0 @1538\ncull #0 #1 11\nfree 0\nfree 2\nswept 1 3\n2 tcount g0 -> 1\n2 end\ndone 22\n";
    assert_replay(&rt, rt.alloc(), script.as_slice(), 0, journal, "")
}
