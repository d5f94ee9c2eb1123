//! Scripts with weak pointers and tables against their journals, worked by hand.

use super::{WHOLE, assert_replay, outcome_of};
use std::alloc::Global;
use std::test::Fail;

#[test]
fn each_weakness_keeps_its_own_of_a_live_key_and_dead_values(rt: HostRuntime) -> Result<(), Fail> {
    for (input, journal) in [(
        "lispheap 1\nheap 8\nthread\ntable s0 key 1\ntable s1 value 1\ntable s2 key-and-value 1\ntable s3 key-or-value 1\ncons s4 b0 b0\ncons s5 b0 b0\ntput s0 s4 s5\ncons s5 b0 b0\ntput s1 s4 s5\ncons s5 b0 b0\ntput s2 s4 s5\ncons s5 b0 b0\ntput s3 s4 s5\nnil s5\ngc 0\ntcount s0\ntcount s1\ntcount s2\ntcount s3\nend\n",
        "0 open boxed 0 1\n0 table s0 key 1 -> #0 @0\n0 table s1 value 1 -> #1 @8\n0 table s2 key-and-value 1 -> #2 @16\n0 table s3 key-or-value 1 -> #3 @24\n0 open cons 1 1\n0 cons s4 b0 b0 -> #4 @512\n0 cons s5 b0 b0 -> #5 @514\n0 tput s0 s4 s5 -> ok\n0 cons s5 b0 b0 -> #6 @516\n0 tput s1 s4 s5 -> ok\n0 cons s5 b0 b0 -> #7 @518\n0 tput s2 s4 s5 -> ok\n0 cons s5 b0 b0 -> #8 @520\n0 tput s3 s4 s5 -> ok\n0 nil s5 -> ok\n0 gc 0 -> ok\n0 collect 0\npass 0 0\nmove #5 @514 @1024\nmove #8 @520 @1026\npin #0 @0\npin #1 @8\npin #2 @16\npin #3 @24\npin #4 @512\ncull #1 #4 #6\ncull #2 #4 #7\nswept 2 7\n0 tcount s0 -> 1\n0 tcount s1 -> 0\n0 tcount s2 -> 0\n0 tcount s3 -> 1\n0 end\ndone 23\n",
    )] {
        assert_replay(&rt, rt.alloc(), input.as_bytes(), 0, journal, "")?;
    }
    Ok(())
}

#[test]
fn a_moved_key_is_found_and_a_cull_makes_room(rt: HostRuntime) -> Result<(), Fail> {
    for (input, journal) in [(
        "lispheap 1\nheap 4\nthread\ntable s0 key 1\ncons b0 b1 b1\nfix b2 7\ntput s0 b0 b2\ntput s0 b2 b2\ngc 0\ntget b3 s0 b0\nnil b0\ngc 0\ntput s0 b2 b2\ntget b3 s0 b2\nend\n",
        "0 open boxed 0 1\n0 table s0 key 1 -> #0 @0\n0 open cons 1 1\n0 cons b0 b1 b1 -> #1 @512\n0 fix b2 7 -> ok\n0 tput s0 b0 b2 -> ok\n0 tput s0 b2 b2 -> !full\n0 gc 0 -> ok\n0 collect 0\npass 0 0\nmove #1 @512 @1024\npin #0 @0\nfree 1\nswept 0 2\n0 tget b3 s0 b0 -> 7\n0 nil b0 -> ok\n0 gc 0 -> ok\n0 collect 0\npass 0 1\npin #0 @0\ncull #0 #1 7\nfree 2\nswept 1 1\n0 tput s0 b2 b2 -> ok\n0 tget b3 s0 b2 -> 7\n0 end\ndone 16\n",
    )] {
        assert_replay(&rt, rt.alloc(), input.as_bytes(), 0, journal, "")?;
    }
    Ok(())
}

#[test]
fn three_threads_share_a_weak_table_over_two_generations(rt: HostRuntime) -> Result<(), Fail> {
    for (input, journal) in [(
        "lispheap 1\nheap 8\nthread\ntable g0 key 2\ncons g1 b0 b0\nfix b1 11\ntput g0 g1 b1\ngc 0\nthread\ncons b0 b1 b1\ncons g2 b0 b0\ntput g0 b0 g2\ngc 1\nthread\ntget s0 g0 g1\nnil g1\ngc 1\ntcount g0\nschedule 0*31 1*27\nend\n",
        "0 open boxed 0 1\n0 table g0 key 2 -> #0 @0\n0 open cons 1 1\n0 cons g1 b0 b0 -> #1 @512\n0 fix b1 11 -> ok\n0 tput g0 g1 b1 -> ok\n0 gc 0 -> ok\n0 collect 0\npass 0 0\nmove #0 @0 @1024\nmove #1 @512 @1536\nfree 0\nfree 1\nswept 0 2\n0 end\n1 open cons 0 1\n1 cons b0 b1 b1 -> #2 @0\n1 cons g2 b0 b0 -> #3 @2\n1 tput g0 b0 g2 -> ok\n1 gc 1 -> ok\n1 collect 1\npass 0 1\nmove #2 @0 @512\nmove #0 @1024 @2048\nmove #1 @1536 @514\nmove #3 @2 @516\nfree 0\nfree 2\nfree 3\nswept 0 4\npass 1 1\nmove #2 @512 @0\nmove #0 @2048 @1024\nmove #1 @514 @2\nmove #3 @516 @4\nfree 1\nfree 4\nswept 0 4\n1 end\n2 tget s0 g0 g1 -> 11\n2 nil g1 -> ok\n2 gc 1 -> ok\n2 collect 1\npass 0 1\nswept 0 0\npass 1 2\nmove #0 @1024 @512\nmove #3 @4 @1536\nmove #2 @0 @1538\ncull #0 #1 11\nfree 0\nfree 2\nswept 1 3\n2 tcount g0 -> 1\n2 end\ndone 22\n",
    )] {
        assert_replay(&rt, rt.alloc(), input.as_bytes(), 0, journal, "")?;
    }
    Ok(())
}

#[test]
fn chains_go_across_tables_in_either_order(rt: HostRuntime) -> Result<(), Fail> {
    for (input, journal) in [
        (
            "lispheap 1\nheap 8\nthread\ntable s0 key 1\ntable s1 value 1\ntable s2 key-or-value 1\ntable s3 key-and-value 1\ncons b1 b0 b0\ncons b2 b0 b0\ncons b3 b0 b0\ncons b4 b0 b0\ncons b5 b0 b0\ntput s0 b1 b2\ntput s1 b3 b2\ntput s2 b4 b3\ntput s3 b4 b5\nnil b2\nnil b3\nnil b4\nnil b5\ngc 0\ntcount s3\ntget b6 s0 b1\nend\n",
            "0 open boxed 0 1\n0 table s0 key 1 -> #0 @0\n0 table s1 value 1 -> #1 @8\n0 table s2 key-or-value 1 -> #2 @16\n0 table s3 key-and-value 1 -> #3 @24\n0 open cons 1 1\n0 cons b1 b0 b0 -> #4 @512\n0 cons b2 b0 b0 -> #5 @514\n0 cons b3 b0 b0 -> #6 @516\n0 cons b4 b0 b0 -> #7 @518\n0 cons b5 b0 b0 -> #8 @520\n0 tput s0 b1 b2 -> ok\n0 tput s1 b3 b2 -> ok\n0 tput s2 b4 b3 -> ok\n0 tput s3 b4 b5 -> ok\n0 nil b2 -> ok\n0 nil b3 -> ok\n0 nil b4 -> ok\n0 nil b5 -> ok\n0 gc 0 -> ok\n0 collect 0\npass 0 0\nmove #4 @512 @1024\nmove #5 @514 @1026\nmove #6 @516 @1028\nmove #7 @518 @1030\npin #0 @0\npin #1 @8\npin #2 @16\npin #3 @24\ncull #3 #7 #8\nfree 1\nswept 1 8\n0 tcount s3 -> 0\n0 tget b6 s0 b1 -> #5\n0 end\ndone 24\n",
        ),
        (
            "lispheap 1\nheap 8\nthread\ntable s2 key-or-value 1\ntable s1 value 1\ntable s0 key 1\ntable s3 key-and-value 1\ncons b1 b0 b0\ncons b2 b0 b0\ncons b3 b0 b0\ncons b4 b0 b0\ncons b5 b0 b0\ntput s0 b1 b2\ntput s1 b3 b2\ntput s2 b4 b3\ntput s3 b4 b5\nnil b2\nnil b3\nnil b4\nnil b5\ngc 0\ntcount s3\ntget b6 s0 b1\nend\n",
            "0 open boxed 0 1\n0 table s2 key-or-value 1 -> #0 @0\n0 table s1 value 1 -> #1 @8\n0 table s0 key 1 -> #2 @16\n0 table s3 key-and-value 1 -> #3 @24\n0 open cons 1 1\n0 cons b1 b0 b0 -> #4 @512\n0 cons b2 b0 b0 -> #5 @514\n0 cons b3 b0 b0 -> #6 @516\n0 cons b4 b0 b0 -> #7 @518\n0 cons b5 b0 b0 -> #8 @520\n0 tput s0 b1 b2 -> ok\n0 tput s1 b3 b2 -> ok\n0 tput s2 b4 b3 -> ok\n0 tput s3 b4 b5 -> ok\n0 nil b2 -> ok\n0 nil b3 -> ok\n0 nil b4 -> ok\n0 nil b5 -> ok\n0 gc 0 -> ok\n0 collect 0\npass 0 0\nmove #4 @512 @1024\nmove #5 @514 @1026\nmove #6 @516 @1028\nmove #7 @518 @1030\npin #0 @0\npin #1 @8\npin #2 @16\npin #3 @24\ncull #3 #7 #8\nfree 1\nswept 1 8\n0 tcount s3 -> 0\n0 tget b6 s0 b1 -> #5\n0 end\ndone 24\n",
        ),
    ] {
        assert_replay(&rt, rt.alloc(), input.as_bytes(), 0, journal, "")?;
    }
    Ok(())
}

#[test]
fn a_table_that_is_its_own_key_keeps_its_value_while_it_lives(rt: HostRuntime) -> Result<(), Fail> {
    for (input, journal) in [(
        "lispheap 1\nheap 4\nthread\ntable b0 key 1\ncons b1 b2 b2\ntput b0 b0 b1\nnil b1\ngc 0\ntcount b0\nnil b0\ngc 0\nend\n",
        "0 open boxed 0 1\n0 table b0 key 1 -> #0 @0\n0 open cons 1 1\n0 cons b1 b2 b2 -> #1 @512\n0 tput b0 b0 b1 -> ok\n0 nil b1 -> ok\n0 gc 0 -> ok\n0 collect 0\npass 0 0\nmove #0 @0 @1024\nmove #1 @512 @1536\nfree 0\nfree 1\nswept 0 2\n0 tcount b0 -> 1\n0 nil b0 -> ok\n0 gc 0 -> ok\n0 collect 0\npass 0 1\nfree 2\nfree 3\nswept 2 0\n0 end\ndone 13\n",
    )] {
        assert_replay(&rt, rt.alloc(), input.as_bytes(), 0, journal, "")?;
    }
    Ok(())
}

#[test]
fn culls_and_breaks_are_told_by_name(rt: HostRuntime) -> Result<(), Fail> {
    for (input, journal) in [
        (
            "lispheap 1\nheap 8\nthread\ncons b1 b0 b0\nweak b5 b1\nweak b4 b1\nweak b3 b1\nnil b1\ngc 0\nweakval b6 b5\nweakval b6 b3\nend\n",
            "0 open cons 0 1\n0 cons b1 b0 b0 -> #0 @0\n0 open boxed 1 1\n0 weak b5 b1 -> #1 @512\n0 weak b4 b1 -> #2 @514\n0 weak b3 b1 -> #3 @516\n0 nil b1 -> ok\n0 gc 0 -> ok\n0 collect 0\npass 0 0\nmove #3 @516 @1024\nmove #2 @514 @1026\nmove #1 @512 @1028\nbreak #1\nbreak #2\nbreak #3\nfree 0\nfree 1\nswept 1 3\n0 weakval b6 b5 -> broken\n0 weakval b6 b3 -> broken\n0 end\ndone 12\n",
        ),
        (
            "lispheap 1\nheap 8\nthread\ntable b5 key 2\ntable b4 key 2\ncons b1 b0 b0\ncons b2 b0 b0\nfix b3 7\ntput b4 b2 b3\ntput b4 b1 b3\ntput b5 b1 b3\ntput b5 b2 b3\nnil b1\nnil b2\ngc 0\ntcount b5\nend\n",
            "0 open boxed 0 1\n0 table b5 key 2 -> #0 @0\n0 table b4 key 2 -> #1 @12\n0 open cons 1 1\n0 cons b1 b0 b0 -> #2 @512\n0 cons b2 b0 b0 -> #3 @514\n0 fix b3 7 -> ok\n0 tput b4 b2 b3 -> ok\n0 tput b4 b1 b3 -> ok\n0 tput b5 b1 b3 -> ok\n0 tput b5 b2 b3 -> ok\n0 nil b1 -> ok\n0 nil b2 -> ok\n0 gc 0 -> ok\n0 collect 0\npass 0 0\nmove #1 @12 @1024\nmove #0 @0 @1036\ncull #0 #2 7\ncull #0 #3 7\ncull #1 #3 7\ncull #1 #2 7\nfree 0\nfree 1\nswept 2 2\n0 tcount b5 -> 0\n0 end\ndone 17\n",
        ),
    ] {
        assert_replay(&rt, rt.alloc(), input.as_bytes(), 0, journal, "")?;
    }
    Ok(())
}

/// A side of a pair: what makes it, and what lets go of it before the collection. A key is made in b1, a
/// value in b2.
#[derive(Clone, Copy)]
struct Side {
    key: [&'static str; 2],
    value: [&'static str; 2],
}

/// Live in a cell; live through another table alone; dead; a fixnum; NIL; and of an older generation,
/// where nothing else refers to it.
const SIDES: [Side; 6] = [
    Side {
        key: ["cons b1 b0 b0\n", ""],
        value: ["cons b2 b0 b0\n", ""],
    },
    Side {
        key: ["cons b1 b0 b0\ntput s1 b14 b1\n", "nil b1\n"],
        value: ["cons b2 b0 b0\ntput s1 b15 b2\n", "nil b2\n"],
    },
    Side {
        key: ["cons b1 b0 b0\n", "nil b1\n"],
        value: ["cons b2 b0 b0\n", "nil b2\n"],
    },
    Side {
        key: ["fix b1 5\n", ""],
        value: ["fix b2 5\n", ""],
    },
    Side {
        key: ["nil b1\n", ""],
        value: ["nil b2\n", ""],
    },
    Side {
        key: ["move b1 b8\n", "nil b1\nnil b8\n"],
        value: ["move b2 b9\n", "nil b2\nnil b9\n"],
    },
];

/// Two conses come to be of generation 1.
const TWO_OLD_CONSES: &str =
    "lispheap 1\nheap 8\nthread\ncons b8 b0 b0\ncons b9 b0 b0\ngc 0\ngc 0\n";

/// How many pairs a table of one pair has after a collection, as a digit.
fn pairs_left(alloc: Global, weakness: &str, key: Side, value: Side) -> Result<u8, Fail> {
    let mut script = String::from_str(alloc, TWO_OLD_CONSES)?;
    script.push_str("table s0 ")?;
    script.push_str(weakness)?;
    script.push_str(" 1\ntable s1 strong 2\nfix b14 1\nfix b15 2\n")?;
    script.push_str(key.key[0])?;
    script.push_str(value.value[0])?;
    script.push_str("tput s0 b1 b2\n")?;
    script.push_str(key.key[1])?;
    script.push_str(value.value[1])?;
    script.push_str("gc 0\ntcount s0\nend\n")?;
    let got = outcome_of(alloc, &["replay"], script.as_bytes(), WHOLE)?;
    // The journal ends with the count, a line feed, and the lines of the end and of `done`.
    let tail = "\n0 end\ndone 20\n".len();
    let count = got.out.bytes().iter().rev().nth(tail);
    Ok(*count.unwrap_or(&b'-'))
}

/// For each weakness whether a pair stays, by the state of its key and, in a row, of its value, in the
/// order of `SIDES`.
const STAYS: [(&str, [&str; 6]); 5] = [
    (
        "strong",
        ["111111", "111111", "111111", "111111", "111111", "111111"],
    ),
    (
        "key",
        ["111111", "111111", "000000", "111111", "111111", "111111"],
    ),
    (
        "value",
        ["110111", "110111", "110111", "110111", "110111", "110111"],
    ),
    (
        "key-and-value",
        ["110111", "110111", "000000", "110111", "110111", "110111"],
    ),
    (
        "key-or-value",
        ["111111", "111111", "110111", "111111", "111111", "111111"],
    ),
];

#[test]
fn a_pair_stays_by_its_weakness_and_the_states_of_its_sides(rt: HostRuntime) -> Result<(), Fail> {
    for (weakness, rows) in STAYS {
        for (key, row) in SIDES.iter().zip(rows) {
            let mut left = String::new(rt.alloc());
            for value in SIDES {
                left.push(char::from(pairs_left(rt.alloc(), weakness, *key, value)?))?;
            }
            assert_eq!(rt; left.as_str(), row, "{weakness}");
        }
    }
    Ok(())
}
