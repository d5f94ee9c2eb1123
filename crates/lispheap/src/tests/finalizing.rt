//! Scripts with finalizers against their journals, which were worked by hand beforehand.

use super::assert_replay;
use std::test::Fail;

#[test]
fn what_is_registered_for_the_dead_is_queued_in_order_but_what_was_cancelled(
    rt: HostRuntime,
) -> Result<(), Fail> {
    for (input, journal) in [(
        "lispheap 1\nheap 2\nthread\ncons b0 b1 b1\ncons b2 b1 b1\nfinalize b0 7\nfinalize b0 8\nfinalize b2 9\ncancel b2\nnil b0\nnil b2\ngc 0\nrunfin\nrunfin\nend\n",
        "0 open cons 0 1\n0 cons b0 b1 b1 -> #0 @0\n0 cons b2 b1 b1 -> #1 @2\n0 finalize b0 7 -> ok\n0 finalize b0 8 -> ok\n0 finalize b2 9 -> ok\n0 cancel b2 -> 1\n0 nil b0 -> ok\n0 nil b2 -> ok\n0 gc 0 -> ok\n0 collect 0\npass 0 0\nqueue 7\nqueue 8\nfree 0\nswept 2 0\n0 runfin -> ran 7 8\n0 runfin -> none\n0 end\ndone 14\n",
    )] {
        assert_replay(&rt, rt.alloc(), input.as_bytes(), 0, journal, "")?;
    }
    Ok(())
}

#[test]
fn a_finalizer_follows_an_object_that_moves_and_is_promoted(rt: HostRuntime) -> Result<(), Fail> {
    for (input, journal) in [
        (
            "lispheap 1\nheap 2\nthread\ncons b0 b1 b1\nfinalize b0 7\ngc 0\ncancel b0\nend\n",
            "0 open cons 0 1\n0 cons b0 b1 b1 -> #0 @0\n0 finalize b0 7 -> ok\n0 gc 0 -> ok\n0 collect 0\npass 0 0\nmove #0 @0 @512\nfree 0\nswept 0 1\n0 cancel b0 -> 1\n0 end\ndone 7\n",
        ),
        (
            "lispheap 1\nheap 2\nthread\ncons b0 b1 b1\nfinalize b0 7\ngc 0\ngc 0\nnil b0\ngc 0\nrunfin\ngc 1\nrunfin\nend\n",
            "0 open cons 0 1\n0 cons b0 b1 b1 -> #0 @0\n0 finalize b0 7 -> ok\n0 gc 0 -> ok\n0 collect 0\npass 0 0\nmove #0 @0 @512\nfree 0\nswept 0 1\n0 gc 0 -> ok\n0 collect 0\npass 0 1\nmove #0 @512 @0\nfree 1\nswept 0 1\n0 nil b0 -> ok\n0 gc 0 -> ok\n0 collect 0\npass 0 0\nswept 0 0\n0 runfin -> none\n0 gc 1 -> ok\n0 collect 1\npass 0 1\nswept 0 0\npass 1 1\nqueue 7\nfree 0\nswept 1 0\n0 runfin -> ran 7\n0 end\ndone 15\n",
        ),
    ] {
        assert_replay(&rt, rt.alloc(), input.as_bytes(), 0, journal, "")?;
    }
    Ok(())
}

#[test]
fn an_object_that_is_pinned_or_stays_keeps_its_finalizer_until_it_dies(
    rt: HostRuntime,
) -> Result<(), Fail> {
    for (input, journal) in [
        (
            "lispheap 1\nheap 2\nthread\ncons s0 b1 b1\nfinalize s0 7\ngc 0\nfix s0 0\ngc 0\nrunfin\nend\n",
            "0 open cons 0 1\n0 cons s0 b1 b1 -> #0 @0\n0 finalize s0 7 -> ok\n0 gc 0 -> ok\n0 collect 0\npass 0 0\npin #0 @0\nswept 0 1\n0 fix s0 0 -> ok\n0 gc 0 -> ok\n0 collect 0\npass 0 1\nqueue 7\nfree 0\nswept 1 0\n0 runfin -> ran 7\n0 end\ndone 10\n",
        ),
        (
            "lispheap 1\nheap 1\nthread\ncons b0 b1 b1\nfinalize b0 7\ngc 0\nnil b0\ngc 0\nrunfin\nend\n",
            "0 open cons 0 1\n0 cons b0 b1 b1 -> #0 @0\n0 finalize b0 7 -> ok\n0 gc 0 -> ok\n0 collect 0\npass 0 0\nstay #0 @0\nswept 0 1\n0 nil b0 -> ok\n0 gc 0 -> ok\n0 collect 0\npass 0 1\nqueue 7\nfree 0\nswept 1 0\n0 runfin -> ran 7\n0 end\ndone 10\n",
        ),
    ] {
        assert_replay(&rt, rt.alloc(), input.as_bytes(), 0, journal, "")?;
    }
    Ok(())
}

#[test]
fn an_object_to_which_another_refers_is_finalized_with_it(rt: HostRuntime) -> Result<(), Fail> {
    for (input, journal) in [
        (
            "lispheap 1\nheap 2\nthread\ncons b0 b1 b1\ncons b2 b0 b0\nfinalize b2 1\nfinalize b0 2\nnil b0\ngc 0\nnil b2\ngc 0\nrunfin\nend\n",
            "0 open cons 0 1\n0 cons b0 b1 b1 -> #0 @0\n0 cons b2 b0 b0 -> #1 @2\n0 finalize b2 1 -> ok\n0 finalize b0 2 -> ok\n0 nil b0 -> ok\n0 gc 0 -> ok\n0 collect 0\npass 0 0\nmove #1 @2 @512\nmove #0 @0 @514\nfree 0\nswept 0 2\n0 nil b2 -> ok\n0 gc 0 -> ok\n0 collect 0\npass 0 1\nqueue 1\nqueue 2\nfree 1\nswept 2 0\n0 runfin -> ran 1 2\n0 end\ndone 13\n",
        ),
        (
            "lispheap 1\nheap 2\nthread\ncons b0 b1 b1\nfinalize b0 4294967295\nfinalize b0 4294967295\nnil b0\ngc 0\nrunfin\nend\n",
            "0 open cons 0 1\n0 cons b0 b1 b1 -> #0 @0\n0 finalize b0 4294967295 -> ok\n0 finalize b0 4294967295 -> ok\n0 nil b0 -> ok\n0 gc 0 -> ok\n0 collect 0\npass 0 0\nqueue 4294967295\nqueue 4294967295\nfree 0\nswept 1 0\n0 runfin -> ran 4294967295 4294967295\n0 end\ndone 9\n",
        ),
    ] {
        assert_replay(&rt, rt.alloc(), input.as_bytes(), 0, journal, "")?;
    }
    Ok(())
}

#[test]
fn what_is_no_reference_has_no_finalizer(rt: HostRuntime) -> Result<(), Fail> {
    for (input, journal) in [(
        "lispheap 1\nheap 1\nthread\nfix s0 5\nfinalize s0 1\ncancel s0\nnil b0\nfinalize b0 1\nrunfin\nend\n",
        "0 fix s0 5 -> ok\n0 finalize s0 1 -> !type\n0 cancel s0 -> !type\n0 nil b0 -> ok\n0 finalize b0 1 -> !type\n0 runfin -> none\n0 end\ndone 7\n",
    )] {
        assert_replay(&rt, rt.alloc(), input.as_bytes(), 0, journal, "")?;
    }
    Ok(())
}
