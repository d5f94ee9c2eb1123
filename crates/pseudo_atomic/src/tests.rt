use crate::{Phase, StepAnswer, StopState, WordStep, word_step};
use std::test::Fail;

#[test]
fn a_new_state_has_all_threads_parked(rt: HostRuntime) -> Result<(), Fail> {
    let state = StopState::new(rt.alloc(), 3)?;
    assert!(rt; state.turn == 0 && state.words.as_slice() == [4, 4, 4].as_slice());
    Ok(())
}

#[test]
fn a_thread_stops_for_the_other(rt: HostRuntime) -> Result<(), Fail> {
    let mut state = StopState::new(rt.alloc(), 2)?;
    let resumed = word_step(&mut state, 0, WordStep::Resume);
    let other = word_step(&mut state, 1, WordStep::Resume);
    let entered = word_step(&mut state, 1, WordStep::Enter);
    let claimed = word_step(&mut state, 0, WordStep::Claim);
    assert!(rt; [resumed, other, entered, claimed] == [StepAnswer::Went; 4]);
    let posted = word_step(&mut state, 0, WordStep::Post(1));
    let early = word_step(&mut state, 0, WordStep::Look(1));
    assert!(rt; posted == StepAnswer::Inside && early == StepAnswer::NotYet);
    let left = word_step(&mut state, 1, WordStep::Leave);
    let beaten = word_step(&mut state, 1, WordStep::Claim);
    assert!(rt; left == StepAnswer::StopFound && beaten == StepAnswer::Taken(0));
    let parked = word_step(&mut state, 1, WordStep::Park);
    let seen = word_step(&mut state, 0, WordStep::Look(1));
    let waits = word_step(&mut state, 1, WordStep::Resume);
    assert!(rt;
        parked == StepAnswer::Went && seen == StepAnswer::Went && waits == StepAnswer::NotYet
    );
    assert!(rt; state.turn == 1 && state.words.as_slice() == [0, 6].as_slice());
    let released = word_step(&mut state, 0, WordStep::Release(1));
    let returned = word_step(&mut state, 0, WordStep::Return);
    assert!(rt; released == StepAnswer::Went && returned == StepAnswer::Went);
    assert!(rt; state.turn == 0 && state.words.as_slice() == [0, 4].as_slice());
    Ok(())
}

#[test]
fn phases_are_compared_with_their_numbers(rt: HostRuntime) -> Result<(), Fail> {
    assert!(rt;
        Phase::Posting { next: 1 } != Phase::Posting { next: 2 } && Phase::Ended == Phase::Ended
    );
    Ok(())
}
