//! The word machine as functions: how threads agree to stop for a collection.
//!
//! There is one word for the turn to collect, and one word for each thread. A thread does one step
//! at a time; a step reads one word, changes at most that one, and has an answer. The sections are
//! after SBCL's pseudo-atomic sections; that a stop waits for the end of a section, the bits, the
//! steps and the phases, which `heap_terms` has, are this project's own.
#![tactic(auto)]

ghost use Rattle.std.specs.Prelude.{◌≡◌, ◌≤◌, ◌<◌, ◌^◌, ◌∷◌, length, replicate, suc, IfOk, MatchOption};
ghost use Rattle.heap_terms.specs.WordMachine.{place_of, becomes, answer, MayStep, words_after, answer_at};

pub mod laws;
#[cfg(test)]
mod tests;

use heap_terms::{Memory, Seq};
pub use heap_terms::{Phase, StepAnswer, WordStep};
use std::alloc::Global;

/// The bit of a thread that is inside a section.
pub const INSIDE: u64 = 1;

/// The bit of a thread to which a stop was posted.
pub const STOP: u64 = 2;

/// The bit of a thread that is parked.
pub const PARKED: u64 = 4;

/// The words of the threads, by the number of the thread.
pub type Words = Seq<u64>;

/// The turn to collect and the words of the threads.
///
/// The turn is 0 where no thread holds it, and `t + 1` where thread `t` does.
#[derive(Debug, PartialEq, Drop)]
pub struct StopState {
    /// Who holds the turn: 0 or `t + 1`.
    pub turn: u64,
    /// The word of each thread.
    pub words: Words,
}

/// The words at the start, a word for each of the threads.
fn parked_words(alloc: Global, threads: u32) -> Result<Words, Memory>
    ensures { IfOk result (λ words. words ≡ replicate threads 4) }
{
    match vec![in alloc; PARKED; threads as usize] {
        Ok(words) => Ok(Seq::from_vec(words)),
        Err(_) => Err(Memory),
    }
}

impl StopState {
    /// The state in which each of the threads is parked and nobody holds the turn.
    ///
    /// Refuses only for want of memory.
    pub fn new(alloc: Global, threads: u32) -> Result<StopState, Memory>
        ensures turn { IfOk result (λ state. state.turn ≡ 0) }
        ensures words { IfOk result (λ state. state.words ≡ replicate threads 4) }
    {
        let words = parked_words(alloc, threads)?;
        Ok(StopState { turn: 0, words })
    }
}

/// The thread whose word the step reads and changes, or `None` for the turn.
#[inline(always)]
fn whose(thread: u32, step: WordStep) -> Option<u32>
    ensures { MatchOption result (place_of thread step ≡ 0) (λ u. place_of thread step ≡ suc u) }
{
    match step {
        WordStep::Claim => None,
        WordStep::Return => None,
        WordStep::Post(other) => Some(other),
        WordStep::Look(other) => Some(other),
        WordStep::Release(other) => Some(other),
        WordStep::Resume => Some(thread),
        WordStep::Enter => Some(thread),
        WordStep::Leave => Some(thread),
        WordStep::Park => Some(thread),
    }
}

/// The word after the step.
#[inline(always)]
fn changed(thread: u32, step: WordStep, word: u64) -> u64
    ensures { result ≡ becomes thread step word }
{
    match step {
        WordStep::Resume => if word == PARKED { 0 } else { word },
        WordStep::Enter => if word == 0 { INSIDE } else { word },
        WordStep::Leave => word & !INSIDE,
        WordStep::Park => word | PARKED,
        WordStep::Claim => if word == 0 { thread as u64 + 1 } else { word },
        WordStep::Post(_) => word | STOP,
        WordStep::Look(_) => word,
        WordStep::Release(_) => word & !STOP,
        WordStep::Return => 0,
    }
}

/// The answer of the step to the word that it found.
#[inline(always)]
fn answered(step: WordStep, word: u64) -> StepAnswer
    requires { step ≡ WordStep.Claim → word ≤ 2 ^ 32 }
    ensures { result ≡ answer step word }
{
    let went = match step {
        WordStep::Resume => word == PARKED,
        WordStep::Enter => word == 0,
        WordStep::Leave => word & STOP == 0,
        WordStep::Claim => word == 0,
        WordStep::Post(_) => word & INSIDE == 0,
        WordStep::Look(_) => word & PARKED != 0,
        WordStep::Park => true,
        WordStep::Release(_) => true,
        WordStep::Return => true,
    };
    if went {
        return StepAnswer::Went;
    }
    match step {
        WordStep::Claim => StepAnswer::Taken((word - 1) as u32),
        WordStep::Post(_) => StepAnswer::Inside,
        WordStep::Enter => StepAnswer::StopFound,
        WordStep::Leave => StepAnswer::StopFound,
        _ => StepAnswer::NotYet,
    }
}

/// Does one step of a thread, and tells what it found.
///
/// The step reads one word and changes no other. It takes no memory. Resume and look answer
/// `NotYet` where the thread has to wait, enter and leave answer `StopFound` where a stop stands in
/// the thread's own word, claim answers `Taken` of the holder where the turn is not free, post
/// answers `Inside` where the other thread is inside a section, and each step else answers `Went`.
#[inline(always)]
pub fn word_step(state: &mut StopState, thread: u32, step: WordStep) -> StepAnswer
    requires thread { thread < length state.old.words }
    requires turn { state.old.turn ≤ 2 ^ 32 }
    requires may { MayStep thread step state.old.turn state.old.words }
    ensures words { (state.new.turn ∷ state.new.words) ≡ words_after thread step (state.old.turn ∷ state.old.words) }
    ensures answer { result ≡ answer_at thread step (state.old.turn ∷ state.old.words) }
{
    match whose(thread, step) {
        None => {
            let found = state.turn;
            state.turn = changed(thread, step, found);
            answered(step, found)
        }
        Some(owner) => {
            let found = state.words.at(owner as usize);
            state
                .words
                .set(owner as usize, changed(thread, step, found));
            answered(step, found)
        }
    }
}
