//! Theorems about the rule of `specs/Rule.antt`. Each is the contract of a function that does
//! nothing: that it is accepted says that the law holds, in every state that the rule allows.

ghost use Rattle.stop_words.specs.Laws.{StepsMayBeDone, StepsChangeOneWord};

use heap_terms::Owned;

/// A step that a seat may do is one that the word machine may do, on the words as they stand.
pub fn steps_may_be_done<P: Owned>()
    ensures { StepsMayBeDone P.owner_of }
{}

/// A step of a seat changes the words as the word machine does: the one word that the step met
/// becomes what the machine makes of it, and all others are as before.
pub fn steps_change_one_word<P: Owned>()
    ensures { StepsChangeOneWord P.owner_of }
{}
