//! Theorems about the types of this crate. Each is the contract of a function that does nothing.

ghost use Rattle.std.specs.Prelude.{◌≡◌, ◌↔◌, true};

use crate::{Phase, StopState};

/// Two states are equal by `==` exactly where they have the same turn and the same words.
pub fn equal_states_are_the_same()
    ensures { (a b : StopState) → (⟦<StopState as PartialEq>⟧.eq a b ≡ true) ↔ (a ≡ b) }
{}

/// Two phases are equal by `==` exactly where they are the same, their numbers with them.
pub fn equal_phases_are_the_same()
    ensures { (a b : Phase) → (⟦<Phase as PartialEq>⟧.eq a b ≡ true) ↔ (a ≡ b) }
{}
