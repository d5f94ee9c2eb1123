//! Moving the objects of one pass: where each goes, its copy, the forwarding word that it leaves,
//! and the notes of the pass. Which objects are moved, and in which order, is for the layers above.
#![tactic(auto)]

mod copier;
mod evacuating;
mod marks;
mod notes;
mod placing;
#[cfg(test)]
mod tests;

pub use copier::Copier;
pub use marks::{Mark, Marks, clear_marks};
pub use notes::{CullNote, Move, Pass, PassNotes};
pub use placing::{PagesInUse, SCRATCH_GENERATION};
