//! What `lisp_heap` and `replay_core` do, tried by programs: turns of a World, histories by a schedule, and passes
//! over heaps made by hand. The tests stand in a crate of their own, so that neither crate is proved twice.
#![tactic(auto)]

#[cfg(test)]
mod passes;
#[cfg(test)]
mod places;
#[cfg(test)]
mod schedules;
#[cfg(test)]
mod worlds;
