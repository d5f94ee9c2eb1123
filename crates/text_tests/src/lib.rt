//! What `script_text` and `journal_text` do, tried by texts. The tests stand in a crate of their own, so that
//! neither crate is proved twice.
#![tactic(auto)]

#[cfg(test)]
mod journals;
#[cfg(test)]
mod scripts;
