//! A gate, by which a test holds threads where it likes.

use std::marker::Sync;

/// Where a worker is when it comes to the gate.
#[derive(Clone, Copy, Debug, PartialEq, Eq)]
pub enum GatePlace {
    /// Inside a section, before an event. The lock is not taken yet.
    Inside,
    /// After an event, a collection among them. The lock is free again.
    After,
}

/// What workers pass on their way. It takes no part in what they do.
pub trait Gate: Sync {
    /// A thread is at a place. It may be held there as long as the gate likes.
    fn at(&self, thread: u32, place: GatePlace);
}

/// A gate that holds nobody.
#[derive(Clone, Copy)]
pub struct OpenGate;

impl Gate for OpenGate {
    #[inline(always)]
    fn at(&self, _thread: u32, _place: GatePlace) {}
}
