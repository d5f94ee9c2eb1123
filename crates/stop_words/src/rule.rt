//! The rule of the table, and the names of its steps.
ghost use Rattle.stop_words.specs.Rule.{StopRule, first_view, splitting, split_off};
ghost use Rattle.heap_terms.specs.declared.steps.WordStep.TheVariants.{Enter, Leave};
ghost use Rattle.stop_words.specs.Plays.{Walked, Resumed, ParkedIn, Claimed, Posted, Looked, Released, Returned};

use crate::view::View;
use atomic_table::{Play, Split, TableRule};
use heap_terms::Owned;
use std::marker::PhantomData;

/// The rule that holds between any two steps.
pub struct Rule<P> {
    marker: PhantomData<P>,
}

impl<P: Owned> TableRule<Option<P>, View, u32> for Rule<P> {
    ghost holds = { StopRule P.owner_of };

    ghost first = { λ threads. first_view };
}

/// A thread begins to run again, with the parcel from its slot.
pub struct Resumes<P> {
    marker: PhantomData<P>,
}

impl<P: Owned> Play<Option<P>, View> for Resumes<P> {
    ghost then = { Resumed P.owner_of };
}

/// A thread enters a section.
pub struct Enters<P> {
    marker: PhantomData<P>,
}

impl<P: Owned> Play<Option<P>, View> for Enters<P> {
    ghost then = { Walked P.owner_of Enter };
}

/// A thread leaves its section.
pub struct Leaves<P> {
    marker: PhantomData<P>,
}

impl<P: Owned> Play<Option<P>, View> for Leaves<P> {
    ghost then = { Walked P.owner_of Leave };
}

/// A thread parks and puts its parcel into its slot.
pub struct Parks<P> {
    marker: PhantomData<P>,
}

impl<P: Owned> Play<Option<P>, View> for Parks<P> {
    ghost then = { ParkedIn P.owner_of };
}

/// A thread asks for the turn to collect.
pub struct Claims<P> {
    marker: PhantomData<P>,
}

impl<P: Owned> Play<Option<P>, View> for Claims<P> {
    ghost then = { Claimed P.owner_of };
}

/// The holder of the turn posts a stop to another thread.
pub struct Posts<P> {
    marker: PhantomData<P>,
}

impl<P: Owned> Play<Option<P>, View> for Posts<P> {
    ghost then = { Posted P.owner_of };
}

/// The holder of the turn looks whether another thread has parked.
pub struct Looks<P> {
    marker: PhantomData<P>,
}

impl<P: Owned> Play<Option<P>, View> for Looks<P> {
    ghost then = { Looked P.owner_of };
}

/// The holder of the turn takes its stop to another thread back.
pub struct Releases<P> {
    marker: PhantomData<P>,
}

impl<P: Owned> Play<Option<P>, View> for Releases<P> {
    ghost then = { Released P.owner_of };
}

/// The holder gives the turn back.
pub struct Returns<P> {
    marker: PhantomData<P>,
}

impl<P: Owned> Play<Option<P>, View> for Returns<P> {
    ghost then = { Returned P.owner_of };
}

/// The first seat splits off the seat of the next number.
pub struct NextSeat;

impl Split<View> for NextSeat {
    ghost left = { splitting };

    ghost right = { split_off };
}
