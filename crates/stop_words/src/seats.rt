//! The types that callers hold.
ghost use Rattle.std.specs.Prelude.{◌≡◌, ◌<◌, suc, true, false};
ghost use Rattle.stop_words.specs.Places.{lists_at, is_in};
ghost use Rattle.stop_words.specs.Hands.{labels, hand_at};
ghost use Rattle.stop_words.specs.Views.{SeenAll};
ghost use Rattle.stop_words.specs.declared.view.Place.TheVariants.{Holding};

use crate::rule::Rule;
use crate::view::View;
use atomic_table::{Seat, Table};
use heap_terms::Owned;
use std::alloc::Global;

/// The stop words of a number of threads, and a slot for the parcel of each.
///
/// It has no `Drop`: `close` takes the parcels out.
pub struct StopWords<P: Owned> {
    pub(crate) table: Table<Option<P>, View, u32, Rule<P>, Global>,
    pub(crate) threads: u32,
    ghost counts: { (table.shared.table_id.words ≡ suc threads) × (table.shared.table_id.slots ≡ threads) × (table.shared.key ≡ threads) × (0 < threads) },
}

/// A thread's token, with which it does its steps.
///
/// A seat that is dropped leaves its thread where it was.
#[derive(Drop)]
pub struct StopSeat<P: Owned> {
    pub(crate) seat: Seat<Option<P>, View>,
    pub(crate) thread: u32,
    // A `Gathered` is out.
    pub(crate) out: bool,
    ghost number: { seat.me.0.thread ≡ thread },
    ghost in_range: { thread < seat.table_id.slots },
    ghost idle: { (seat.me.0.posted ≡ lists_at seat.me.0.place seat.me.0.posted) × (seat.me.0.seen ≡ lists_at seat.me.0.place seat.me.0.seen) },
    ghost alone: { is_in seat.me.0.thread seat.me.0.seen ≡ false },
    ghost hand: { labels P.owner_of seat.me.1 ≡ hand_at seat.me.0.place seat.me.0.thread seat.me.0.seen out seat.table_id.slots },
    ghost gathered: { out ≡ true → (seat.me.0.place ≡ Holding) × SeenAll seat.me.0 seat.table_id.slots },
}
