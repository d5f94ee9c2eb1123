//! What one line of a journal says.

use heap_terms::{Cull, Event, PinAt, Placing};

/// What one line says. `Event` is any event but a collection.
#[derive(Drop)]
pub(crate) enum Piece {
    Event(Event),
    Collect { thread: u32, last: u8 },
    Pass { generation: u8, target: u8 },
    Move(Placing),
    Pin(PinAt),
    Cull(Cull),
    Break(u32),
    Queue(u32),
    Free(u32),
    Swept { dead: u32, kept: u32 },
    Done(u64),
}
