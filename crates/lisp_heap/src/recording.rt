//! The record of a pass, in names, and the labels after it.

ghost use Rattle.std.specs.Prelude.{◌≡◌, true, ◌+◌, ◌/◌, ◌<◌, ◌≤◌, ◌++◌, length, map, All, IfOk, IfSome, vec_len, vec_capacity};
ghost use Rattle.copy_space.specs.declared.notes.Move.{Move};
ghost use Rattle.pass_names.specs.Named.{AreNotes, Met};
ghost use Rattle.lisp_heap.specs.AllPasses.{AreRooms};
ghost use Rattle.lisp_heap.specs.Recording.{AreWithin, CanRelabel, HasRoom, HaveLabels, labelled_by, new_place, pin_by, placing_by, recorded, relabelled, sizes_noted};

use copy_space::{Move, PassNotes};
use heap_terms::{Memory, PassRecord, PinAt, Placing, Seq};
use pass_names::{NameRoom, Weakened};
use std::alloc::Global;
use word_space::Prefilled;

/// How many entries the lists of the record of a pass have at most.
#[derive(Clone, Copy)]
pub struct RecordSizes {
    /// Moves and stays.
    pub moves: usize,
    /// Pinned objects.
    pub pins: usize,
    /// Culled pairs.
    pub culls: usize,
    /// Broken weak pointers.
    pub breaks: usize,
    /// Queued finalizers.
    pub queued: usize,
    /// Freed pages.
    pub freed: usize,
}

impl RecordSizes {
    /// The same, and as much again.
    fn doubled(self) -> RecordSizes
        ensures { AreWithin self result }
    {
        RecordSizes {
            moves: self.moves.saturating_mul(2),
            pins: self.pins.saturating_mul(2),
            culls: self.culls.saturating_mul(2),
            breaks: self.breaks.saturating_mul(2),
            queued: self.queued.saturating_mul(2),
            freed: self.freed.saturating_mul(2),
        }
    }
}

/// Room for the lists of the record of a pass, which are empty so far.
#[derive(Drop)]
pub struct RecordRoom {
    pub(crate) moves: Vec<Placing>,
    pub(crate) pins: Vec<PinAt>,
    pub(crate) weak: NameRoom,
    pub(crate) queued: Vec<u32>,
    pub(crate) freed: Vec<u32>,
}

impl RecordRoom {
    /// Room for lists of these sizes.
    pub fn reserve(alloc: Global, sizes: RecordSizes) -> Result<RecordRoom, Memory>
        ensures { IfOk result (λ room. HasRoom room sizes) }
    {
        Ok(RecordRoom {
            moves: Vec::with_capacity(alloc, sizes.moves)?,
            pins: Vec::with_capacity(alloc, sizes.pins)?,
            weak: NameRoom::reserve(alloc, sizes.culls, sizes.breaks)?,
            queued: Vec::with_capacity(alloc, sizes.queued)?,
            freed: Vec::with_capacity(alloc, sizes.freed)?,
        })
    }

    /// Whether it is as `reserve` leaves it for lists of these sizes.
    fn fits(&self, sizes: RecordSizes) -> bool
        ensures { result ≡ true → HasRoom self.now sizes }
    {
        let is_empty = self.moves.is_empty()
            && self.pins.is_empty()
            && self.queued.is_empty()
            && self.freed.is_empty();
        is_empty
            && sizes.moves <= self.moves.capacity()
            && sizes.pins <= self.pins.capacity()
            && sizes.queued <= self.queued.capacity()
            && sizes.freed <= self.freed.capacity()
            && self.weak.fits(sizes.culls, sizes.breaks)
    }
}

/// How many passes a collection has at most.
pub(crate) const MOST_PASSES: usize = 6;

/// Room for lists of these sizes: what an earlier collection left, if it is enough.
fn room_for(
    alloc: Global,
    left: Option<RecordRoom>,
    sizes: RecordSizes,
) -> Result<RecordRoom, Memory>
    ensures { IfOk result (λ room. HasRoom room sizes) }
{
    if let Some(room) = left {
        if room.fits(sizes) {
            return Ok(room);
        }
    }
    // The heap grows, and then this is enough for later collections too.
    RecordRoom::reserve(alloc, sizes.doubled())
}

/// Rooms for the records of all passes of a collection, each for lists of these sizes. It takes those
/// that earlier collections left.
pub fn reserve_rooms(
    alloc: Global,
    left: &mut Vec<RecordRoom>,
    sizes: RecordSizes,
) -> Result<Vec<RecordRoom>, Memory>
    ensures rooms { IfOk result (λ rooms. AreRooms rooms.items sizes) }
    ensures six { IfOk result (λ rooms. vec_len rooms ≡ 6) }
{
    let mut rooms = Vec::with_capacity(alloc, MOST_PASSES)?;
    for n in 0..MOST_PASSES {
        rooms.push_reserved(room_for(alloc, left.pop(), sizes)?);
    }
    Ok(rooms)
}

/// Where a move goes; a stay goes nowhere.
fn new_place(m: &Move) -> Option<u32>
    ensures { result ≡ new_place m.now }
{
    if m.new == m.old { None } else { Some(m.new) }
}

/// Adds moves with the names of their objects.
fn add_moves(moves: &[Move], labels: &Prefilled<u32>, out: &mut Vec<Placing>)
    requires labels { All (λ (m : Move). m.old / 2 < length labels.now) moves.now }
    requires room { vec_len out.old + length moves.now ≤ vec_capacity out.old }
    ensures { out.new.items ≡ out.old.items ++ map (placing_by labels.now) moves.now }
{
    for m in moves {
        out.push_reserved(Placing {
            name: labels.at((m.old / 2) as usize),
            old: m.old,
            new: new_place(m),
        });
    }
}

/// Adds pinned objects with their names.
fn add_pinned(indices: &[u32], labels: &Prefilled<u32>, out: &mut Vec<PinAt>)
    requires labels { All (λ index. index / 2 < length labels.now) indices.now }
    requires room { vec_len out.old + length indices.now ≤ vec_capacity out.old }
    ensures { out.new.items ≡ out.old.items ++ map (pin_by labels.now) indices.now }
{
    for index in indices {
        out.push_reserved(PinAt {
            name: labels.at((*index / 2) as usize),
            index: *index,
        });
    }
}

/// What the notes of a pass tell, in names, by the labels before the pass.
pub fn write_record(notes: &PassNotes, labels: &Prefilled<u32>, room: RecordRoom) -> PassRecord
    requires labels { HaveLabels labels.now notes.now }
    requires room { HasRoom room (sizes_noted notes.now) }
    ensures { (m : Met) → AreNotes m labels.now notes.now → result ≡ recorded labels.now m notes.now }
{
    let RecordRoom {
        mut moves,
        mut pins,
        weak,
        mut queued,
        mut freed,
    } = room;
    add_moves(notes.moves.as_slice(), labels, &mut moves);
    add_pinned(notes.pins.as_slice(), labels, &mut pins);
    let Weakened { culls, breaks } = weak.name(notes, labels);
    queued.extend_from_slice(notes.queued.as_slice()).unwrap();
    freed.extend_from_slice(notes.freed.as_slice()).unwrap();
    PassRecord {
        generation: notes.generation,
        target: notes.target,
        moves: Seq::from_vec(moves),
        pins: Seq::from_vec(pins),
        culls,
        breaks,
        queued: Seq::from_vec(queued),
        freed: Seq::from_vec(freed),
        dead: notes.dead,
        kept: notes.kept,
    }
}

/// Puts the name of an object at its new place, if it has one.
fn relabel_one(labels: &mut Prefilled<u32>, m: Placing)
    requires { IfSome m.new (λ index. index / 2 < length labels.old) }
    ensures { labels.new ≡ labelled_by labels.old m }
{
    if let Some(index) = m.new {
        labels.set((index / 2) as usize, m.name);
    }
}

/// Puts the name of each object that moved at its new place.
pub fn relabel(labels: &mut Prefilled<u32>, moves: &[Placing])
    requires { CanRelabel labels.old moves.now }
    ensures { labels.new ≡ relabelled labels.old moves.now }
{
    for m in moves {
        relabel_one(labels, *m);
    }
}
