//! How far a pass has scanned, and the scan of all that it moves. The pins and the list of moves are
//! the queue: an object is scanned at its place in them, and what that moves comes behind it.

ghost use Rattle.std.specs.Prelude.{◌≡◌, length};
ghost use Rattle.heap_terms.specs.Heap.{NamedHeap};
ghost use Rattle.copy_space.specs.Notes.{SameButMoves};
ghost use Rattle.copy_space.specs.State.{state};
ghost use Rattle.scavenge.specs.Fields.{IsSameCopier};
ghost use Rattle.scavenge.specs.Noting.{Notes};
ghost use Rattle.scavenge.specs.Scanning.{CanScan, Scans, AreScanned, IsAllScanned, AllOfGenerationScanned};

use crate::objects::scan_object;
use copy_space::Copier;
use pin_set::PinSet;

/// Of the pinned objects and of the moves of a pass, in their order, those below these numbers are
/// scanned.
#[derive(Clone, Copy, Debug, PartialEq, Eq)]
pub struct Scanned {
    /// So many pinned objects are scanned.
    pub pins: u32,
    /// So many moved objects and stays are scanned.
    pub moves: u32,
}

/// Scans the pinned objects that are not scanned yet.
fn scan_pins(copier: &mut Copier, weak: &mut PinSet, done: Scanned) -> Scanned
    ghost a: { NamedHeap }
    requires { CanScan a (state copier.old) weak.old done }
    ensures scans { Scans a (state copier.old) (state copier.new) }
    ensures scanned { AreScanned a (state copier.new) weak.new.listed result }
    ensures noting { Notes a (state copier.new) weak.old weak.new }
    ensures pins { result.pins ≡ length (state copier.new).pins }
    ensures same { IsSameCopier copier.old copier.new }
{
    for i in done.pins..copier.pins().len() {
        let index = copier.pins().at(i);
        scan_object(copier, weak, index);
    }
    Scanned {
        pins: copier.pins().len(),
        ..done
    }
}

/// Scans the moved objects and the stays that are not scanned yet, and what that places.
fn scan_moves(copier: &mut Copier, weak: &mut PinSet, done: Scanned) -> Scanned
    ghost a: { NamedHeap }
    requires { CanScan a (state copier.old) weak.old done }
    ensures scans { Scans a (state copier.old) (state copier.new) }
    ensures scanned { AreScanned a (state copier.new) weak.new.listed result }
    ensures noting { Notes a (state copier.new) weak.old weak.new }
    ensures pins { result.pins ≡ done.pins }
    ensures moves { result.moves ≡ length (state copier.new).moves }
    ensures same { IsSameCopier copier.old copier.new }
{
    let mut moves = done.moves;
    while (moves as usize) < copier.notes().moves.len() {
        let index = copier.notes().moves[moves as usize].new;
        scan_object(copier, weak, index);
        moves += 1;
    }
    Scanned { moves, ..done }
}

/// Scans every pinned, moved and staying object that is not scanned yet, and what that places, until
/// none is left. It puts the start of each weak pointer and table among them into `weak`. It takes no
/// memory.
pub fn scavenge_all(copier: &mut Copier, weak: &mut PinSet, done: Scanned) -> Scanned
    ghost a: { NamedHeap }
    requires { CanScan a (state copier.old) weak.old done }
    ensures scans { Scans a (state copier.old) (state copier.new) }
    ensures all { AllOfGenerationScanned a (state copier.new) weak.new.listed }
    ensures scanned { AreScanned a (state copier.new) weak.new.listed result }
    ensures noting { Notes a (state copier.new) weak.old weak.new }
    ensures whole { IsAllScanned (state copier.new) result }
    ensures notes { SameButMoves copier.old.notes.now copier.new.notes.now }
    ensures same_space { copier.new.space.ghost_name ≡ copier.old.space.ghost_name }
    ensures same_pages { copier.new.pages.ghost_name ≡ copier.old.pages.ghost_name }
    ensures same_marks { copier.new.marks.ghost_name ≡ copier.old.marks.ghost_name }
    ensures same_notes { copier.new.notes.ghost_name ≡ copier.old.notes.ghost_name }
{
    let done = scan_pins(copier, weak, done);
    scan_moves(copier, weak, done)
}
