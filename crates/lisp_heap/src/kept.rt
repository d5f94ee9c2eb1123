//! How many words the objects take that a pass kept.

ghost use Rattle.std.specs.Prelude.{◌≡◌, ◌≤◌, ℕ, length, All};
ghost use Rattle.std.specs.List.{sum_by};
ghost use Rattle.heap_terms.specs.declared.events.PinAt.{PinAt};
ghost use Rattle.heap_terms.specs.declared.events.Placing.{Placing};
ghost use Rattle.heap_terms.specs.declared.limits.TheConstants.{MOST_COMMANDS};
ghost use Rattle.heap_terms.specs.Heap.{NamedHeap};
ghost use Rattle.lisp_heap.specs.Kept.{HasSizeAt, IsSizeAt, KeptLie, listed_words, place_then};

use heap_terms::{Kind, PassRecord, PinAt, Placing};
use lisp_words::{read_header, size_of};
use word_space::Space;

/// How many words the object takes that begins at an index. Each header is 1 modulo 4, and no value
/// with which a cons begins is.
#[inline(always)]
fn size_at(space: &Space, index: u32) -> u32
    requires { HasSizeAt space.now index }
    ensures size { (size : ℕ) → IsSizeAt space.now index size → result ≡ size }
    ensures most { result ≤ 65536 }
{
    if space.read(index) % 4 != 1 {
        return 2;
    }
    headed_size_at(space, index)
}

/// The same of an object with a header.
#[inline(never)]
fn headed_size_at(space: &Space, index: u32) -> u32
    requires { HasSizeAt space.now index }
    ensures size { (size : ℕ) → IsSizeAt space.now index size → result ≡ size }
    ensures most { result ≤ 65536 }
{
    let (kind, n) = read_header(space.read(index)).unwrap_or((Kind::Cons, 2));
    size_of(kind, n)
}

/// The words of moved objects, where they are now.
fn moved_words(space: &Space, moves: &[Placing]) -> u64
    requires sized { All (λ (m : Placing). HasSizeAt space.now (place_then m)) moves.now }
    requires few { length moves.now ≤ MOST_COMMANDS }
    ensures sum { (f : Placing → ℕ) → All (λ (m : Placing). IsSizeAt space.now (place_then m) (f m)) moves.now → result ≡ sum_by f moves.now }
    ensures most { result ≤ 1310720000 }
{
    let mut sum = 0;
    for m in moves {
        sum += u64::from(size_at(space, m.new.unwrap_or(m.old)));
    }
    sum
}

/// The words of pinned objects.
fn pinned_words(space: &Space, pins: &[PinAt]) -> u64
    requires sized { All (λ (q : PinAt). HasSizeAt space.now q.index) pins.now }
    requires few { length pins.now ≤ MOST_COMMANDS }
    ensures sum { (f : PinAt → ℕ) → All (λ (q : PinAt). IsSizeAt space.now q.index (f q)) pins.now → result ≡ sum_by f pins.now }
    ensures most { result ≤ 1310720000 }
{
    let mut sum = 0;
    for q in pins {
        sum += u64::from(size_at(space, q.index));
    }
    sum
}

/// The words of all objects that a pass kept, by its record and the words after it. One word is read
/// of each.
pub(crate) fn kept_words(space: &Space, made: &PassRecord) -> u64
    requires { (a : NamedHeap) × KeptLie a space.now made.now }
    ensures words { (a : NamedHeap) → KeptLie a space.now made.now → result ≡ listed_words a made.now }
    ensures most { result ≤ 2621440000 }
{
    moved_words(space, made.moves.as_slice()) + pinned_words(space, made.pins.as_slice())
}
