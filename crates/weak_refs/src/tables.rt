//! Where a table keeps what, in words behind its first.

ghost use Rattle.std.specs.Prelude.{◌≡◌, length};
ghost use Rattle.heap_terms.specs.Heap.{NamedHeap};
ghost use Rattle.copy_space.specs.State.{state};
ghost use Rattle.weak_refs.specs.Tables.{CanReadTable, IsTableNow};

use copy_space::Copier;

/// Where a table's weakness stands.
pub(crate) const WEAKNESS: u32 = 1;

/// Where a table's number of pairs stands.
pub(crate) const COUNT: u32 = 3;

/// Where its first pair stands: the key, and behind it the value.
pub(crate) const PAIRS: u32 = 4;

/// How many pairs the table at a start has.
#[inline(always)]
pub(crate) fn pair_count(copier: &Copier, start: u32) -> u32
    ghost a: { NamedHeap }
    requires { CanReadTable a (state copier.now) start }
    ensures { (q : IsTableNow a (state copier.now) start) → result ≡ length q.pairs }
{
    // The word of a fixnum is twice it.
    (copier.space().read(start + COUNT) / 2) as u32
}
