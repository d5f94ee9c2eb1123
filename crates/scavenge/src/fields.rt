//! Scanning fields: each is evacuated, and gets the word that its value has after the pass.

ghost use Rattle.std.specs.Prelude.{◌≡◌};
ghost use Rattle.heap_terms.specs.Heap.{NamedHeap};
ghost use Rattle.copy_space.specs.State.{state};
ghost use Rattle.scavenge.specs.Fields.{CanScanFields, AreNew, IsSameCopier};
ghost use Rattle.scavenge.specs.Scanning.{Scans};

use copy_space::Copier;

/// Scans the field at an index.
#[inline(always)]
pub(crate) fn scan_field(copier: &mut Copier, index: u32)
    ghost a: { NamedHeap }
    requires { CanScanFields a (state copier.old) index 1 }
    ensures scans { Scans a (state copier.old) (state copier.new) }
    ensures new { AreNew a (state copier.old) (state copier.new) index 1 }
    ensures same { IsSameCopier copier.old copier.new }
{
    let word = copier.space().read(index);
    let now = copier.evacuate(word);
    if now != word {
        copier.write(index, now);
    }
}

/// Scans so many fields from an index on. A caller may scan an object in parts.
pub(crate) fn scan_fields(copier: &mut Copier, from: u32, count: u32)
    ghost a: { NamedHeap }
    requires { CanScanFields a (state copier.old) from count }
    ensures scans { Scans a (state copier.old) (state copier.new) }
    ensures new { AreNew a (state copier.old) (state copier.new) from count }
    ensures same { IsSameCopier copier.old copier.new }
{
    for index in from..from + count {
        scan_field(copier, index);
    }
}
