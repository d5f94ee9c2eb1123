//! Scanning objects: by the first word of an object its fields are found.

ghost use Rattle.std.specs.Prelude.{◌≡◌, ◌%◌, ℕ};
ghost use Rattle.heap_terms.specs.Heap.{NamedHeap};
ghost use Rattle.heap_terms.specs.declared.kinds.Kind.{Kind};
ghost use Rattle.lisp_words.specs.Tagged.{IsHeader};
ghost use Rattle.copy_space.specs.State.{state};
ghost use Rattle.scavenge.specs.Fields.{CanScanObject, CanScanHeaded, IsObjectScanned, IsSameCopier, fields_behind};
ghost use Rattle.scavenge.specs.Noting.{CanNote, Notes};
ghost use Rattle.scavenge.specs.Scanning.{Scans};

use crate::fields::{scan_field, scan_fields};
use crate::noting::{is_weak, note};
use copy_space::Copier;
use heap_terms::Kind;
use lisp_words::read_header;
use pin_set::PinSet;

/// How many fields stand behind the header of a kind with n words of payload. Raw words are none, nor
/// is what a weak pointer or a table holds: these go by rules of their own.
fn fields_of(kind: Kind, n: u32) -> u32
    ensures { result ≡ fields_behind kind n }
{
    match kind {
        Kind::Vector | Kind::Instance | Kind::Closure => n,
        Kind::Cons | Kind::Words | Kind::Weak | Kind::Table => 0,
    }
}

/// How many fields stand behind a header.
fn field_count(header: u64) -> u32
    ensures { (kind : Kind) (n : ℕ) → IsHeader header kind n → result ≡ fields_behind kind n }
{
    match read_header(header) {
        Some((kind, n)) => fields_of(kind, n),
        None => 0,
    }
}

/// Scans the object with a header at an index, and notes it if it is a weak pointer or a table.
#[inline(never)]
fn scan_headed(copier: &mut Copier, weak: &mut PinSet, index: u32)
    ghost a: { NamedHeap }
    requires can { CanScanHeaded a (state copier.old) index }
    requires note { CanNote a (state copier.old) weak.old }
    ensures scans { Scans a (state copier.old) (state copier.new) }
    ensures scanned { IsObjectScanned a (state copier.old) (state copier.new) weak.new.listed index }
    ensures noting { Notes a (state copier.new) weak.old weak.new }
    ensures same { IsSameCopier copier.old copier.new }
{
    let header = copier.space().read(index);
    if is_weak(header) {
        note(weak, index);
        return;
    }
    let count = field_count(header);
    scan_fields(copier, index + 1, count);
}

/// Scans the object at an index, and notes it if it is a weak pointer or a table. No value of a cons
/// has a word that is 1 modulo 4; each header has.
#[inline(always)]
pub(crate) fn scan_object(copier: &mut Copier, weak: &mut PinSet, index: u32)
    ghost a: { NamedHeap }
    requires can { CanScanObject a (state copier.old) index }
    requires note { CanNote a (state copier.old) weak.old }
    ensures scans { Scans a (state copier.old) (state copier.new) }
    ensures scanned { IsObjectScanned a (state copier.old) (state copier.new) weak.new.listed index }
    ensures noting { Notes a (state copier.new) weak.old weak.new }
    ensures same { IsSameCopier copier.old copier.new }
{
    if copier.space().read(index) % 4 == 1 {
        scan_headed(copier, weak, index);
    } else {
        scan_field(copier, index);
        scan_field(copier, index + 1);
    }
}
