//! Noting weak pointers and tables as they are scanned: what they keep hangs on what else is live.

ghost use Rattle.std.specs.Prelude.{◌≡◌, ◌⊎◌, ℕ, ◌<◌, ◌-◌, ◌^◌, length, true, nat_eq};
ghost use Rattle.std.specs.List.{list_any};
ghost use Rattle.heap_terms.specs.declared.kinds.Kind.{Kind};
ghost use Rattle.indexmap.specs.IndexSet.{insert_key};
ghost use Rattle.lisp_words.specs.Tagged.{IsHeader};
ghost use Rattle.scavenge.specs.Fields.{is_weak_kind};

use heap_terms::Kind;
use lisp_words::read_header;
use pin_set::PinSet;

/// Whether a header is that of a weak pointer or a table.
#[inline(always)]
pub(crate) fn is_weak(header: u64) -> bool
    ensures { (kind : Kind) (n : ℕ) → IsHeader header kind n → result ≡ is_weak_kind kind }
{
    match read_header(header) {
        Some((kind, _)) => matches!(kind, Kind::Weak | Kind::Table),
        None => false,
    }
}

/// Notes a start, last if it is not noted yet. There is room for it.
#[inline(never)]
pub(crate) fn note(weak: &mut PinSet, start: u32)
    requires room { (list_any (nat_eq start) weak.old.listed ≡ true) ⊎ (length weak.old.listed < weak.old.most) }
    requires small { length weak.old.listed < 2 ^ 32 - 1 }
    ensures listed { weak.new.listed ≡ insert_key nat_eq weak.old.listed start }
    ensures most { weak.new.most ≡ weak.old.most }
{
    weak.insert(start).unwrap();
}
