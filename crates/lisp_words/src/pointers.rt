//! References: a byte address of a double word plus a lowtag in the low four bits, as in SBCL.

ghost use Rattle.std.specs.Prelude.{◌≡◌, ◌+◌, ◌*◌, ◌<◌, ℕ, IfSome, IsNone};
ghost use Rattle.heap_terms.specs.Layout.{reference_word, lowtag_of};
ghost use Rattle.lisp_words.specs.declared.pointers.Lowtag.{Lowtag};
ghost use Rattle.lisp_words.specs.Tagged.{IsTagged, tag_bits};

use heap_terms::{Kind, MOST_WORDS};

/// The byte address of the word with index 0.
const BASE: u64 = 0x10_0000_0000;

/// The low four bits of a reference, which say a little of what it refers to.
#[derive(Clone, Copy, Debug, PartialEq, Eq)]
pub enum Lowtag {
    /// 3: an instance.
    Instance,
    /// 7: a cons.
    List,
    /// 11: a closure.
    Function,
    /// 15: every other kind.
    Other,
}

/// The word of a reference to an object of a kind that starts at an index.
#[inline(always)]
pub fn tag(index: u32, kind: Kind) -> u64
    ensures { result ≡ reference_word index kind }
{
    BASE + 8 * u64::from(index) + bits(kind)
}

/// The low four bits of a reference to an object of a kind.
fn bits(kind: Kind) -> u64
    ensures { result ≡ lowtag_of kind }
{
    match kind {
        Kind::Cons => 7,
        Kind::Instance => 3,
        Kind::Closure => 11,
        Kind::Vector | Kind::Words | Kind::Weak | Kind::Table => 15,
    }
}

/// The index and the lowtag of a reference; `None` exactly where the word is no address of an even
/// index below 524,288 plus one of the four lowtags.
#[inline(always)]
pub fn untag(word: u64) -> Option<(u32, Lowtag)>
    ensures tagged { IfSome result (λ found. IsTagged word found.0 found.1) }
    ensures only { (index : ℕ) (tag : Lowtag) → IsTagged word index tag → result ≡ Some (index, tag) }
    ensures none { IsNone result → (index : ℕ) (tag : Lowtag) → IsTagged word index tag → ⊥ }
{
    if word % 4 != 3 || word < BASE || word >= BASE + 8 * u64::from(MOST_WORDS) {
        return None;
    }
    let index = (word - BASE) as u32 / 16 * 2;
    Some((index, lowtag_of(word / 4 % 4)))
}

/// The lowtag by its upper two bits; the lower two are set in each.
#[inline(always)]
fn lowtag_of(bits: u64) -> Lowtag
    requires { bits < 4 }
    ensures { tag_bits result ≡ 4 * bits + 3 }
{
    match bits {
        0 => Lowtag::Instance,
        1 => Lowtag::List,
        2 => Lowtag::Function,
        _ => Lowtag::Other,
    }
}
