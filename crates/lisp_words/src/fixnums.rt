//! Fixnums: an integer n is the word 2n modulo 2^64, so bit 0 is clear. This is the project's own.

ghost use Rattle.std.specs.Prelude.{◌≡◌, ℤ, ◌%◌, ◌↔◌, ◌≢◌, IsNone, IfSome};
ghost use Rattle.heap_terms.specs.Layout.{fixnum_word};
ghost use Rattle.heap_terms.specs.Valid.{IsFixnum};

/// The least fixnum, -2^62.
const LEAST: i64 = -0x4000_0000_0000_0000;

/// The greatest fixnum, 2^62 - 1.
const MOST: i64 = 0x3fff_ffff_ffff_ffff;

/// The word of a fixnum, from -2^62 to 2^62 - 1; `None` exactly where n is out of that range.
pub fn fixnum(n: i64) -> Option<u64>
    ensures word { IfSome result (λ word. (word ≡ fixnum_word n) × IsFixnum n) }
    ensures none { IsNone result → IsFixnum n → ⊥ }
{
    if n < LEAST || n > MOST {
        return None;
    }
    let twice = 2 * n.unsigned_abs();
    if n < 0 {
        Some(twice.wrapping_neg())
    } else {
        Some(twice)
    }
}

/// The fixnum of a word; `None` exactly where bit 0 is set.
pub fn read_fixnum(word: u64) -> Option<i64>
    ensures fixnum { IfSome result (λ n. (word ≡ fixnum_word n) × IsFixnum n) }
    ensures only { (n : ℤ) → IsFixnum n → word ≡ fixnum_word n → result ≡ Some n }
    ensures none { IsNone result ↔ (word % 2 ≡ 1) }
{
    if word % 2 == 1 {
        return None;
    }
    let half = word / 2;
    if half < 0x4000_0000_0000_0000 {
        Some(half as i64)
    } else {
        Some(-((0x7fff_ffff_ffff_ffff - half) as i64) - 1)
    }
}
