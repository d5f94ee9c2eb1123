//! Headers, sizes and page types.

ghost use Rattle.std.specs.Prelude.{◌≡◌, ◌≢◌, ◌≤◌, ◌<◌, ◌^◌, ℕ, IfSome, IsNone};
ghost use Rattle.heap_terms.specs.declared.kinds.Kind.{Kind};
ghost use Rattle.heap_terms.specs.declared.limits.TheConstants.{MOST_ELEMENTS};
ghost use Rattle.heap_terms.specs.Layout.{header_of, kind_byte_of, page_type_of, size_of as words_of};
ghost use Rattle.lisp_words.specs.Tagged.{IsHeader};

use heap_terms::{Kind, PageType};

/// The low byte of the header of a kind. The bytes are this project's own.
fn kind_byte(kind: Kind) -> u64
    ensures { result ≡ kind_byte_of kind }
{
    match kind {
        Kind::Cons => 0,
        Kind::Vector => 0x21,
        Kind::Words => 0x25,
        Kind::Instance => 0x29,
        Kind::Weak => 0x2d,
        Kind::Table => 0x31,
        Kind::Closure => 0x35,
    }
}

/// The header word of an object with n words of payload, of every kind but a cons.
pub fn header(kind: Kind, n: u32) -> u64
    requires { kind ≢ Kind.Cons }
    ensures { result ≡ header_of kind n }
{
    u64::from(n) * 256 + kind_byte(kind)
}

/// The kind of a header's low byte.
fn kind_of_byte(byte: u64) -> Option<Kind>
    ensures kind { IfSome result (λ kind. (byte ≡ kind_byte_of kind) × (kind ≢ Kind.Cons)) }
    ensures none { IsNone result → (kind : Kind) → kind ≢ Kind.Cons → byte ≡ kind_byte_of kind → ⊥ }
{
    match byte {
        0x21 => Some(Kind::Vector),
        0x25 => Some(Kind::Words),
        0x29 => Some(Kind::Instance),
        0x2d => Some(Kind::Weak),
        0x31 => Some(Kind::Table),
        0x35 => Some(Kind::Closure),
        _ => None,
    }
}

/// The kind and the words of payload of a header; `None` exactly where no kind of the table and no
/// n below 2^32 gives this word.
pub fn read_header(word: u64) -> Option<(Kind, u32)>
    ensures header { IfSome result (λ found. IsHeader word found.0 found.1) }
    ensures only { (kind : Kind) (n : ℕ) → IsHeader word kind n → result ≡ Some (kind, n) }
    ensures none { IsNone result → (kind : Kind) (n : ℕ) → IsHeader word kind n → ⊥ }
{
    let n = word / 256;
    if n > 0xffff_ffff {
        return None;
    }
    let kind = kind_of_byte(word % 256)?;
    Some((kind, n as u32))
}

/// How many words an object with n words of payload takes, n at most 65,535: 2 for a cons, else
/// the payload and its header, rounded up to an even number. The sizes are this project's own.
pub fn size_of(kind: Kind, n: u32) -> u32
    requires { n ≤ MOST_ELEMENTS }
    ensures { result ≡ words_of kind n }
{
    match kind {
        Kind::Cons => 2,
        _ => (n + 2) / 2 * 2,
    }
}

/// The type of the pages on which objects of a kind lie.
pub fn page_type(kind: Kind) -> PageType
    ensures { result ≡ page_type_of kind }
{
    match kind {
        Kind::Cons => PageType::Cons,
        Kind::Words => PageType::Unboxed,
        Kind::Vector | Kind::Instance | Kind::Closure | Kind::Weak | Kind::Table => PageType::Boxed,
    }
}
