//! What a walk finds.

ghost use Rattle.std.specs.Prelude.{◌≡◌, ◌<◌, ℕ};
ghost use Rattle.heap_terms.specs.LaidOut.{BeginsWith};
ghost use Rattle.heap_terms.specs.declared.kinds.Kind.{Kind};
ghost use Rattle.heap_terms.specs.declared.limits.TheConstants.{MOST_WORDS};
ghost use Rattle.object_walk.specs.Walks.{found_at, IsFirstWord};

use heap_terms::Kind;
use lisp_words::{read_header, size_of};

/// An object that a walk found.
#[derive(Clone, Copy, Debug, PartialEq, Eq)]
pub struct Found {
    /// The index of its first word.
    pub index: u32,
    /// Its kind.
    pub kind: Kind,
    /// How many words of payload it has; 2 for a cons.
    pub n: u32,
    /// How many words it takes, an even number.
    pub size: u32,
}

/// The object of which this is the first word. A word that is no header is the first value of a
/// cons, and no value of a cons is 1 modulo 4, as headers are.
#[inline(always)]
pub(crate) fn object_at(index: u32, word: u64) -> Found
    requires begins { IsFirstWord word }
    requires below { index < MOST_WORDS }
    ensures { (kind : Kind) (n : ℕ) → BeginsWith kind n word → result ≡ found_at (record { index = index; kind = kind; n = n }) }
{
    if word % 4 != 1 {
        return Found {
            index,
            kind: Kind::Cons,
            n: 2,
            size: 2,
        };
    }
    headed_at(index, word)
}

/// The same, read off a header.
fn headed_at(index: u32, word: u64) -> Found
    requires begins { IsFirstWord word }
    requires below { index < MOST_WORDS }
    ensures { (kind : Kind) (n : ℕ) → BeginsWith kind n word → result ≡ found_at (record { index = index; kind = kind; n = n }) }
{
    let (kind, n) = read_header(word).unwrap_or((Kind::Cons, 2));
    Found {
        index,
        kind,
        n,
        size: size_of(kind, n),
    }
}
