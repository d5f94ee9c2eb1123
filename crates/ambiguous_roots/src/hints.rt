//! To which double words of a space ambiguous words point.

ghost use Rattle.std.specs.Prelude.{◌≡◌, ◌⊎◌, ℕ, ◌+◌, ◌*◌, ◌/◌, ◌<◌, ◌≤◌, length, replicate, slice_set, IfOk, false};
ghost use Rattle.heap_terms.specs.declared.limits.TheConstants.{MOST_PAGES};
ghost use Rattle.lisp_words.specs.declared.pointers.Lowtag.{Lowtag};
ghost use Rattle.lisp_words.specs.Tagged.{IsTagged};
ghost use Rattle.ambiguous_roots.specs.Hinted.{hint_of, IsPointedAt};

use heap_terms::{Memory, PAGE_WORDS};
use lisp_words::untag;
use std::alloc::Global;
use std::marker::Model;

/// How many double words a page has.
const PAGE_DOUBLES: usize = PAGE_WORDS as usize / 2;

/// A flag for each double word of a space, which says whether some ambiguous word may refer to an
/// object that begins there. Contracts see the list of the flags.
#[derive(Drop)]
pub struct Hints {
    hints: Vec<bool>,
}

impl Model for Hints {
    ghost use Rattle.std.specs.Prelude.{List, Bool};

    ghost Value = { List Bool };

    ghost view = { λ h. h.hints.items };
}

impl Hints {
    /// The flags of a space of so many pages, at most 1,024, none of them set. It is refused only for
    /// want of memory.
    pub fn new(alloc: Global, pages: u32) -> Result<Hints, Memory>
        requires { pages ≤ MOST_PAGES }
        ensures { IfOk result (λ hints. hints ≡ replicate (256 * pages) false) }
    {
        let mut hints = Vec::new(alloc);
        match hints.resize((PAGE_WORDS / 2 * pages) as usize, false) {
            Ok(()) => Ok(Hints { hints }),
            Err(_) => Err(Memory),
        }
    }

    /// The flag of the double word of an index.
    #[inline(always)]
    pub(crate) fn at(&self, index: u32) -> bool
        requires { index / 2 < length self.now }
        ensures { result ≡ hint_of self.now (index / 2) }
    {
        self.hints[(index / 2) as usize]
    }

    /// Whether some flag is set for a page.
    pub(crate) fn is_any_on(&self, page: u32) -> bool
        requires { 256 * page + 256 ≤ length self.now }
        ensures { result ≡ false → (k : ℕ) → 256 * page ≤ k → k < 256 * page + 256 → hint_of self.now k ≡ false }
    {
        let from = PAGE_DOUBLES * page as usize;
        are_any_set(&self.hints[from..from + PAGE_DOUBLES])
    }

    /// Gives the double word to which a word points the flag `hint`. Every other flag stays, and
    /// where the word points to none of the space all do.
    fn set_for(&mut self, word: u64, hint: bool)
        ensures set { (k : ℕ) (tag : Lowtag) → IsTagged word (2 * k) tag → k < length self.old → hint_of self.new k ≡ hint }
        ensures others { (k : ℕ) → (hint_of self.new k ≡ hint_of self.old k) ⊎ ((tag : Lowtag) × IsTagged word (2 * k) tag) }
        ensures long { length self.new ≡ length self.old }
    {
        if let Some((index, _)) = untag(word) {
            let double = (index / 2) as usize;
            if double < self.hints.len() {
                self.hints[double] = hint;
            }
        }
    }

    /// Gives each double word to which one of these words points the flag `hint`. Every other flag
    /// stays.
    pub(crate) fn set_all(&mut self, words: &[u64], hint: bool)
        ensures set { (k : ℕ) → IsPointedAt words.now (2 * k) → k < length self.old → hint_of self.new k ≡ hint }
        ensures others { (k : ℕ) → (hint_of self.new k ≡ hint_of self.old k) ⊎ IsPointedAt words.now (2 * k) }
        ensures long { length self.new ≡ length self.old }
    {
        for word in words {
            self.set_for(*word, hint);
        }
    }
}

/// Whether one of some flags is set. It looks at each, without a branch, so that many are looked at with
/// one instruction.
fn are_any_set(flags: &[bool]) -> bool
    ensures { result ≡ false → (k : ℕ) → k < length flags.now → hint_of flags.now k ≡ false }
{
    let mut any = false;
    for flag in flags {
        any |= *flag;
    }
    any
}
