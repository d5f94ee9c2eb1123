//! What one word hits.

ghost use Rattle.std.specs.Prelude.{◌≡◌, ℕ, ◌*◌, ◌/◌, ◌<◌, Some, length, IfSome, IsNone};
ghost use Rattle.heap_terms.specs.Heap.{NamedHeap};
ghost use Rattle.heap_terms.specs.LaidOut.{IsLaidOut, ObjectStart, StartsAt};
ghost use Rattle.heap_terms.specs.Layout.{page_words, reference_word};
ghost use Rattle.heap_terms.specs.Sound.{IsSound};
ghost use Rattle.heap_terms.specs.Stands.{WordsStand};
ghost use Rattle.lisp_words.specs.declared.pointers.Lowtag.{Lowtag};
ghost use Rattle.lisp_words.specs.Tagged.{IsTagged};
ghost use Rattle.ambiguous_roots.specs.Hits.{HitsStart, IsHitOf};

use heap_terms::PAGE_WORDS;
use lisp_words::{tag, untag};
use object_walk::start_at;
use page_table::PageTable;
use word_space::Space;

/// The start of the object that a word hits, that is, to which it is the word of a reference; `None`
/// exactly where it hits none. It walks the page to which the word points from its first word. It
/// takes no memory.
pub fn hit(word: u64, space: &Space, pages: &PageTable) -> Option<u32>
    requires paged { length space.now ≡ page_words * length pages.now }
    requires laid { (index : ℕ) (tag : Lowtag) → IsTagged word index tag → index < length space.now → IsLaidOut space.now pages.now (index / page_words) }
    ensures found { IfSome result (HitsStart space.now pages.now word) }
    ensures only { (start : ObjectStart) → StartsAt space.now pages.now start → word ≡ reference_word start.index start.kind → result ≡ Some start.index }
    ensures none { IsNone result → (start : ObjectStart) → StartsAt space.now pages.now start → word ≡ reference_word start.index start.kind → ⊥ }
    ensures heap { (a : NamedHeap) → IsSound a → WordsStand a space.now → pages.now ≡ a.pages → IsHitOf a word result }
{
    start_hit(word, space, pages)
}

/// The start of the object to which a word is the word of a reference.
fn start_hit(word: u64, space: &Space, pages: &PageTable) -> Option<u32>
    requires paged { length space.now ≡ page_words * length pages.now }
    requires laid { (index : ℕ) (tag : Lowtag) → IsTagged word index tag → index < length space.now → IsLaidOut space.now pages.now (index / page_words) }
    ensures found { IfSome result (HitsStart space.now pages.now word) }
    ensures only { (start : ObjectStart) → StartsAt space.now pages.now start → word ≡ reference_word start.index start.kind → result ≡ Some start.index }
{
    let end = PAGE_WORDS * pages.len();
    let (index, _) = untag(word)?;
    if index >= end {
        return None;
    }
    let found = start_at(space, pages, index)?;
    (tag(index, found.kind) == word).then_some(index)
}
