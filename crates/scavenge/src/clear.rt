//! Pages of conses that need no scan, since no word on them refers to the generation that is collected.
//! Reading alone tells that, and is faster than a scan.

ghost use Rattle.std.specs.Prelude.{◌≡◌, ◌+◌, ◌*◌, ◌^◌, ◌<◌, ◌≤◌, length, true, false};
ghost use Rattle.heap_terms.specs.Heap.{entry_at};
ghost use Rattle.heap_terms.specs.Layout.{page_words};
ghost use Rattle.copy_space.specs.Pages.{is_page_of};
ghost use Rattle.copy_space.specs.State.{state};
ghost use Rattle.scavenge.specs.Clear.{has_conses, HasNoPage, LieWithin, IsReach, AreBeyond, IsElsewhere, AreElsewhere, NeedsNoScan};

use copy_space::Copier;
use heap_terms::{Entry, Kind, MOST_PAGES, PAGE_WORDS, PageType};
use lisp_words::{tag, untag};
use page_table::PageTable;
use word_space::Space;

/// Whether a page is in use and of a generation.
#[inline(always)]
fn is_of(pages: &PageTable, page: u32, generation: u8) -> bool
    ensures { result ≡ is_page_of (entry_at pages.now page) generation }
{
    if page >= pages.len() {
        return false;
    }
    match pages.entry(page) {
        Entry::Used { generation: of, .. } => of == generation,
        Entry::Free => false,
    }
}

/// Whether no page is of a generation.
pub(crate) fn has_no_page(pages: &PageTable, generation: u8) -> bool
    ensures { result ≡ true → HasNoPage pages.now generation }
{
    for page in 0..pages.used_end() {
        if is_of(pages, page, generation) {
            return false;
        }
    }
    true
}

/// Between which pages those of a generation lie.
#[derive(Clone, Copy)]
pub struct Span {
    /// None lies below it.
    pub first: u32,
    /// None lies here or above.
    pub end: u32,
}

/// Between which words those lie that refer to a page of a generation.
#[derive(Clone, Copy)]
pub struct Reach {
    /// None is lower.
    pub from: u64,
    /// None is this one or higher.
    pub end: u64,
}

/// Between which pages those of a generation lie.
fn span_of(pages: &PageTable, generation: u8) -> Span
    ensures within { LieWithin pages.now generation result.first result.end }
    ensures least { result.first ≤ length pages.now }
    ensures most { result.end ≤ length pages.now }
{
    let mut first = pages.used_end();
    let mut end = 0;
    for page in 0..pages.used_end() {
        if is_of(pages, page, generation) {
            first = first.min(page);
            end = page + 1;
        }
    }
    Span { first, end }
}

/// Between which words those lie that refer to a page of a generation.
pub(crate) fn reach_of(pages: &PageTable, generation: u8) -> Reach
    ensures { IsReach pages.now generation result }
{
    prove!(pages.len() <= MOST_PAGES);
    let span = span_of(pages, generation);
    Reach {
        from: tag(PAGE_WORDS * span.first, Kind::Instance),
        end: tag(PAGE_WORDS * span.end, Kind::Instance),
    }
}

/// Whether a word refers to a place on a page of a generation.
#[inline(always)]
fn refers_to(pages: &PageTable, word: u64, generation: u8) -> bool
    ensures { result ≡ false → IsElsewhere pages.now generation word }
{
    match untag(word) {
        Some((index, _)) => is_of(pages, index / PAGE_WORDS, generation),
        None => false,
    }
}

/// No word that refers to a place has this bit.
const TOP_BIT: u64 = 1 << 63;

/// Whether a word may lie between two: it may say so where one lies just above. It looks at each word,
/// without a branch, so that several are looked at with one instruction.
fn may_be_within(words: &[u64], reach: Reach) -> bool
    requires { reach.end < 2 ^ 63 }
    ensures { result ≡ false → AreBeyond words.now reach }
{
    let half = (reach.end.wrapping_sub(reach.from) >> 1) + 1;
    let mut found = 0;
    for word in words {
        // Half the distance of a word between the two is less than this, so the difference has the top bit.
        found |= (word.wrapping_sub(reach.from) >> 1).wrapping_sub(half);
    }
    found >= TOP_BIT
}

/// Whether none of these words does.
fn are_clear(words: &[u64], pages: &PageTable, generation: u8) -> bool
    ensures { result ≡ true → AreElsewhere words.now pages.now generation 0 (length words.now) }
{
    for word in words {
        if refers_to(pages, *word, generation) {
            return false;
        }
    }
    true
}

/// Whether none of so many words from an index on does. Where not all of them have been
/// written to, that is not said.
#[inline(never)]
fn is_clear(
    space: &Space,
    pages: &PageTable,
    from: u32,
    count: u32,
    generation: u8,
    reach: Reach,
) -> bool
    requires inside { from + count ≤ length space.now }
    requires reach { IsReach pages.now generation reach }
    ensures { result ≡ true → AreElsewhere space.now pages.now generation from count }
{
    match space.window(from, count) {
        // Comparing alone tells it of most pages.
        Some(words) => !may_be_within(words, reach) || are_clear(words, pages, generation),
        None => false,
    }
}

/// Whether a page is in use for conses.
fn holds_conses(entry: Entry) -> bool
    ensures { result ≡ has_conses entry }
{
    match entry {
        Entry::Used {
            ty: PageType::Cons,
            ..
        } => true,
        Entry::Used { .. } | Entry::Free => false,
    }
}

/// Whether nothing that begins below so many words of a page needs a scan. `idle` says that no page is
/// of the generation that is collected, and `reach` which words refer to one.
#[inline(always)]
pub(crate) fn needs_no_scan(
    copier: &Copier,
    page: u32,
    words: u32,
    idle: bool,
    reach: Reach,
) -> bool
    requires page { page < length copier.now.pages.now }
    requires words { page_words * page + words ≤ length copier.now.space.now }
    requires idle { idle ≡ true → HasNoPage copier.now.pages.now copier.now.pass.generation }
    requires reach { IsReach copier.now.pages.now copier.now.pass.generation reach }
    ensures { result ≡ true → NeedsNoScan (state copier.now) page words }
{
    if words == 0 {
        return true;
    }
    if !holds_conses(copier.pages().entry(page)) {
        return false;
    }
    if idle {
        return true;
    }
    prove!(page < copier.pages().len());
    let generation = copier.pass().generation;
    is_clear(
        copier.space(),
        copier.pages(),
        PAGE_WORDS * page,
        words,
        generation,
        reach,
    )
}
