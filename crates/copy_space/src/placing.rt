//! Where the next object goes: after the last one of its type, else onto the lowest free run.

ghost use Rattle.std.specs.Prelude.{◌≡◌, ℕ, ◌+◌, ◌-◌, ◌*◌, ◌/◌, ◌%◌, ◌<◌, ◌≤◌, ◌&&◌, true, false, List, length, Some, None, Option};
ghost use Rattle.heap_terms.specs.declared.kinds.PageType.{PageType};
ghost use Rattle.heap_terms.specs.declared.limits.TheConstants.{MOST_PAGES};
ghost use Rattle.heap_terms.specs.Heap.{entry_at, fill_of as words_used};
ghost use Rattle.heap_terms.specs.Layout.{page_words};
ghost use Rattle.heap_terms.specs.PageRuns.{with_run_of};
ghost use Rattle.heap_terms.specs.Placement.{page_in_use, using_page, fits_on, taken_run, scratch};
ghost use Rattle.heap_terms.specs.Regions.{is_small, pages_needed as needed, IsFreeRun};
ghost use Rattle.copy_space.specs.State.{placing_on, none_in_use};
ghost use Rattle.copy_space.specs.Step.{AreTakenPages, CanPlace, IsStep};

use heap_terms::{Entry, PAGE_WORDS, PageType};
use page_table::PageTable;

/// The generation of pages that a pass takes, until its end. No page has it between passes. It is
/// SBCL's scratch generation.
pub const SCRATCH_GENERATION: u8 = 7;

/// The page of each type on which a pass put its last small object, if there is one.
#[derive(Clone, Copy, Debug, PartialEq, Eq)]
pub struct PagesInUse {
    /// The page for conses.
    pub cons: Option<u32>,
    /// The page for objects with values behind a header.
    pub boxed: Option<u32>,
    /// The page for raw words.
    pub unboxed: Option<u32>,
}

impl PagesInUse {
    /// At first no page is in use.
    pub fn none() -> PagesInUse
        ensures { result ≡ none_in_use }
    {
        PagesInUse {
            cons: None,
            boxed: None,
            unboxed: None,
        }
    }

    /// The page of a type.
    #[inline(always)]
    pub fn of(&self, ty: PageType) -> Option<u32>
        ensures { (pages : List Entry) → result ≡ page_in_use (placing_on pages self.now) ty }
    {
        match ty {
            PageType::Cons => self.cons,
            PageType::Boxed => self.boxed,
            PageType::Unboxed => self.unboxed,
        }
    }

    /// The same with another page of a type.
    fn with(self, ty: PageType, page: u32) -> PagesInUse
        ensures { (pages : List Entry) → placing_on pages result ≡ using_page (placing_on pages self) ty page }
    {
        match ty {
            PageType::Cons => PagesInUse {
                cons: Some(page),
                ..self
            },
            PageType::Boxed => PagesInUse {
                boxed: Some(page),
                ..self
            },
            PageType::Unboxed => PagesInUse {
                unboxed: Some(page),
                ..self
            },
        }
    }
}

/// How many words of a page are used.
#[inline(always)]
fn fill_of(pages: &PageTable, page: u32) -> u32
    requires { page < length pages.now }
    ensures { result ≡ words_used (entry_at pages.now page) }
{
    match pages.entry(page) {
        Entry::Free => 0,
        Entry::Used { fill, .. } => fill,
    }
}

/// Places an object of a type and a size, and answers its index; `None` exactly where it finds no
/// place, and then nothing changes.
#[inline(always)]
pub(crate) fn place(
    pages: &mut PageTable,
    in_use: &mut PagesInUse,
    ty: PageType,
    size: u32,
) -> Option<u32>
    requires { CanPlace pages.old in_use.old size }
    ensures step { IsStep pages.old in_use.old ty size result pages.new in_use.new }
{
    if let Some(page) = in_use.of(ty) {
        let fill = fill_of(pages, page);
        if fill + size <= PAGE_WORDS {
            pages.set_fill(page, fill + size);
            return Some(PAGE_WORDS * page + fill);
        }
    }
    place_on_run(pages, in_use, ty, size)
}

/// The same of an object that does not fit on the page in use of its type.
#[cold]
#[inline(never)]
fn place_on_run(
    pages: &mut PageTable,
    in_use: &mut PagesInUse,
    ty: PageType,
    size: u32,
) -> Option<u32>
    requires can { CanPlace pages.old in_use.old size }
    requires full { (is_small size && fits_on pages.old (page_in_use (placing_on pages.old in_use.old) ty) size) ≡ false }
    ensures step { IsStep pages.old in_use.old ty size result pages.new in_use.new }
{
    let k = pages_needed(size);
    let Some(first) = pages.find_run(k) else {
        return None;
    };
    take_filled(pages, first, k, ty, size);
    if size > PAGE_WORDS {
        return Some(PAGE_WORDS * first);
    }
    *in_use = in_use.with(ty, first);
    Some(PAGE_WORDS * first)
}

/// How many pages an object of a size needs.
fn pages_needed(size: u32) -> u32
    requires least { 1 ≤ size }
    requires most { size ≤ 65536 }
    ensures { result ≡ needed size }
{
    (size + (PAGE_WORDS - 1)) / PAGE_WORDS
}

/// Takes a run of free pages for one object: each page is full but the last, which has the rest.
fn take_filled(pages: &mut PageTable, first: u32, k: u32, ty: PageType, size: u32)
    requires free { IsFreeRun pages.old first k }
    requires needs { k ≡ needed size }
    requires least { 1 ≤ size }
    requires most { size ≤ 65536 }
    requires pages { length pages.old ≤ MOST_PAGES }
    ensures { pages.new ≡ taken_run pages.old ty first k size }
{
    pages.take_run(first, k, ty, SCRATCH_GENERATION);
    for page in first..first + k - 1 {
        pages.set_fill(page, PAGE_WORDS);
    }
    pages.set_fill(first + k - 1, size - PAGE_WORDS * (k - 1));
}
