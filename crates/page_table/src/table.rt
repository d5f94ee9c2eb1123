//! The page table.

ghost use Rattle.std.specs.Prelude.{◌≡◌, ℕ, ◌+◌, ◌*◌, ◌<◌, ◌≤◌, ◌++◌, ◌∷◌, true, false, length, take, drop, vec_len, replicate, slice_set, IfOk, IfSome, IfNone};
ghost use Rattle.heap_terms.specs.declared.pages.Entry.TheVariants as entries;
ghost use Rattle.heap_terms.specs.declared.limits.TheConstants.{MOST_PAGES, MOST_WORDS};
ghost use Rattle.heap_terms.specs.Heap.{entry_at};
ghost use Rattle.heap_terms.specs.Layout.{page_words};
ghost use Rattle.heap_terms.specs.Regions.{is_free, is_small, IsFreeRun, IsLowestRun, HasNoRun, pages_needed, with_run, with_fill, with_large};
ghost use Rattle.heap_terms.specs.PageRuns.{with_run_of, with_generation, run_first_of};
ghost use Rattle.page_table.specs.Unpacked.{unpacked, unpacked_all};

use crate::packed::Packed;
use heap_terms::{Entry, Memory, PAGE_WORDS, PageType};
use std::alloc::Global;
use std::marker::Model;

/// The entries of 1 to 1,024 pages. Contracts see it as the list of its entries. That a collector
/// has generations is SBCL's; the types of pages and all numbers are this project's own.
#[derive(Drop)]
pub struct PageTable {
    entries: Vec<Packed>,
    /// From this page on all pages are free.
    used_end: u32,
}

impl Model for PageTable {
    ghost use Rattle.std.specs.Prelude.{List};
    ghost use Rattle.heap_terms.specs.declared.pages.Entry.{Entry};

    ghost Value = { List Entry };

    ghost use Rattle.page_table.specs.Unpacked.{unpacked_all, IsTable};

    ghost view = { λ t. unpacked_all t.entries.items };

    ghost invariant = { λ t. IsTable t.entries.items t.used_end };
}

impl PageTable {
    /// The table of 1 to 1,024 pages, all free. It is refused only for want of memory.
    pub fn new(alloc: Global, pages: u32) -> Result<PageTable, Memory>
        requires least { 1 ≤ pages }
        requires most { pages ≤ MOST_PAGES }
        ensures { IfOk result (λ table. table ≡ replicate pages entries.Free) }
    {
        let mut entries = Vec::new(alloc);
        match entries.resize(pages as usize, Packed::free()) {
            Ok(()) => Ok(PageTable {
                entries,
                used_end: 0,
            }),
            Err(_) => Err(Memory),
        }
    }

    /// How many pages there are: from 1 to 1,024, and never another number.
    #[inline(always)]
    pub fn len(&self) -> u32
        ensures value { result ≡ length self.now }
        ensures least { 1 ≤ result }
        ensures most { result ≤ MOST_PAGES }
    {
        self.entries.len() as u32
    }

    /// A page from which on all pages are free, at most `len`. It goes up where a run is taken, and
    /// down again where the last page below it becomes free. Who goes over all pages in use may stop
    /// there.
    #[inline(always)]
    pub fn used_end(&self) -> u32
        ensures inside { result ≤ length self.now }
        ensures free { (p : ℕ) → result ≤ p → is_free (entry_at self.now p) ≡ true }
    {
        self.used_end
    }

    /// The entry of a page.
    #[inline(always)]
    pub fn entry(&self, p: u32) -> Entry
        requires { p < length self.now }
        ensures { result ≡ entry_at self.now p }
    {
        self.entries[p as usize].entry()
    }

    /// The index of the first word of the run to which a page in use belongs.
    #[inline(always)]
    pub fn owner_start(&self, p: u32) -> u32
        requires inside { p < length self.now }
        requires used { is_free (entry_at self.now p) ≡ false }
        ensures { result ≡ page_words * run_first_of (entry_at self.now p) }
    {
        PAGE_WORDS * u32::from(self.entries[p as usize].run_first)
    }

    /// The first page of the lowest run of k free pages side by side; none exactly where there is
    /// no such run. It looks at each entry at most once. That regions are opened on the lowest run
    /// is this project's own rule.
    pub fn find_run(&self, k: u32) -> Option<u32>
        requires { 1 ≤ k }
        ensures found { IfSome result (λ first. IsLowestRun self.now first k) }
        ensures none { IfNone result (HasNoRun self.now k) }
    {
        lowest_run(self.entries.as_slice(), k)
    }

    /// Takes a run of k free pages from `first` on: each page gets the type and the generation, is
    /// empty, and belongs to this run. Every other entry stays.
    pub fn take_run(&mut self, first: u32, k: u32, ty: PageType, generation: u8)
        requires { IsFreeRun self.old first k }
        ensures taken { self.new ≡ with_run_of self.old first k ty generation }
        ensures opened { generation ≡ 0 → self.new ≡ with_run self.old first k ty }
    {
        fill_run(self.entries.as_mut_slice(), first, k, ty, generation);
        self.used_end = self.used_end.max(first + k);
    }

    /// Says how many words of a page in use are used, at most 512.
    #[inline(always)]
    pub fn set_fill(&mut self, p: u32, fill: u32)
        requires inside { p < length self.old }
        requires used { is_free (entry_at self.old p) ≡ false }
        requires most { fill ≤ page_words }
        ensures { self.new ≡ slice_set self.old p (with_fill (entry_at self.old p) fill) }
    {
        let entry = self.entries[p as usize].with_fill(fill);
        self.entries[p as usize] = entry;
    }

    /// Fills the run that begins at a page with one large object of a size, which needs just its
    /// pages: each page is full but the last, which has the rest. Every other entry stays.
    pub fn fill_run(&mut self, first: u32, size: u32)
        requires large { is_small size ≡ false }
        requires most { size ≤ MOST_WORDS }
        requires inside { first + pages_needed size ≤ length self.old }
        requires used { is_free (entry_at self.old first) ≡ false }
        ensures { self.new ≡ with_large self.old first size }
    {
        let last = pages_needed(size) - 1;
        let entry = self.entries[first as usize];
        let full = entry.with_fill(PAGE_WORDS);
        let rest = entry.with_fill(size - PAGE_WORDS * last);
        write_run(self.entries.as_mut_slice(), first, last, full, rest);
        self.used_end = self.used_end.max(first + last + 1);
    }

    /// Gives a page in use a generation. Its type, fill and run stay.
    #[inline(always)]
    pub fn set_gen(&mut self, p: u32, generation: u8)
        requires inside { p < length self.old }
        requires used { is_free (entry_at self.old p) ≡ false }
        ensures { self.new ≡ slice_set self.old p (with_generation (entry_at self.old p) generation) }
    {
        let entry = self.entries[p as usize].with_generation(generation);
        self.entries[p as usize] = entry;
    }

    /// Makes a page in use free. Every other entry stays, also those of the same run.
    pub fn free_page(&mut self, p: u32)
        requires inside { p < length self.old }
        requires used { is_free (entry_at self.old p) ≡ false }
        ensures { self.new ≡ slice_set self.old p entries.Free }
    {
        self.entries[p as usize] = Packed::free();
        self.used_end = used_below(self.entries.as_slice(), self.used_end);
    }
}

/// A page from which on all pages below `end` are free: the lowest one.
fn used_below(entries: &[Packed], end: u32) -> u32
    requires { end ≤ length entries.now }
    ensures most { result ≤ end }
    ensures free { (p : ℕ) → result ≤ p → p < end → is_free (entry_at (unpacked_all entries.now) p) ≡ true }
{
    let mut below = end;
    while below > 0 {
        if !entries[below as usize - 1].is_free() {
            return below;
        }
        below -= 1;
    }
    0
}

/// How many pages an object of a size needs: a page, or a run of its own where it does not fit into
/// one.
pub fn pages_needed(size: u32) -> u32
    requires { size ≤ MOST_WORDS }
    ensures value { result ≡ pages_needed size }
    ensures least { 1 ≤ result }
{
    if size <= PAGE_WORDS {
        1
    } else {
        (size + (PAGE_WORDS - 1)) / PAGE_WORDS
    }
}

/// Writes one entry into k places from `first` on, and another one into the place after them.
fn write_run(entries: &mut [Packed], first: u32, k: u32, full: Packed, rest: Packed)
    requires inside { first + k < length entries.old }
    requires most { length entries.old ≤ MOST_PAGES }
    ensures { unpacked_all entries.new ≡ take first (unpacked_all entries.old) ++ replicate k (unpacked full) ++ unpacked rest ∷ drop (first + k + 1) (unpacked_all entries.old) }
{
    let last = (first + k) as usize;
    entries[last] = rest;
    entries[first as usize..last].fill(full);
}

/// The first of the lowest k entries side by side that are free.
fn lowest_run(entries: &[Packed], k: u32) -> Option<u32>
    requires least { 1 ≤ k }
    requires most { length entries.now ≤ MOST_PAGES }
    ensures found { IfSome result (λ first. IsLowestRun (unpacked_all entries.now) first k) }
    ensures none { IfNone result (HasNoRun (unpacked_all entries.now) k) }
{
    let mut start = 0;
    for (p, entry) in entries.iter().enumerate() {
        if !entry.is_free() {
            start = p + 1;
        } else if p + 1 - start == k as usize {
            return Some(start as u32);
        }
    }
    None
}

/// Writes the entry of a page of one empty run into its k places from `first` on.
fn fill_run(entries: &mut [Packed], first: u32, k: u32, ty: PageType, generation: u8)
    requires inside { first + k ≤ length entries.old }
    requires most { length entries.old ≤ MOST_PAGES }
    ensures { unpacked_all entries.new ≡ with_run_of (unpacked_all entries.old) first k ty generation }
{
    let entry = Packed::empty(ty, generation, first, k);
    entries[first as usize..(first + k) as usize].fill(entry);
}
