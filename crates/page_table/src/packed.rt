//! An entry in eight bytes.

ghost use Rattle.std.specs.Prelude.{◌≡◌, ◌≤◌, ◌<◌, ◌^◌};
ghost use Rattle.heap_terms.specs.Regions.{is_free, with_fill};
ghost use Rattle.heap_terms.specs.PageRuns.{with_generation, run_first_of};
ghost use Rattle.heap_terms.specs.declared.pages.Entry.TheVariants as entries;
ghost use Rattle.page_table.specs.Unpacked.{unpacked, holding};

use heap_terms::{Entry, PageType};

/// What a page holds.
#[derive(Clone, Copy)]
pub enum Holds {
    /// Conses.
    Conses,
    /// Objects with values behind a header.
    Boxed,
    /// Raw words.
    Unboxed,
    /// Nothing: the page is free.
    Nothing,
}

/// The entry of a page. Where it holds nothing its other numbers mean nothing.
#[derive(Clone, Copy)]
pub struct Packed {
    /// What the page holds.
    pub holds: Holds,
    /// The generation of all that lies on the page.
    pub generation: u8,
    /// How many words of the page are used.
    pub fill: u16,
    /// The first page of the run that this page is of.
    pub run_first: u16,
    /// How many pages that run has.
    pub run_pages: u16,
}

/// What a page of a type holds.
#[inline(always)]
fn holds_of(ty: PageType) -> Holds
    ensures { result ≡ holding ty }
{
    match ty {
        PageType::Cons => Holds::Conses,
        PageType::Boxed => Holds::Boxed,
        PageType::Unboxed => Holds::Unboxed,
    }
}

impl Packed {
    /// The entry of a free page.
    pub fn free() -> Packed
        ensures { unpacked result ≡ entries.Free }
    {
        Packed {
            holds: Holds::Nothing,
            generation: 0,
            fill: 0,
            run_first: 0,
            run_pages: 0,
        }
    }

    /// Whether the page is free.
    #[inline(always)]
    pub fn is_free(&self) -> bool
        ensures { result ≡ is_free (unpacked self.now) }
    {
        match self.holds {
            Holds::Nothing => true,
            Holds::Conses | Holds::Boxed | Holds::Unboxed => false,
        }
    }

    /// The entry in full.
    #[inline(always)]
    pub fn entry(&self) -> Entry
        ensures { result ≡ unpacked self.now }
    {
        match self.holds {
            Holds::Nothing => Entry::Free,
            Holds::Conses => self.used(PageType::Cons),
            Holds::Boxed => self.used(PageType::Boxed),
            Holds::Unboxed => self.used(PageType::Unboxed),
        }
    }

    /// The entry in full, of a page in use of a type.
    #[inline(always)]
    fn used(&self, ty: PageType) -> Entry
        ensures { result ≡ entries.Used ty self.now.generation self.now.fill self.now.run_first self.now.run_pages }
    {
        Entry::Used {
            ty,
            generation: self.generation,
            fill: u32::from(self.fill),
            run_first: u32::from(self.run_first),
            run_pages: u32::from(self.run_pages),
        }
    }

    /// The entry of a page of an empty run.
    pub fn empty(ty: PageType, generation: u8, first: u32, pages: u32) -> Packed
        requires first_fits { first < 2 ^ 16 }
        requires pages_fit { pages < 2 ^ 16 }
        ensures { unpacked result ≡ entries.Used ty generation 0 first pages }
    {
        Packed {
            holds: holds_of(ty),
            generation,
            fill: 0,
            run_first: first as u16,
            run_pages: pages as u16,
        }
    }

    /// The same entry with another fill.
    #[inline(always)]
    pub fn with_fill(self, fill: u32) -> Packed
        requires { fill < 2 ^ 16 }
        ensures { unpacked result ≡ with_fill (unpacked self) fill }
    {
        Packed {
            fill: fill as u16,
            ..self
        }
    }

    /// The same entry with another generation.
    #[inline(always)]
    pub fn with_generation(self, generation: u8) -> Packed
        ensures { unpacked result ≡ with_generation (unpacked self) generation }
    {
        Packed { generation, ..self }
    }
}
