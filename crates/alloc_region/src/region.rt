//! A region.

ghost use Rattle.std.specs.Prelude.{◌≡◌, ◌+◌, ◌*◌, ◌<◌, ◌≤◌, [], length, IfOk};
ghost use Rattle.heap_terms.specs.declared.limits.TheConstants.{MOST_PAGES};
ghost use Rattle.heap_terms.specs.Fresh.{fresh_contents, IsBuildable};
ghost use Rattle.heap_terms.specs.Layout.{page_words, page_type_of};
ghost use Rattle.heap_terms.specs.Layout as layout;
ghost use Rattle.heap_terms.specs.Spelling.{spelling};
ghost use Rattle.alloc_region.specs.View.{opened_region, reopened_region, end_of, largest_object};

use crate::buffer::Buffer;
use heap_terms::{Kind, Memory, PAGE_WORDS, PageType};
use std::alloc::Global;
use std::marker::Model;

/// How many words the largest object has.
const LARGEST_OBJECT: u32 = 65536;

/// One or more pages in a row in which one thread builds objects. That each thread allocates from
/// a region of its own is SBCL's; that it is whole pages is this project's own. A region must be
/// spent by `close`: letting one go does not compile.
pub struct Region {
    ty: PageType,
    first: u32,
    pages: u32,
    next: u32,
    buffer: Buffer,
}

impl Model for Region {
    ghost use Rattle.alloc_region.specs.View.{RegionView, IsSound};

    ghost Value = { RegionView };

    ghost view = { λ r. record { ty = r.ty; first = r.first; pages = r.pages; next = r.next; built = r.buffer.built } };

    ghost invariant = { λ r. IsSound r.ty r.first r.pages r.next r.buffer };
}

/// What is left of a region that was closed: its pages, and the index after its last object.
#[derive(Clone, Copy, Debug, PartialEq, Eq)]
pub struct Closed {
    /// The first page.
    pub first: u32,
    /// How many pages.
    pub pages: u32,
    /// The index, in words, after the last object.
    pub next: u32,
}

impl Region {
    /// A region of at least one page, with nothing in it. It reserves the room for the largest
    /// object that fits into it, and is refused only for want of memory.
    pub fn open(alloc: Global, ty: PageType, first: u32, pages: u32) -> Result<Region, Memory>
        requires least { 1 ≤ pages }
        requires most { first + pages ≤ MOST_PAGES }
        ensures { IfOk result (λ region. region ≡ opened_region ty first pages) }
    {
        Region::reopen(alloc, ty, first, pages, PAGE_WORDS * first)
    }

    /// A region of at least one page that is filled up to an index, as one was that was closed: the
    /// next object begins there. It reserves the same room as a region that is opened, and is
    /// refused only for want of memory.
    pub fn reopen(
        alloc: Global,
        ty: PageType,
        first: u32,
        pages: u32,
        next: u32,
    ) -> Result<Region, Memory>
        requires least { 1 ≤ pages }
        requires most { first + pages ≤ MOST_PAGES }
        requires begun { page_words * first ≤ next }
        requires within { next ≤ page_words * (first + pages) }
        ensures { IfOk result (λ region. region ≡ reopened_region ty first pages next) }
    {
        let buffer = Buffer::new(alloc, largest_object(ty, pages) as usize)?;
        Ok(Region {
            ty,
            first,
            pages,
            next,
            buffer,
        })
    }

    /// The type of its pages.
    pub fn page_type(&self) -> PageType
        ensures { result ≡ self.now.ty }
    {
        self.ty
    }

    /// Its first page.
    pub fn first(&self) -> u32
        ensures { result ≡ self.now.first }
    {
        self.first
    }

    /// How many pages it has.
    pub fn pages(&self) -> u32
        ensures value { result ≡ self.now.pages }
        ensures least { 1 ≤ result }
        ensures most { self.now.first + result ≤ MOST_PAGES }
    {
        self.pages
    }

    /// The index at which its next object begins.
    pub fn next(&self) -> u32
        ensures value { result ≡ self.now.next }
        ensures begun { page_words * self.now.first ≤ result }
        ensures ends { result + length self.now.built ≤ end_of self.now }
    {
        self.next
    }

    /// How many words are left for further objects. What is built and not accepted takes none.
    pub fn room(&self) -> u32
        ensures { self.now.next + result ≡ end_of self.now }
    {
        PAGE_WORDS * (self.first + self.pages) - self.next
    }

    /// Builds the words of an object of a kind without references, with n words of payload: two
    /// fixnums 0 for a cons (n is 2), n fixnums 0 for a vector, an instance or a closure, n times
    /// the seed for raw words, a fixnum 0 for a weak pointer (n is 1), and for a table no pair,
    /// with the weakness whose number is the seed. What was built and not accepted is given up.
    /// The object must fit into the room that is left and lie on pages of this type.
    pub fn build(&mut self, kind: Kind, n: u32, seed: u64)
        requires buildable { IsBuildable kind n seed }
        requires of_type { page_type_of kind ≡ self.old.ty }
        requires fits { self.old.next + layout.size_of kind n ≤ end_of self.old }
        ensures built { self.new ≡ record self.old { built = spelling [] (fresh_contents kind n seed) } }
        ensures size { length self.new.built ≡ layout.size_of kind n }
    {
        self.buffer.build(kind, n, seed);
    }

    /// The words of the object that is built and not yet accepted; none where nothing is.
    pub fn built(&self) -> &[u64]
        ensures { result.now ≡ self.now.built }
    {
        self.buffer.built()
    }

    /// Moves on past the object that is built. The next one begins after it.
    pub fn accept(&mut self)
        requires { 0 < length self.old.built }
        ensures { self.new ≡ record self.old { next = self.old.next + length self.old.built; built = [] } }
    {
        self.next += self.buffer.len() as u32;
        self.buffer.clear();
    }

    /// Spends the region. What is built and not accepted is given up.
    pub fn close(self) -> Closed
        ensures { result ≡ record { first = self.first; pages = self.pages; next = self.next } }
    {
        let Region {
            ty: _,
            first,
            pages,
            next,
            buffer: _buffer,
        } = self;
        Closed { first, pages, next }
    }
}

/// How many words the largest object has that a region can hold.
fn largest_object(ty: PageType, pages: u32) -> u32
    requires { pages ≤ MOST_PAGES }
    ensures { result ≡ largest_object ty pages }
{
    match ty {
        PageType::Cons => 2,
        PageType::Boxed | PageType::Unboxed => (PAGE_WORDS * pages).min(LARGEST_OBJECT),
    }
}
