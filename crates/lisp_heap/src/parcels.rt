//! The open regions of one thread.

ghost use Rattle.std.specs.Prelude.{◌≡◌, ◌↔◌, ◌+◌, ◌*◌, ◌≤◌, ℕ, [], length, IsTrue, IsSome, IsSomeAnd, Some, None, option_map, is_some, if◌then◌else◌};
ghost use Rattle.std.specs.Option.{ForSome};
ghost use Rattle.heap_terms.specs.declared.kinds.PageType.{PageType};
ghost use Rattle.heap_terms.specs.Fresh.{fresh_contents};
ghost use Rattle.heap_terms.specs.Layout.{page_type_of, size_of};
ghost use Rattle.heap_terms.specs.Regions.{is_small};
ghost use Rattle.heap_terms.specs.Spelling.{spelling};
ghost use Rattle.alloc_region.specs.View.{opened_region};
ghost use Rattle.lisp_heap.specs.Leases.{lease_view, IsLease, IsSmallLease};
ghost use Rattle.lisp_heap.specs.ParcelView.{Fits, HasRoom, HasBuilt, IsMaking, LeaseView, empty_parcel, lease_at, one_if, place_of, region_accepted, region_built, region_for, regions_in, small_region, with_accepted, with_built, with_lease, with_region};

use alloc_region::Region;
use heap_terms::{Kind, Owned, PAGE_WORDS, PageType};
use lisp_words::page_type;
use std::marker::Model;

/// An object to build: its kind, its words of payload and its seed.
#[derive(Clone, Copy, Debug, PartialEq, Eq)]
pub struct Making {
    /// Its kind.
    pub kind: Kind,
    /// Its words of payload.
    pub n: u32,
    /// What fills it: the word of each element, or a table's weakness.
    pub seed: u64,
}

/// Where a region lies that is out.
#[derive(Clone, Copy)]
pub(crate) struct RegionPlace {
    /// Its first page.
    pub first: u32,
    /// How many pages it has.
    pub pages: u32,
    /// The index in words at which its next object begins.
    pub next: u32,
}

/// A region that is out, and what is built there and not committed.
pub struct Lease {
    region: Region,
    built: Option<Making>,
}

/// The open regions of one thread: a small one of each type, and one run for a large object. It
/// has to be spent, by [`Parcel::put_away`]. Only `World::new` and `World::recall` make parcels.
pub struct Parcel {
    owner: u32,
    cons: Option<Lease>,
    boxed: Option<Lease>,
    unboxed: Option<Lease>,
    run: Option<Lease>,
}

impl Model for Parcel {
    ghost use Rattle.lisp_heap.specs.ParcelView.{ParcelView};

    ghost Value = { ParcelView };

    ghost use Rattle.lisp_heap.specs.ParcelSound.{parcel_view, IsParcel};

    ghost view = { parcel_view };

    ghost invariant = { IsParcel };
}

impl Owned for Parcel {
    ghost owner_of = { λ q. q.owner };

    fn owner(&self) -> u32 {
        self.owner
    }
}

/// Whether an object of a kind with n words of payload takes at most a page: all but a cons have a
/// header beside their payload.
fn is_small_object(kind: Kind, n: u32) -> bool
    ensures { result ≡ is_small (size_of kind n) }
{
    match kind {
        Kind::Cons => true,
        _ => n < PAGE_WORDS,
    }
}

/// Spends a region, and says how many that were.
fn put_back(slot: Option<Lease>) -> u32
    ensures { result ≡ one_if (option_map lease_view slot) }
{
    match slot {
        None => 0,
        Some(Lease { region, built: _ }) => {
            let _closed = region.close();
            1
        }
    }
}

/// Puts all parcels of a list away. It takes no memory.
pub fn put_away_all(mut parcels: Vec<Parcel>) {
    while let Some(parcel) = parcels.pop() {
        let _regions = parcel.put_away();
    }
    parcels.destroy_empty();
}

/// Builds an object in the region of a slot.
#[inline(always)]
fn build_in(slot: &mut Option<Lease>, making: Making)
    requires there { IsSome slot.old }
    requires fits { ForSome slot.old (λ l. Fits making.kind making.n (lease_view l)) }
    requires ty { ForSome slot.old (λ l. l.region.ty ≡ page_type_of making.kind) }
    requires making { IsMaking making.kind making.n making.seed }
    ensures view { option_map lease_view slot.new ≡ option_map (region_built making) (option_map lease_view slot.old) }
    ensures lease { ForSome slot.new IsLease }
    ensures small { (ty : PageType) → ForSome slot.old (IsSmallLease ty) → ForSome slot.new (IsSmallLease ty) }
{
    if let Some(lease) = slot {
        lease.region.build(making.kind, making.n, making.seed);
        lease.built = Some(making);
    }
}

/// Whether just this object is built in the region of a slot.
fn has_built_in(slot: &Option<Lease>, making: Making) -> bool
    ensures { IsTrue result ↔ IsSomeAnd (option_map lease_view slot.now) (λ r. r.built ≡ Some making) }
{
    match slot {
        None => false,
        Some(lease) => lease.built == Some(making),
    }
}

/// Where the region of a slot lies.
fn place(slot: &Option<Lease>) -> Option<RegionPlace>
    ensures { result ≡ option_map place_of (option_map lease_view slot.now) }
{
    match slot {
        None => None,
        Some(lease) => Some(RegionPlace {
            first: lease.region.first(),
            pages: lease.region.pages(),
            next: lease.region.next(),
        }),
    }
}

/// Where the next object begins in the region of a slot.
#[inline(always)]
fn next_in(slot: &Option<Lease>) -> u32
    requires { IsSome slot.now }
    ensures { (r : LeaseView) → option_map lease_view slot.now ≡ Some r → result ≡ r.next }
{
    match slot {
        None => unreachable!(),
        Some(lease) => lease.region.next(),
    }
}

/// The words of the object that is built in the region of a slot.
fn built_in(slot: &Option<Lease>, making: Making) -> &[u64]
    requires built { IsSomeAnd (option_map lease_view slot.now) (λ r. r.built ≡ Some making) }
    requires lease { ForSome slot.now IsLease }
    ensures { result.now ≡ spelling [] (fresh_contents making.kind making.n making.seed) }
{
    match slot {
        None => unreachable!(),
        Some(lease) => lease.region.built(),
    }
}

/// Puts a region in which nothing is built into a slot, in place of the one that is there.
fn adopt_in(slot: &mut Option<Lease>, region: Region)
    requires { region.built ≡ [] }
    ensures view { option_map lease_view slot.new ≡ Some (lease_at region.ty region.first region.pages region.next) }
    ensures lease { ForSome slot.new IsLease }
    ensures small { region.pages ≡ 1 → ForSome slot.new (IsSmallLease region.ty) }
{
    let old = slot.replace(Lease {
        region,
        built: None,
    });
    let _closed = put_back(old);
}

/// Moves the region of a slot on past the object that is built there.
#[inline(always)]
fn accept_in(slot: &mut Option<Lease>, making: Making)
    requires built { IsSomeAnd (option_map lease_view slot.old) (λ r. r.built ≡ Some making) }
    requires lease { ForSome slot.old IsLease }
    ensures view { option_map lease_view slot.new ≡ option_map (region_accepted (size_of making.kind making.n)) (option_map lease_view slot.old) }
    ensures lease { ForSome slot.new IsLease }
    ensures small { (ty : PageType) → ForSome slot.old (IsSmallLease ty) → ForSome slot.new (IsSmallLease ty) }
{
    if let Some(lease) = slot {
        lease.region.accept();
        lease.built = None;
    }
}

impl Parcel {
    /// The parcel of a thread without regions. It takes no memory.
    pub(crate) fn empty(owner: u32) -> Parcel
        ensures { result ≡ empty_parcel owner }
    {
        Parcel {
            owner,
            cons: None,
            boxed: None,
            unboxed: None,
            run: None,
        }
    }

    /// Builds an object of a kind with n words of payload in the region of its class; a cons has
    /// 2. What was built there and not committed is given up. It takes no memory.
    #[inline(always)]
    pub fn build(&mut self, kind: Kind, n: u32, seed: u64)
        requires room { HasRoom self.old kind n }
        requires making { IsMaking kind n seed }
        ensures parcel { self.new ≡ with_built self.old kind n seed }
        ensures built { HasBuilt self.new kind n seed }
    {
        // A cons has a way of its own, since it is the most usual object.
        match kind {
            Kind::Cons => {
                let making = Making {
                    kind: Kind::Cons,
                    n,
                    seed,
                };
                build_in(&mut self.cons, making)
            }
            _ => self.build_other(Making { kind, n, seed }),
        }
    }

    /// The same, for any object.
    #[inline(never)]
    fn build_other(&mut self, making: Making)
        requires room { HasRoom self.old making.kind making.n }
        requires making { IsMaking making.kind making.n making.seed }
        ensures parcel { self.new ≡ with_built self.old making.kind making.n making.seed }
        ensures built { HasBuilt self.new making.kind making.n making.seed }
    {
        if is_small_object(making.kind, making.n) {
            match page_type(making.kind) {
                PageType::Cons => build_in(&mut self.cons, making),
                PageType::Boxed => build_in(&mut self.boxed, making),
                PageType::Unboxed => build_in(&mut self.unboxed, making),
            }
        } else {
            build_in(&mut self.run, making);
        }
    }

    /// Whether just this object is built there and not committed. It takes no memory.
    pub fn has_built(&self, kind: Kind, n: u32, seed: u64) -> bool
        ensures { IsTrue result ↔ HasBuilt self.now kind n seed }
    {
        let making = Making { kind, n, seed };
        if !is_small_object(kind, n) {
            return has_built_in(&self.run, making);
        }
        match page_type(kind) {
            PageType::Cons => has_built_in(&self.cons, making),
            PageType::Boxed => has_built_in(&self.boxed, making),
            PageType::Unboxed => has_built_in(&self.unboxed, making),
        }
    }

    /// Spends the parcel, and says how many regions were in it. It takes no memory.
    pub fn put_away(self) -> u32
        ensures { result ≡ regions_in self }
    {
        let Parcel {
            owner: _,
            cons,
            boxed,
            unboxed,
            run,
        } = self;
        put_back(cons) + put_back(boxed) + put_back(unboxed) + put_back(run)
    }

    /// The place of the small region of a type.
    pub(crate) fn small_place(&self, ty: PageType) -> Option<RegionPlace>
        ensures { result ≡ option_map place_of (small_region self.now ty) }
    {
        match ty {
            PageType::Cons => place(&self.cons),
            PageType::Boxed => place(&self.boxed),
            PageType::Unboxed => place(&self.unboxed),
        }
    }

    /// The place of the run.
    pub(crate) fn run_place(&self) -> Option<RegionPlace>
        ensures { result ≡ option_map place_of self.now.run }
    {
        place(&self.run)
    }

    /// The type of the pages of the run.
    pub(crate) fn run_type(&self) -> Option<PageType>
        ensures { result ≡ option_map (λ r. r.ty) self.now.run }
    {
        match &self.run {
            None => None,
            Some(lease) => Some(lease.region.page_type()),
        }
    }

    /// The region into which an object of a kind with n words of payload goes.
    #[inline(always)]
    fn slot(&self, kind: Kind, n: u32) -> &Option<Lease>
        ensures view { option_map lease_view result.now ≡ region_for self.now kind n }
        ensures lease { ForSome result.now IsLease }
    {
        if !is_small_object(kind, n) {
            return &self.run;
        }
        match page_type(kind) {
            PageType::Cons => &self.cons,
            PageType::Boxed => &self.boxed,
            PageType::Unboxed => &self.unboxed,
        }
    }

    /// Where the next object of a kind with n words of payload begins, an index in words.
    #[inline(always)]
    pub(crate) fn next_for(&self, kind: Kind, n: u32) -> u32
        requires { IsSome (region_for self.now kind n) }
        ensures { (r : LeaseView) → region_for self.now kind n ≡ Some r → result ≡ r.next }
    {
        next_in(self.slot(kind, n))
    }

    /// The words of the object that is built there.
    pub(crate) fn built(&self, making: Making) -> &[u64]
        requires { HasBuilt self.now making.kind making.n making.seed }
        ensures { result.now ≡ spelling [] (fresh_contents making.kind making.n making.seed) }
    {
        built_in(self.slot(making.kind, making.n), making)
    }

    /// Takes a region in which nothing is built, in place of the one that is there.
    pub(crate) fn adopt(&mut self, region: Region)
        requires { region.built ≡ [] }
        ensures lease { self.new ≡ with_lease self.old (lease_at region.ty region.first region.pages region.next) }
        ensures opened { region ≡ opened_region region.ty region.first region.pages →
            self.new ≡ with_region self.old region.ty region.first region.pages }
    {
        if region.pages() != 1 {
            adopt_in(&mut self.run, region);
            return;
        }
        match region.page_type() {
            PageType::Cons => adopt_in(&mut self.cons, region),
            PageType::Boxed => adopt_in(&mut self.boxed, region),
            PageType::Unboxed => adopt_in(&mut self.unboxed, region),
        }
    }

    /// The object that is built there was committed. The region moves on past it; a large object
    /// uses the run up, which is closed.
    #[inline(always)]
    pub(crate) fn accept(&mut self, making: Making)
        requires { HasBuilt self.old making.kind making.n making.seed }
        ensures { self.new ≡ with_accepted self.old making.kind making.n }
    {
        if !is_small_object(making.kind, making.n) {
            let _closed = put_back(self.run.take());
            return;
        }
        match page_type(making.kind) {
            PageType::Cons => accept_in(&mut self.cons, making),
            PageType::Boxed => accept_in(&mut self.boxed, making),
            PageType::Unboxed => accept_in(&mut self.unboxed, making),
        }
    }

    /// Closes all regions.
    pub(crate) fn close_all(&mut self)
        ensures { self.new ≡ empty_parcel self.old.owner }
    {
        let _cons = put_back(self.cons.take());
        let _boxed = put_back(self.boxed.take());
        let _unboxed = put_back(self.unboxed.take());
        let _run = put_back(self.run.take());
    }
}
