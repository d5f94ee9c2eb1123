//! The pages that a pass holds.

ghost use Rattle.std.specs.Prelude.{◌≡◌, ℕ, ◌/◌, ◌==◌, ◌&&◌, ◌||◌, ◌<◌, ◌≤◌, List, Bool, true, false, length, replicate, All, if◌then◌else◌, slice_set, IfOk};
ghost use Rattle.std.specs.List.{list_any};
ghost use Rattle.heap_terms.specs.declared.limits.TheConstants.{MOST_PAGES};
ghost use Rattle.heap_terms.specs.Layout.{page_words};
ghost use Rattle.copy_space.specs.declared.notes.Move.{Move as Moved};
ghost use Rattle.page_sweep.specs.Flags.{held_at, is_pinned_on, is_stay_on};

use copy_space::Move;
use heap_terms::{Memory, PAGE_WORDS};
use pin_set::PinSet;
use std::alloc::Global;
use std::marker::Model;

/// A flag for each page: whether in the run that begins there something is pinned or stays.
/// Contracts see the list of the flags. Between sweeps all are clear.
#[derive(Drop)]
pub struct HeldPages {
    flags: Vec<bool>,
}

impl Model for HeldPages {
    ghost use Rattle.std.specs.Prelude.{List, Bool};

    ghost Value = { List Bool };

    ghost view = { λ h. h.flags.items };
}

impl HeldPages {
    /// The flags of so many pages, all clear. It is refused only for want of memory.
    pub fn new(alloc: Global, pages: u32) -> Result<HeldPages, Memory>
        requires { pages ≤ MOST_PAGES }
        ensures { IfOk result (λ held. held ≡ replicate pages false) }
    {
        let mut flags = Vec::new(alloc);
        match flags.resize(pages as usize, false) {
            Ok(()) => Ok(HeldPages { flags }),
            Err(_) => Err(Memory),
        }
    }

    /// The flag of a page.
    #[inline(always)]
    pub(crate) fn at(&self, page: u32) -> bool
        requires { page < length self.now }
        ensures { result ≡ held_at self.now page }
    {
        self.flags[page as usize]
    }

    /// Sets or clears the flag of a page. Every other flag stays.
    #[inline(always)]
    fn set(&mut self, page: u32, flag: bool)
        requires { page < length self.old }
        ensures { self.new ≡ slice_set self.old page flag }
    {
        self.flags[page as usize] = flag;
    }
}

/// Gives the pages of some starts a flag. Every other flag stays.
pub(crate) fn flag_pins(held: &mut HeldPages, pins: &PinSet, flag: bool)
    requires { All (λ (index : ℕ). index / page_words < length held.old) pins.now.listed }
    ensures flagged { (page : ℕ) → held_at held.new page ≡ (if is_pinned_on pins.now.listed page then flag else held_at held.old page) }
    ensures long { length held.new ≡ length held.old }
{
    for i in 0..pins.len() {
        held.set(pins.at(i) / PAGE_WORDS, flag);
    }
}

/// Gives the pages of the stays among some moves a flag. Every other flag stays.
pub(crate) fn flag_stays(held: &mut HeldPages, moves: &[Move], flag: bool)
    requires { All (λ (m : Moved). m.old / page_words < length held.old) moves.now }
    ensures flagged { (page : ℕ) → held_at held.new page ≡ (if is_stay_on moves.now page then flag else held_at held.old page) }
    ensures long { length held.new ≡ length held.old }
{
    for m in moves {
        if m.old == m.new {
            held.set(m.old / PAGE_WORDS, flag);
        }
    }
}
