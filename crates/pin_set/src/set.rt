//! The set.

ghost use Rattle.std.specs.Prelude.{◌≡◌, ◌≢◌, ℕ, ◌+◌, ◌-◌, ◌^◌, ◌<◌, [], length, AllPairs, slice_index, IfOk, OnErr, IsOk, nat_eq, not, ◌==◌, true};
ghost use Rattle.std.specs.List.{list_any};
ghost use Rattle.indexmap.specs.IndexSet.{insert_key};

use heap_terms::Memory;
use indexmap::IndexSet;
use std::alloc::Global;
use std::marker::Model;

/// A set of starts. Contracts see the list of its starts without doubles, in the order of first
/// insertion, and how many of them it has room for.
#[derive(Drop)]
pub struct PinSet {
    starts: IndexSet<u32>,
    most: u32,
}

impl Model for PinSet {
    ghost use Rattle.pin_set.specs.Starts.{Starts};

    ghost Value = { Starts };

    ghost use Rattle.pin_set.specs.InRoom.{starts_of, HasRoom};

    ghost view = { starts_of };

    ghost invariant = { HasRoom };
}

impl PinSet {
    /// An empty set with room for `most` starts. It is refused only for want of memory.
    pub fn new(alloc: Global, most: u32) -> Result<PinSet, Memory>
        ensures { IfOk result (λ set. set ≡ record { listed = []; most = most }) }
    {
        let starts = IndexSet::with_capacity(alloc, most as usize)?;
        Ok(PinSet { starts, most })
    }

    /// Puts a start in, last if it is new, and says whether it is. While fewer than `most` starts
    /// stand in the set, or if it stands there, it takes no memory; else it is refused only for want
    /// of memory, and then nothing changes.
    pub fn insert(&mut self, start: u32) -> Result<bool, Memory>
        requires { length self.old.listed < 2 ^ 32 - 1 }
        ensures new { IfOk result (λ is_new. is_new ≡ not (list_any (nat_eq start) self.old.listed)) }
        ensures listed { IfOk result (λ _. self.new.listed ≡ insert_key nat_eq self.old.listed start) }
        ensures same { OnErr result (self.new ≡ self.old) }
        ensures room { length self.old.listed < self.old.most → IsOk result }
        ensures there { list_any (nat_eq start) self.old.listed ≡ true → IsOk result }
        ensures most { self.new.most ≡ self.old.most }
    {
        if self.starts.contains(&start) {
            return Ok(false);
        }
        self.starts.insert(start)?;
        Ok(true)
    }

    /// Whether a start stands in the set.
    pub fn contains(&self, start: u32) -> bool
        ensures { result ≡ list_any (nat_eq start) self.now.listed }
    {
        self.starts.contains(&start)
    }

    /// Start number i, from 0, in the order of first insertion.
    pub fn at(&self, i: u32) -> u32
        requires { i < length self.now.listed }
        ensures { result ≡ slice_index self.now.listed i }
    {
        self.starts.as_slice()[i as usize]
    }

    /// How many starts stand in the set, where each stands once.
    pub fn len(&self) -> u32
        ensures value { result ≡ length self.now.listed }
        ensures once { AllPairs (λ (s t : ℕ). s ≢ t) self.now.listed }
    {
        self.starts.len() as u32
    }

    /// Takes all starts out. The room stays, and is not gone over: `truncate` takes time by what it
    /// takes out, where the set's own `clear` wipes the whole room.
    pub fn clear(&mut self)
        ensures { self.new ≡ record { listed = []; most = self.old.most } }
    {
        self.starts.truncate(0);
    }
}
