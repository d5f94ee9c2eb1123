//! Long lists that begin as one element repeated.

ghost use Rattle.std.specs.Prelude.{◌≡◌, ◌+◌, ◌-◌, ◌<◌, ◌≤◌, ◌++◌, ◌⊎◌, length, replicate, slice_index_or, slice_set, take, drop, vec_capacity, IfOk, IfSome};
ghost use Rattle.word_space.specs.Space.{copied, written};

use heap_terms::Memory;
use std::alloc::Global;
use std::marker::Model;

/// How many elements more than needed are filled in at once.
const BLOCK: usize = 512;

/// A list of a fixed length that begins as one element repeated. The room for all of it is taken at
/// the start, and what lies behind the last element that was written is not touched: a list costs
/// as many steps as it is used.
#[derive(Drop)]
pub struct Prefilled<T> {
    kept: Vec<T>,
    len: usize,
    blank: T,
}

impl<T> Model for Prefilled<T> {
    ghost use Rattle.std.specs.Prelude.{List, ◌≤◌, length, vec_capacity};
    ghost use Rattle.word_space.specs.Space.{filled};

    ghost Value = { List T };

    ghost view = { λ p. filled p.kept.items p.len p.blank };

    ghost invariant = { λ p. (length p.kept.items ≤ p.len) × (p.len ≤ vec_capacity p.kept) };
}

/// Fills the list up, so that it has at least `least` elements of its `len`. There is room for all.
fn fill_up<T: Copy>(kept: &mut Vec<T>, len: usize, blank: T, least: usize)
    requires within { least ≤ len }
    requires kept { length kept.old.items ≤ len }
    requires room { len ≤ vec_capacity kept.old }
    ensures items { kept.new.items ≡ kept.old.items ++ replicate (length kept.new.items - length kept.old.items) blank }
    ensures more { length kept.old.items ≤ length kept.new.items }
    ensures least { least ≤ length kept.new.items }
    ensures most { length kept.new.items ≤ len }
    ensures room { len ≤ vec_capacity kept.new }
{
    if least > kept.len() {
        let end = least + (len - least).min(BLOCK);
        kept.resize(end, blank).unwrap();
    }
}

/// Copies within a list, between ranges that do not overlap.
fn copy_within<T: Copy>(items: &mut [T], from: usize, to: usize, n: usize)
    requires from_within { from + n ≤ length items.old }
    requires to_within { to + n ≤ length items.old }
    requires apart { (from + n ≤ to) ⊎ (to + n ≤ from) }
    ensures items { items.new ≡ copied items.old from to n }
    ensures len { length items.new ≡ length items.old }
{
    if from < to {
        let (front, back) = items.split_at_mut(to);
        back[..n].copy_from_slice(&front[from..from + n]);
    } else {
        let (front, back) = items.split_at_mut(from);
        front[to..to + n].copy_from_slice(&back[..n]);
    }
}

impl<T: Copy> Prefilled<T> {
    /// The list of so many elements, each `blank`. It is refused only for want of memory.
    pub fn new(alloc: Global, len: usize, blank: T) -> Result<Prefilled<T>, Memory>
        ensures { IfOk result (λ list. list ≡ replicate len blank) }
    {
        let kept = Vec::with_capacity(alloc, len)?;
        Ok(Prefilled { kept, len, blank })
    }

    /// How many elements there are. The number never changes.
    pub fn len(&self) -> usize
        ensures { result ≡ length self.now }
    {
        self.len
    }

    /// The element at `i`.
    #[inline(always)]
    pub fn at(&self, i: usize) -> T
        requires { i < length self.now }
        ensures { result ≡ slice_index_or self.now i result }
    {
        if i < self.kept.len() {
            self.kept[i]
        } else {
            self.blank
        }
    }

    /// The two elements at `i` and behind it.
    #[inline(always)]
    pub fn pair(&self, i: usize) -> (T, T)
        requires { i + 1 < length self.now }
        ensures first { result.0 ≡ slice_index_or self.now i result.0 }
        ensures second { result.1 ≡ slice_index_or self.now (i + 1) result.1 }
    {
        prove!(i < self.len());
        if i + 1 < self.kept.len() {
            (self.kept[i], self.kept[i + 1])
        } else {
            (self.at(i), self.at(i + 1))
        }
    }

    /// So many elements from `from` on, where all of them are filled in.
    pub fn window(&self, from: usize, count: usize) -> Option<&[T]>
        ensures { IfSome result (λ part. part.now ≡ take count (drop from self.now)) }
    {
        self.kept.get(from..from.saturating_add(count))
    }

    /// Writes the elements at `i` and behind it. It takes no memory.
    #[inline(always)]
    pub fn set_pair(&mut self, i: usize, first: T, second: T)
        requires { i + 1 < length self.old }
        ensures { self.new ≡ slice_set (slice_set self.old i first) (i + 1) second }
    {
        prove!(i < self.len());
        if i + 1 < self.kept.len() {
            self.kept[i] = first;
            self.kept[i + 1] = second;
        } else {
            self.set_beyond(i, first);
            self.set_beyond(i + 1, second);
        }
    }

    /// Writes the element at `i`. It takes no memory.
    #[inline(always)]
    pub fn set(&mut self, i: usize, value: T)
        requires { i < length self.old }
        ensures { self.new ≡ slice_set self.old i value }
    {
        if i < self.kept.len() {
            self.kept[i] = value;
        } else {
            self.set_beyond(i, value);
        }
    }

    /// The same of an element that may lie behind those that are filled in.
    #[cold]
    #[inline(never)]
    fn set_beyond(&mut self, i: usize, value: T)
        requires { i < length self.old }
        ensures { self.new ≡ slice_set self.old i value }
    {
        fill_up(&mut self.kept, self.len, self.blank, i + 1);
        self.kept[i] = value;
    }

    /// Writes elements over those from `at` on, which lie in the list. Every other element stays. It
    /// takes no memory.
    #[inline(always)]
    pub fn write_all(&mut self, at: usize, values: &[T])
        requires { at + length values.now ≤ length self.old }
        ensures items { self.new ≡ written self.old at values.now }
        ensures len { length self.new ≡ length self.old }
    {
        let len = self.len;
        let end = at + values.len();
        fill_up(&mut self.kept, len, self.blank, end);
        self.kept[at..end].copy_from_slice(values);
    }

    /// Copies the n elements from `from` on over those from `to` on. The two ranges lie in the list
    /// and do not overlap. Every element outside the second range stays. It takes no memory.
    pub fn copy(&mut self, from: usize, to: usize, n: usize)
        requires from_within { from + n ≤ length self.old }
        requires to_within { to + n ≤ length self.old }
        requires apart { (from + n ≤ to) ⊎ (to + n ≤ from) }
        ensures items { self.new ≡ copied self.old from to n }
        ensures len { length self.new ≡ length self.old }
    {
        fill_up(&mut self.kept, self.len, self.blank, from.max(to) + n);
        copy_within(self.kept.as_mut_slice(), from, to, n);
    }
}
