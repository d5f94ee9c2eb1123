//! The space of words.

ghost use Rattle.std.specs.Prelude.{◌≡◌, ◌+◌, ◌*◌, ◌<◌, ◌≤◌, ◌⊎◌, length, replicate, slice_index, slice_set, take, drop, IfOk, IfSome};
ghost use Rattle.heap_terms.specs.declared.limits.TheConstants.{MOST_PAGES};
ghost use Rattle.heap_terms.specs.Layout.{page_words};
ghost use Rattle.word_space.specs.Space.{copied, written};

use crate::prefilled::Prefilled;
use heap_terms::{Memory, PAGE_WORDS};
use std::alloc::Global;
use std::marker::Model;

/// The words of 1 to 1,024 pages of 512 words each. Contracts see it as the list of its words.
/// These numbers are this project's own.
#[derive(Drop)]
pub struct Space {
    words: Prefilled<u64>,
}

impl Model for Space {
    ghost use Rattle.std.specs.Prelude.{ℕ, List};
    ghost use Rattle.word_space.specs.Space.{IsPaged};

    ghost Value = { List ℕ };

    ghost view = { λ s. s.words };

    ghost invariant = { λ s. IsPaged s.words };
}

impl Space {
    /// The space of 1 to 1,024 pages, with every word 0. It is refused only for want of memory.
    pub fn new(alloc: Global, pages: u32) -> Result<Space, Memory>
        requires least { 1 ≤ pages }
        requires most { pages ≤ MOST_PAGES }
        ensures { IfOk result (λ space. space ≡ replicate (page_words * pages) 0) }
    {
        let words = Prefilled::new(alloc, (PAGE_WORDS * pages) as usize, 0)?;
        Ok(Space { words })
    }

    /// How many pages of 512 words there are: from 1 to 1,024, and never another number.
    pub fn pages(&self) -> u32
        ensures whole { length self.now ≡ page_words * result }
        ensures least { 1 ≤ result }
        ensures most { result ≤ MOST_PAGES }
    {
        self.words.len() as u32 / PAGE_WORDS
    }

    /// The word at an index.
    #[inline(always)]
    pub fn read(&self, index: u32) -> u64
        requires { index < length self.now }
        ensures { result ≡ slice_index self.now index }
    {
        self.words.at(index as usize)
    }

    /// The two words at an index and behind it.
    #[inline(always)]
    pub fn read_pair(&self, index: u32) -> (u64, u64)
        requires { index + 1 < length self.now }
        ensures first { result.0 ≡ slice_index self.now index }
        ensures second { result.1 ≡ slice_index self.now (index + 1) }
    {
        self.words.pair(index as usize)
    }

    /// So many words from an index on, where they have been written to or lie before words that have;
    /// else there may be none.
    pub fn window(&self, from: u32, count: u32) -> Option<&[u64]>
        ensures { IfSome result (λ part. part.now ≡ take count (drop from self.now)) }
    {
        self.words.window(from as usize, count as usize)
    }

    /// Writes the words at an index and behind it. Every other word stays.
    #[inline(always)]
    pub fn write_pair(&mut self, index: u32, first: u64, second: u64)
        requires { index + 1 < length self.old }
        ensures { self.new ≡ slice_set (slice_set self.old index first) (index + 1) second }
    {
        self.words.set_pair(index as usize, first, second);
    }

    /// Writes the word at an index. Every other word stays.
    #[inline(always)]
    pub fn write(&mut self, index: u32, word: u64)
        requires { index < length self.old }
        ensures { self.new ≡ slice_set self.old index word }
    {
        self.words.set(index as usize, word);
    }

    /// Writes words over those from an index on, which lie in the space. Every other word stays.
    #[inline(always)]
    pub fn write_all(&mut self, index: u32, words: &[u64])
        requires { index + length words.now ≤ length self.old }
        ensures words { self.new ≡ written self.old index words.now }
        ensures len { length self.new ≡ length self.old }
    {
        self.words.write_all(index as usize, words);
    }

    /// Copies the n words from `from` on over those from `to` on. The two ranges lie in the space
    /// and do not overlap. Every word outside the second range stays.
    pub fn copy(&mut self, from: u32, to: u32, n: u32)
        requires from_within { from + n ≤ length self.old }
        requires to_within { to + n ≤ length self.old }
        requires apart { (from + n ≤ to) ⊎ (to + n ≤ from) }
        ensures words { self.new ≡ copied self.old from to n }
        ensures len { length self.new ≡ length self.old }
    {
        self.words.copy(from as usize, to as usize, n as usize);
    }
}
