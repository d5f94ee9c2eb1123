//! The words in the cells of all threads.

ghost use Rattle.std.specs.Prelude.{◌≡◌, ◌+◌, ◌*◌, ◌<◌, ◌≤◌, ◌^◌, ℕ, length, replicate, IfOk, slice_index, slice_set};
ghost use Rattle.heap_terms.specs.declared.limits.TheConstants.{MOST_THREADS};
ghost use Rattle.heap_terms.specs.Valid.{IsCell, IsRaw};
ghost use Rattle.lisp_heap.specs.CellsView.{HasCells, cell_word, cleared, raw_word, with_cell_word, with_cleared, with_exact_words, with_raw_word, zero_cells};

use heap_terms::{Cell, Memory, Raw};
use std::alloc::Global;
use std::marker::Model;

/// How many Lisp cells of each kind a thread has, and how many all threads share.
const CELLS: usize = 16;

/// How many raw cells a thread has.
const RAW_CELLS: usize = 8;

/// The cells s, b and r of each thread, and the cells g.
#[derive(Drop)]
pub struct CellWords {
    stack: Vec<u64>,
    exact: Vec<u64>,
    raws: Vec<u64>,
    shared: Vec<u64>,
}

impl Model for CellWords {
    ghost use Rattle.lisp_heap.specs.CellsView.{CellsView};

    ghost Value = { CellsView };

    ghost view = { λ s. record { stack = s.stack.items; exact = s.exact.items; raws = s.raws.items; shared = s.shared.items } };
}

/// So many words, each 0, which is the fixnum 0.
fn zeros(alloc: Global, count: usize) -> Result<Vec<u64>, Memory>
    ensures { IfOk result (λ words. words.items ≡ replicate count 0) }
{
    let mut words = Vec::new(alloc);
    match words.resize(count, 0) {
        Ok(()) => Ok(words),
        Err(_) => Err(Memory),
    }
}

/// Puts zeros into the cells of one thread, of which each thread has N.
fn clear<const N: usize>(words: &mut [u64], from: usize)
    requires { from + N ≤ length words.old }
    ensures words { (t : ℕ) → from ≡ N * t → words.new ≡ cleared N words.old t }
    ensures len { length words.new ≡ length words.old }
{
    words[from..from + N].copy_from_slice(&[0; N]);
}

/// Puts words in the place of just as many others.
fn overwrite(words: &mut [u64], from: &[u64])
    requires { length words.old ≡ length from.now }
    ensures { words.new ≡ from.now }
{
    words.copy_from_slice(from);
}

impl CellWords {
    /// The cells of so many threads, each the fixnum 0, and each raw cell the word 0.
    pub fn new(alloc: Global, threads: usize) -> Result<CellWords, Memory>
        requires { threads ≤ MOST_THREADS }
        ensures { IfOk result (λ cells. cells ≡ zero_cells threads) }
    {
        Ok(CellWords {
            stack: zeros(alloc, CELLS * threads)?,
            exact: zeros(alloc, CELLS * threads)?,
            raws: zeros(alloc, RAW_CELLS * threads)?,
            shared: zeros(alloc, CELLS)?,
        })
    }

    /// The word in a cell of thread t.
    #[inline(always)]
    pub fn read(&self, t: usize, cell: Cell) -> u64
        requires cell { IsCell cell }
        requires room { HasCells self.now t }
        ensures { result ≡ cell_word self.now t cell }
    {
        match cell {
            Cell::Stack(i) => self.stack[CELLS * t + i as usize],
            Cell::Exact(i) => self.exact[CELLS * t + i as usize],
            Cell::Shared(i) => self.shared[i as usize],
        }
    }

    /// Puts a word into a cell of thread t.
    #[inline(always)]
    pub fn write(&mut self, t: usize, cell: Cell, word: u64)
        requires cell { IsCell cell }
        requires room { HasCells self.old t }
        ensures { self.new ≡ with_cell_word self.old t cell word }
    {
        match cell {
            Cell::Stack(i) => self.stack[CELLS * t + i as usize] = word,
            Cell::Exact(i) => self.exact[CELLS * t + i as usize] = word,
            Cell::Shared(i) => self.shared[i as usize] = word,
        }
    }

    /// The word in a raw cell of thread t.
    #[inline(always)]
    pub fn raw(&self, t: usize, r: Raw) -> u64
        requires cell { IsRaw r }
        requires room { HasCells self.now t }
        ensures { result ≡ raw_word self.now t r }
    {
        self.raws[RAW_CELLS * t + r.0 as usize]
    }

    /// Puts a word into a raw cell of thread t.
    #[inline(always)]
    pub fn set_raw(&mut self, t: usize, r: Raw, word: u64)
        requires cell { IsRaw r }
        requires room { HasCells self.old t }
        ensures { self.new ≡ with_raw_word self.old t r word }
    {
        self.raws[RAW_CELLS * t + r.0 as usize] = word;
    }

    /// The words in the cells s of all threads.
    pub fn stack(&self) -> &[u64]
        ensures { result.now ≡ self.now.stack }
    {
        self.stack.as_slice()
    }

    /// The words in the cells b of all threads.
    pub fn exact(&self) -> &[u64]
        ensures { result.now ≡ self.now.exact }
    {
        self.exact.as_slice()
    }

    /// The words in the raw cells of all threads.
    pub fn raws(&self) -> &[u64]
        ensures { result.now ≡ self.now.raws }
    {
        self.raws.as_slice()
    }

    /// The words in the cells g.
    pub fn shared(&self) -> &[u64]
        ensures { result.now ≡ self.now.shared }
    {
        self.shared.as_slice()
    }

    /// Puts words into all cells b, and behind them into the cells g.
    pub fn rewrite(&mut self, words: &[u64])
        requires { length words.now ≡ length self.old.exact + length self.old.shared }
        ensures { self.new ≡ with_exact_words self.old words.now }
    {
        let (exact, shared) = words.split_at(self.exact.len());
        overwrite(self.exact.as_mut_slice(), exact);
        overwrite(self.shared.as_mut_slice(), shared);
    }

    /// Clears thread t's own cells.
    pub fn clear(&mut self, t: usize)
        requires { HasCells self.old t }
        ensures { self.new ≡ with_cleared self.old t }
    {
        clear::<CELLS>(self.stack.as_mut_slice(), CELLS * t);
        clear::<CELLS>(self.exact.as_mut_slice(), CELLS * t);
        clear::<RAW_CELLS>(self.raws.as_mut_slice(), RAW_CELLS * t);
    }
}
