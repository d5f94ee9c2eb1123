//! The pins of all threads.

ghost use Rattle.std.specs.Prelude.{◌≡◌, ◌+◌, ◌-◌, ◌<◌, ◌≤◌, [], ◌∷◌, ◌++◌, length, replicate, take, slice_index_or, IfOk};
ghost use Rattle.heap_terms.specs.declared.limits.TheConstants.{MOST_PINS};
ghost use Rattle.lisp_heap.specs.PinsView.{HasPinRoom, but_last, with_pin_popped, with_pin_pushed, with_pins_cleared};

use arrayvec::ArrayVec;
use heap_terms::Memory;
use std::alloc::Global;
use std::marker::Model;

/// How many pins a thread has at most.
const PINS: usize = 32;

/// The pinned words of one thread, the latest last.
#[derive(Drop)]
pub struct PinStack {
    words: ArrayVec<u64, PINS>,
}

impl Model for PinStack {
    ghost use Rattle.std.specs.Prelude.{ℕ, List};

    ghost Value = { List ℕ };

    ghost view = { λ s. s.words.items };
}

impl PinStack {
    /// No pins.
    fn empty() -> PinStack
        ensures { result ≡ [] }
    {
        PinStack {
            words: ArrayVec::new(),
        }
    }

    /// The pinned words.
    fn as_slice(&self) -> &[u64]
        ensures words { result.now ≡ self.now }
        ensures few { length result.now ≤ MOST_PINS }
    {
        self.words.as_slice()
    }

    /// Puts a word on top.
    fn push(&mut self, word: u64)
        requires { length self.old < MOST_PINS }
        ensures { self.new ≡ self.old ++ word ∷ [] }
    {
        self.words.push(word);
    }

    /// Takes the latest word off, if there is one.
    fn pop(&mut self)
        ensures { self.new ≡ but_last self.old }
    {
        let _word = self.words.pop();
    }
}

/// The pins of all threads.
#[derive(Drop)]
pub struct Pins {
    stacks: Vec<PinStack>,
}

impl Model for Pins {
    ghost use Rattle.std.specs.Prelude.{ℕ, List};

    ghost Value = { List (List ℕ) };

    ghost view = { λ s. s.stacks.items };
}

impl Pins {
    /// The pins of so many threads, of which none has any.
    pub fn none(alloc: Global, threads: usize) -> Result<Pins, Memory>
        ensures { IfOk result (λ pins. pins ≡ replicate threads []) }
    {
        let mut stacks = Vec::with_capacity(alloc, threads)?;
        for _t in 0..threads {
            stacks.push_reserved(PinStack::empty());
        }
        Ok(Pins { stacks })
    }

    /// How many threads there are.
    pub fn len(&self) -> usize
        ensures { result ≡ length self.now }
    {
        self.stacks.len()
    }

    /// The pinned words of one thread, the latest last.
    pub fn at(&self, t: usize) -> &[u64]
        requires { t < length self.now }
        ensures words { result.now ≡ slice_index_or self.now t [] }
        ensures few { length result.now ≤ MOST_PINS }
    {
        self.stacks[t].as_slice()
    }

    /// Puts a word on one thread's pins.
    pub fn push(&mut self, t: usize, word: u64)
        requires { HasPinRoom self.old t }
        ensures { self.new ≡ with_pin_pushed self.old t word }
    {
        self.stacks[t].push(word);
    }

    /// Takes the latest off one thread's pins, if it has any.
    pub fn pop(&mut self, t: usize)
        requires { t < length self.old }
        ensures { self.new ≡ with_pin_popped self.old t }
    {
        self.stacks[t].pop();
    }

    /// Takes all of one thread's pins off.
    pub fn clear(&mut self, t: usize)
        requires { t < length self.old }
        ensures { self.new ≡ with_pins_cleared self.old t }
    {
        self.stacks[t] = PinStack::empty();
    }
}
