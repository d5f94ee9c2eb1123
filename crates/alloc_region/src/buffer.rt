//! The buffer in which an object is built.

ghost use Rattle.std.specs.Prelude.{◌≡◌, ◌≢◌, ◌+◌, ◌<◌, ◌≤◌, [], ◌∷◌, ◌++◌, length, replicate, IfOk};
ghost use Rattle.heap_terms.specs.declared.kinds.Kind.TheVariants as kinds;
ghost use Rattle.heap_terms.specs.Fresh.{fresh_contents, IsBuildable};
ghost use Rattle.heap_terms.specs.Layout as layout;
ghost use Rattle.heap_terms.specs.Spelling.{spelling, with_header};

use heap_terms::{Kind, Memory};
use lisp_words::header;
use std::alloc::Global;
use std::marker::Model;

/// The word of the value Unbound, which stands in the unused slots of a table.
const UNBOUND: u64 = 0x51;

/// Room for the words of one object, and the words that were built.
#[derive(Drop)]
pub struct Buffer {
    words: Vec<u64>,
    len: usize,
}

impl Model for Buffer {
    ghost use Rattle.std.specs.Prelude.{◌≤◌, length, take};
    ghost use Rattle.alloc_region.specs.View.{BufferView};

    ghost Value = { BufferView };

    ghost view = { λ b. record { built = take b.len b.words.items; room = length b.words.items } };

    ghost invariant = { λ b. b.len ≤ length b.words.items };
}

impl Buffer {
    /// An empty buffer. It is refused only for want of memory.
    pub fn new(alloc: Global, room: usize) -> Result<Buffer, Memory>
        ensures { IfOk result (λ b. b ≡ record { built = []; room = room }) }
    {
        let mut words = Vec::new(alloc);
        match words.resize(room, 0) {
            Ok(()) => Ok(Buffer { words, len: 0 }),
            Err(_) => Err(Memory),
        }
    }

    /// The words that were built.
    pub fn built(&self) -> &[u64]
        ensures { result.now ≡ self.now.built }
    {
        &self.words[..self.len]
    }

    /// How many words were built. It is at most the room.
    pub fn len(&self) -> usize
        ensures value { result ≡ length self.now.built }
        ensures within { result ≤ self.now.room }
    {
        self.len
    }

    /// Forgets the words that were built. The room stays.
    pub fn clear(&mut self)
        ensures { self.new ≡ record self.old { built = [] } }
    {
        self.len = 0;
    }

    /// Adds a word at the end.
    pub fn push(&mut self, word: u64)
        requires { length self.old.built < self.old.room }
        ensures { self.new ≡ record self.old { built = self.old.built ++ word ∷ [] } }
    {
        self.words[self.len] = word;
        self.len += 1;
    }

    /// Adds a word n times at the end.
    pub fn repeat(&mut self, n: usize, word: u64)
        requires { length self.old.built + n ≤ self.old.room }
        ensures { self.new ≡ record self.old { built = self.old.built ++ replicate n word } }
    {
        let end = self.len + n;
        self.words[self.len..end].fill(word);
        self.len = end;
    }

    /// Builds the words of an object without references, in place of what was built before.
    pub fn build(&mut self, kind: Kind, n: u32, seed: u64)
        requires buildable { IsBuildable kind n seed }
        requires fits { layout.size_of kind n ≤ self.old.room }
        ensures { self.new ≡ record self.old { built = spelling [] (fresh_contents kind n seed) } }
    {
        match kind {
            Kind::Cons => self.build_cons(),
            Kind::Table => self.build_table(n, seed),
            Kind::Vector | Kind::Instance | Kind::Closure | Kind::Words | Kind::Weak => {
                self.build_even(kind, n, seed)
            }
        }
    }

    /// Two fixnums 0.
    fn build_cons(&mut self)
        requires { 2 ≤ self.old.room }
        ensures { self.new ≡ record self.old { built = 0 ∷ 0 ∷ [] } }
    {
        self.clear();
        self.push(0);
        self.push(0);
    }

    /// A header, n times the same word, and a word 0 where that is needed for an even number.
    fn build_even(&mut self, kind: Kind, n: u32, word: u64)
        requires headed { kind ≢ kinds.Cons }
        requires fits { layout.size_with_header n ≤ self.old.room }
        ensures { self.new ≡ record self.old { built = with_header kind (replicate n word) } }
    {
        self.clear();
        self.push(header(kind, n));
        self.repeat(n as usize, word);
        if n % 2 == 0 {
            self.push(0);
        }
    }

    /// A table without a pair: header, weakness, flag and count, the unused slots, the buckets.
    fn build_table(&mut self, n: u32, seed: u64)
        requires buildable { IsBuildable kinds.Table n seed }
        requires fits { n + 1 ≤ self.old.room }
        ensures { self.new ≡ record self.old { built = spelling [] (fresh_contents kinds.Table n seed) } }
    {
        let half = (n as usize - 3) / 2;
        self.clear();
        self.push(header(Kind::Table, n));
        self.push(2 * seed);
        self.push(0);
        self.push(0);
        self.repeat(half, UNBOUND);
        self.repeat(half, 0);
    }
}
