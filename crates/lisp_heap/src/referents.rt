//! What the words of a World are read as: values, and the objects to which they refer.

ghost use Rattle.std.specs.Prelude.{◌≡◌, ◌<◌, ◌+◌, Some, None, length, option_map, IfSome};
ghost use Rattle.heap_terms.specs.declared.cells.Value.{Value as NamedValue};
ghost use Rattle.heap_terms.specs.declared.kinds.Kind.{Kind};
ghost use Rattle.heap_terms.specs.Heap.{object_at};
ghost use Rattle.heap_terms.specs.Objects.{Object, kind_of, payload_of};
ghost use Rattle.heap_terms.specs.WellFormed.{IsLiving};
ghost use Rattle.heap_terms.specs.Spelling.{word_of};
ghost use Rattle.lisp_heap.specs.LivingWords.{AreFields, AreRaws, IsOfKind, IsReferent, IsWord};
ghost use Rattle.lisp_heap.specs.View.{heap_of};

use crate::world::World;
use heap_terms::{Kind, Value};
use lisp_words::{Lowtag, read_fixnum, read_header, untag};

/// An object to which a word refers.
#[derive(Clone, Copy)]
pub struct Referent {
    /// The index of its first word.
    pub index: u32,
    /// Its kind.
    pub kind: Kind,
    /// How many words of payload it has; 2 for a cons.
    pub n: u32,
}

/// Where words of an object lie, one after the other.
#[derive(Clone, Copy)]
pub struct Span {
    /// The index of the first.
    pub first: u32,
    /// How many there are.
    pub count: u32,
}

impl World {
    /// The value of a word that stands in a cell or a field.
    pub(crate) fn value_of(&self, word: u64) -> Value
        requires { IsWord (heap_of self.now) word }
        ensures { (v : NamedValue) → IsLiving (heap_of self.now).objects v →
            word ≡ word_of (heap_of self.now).objects v → result ≡ v }
    {
        if let Some(n) = read_fixnum(word) {
            return Value::Fix(n);
        }
        match untag(word) {
            Some((index, _)) => Value::Ref(self.labels.at((index / 2) as usize)),
            None => Value::Nil,
        }
    }

    /// The object to which the word of a cell or a field refers; `None` where it refers to none. It
    /// reads one word at most, the header.
    #[inline(always)]
    pub(crate) fn referent(&self, word: u64) -> Option<Referent>
        requires { IsWord (heap_of self.now) word }
        ensures { (v : NamedValue) → IsLiving (heap_of self.now).objects v →
            word ≡ word_of (heap_of self.now).objects v → IsReferent (heap_of self.now).objects v result }
    {
        // Looked into here, so that what follows may use what a World keeps true.
        let _space = &self.space;
        let (index, lowtag) = untag(word)?;
        let (kind, n) = match lowtag {
            Lowtag::List => (Kind::Cons, 2),
            Lowtag::Instance | Lowtag::Function | Lowtag::Other => {
                read_header(self.space.read(index))?
            }
        };
        Some(Referent { index, kind, n })
    }

    /// Where the object of a kind begins to which a word refers; `None` where it refers to none of that
    /// kind.
    pub(crate) fn object_of_kind(&self, word: u64, wanted: Kind) -> Option<u32>
        requires { IsWord (heap_of self.now) word }
        ensures { (v : NamedValue) → IsLiving (heap_of self.now).objects v →
            word ≡ word_of (heap_of self.now).objects v → IsOfKind (heap_of self.now).objects v wanted result }
    {
        let Referent { index, kind, .. } = self.referent(word)?;
        if kind == wanted { Some(index) } else { None }
    }

    /// Where the fields are of the object to which a word refers; `None` where it refers to no
    /// cons, vector, instance or closure.
    #[inline(always)]
    pub(crate) fn fields(&self, word: u64) -> Option<Span>
        requires { IsWord (heap_of self.now) word }
        ensures { (v : NamedValue) → IsLiving (heap_of self.now).objects v →
            word ≡ word_of (heap_of self.now).objects v → AreFields (heap_of self.now).objects v result }
    {
        // Looked into here, so that what follows may use what a World keeps true.
        let _space = &self.space;
        let Referent { index, kind, n } = self.referent(word)?;
        match kind {
            Kind::Cons => Some(Span {
                first: index,
                count: n,
            }),
            Kind::Vector | Kind::Instance | Kind::Closure => Some(Span {
                first: index + 1,
                count: n,
            }),
            Kind::Words | Kind::Weak | Kind::Table => None,
        }
    }

    /// Where the raw words are of the object to which a word refers; `None` where it refers to no
    /// object of raw words.
    #[inline(always)]
    pub(crate) fn raws(&self, word: u64) -> Option<Span>
        requires { IsWord (heap_of self.now) word }
        ensures { (v : NamedValue) → IsLiving (heap_of self.now).objects v →
            word ≡ word_of (heap_of self.now).objects v → AreRaws (heap_of self.now).objects v result }
    {
        // Looked into here, so that what follows may use what a World keeps true.
        let _space = &self.space;
        let Referent { index, kind, n } = self.referent(word)?;
        match kind {
            Kind::Words => Some(Span {
                first: index + 1,
                count: n,
            }),
            Kind::Cons | Kind::Vector | Kind::Instance | Kind::Closure | Kind::Weak | Kind::Table =>
                None,
        }
    }
}
