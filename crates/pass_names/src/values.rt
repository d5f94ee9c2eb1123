//! Names and values, read off places and words by labels.

ghost use Rattle.std.specs.Prelude.{◌≡◌, ℕ, Some};
ghost use Rattle.heap_terms.specs.declared.cells.Value.{Value as NamedValue};
ghost use Rattle.heap_terms.specs.Heap.{NamedHeap, object_at};
ghost use Rattle.heap_terms.specs.Living.{IsLiving};
ghost use Rattle.heap_terms.specs.Objects.{Object};
ghost use Rattle.heap_terms.specs.Spelling.{word_of};
ghost use Rattle.pass_names.specs.Labelled.{AreLabels, HasName, IsNamedWord};

use heap_terms::Value;
use lisp_words::{read_fixnum, untag};
use word_space::Prefilled;

/// The name of the object that begins at an index.
pub fn name_at(index: u32, labels: &Prefilled<u32>) -> u32
    requires { HasName labels.now index }
    ensures { (a : NamedHeap) (name : ℕ) (o : Object) → AreLabels a labels.now →
        object_at a.objects name ≡ Some o → index ≡ o.place → result ≡ name }
{
    labels.at((index / 2) as usize)
}

/// The value of a word that stands for a living value.
pub fn value_of(word: u64, labels: &Prefilled<u32>) -> Value
    requires { IsNamedWord labels.now word }
    ensures { (a : NamedHeap) (v : NamedValue) → AreLabels a labels.now → IsLiving a.objects v →
        word ≡ word_of a.objects v → result ≡ v }
{
    if let Some(n) = read_fixnum(word) {
        return Value::Fix(n);
    }
    match untag(word) {
        Some((index, _)) => Value::Ref(labels.at((index / 2) as usize)),
        None => Value::Nil,
    }
}
