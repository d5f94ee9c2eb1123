//! The fields of a line that are not read yet.

ghost use Rattle.std.specs.Prelude.{ℕ, ◌≡◌, ◌≢◌, ◌↔◌, ◌∷◌, [], ◌<◌, ◌≤◌, length, slice_index, IsTrue, MatchOption, codes};
ghost use Rattle.std.specs.List.{slice_split};
ghost use Rattle.journal_text.specs.FieldReading.{a_cell, a_fixnum, a_generation, a_name, a_raw, a_type, a_value, a_weakness, a_word, an_index};
ghost use Rattle.journal_text.specs.AnswerReading.{a_filling, a_number_64, an_object, the_word};
ghost use Rattle.journal_text.specs.Cursors.{fields_left, is_space};
ghost use Rattle.journal_text.specs.PieceReading.{a_page, a_page_count};
ghost use Rattle.journal_text.specs.LineReading.{Gives, a_capacity, a_collected, a_generation_number, a_long, a_number_32, an_element, first};

use super::openings::{Filling, filling_word};
use super::{items, numbers, values};
use heap_terms::{
    Cell, MOST_ELEMENTS, MOST_PAGES, MOST_PAIRS, OLDEST_COLLECTED, OLDEST_GENERATION, PageType,
    Raw, Value, Weakness,
};
use std::marker::Model;

/// Where the fields are that are not read yet: what stands between single spaces.
#[derive(Drop)]
pub(crate) struct Fields<'a> {
    rest: &'a [u8],
    // Whether a field is left; the last one may be empty.
    some: bool,
}

impl<'a> Model for Fields<'a> {
    ghost use Rattle.std.specs.Prelude.{ℕ, List};
    ghost use Rattle.journal_text.specs.AnswerReading.{a_filling, a_number_64, an_object, the_word};
    ghost use Rattle.journal_text.specs.Cursors.{fields_left};

    ghost Value = { List (List ℕ) };

    ghost view = { λ f. fields_left f.some f.rest.now };
}

impl<'a> Fields<'a> {
    /// The fields of a line.
    pub(crate) fn new(line: &'a [u8]) -> Self
        ensures { result ≡ slice_split is_space line.now }
    {
        Fields {
            rest: line,
            some: true,
        }
    }

    /// Whether no field is left.
    pub(crate) fn is_done(&self) -> bool
        ensures { IsTrue result ↔ (self.now ≡ []) }
    {
        !self.some
    }

    /// The next field.
    #[inline]
    pub(crate) fn next(&mut self) -> Option<&'a [u8]>
        ensures { MatchOption result ((self.old ≡ []) × (self.new ≡ [])) (λ field. self.old ≡ field.now ∷ self.new) }
    {
        if !self.some {
            return None;
        }
        let (field, rest, some) = first_field(self.rest);
        self.rest = rest;
        self.some = some;
        Some(field)
    }

    /// A Lisp cell.
    pub(crate) fn cell(&mut self) -> Option<Cell>
        ensures { Gives (first a_cell) self.old self.new result }
    {
        let field = self.next()?;
        values::cell(field)
    }

    /// A raw cell.
    pub(crate) fn raw(&mut self) -> Option<Raw>
        ensures { Gives (first a_raw) self.old self.new result }
    {
        let field = self.next()?;
        values::raw(field)
    }

    /// A fixnum.
    pub(crate) fn fixnum(&mut self) -> Option<i64>
        ensures { Gives (first a_fixnum) self.old self.new result }
    {
        let field = self.next()?;
        values::fixnum(field)
    }

    /// A signed number of 64 bits.
    pub(crate) fn long(&mut self) -> Option<i64>
        ensures { Gives (first a_long) self.old self.new result }
    {
        let field = self.next()?;
        numbers::signed(field, 0x8000_0000_0000_0000)
    }

    /// How many elements an object has, or the index of one.
    pub(crate) fn element(&mut self) -> Option<u32>
        ensures { Gives (first an_element) self.old self.new result }
    {
        let field = self.next()?;
        numbers::number_32(field, MOST_ELEMENTS)
    }

    /// For how many pairs a table has room.
    pub(crate) fn capacity(&mut self) -> Option<u32>
        ensures { Gives (first a_capacity) self.old self.new result }
    {
        let field = self.next()?;
        numbers::count(field, MOST_PAIRS)
    }

    /// A number of 32 bits.
    pub(crate) fn number_32(&mut self) -> Option<u32>
        ensures { Gives (first a_number_32) self.old self.new result }
    {
        let field = self.next()?;
        numbers::number_32(field, u32::MAX)
    }

    /// A generation that is collected.
    pub(crate) fn collected(&mut self) -> Option<u8>
        ensures { Gives (first a_collected) self.old self.new result }
    {
        let field = self.next()?;
        numbers::number_8(field, OLDEST_COLLECTED)
    }

    /// A generation.
    pub(crate) fn generation_number(&mut self) -> Option<u8>
        ensures { Gives (first a_generation_number) self.old self.new result }
    {
        let field = self.next()?;
        numbers::number_8(field, OLDEST_GENERATION)
    }

    /// A raw word.
    pub(crate) fn word(&mut self) -> Option<u64>
        ensures { Gives (first a_word) self.old self.new result }
    {
        let field = self.next()?;
        numbers::word(field)
    }

    /// The word of a weakness.
    pub(crate) fn weakness(&mut self) -> Option<Weakness>
        ensures { Gives (first a_weakness) self.old self.new result }
    {
        let field = self.next()?;
        values::weakness(field)
    }

    /// The type of a page.
    pub(crate) fn page_type(&mut self) -> Option<PageType>
        ensures { Gives (first a_type) self.old self.new result }
    {
        let field = self.next()?;
        values::page_type(field)
    }

    /// The generation of a page, with its `g`.
    pub(crate) fn generation(&mut self) -> Option<u8>
        ensures { Gives (first a_generation) self.old self.new result }
    {
        let field = self.next()?;
        values::generation(field)
    }

    /// A value.
    pub(crate) fn value(&mut self) -> Option<Value>
        ensures { Gives (first a_value) self.old self.new result }
    {
        let field = self.next()?;
        values::value(field)
    }

    /// The name of an object.
    pub(crate) fn name(&mut self) -> Option<u32>
        ensures { Gives (first a_name) self.old self.new result }
    {
        let field = self.next()?;
        values::name(field)
    }

    /// An index.
    pub(crate) fn index(&mut self) -> Option<u32>
        ensures { Gives (first an_index) self.old self.new result }
    {
        let field = self.next()?;
        values::index(field)
    }

    /// A number of 64 bits.
    pub(crate) fn number_64(&mut self) -> Option<u64>
        ensures { Gives (first a_number_64) self.old self.new result }
    {
        let field = self.next()?;
        numbers::number(field, u64::MAX)
    }

    /// This word of three bytes.
    pub(crate) fn the_word(&mut self, word: &[u8; 3]) -> Option<()>
        ensures { Gives (first (the_word word.now)) self.old self.new result }
    {
        let field = self.next()?;
        if field == word.as_slice() {
            Some(())
        } else {
            None
        }
    }

    /// The object of a large page, as its name and its index.
    pub(crate) fn object(&mut self) -> Option<(u32, u32)>
        ensures { Gives (first an_object) self.old self.new result }
    {
        let field = self.next()?;
        items::object(field)
    }

    /// The word behind the generation of a page.
    pub(crate) fn filling(&mut self) -> Option<Filling>
        ensures { Gives (first a_filling) self.old self.new result }
    {
        let field = self.next()?;
        filling_word(field)
    }

    /// The arrow before an answer.
    pub(crate) fn arrow(&mut self) -> Option<()>
        ensures { Gives (first (the_word (codes "->"))) self.old self.new result }
    {
        let field = self.next()?;
        if field == b"->".as_slice() {
            Some(())
        } else {
            None
        }
    }

    /// The number of a page.
    pub(crate) fn page(&mut self) -> Option<u32>
        ensures { Gives (first a_page) self.old self.new result }
    {
        let field = self.next()?;
        numbers::number_32(field, MOST_PAGES - 1)
    }

    /// How many pages a region has.
    pub(crate) fn page_count(&mut self) -> Option<u32>
        ensures { Gives (first a_page_count) self.old self.new result }
    {
        let field = self.next()?;
        numbers::count(field, MOST_PAGES)
    }
}

/// How many bytes stand before the first space.
fn len_of_field(bytes: &[u8]) -> usize
    ensures within { result ≤ length bytes.now }
    ensures before { (k : ℕ) → k < result → slice_index bytes.now k ≢ 32 }
    ensures found { result < length bytes.now → slice_index bytes.now result ≡ 32 }
{
    let mut len = 0;
    while len < bytes.len() && bytes[len] != b' ' {
        len += 1;
    }
    len
}

/// The first field, the bytes behind it and its space, and whether a field is there.
#[inline]
fn first_field(bytes: &[u8]) -> (&[u8], &[u8], bool)
    ensures { slice_split is_space bytes.now ≡ result.0.now ∷ fields_left result.2 result.1.now }
{
    let len = len_of_field(bytes);
    let (field, after) = bytes.split_at(len);
    if after.is_empty() {
        return (field, after, false);
    }
    let (_, behind) = after.split_at(1);
    (field, behind, true)
}
