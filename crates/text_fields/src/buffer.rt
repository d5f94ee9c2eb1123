//! The buffer to which the journal is appended. A line reserves its room at its start; what is
//! appended to it then takes no memory and makes no test.

ghost use Rattle.std.specs.Prelude.{◌≡◌, ◌+◌, ◌≤◌, [], ◌++◌, ◌*◌, ◌∷◌, length, OnOk, IfOk, decimal};
ghost use Rattle.heap_terms.specs.Text.{field, name_text, index_text, cell_field};

use crate::cursor::{put_index_end, put_number, put_object, put_three_cells};
use crate::room::{CELL_FIELD, INDEX_FIELD, NUMBER, OBJECT};
use heap_terms::Cell;
use std::alloc::{AllocError, Global};
use std::marker::Model;

/// A text that is being made. There are bytes behind its end already, which mean nothing, so that a
/// piece is written over them as a whole.
#[derive(Drop)]
pub struct Text {
    bytes: Vec<u8>,
    end: usize,
}

impl Model for Text {
    ghost use Rattle.std.specs.Prelude.{◌≤◌, ◌-◌, take, vec_len};
    ghost use Rattle.text_fields.specs.Buffers.{TextView};

    ghost Value = { TextView };

    ghost view = { λ t. record { text = take t.end t.bytes.items; room = vec_len t.bytes - t.end } };

    ghost invariant = { λ t. t.end ≤ vec_len t.bytes };
}

/// How many bytes more than a line needs are made ready at once.
const AHEAD: usize = 1024;

impl Text {
    /// The empty text, in memory for so many bytes.
    pub fn with_capacity(alloc: Global, capacity: usize) -> Result<Text, AllocError>
        ensures { IfOk result (λ text. text.text ≡ []) }
    {
        let bytes = Vec::with_capacity(alloc, capacity)?;
        Ok(Text { bytes, end: 0 })
    }

    /// Makes room for so many bytes more.
    #[inline(always)]
    pub fn reserve(&mut self, more: usize) -> Result<(), AllocError>
        ensures room { OnOk result (more ≤ self.new.room) }
        ensures text { OnOk result (self.new.text ≡ self.old.text) }
    {
        if self.bytes.len() - self.end < more {
            self.grow(more)?;
        }
        Ok(())
    }

    /// The same, where there is not so much room.
    #[cold]
    #[inline(never)]
    fn grow(&mut self, more: usize) -> Result<(), AllocError>
        ensures room { OnOk result (more ≤ self.new.room) }
        ensures text { OnOk result (self.new.text ≡ self.old.text) }
    {
        let len = self.end.saturating_add(more).saturating_add(AHEAD);
        self.bytes.resize(len, 0)
    }

    /// Appends a few bytes for which there is room.
    #[inline(always)]
    pub fn push<const N: usize>(&mut self, piece: &[u8; N])
        requires { N ≤ self.old.room }
        ensures text { self.new.text ≡ self.old.text ++ piece.now }
        ensures room { self.old.room ≤ self.new.room + N }
    {
        self.push_slice(piece.as_slice());
    }

    /// Appends bytes for which there is room.
    #[inline(always)]
    pub fn push_slice(&mut self, piece: &[u8])
        requires { length piece.now ≤ self.old.room }
        ensures text { self.new.text ≡ self.old.text ++ piece.now }
        ensures room { self.old.room ≤ self.new.room + length piece.now }
    {
        let start = self.end;
        let end = start + piece.len();
        self.bytes[start..end].copy_from_slice(piece);
        self.end = end;
    }

    /// Appends a number, for which there is room.
    #[inline(always)]
    pub fn push_number(&mut self, n: u64)
        requires { NUMBER ≤ self.old.room }
        ensures text { self.new.text ≡ self.old.text ++ decimal n }
        ensures room { self.old.room ≤ self.new.room + NUMBER }
    {
        let start = self.end;
        self.end = put_number(self.bytes.as_mut_slice(), start, n);
    }

    /// Appends a word and, each as a field, the name of an object and an index. There is room for it.
    #[inline(always)]
    pub fn push_object<const N: usize>(&mut self, word: &[u8; N], name: u32, index: u32)
        requires { N + OBJECT ≤ self.old.room }
        ensures text { self.new.text ≡ self.old.text ++ (word.now ++ (field (name_text name) ++ field (index_text index))) }
        ensures room { self.old.room ≤ self.new.room + (N + OBJECT) }
    {
        let start = self.end;
        self.end = put_object(self.bytes.as_mut_slice(), start, word, name, index);
    }

    /// Appends an index as a field, and ends the line. There is room for it.
    #[inline(always)]
    pub fn push_index_end(&mut self, index: u32)
        requires { INDEX_FIELD + 1 ≤ self.old.room }
        ensures text { self.new.text ≡ self.old.text ++ (field (index_text index) ++ 10 ∷ []) }
        ensures room { self.old.room ≤ self.new.room + (INDEX_FIELD + 1) }
    {
        let start = self.end;
        self.end = put_index_end(self.bytes.as_mut_slice(), start, index);
    }

    /// Appends a word and, each as a field, three cells. There is room for them and some more.
    #[inline(always)]
    pub(crate) fn push_three_cells<const N: usize>(
        &mut self,
        word: &[u8; N],
        a: Cell,
        b: Cell,
        c: Cell,
    )
        requires { N + 32 ≤ self.old.room }
        ensures text { self.new.text ≡ self.old.text ++ (word.now ++ (cell_field a ++ cell_field b ++ cell_field c)) }
        ensures room { self.old.room ≤ self.new.room + (N + 3 * CELL_FIELD) }
    {
        let start = self.end;
        self.end = put_three_cells(self.bytes.as_mut_slice(), start, word, a, b, c);
    }

    /// Appends bytes.
    pub fn append(&mut self, piece: &[u8]) -> Result<(), AllocError>
        ensures { OnOk result (self.new.text ≡ self.old.text ++ piece.now) }
    {
        self.reserve(piece.len())?;
        self.push_slice(piece);
        Ok(())
    }

    /// The text's bytes.
    pub fn into_bytes(self) -> Vec<u8>
        ensures { result.items ≡ self.text }
    {
        let Text { mut bytes, end } = self;
        bytes.truncate(end);
        bytes
    }
}
