//! The bytes of a script that are not read yet.

ghost use Rattle.std.specs.Prelude.{ℕ, List, ◌≡◌, ◌↔◌, ◌<◌, ◌≤◌, ◌+◌, ◌==◌, [], ◌∷◌, IfOk, IfErr, OnOk, length, drop, IsTrue, MatchOption, slice_index};
ghost use Rattle.std.specs.Str.Lines.{lines};
ghost use Rattle.heap_terms.specs.Fields.{turns_of};
ghost use Rattle.heap_terms.specs.declared.faults.Why.TheVariants.{Fields};
ghost use Rattle.script_text.specs.ReaderAnswers.{only_field};
ghost use Rattle.script_text.specs.Commands.{Moved, but_first, in_first, a_cell, an_index, a_fixnum, a_signed, a_wide, a_generation, a_weakness, a_capacity, a_raw_cell, a_raw_word, SaysCommand};
ghost use Rattle.script_text.specs.Left.{Taken, NoneLeft, fields_left, lines_after};
ghost use Rattle.script_text.specs.Values.{one_by_one};

use crate::cells::{cell, raw_cell};
use crate::commands::plain_command;
use crate::fields::{len_of_field, without_blanks};
use crate::numbers::{capacity, fixnum, number_up_to, signed};
use crate::raw_words::raw_word;
use crate::turns::{Turns, plain_digit, turns_in};
use crate::weaknesses::weakness;
use heap_terms::{Cell, Command, MOST_ELEMENTS, Raw, Weakness, Why};
use std::marker::Model;

/// Where the bytes are that are not read yet.
#[derive(Drop)]
pub(crate) struct Cursor<'a> {
    rest: &'a [u8],
}

impl<'a> Model for Cursor<'a> {
    ghost use Rattle.std.specs.Prelude.{ℕ, List};

    ghost Value = { List ℕ };

    ghost view = { λ c. c.rest.now };
}

impl<'a> Cursor<'a> {
    /// The cursor before these bytes.
    pub(crate) fn new(bytes: &'a [u8]) -> Self
        ensures { result ≡ bytes.now }
    {
        Cursor { rest: bytes }
    }

    /// Whether nothing is left, and so no line.
    pub(crate) fn is_done(&self) -> bool
        ensures { IsTrue result ↔ (lines self.now ≡ []) }
    {
        self.rest.is_empty()
    }

    /// How many bytes are left.
    pub(crate) fn len(&self) -> usize
        ensures { result ≡ length self.now }
    {
        self.rest.len()
    }

    /// The next field of the line.
    pub(crate) fn next_field(&mut self) -> Option<&'a [u8]>
        ensures { MatchOption result (NoneLeft self.old self.new) (λ field. Taken self.old field.now self.new) }
    {
        let rest = without_blanks(self.rest);
        let len = len_of_field(rest);
        let (field, after) = rest.split_at(len);
        self.rest = after;
        if len == 0 {
            return None;
        }
        Some(field)
    }

    /// The command of a line in its usual spelling.
    #[inline(always)]
    pub(crate) fn plain_command(&mut self) -> Option<Command>
        ensures { MatchOption result (self.new ≡ self.old) (λ command. SaysCommand self.old command self.new) }
    {
        let (command, after) = plain_command(self.rest)?;
        self.rest = after;
        Some(command)
    }

    /// The cursor at the same place.
    pub(crate) fn here(&self) -> Cursor<'a>
        ensures { result ≡ self.now }
    {
        Cursor { rest: self.rest }
    }

    /// The next field, where the line has one.
    fn field(&mut self) -> Result<&'a [u8], Why>
        ensures some { IfOk result (λ field. fields_left self.old ≡ field.now ∷ but_first (fields_left self.old)) }
        ensures none { IfErr result (λ why. (why ≡ Fields) × (fields_left self.old ≡ [])) }
        ensures moved { OnOk result (Moved self.old self.new) }
    {
        match self.next_field() {
            Some(field) => Ok(field),
            None => Err(Why::Fields),
        }
    }

    /// The field of a line that has one alone.
    pub(crate) fn only_field(&mut self) -> Result<&'a [u8], Why>
        ensures some { IfOk result (λ field. only_field (fields_left self.old) ≡ Ok field.now) }
        ensures none { IfErr result (λ why. only_field (fields_left self.old) ≡ Err why) }
        ensures lines { OnOk result (lines_after self.new ≡ lines_after self.old) }
    {
        let field = self.field()?;
        if self.is_at_end() {
            Ok(field)
        } else {
            Err(Why::Fields)
        }
    }

    /// A Lisp cell.
    pub(crate) fn cell(&mut self) -> Result<Cell, Why>
        ensures value { result ≡ in_first a_cell (fields_left self.old) }
        ensures moved { OnOk result (Moved self.old self.new) }
    {
        let field = self.field()?;
        cell(field)
    }

    /// An index of a field or an element.
    pub(crate) fn index(&mut self) -> Result<u32, Why>
        ensures value { result ≡ in_first an_index (fields_left self.old) }
        ensures moved { OnOk result (Moved self.old self.new) }
    {
        let field = self.field()?;
        number_up_to(field, MOST_ELEMENTS)
    }

    /// A fixnum.
    pub(crate) fn fixnum(&mut self) -> Result<i64, Why>
        ensures value { result ≡ in_first a_fixnum (fields_left self.old) }
        ensures moved { OnOk result (Moved self.old self.new) }
    {
        let field = self.field()?;
        fixnum(field)
    }

    /// A signed number of 64 bits.
    pub(crate) fn signed(&mut self) -> Result<i64, Why>
        ensures value { result ≡ in_first a_signed (fields_left self.old) }
        ensures moved { OnOk result (Moved self.old self.new) }
    {
        let field = self.field()?;
        signed(field)
    }

    /// A number of 32 bits.
    pub(crate) fn wide(&mut self) -> Result<u32, Why>
        ensures value { result ≡ in_first a_wide (fields_left self.old) }
        ensures moved { OnOk result (Moved self.old self.new) }
    {
        let field = self.field()?;
        number_up_to(field, u32::MAX)
    }

    /// A generation up to `oldest`.
    pub(crate) fn generation(&mut self, oldest: u8) -> Result<u8, Why>
        ensures value { result ≡ in_first (a_generation oldest) (fields_left self.old) }
        ensures moved { OnOk result (Moved self.old self.new) }
    {
        let field = self.field()?;
        let generation = number_up_to(field, u32::from(oldest))?;
        Ok(generation as u8)
    }

    /// The weakness of a table.
    pub(crate) fn weakness(&mut self) -> Result<Weakness, Why>
        ensures value { result ≡ in_first a_weakness (fields_left self.old) }
        ensures moved { OnOk result (Moved self.old self.new) }
    {
        let field = self.field()?;
        weakness(field)
    }

    /// For how many pairs a table has room.
    pub(crate) fn capacity(&mut self) -> Result<u32, Why>
        ensures value { result ≡ in_first a_capacity (fields_left self.old) }
        ensures moved { OnOk result (Moved self.old self.new) }
    {
        let field = self.field()?;
        capacity(field)
    }

    /// A raw cell.
    pub(crate) fn raw_cell(&mut self) -> Result<Raw, Why>
        ensures value { result ≡ in_first a_raw_cell (fields_left self.old) }
        ensures moved { OnOk result (Moved self.old self.new) }
    {
        let field = self.field()?;
        raw_cell(field)
    }

    /// A raw word.
    pub(crate) fn raw_word(&mut self) -> Result<u64, Why>
        ensures value { result ≡ in_first a_raw_word (fields_left self.old) }
        ensures moved { OnOk result (Moved self.old self.new) }
    {
        let field = self.field()?;
        raw_word(field)
    }

    /// Goes to the line after this one.
    pub(crate) fn next_line(&mut self)
        ensures { lines self.new ≡ lines_after self.old }
    {
        self.rest = after_line(self.rest);
    }

    /// Whether no field is left in the line.
    #[tactic(auto, using(crate::proofs::Spelled::lf_ends))]
    pub(crate) fn is_at_end(&self) -> bool
        ensures { result ≡ (length (fields_left self.now) == 0) }
    {
        let rest = self.rest;
        if !rest.is_empty() && rest[0] == b'\n' {
            return true;
        }
        self.has_fields(0)
    }

    /// The thread of the next field of a schedule, where that is one digit in its usual spelling.
    #[tactic(auto, using(crate::proofs::Spelled::digit_turn))]
    pub(crate) fn plain_turn(&mut self, threads: u32) -> Option<u32>
        ensures { MatchOption result (self.new ≡ self.old) (λ thread. Taken self.old ((thread + 48) ∷ []) self.new × (turns_of threads ((thread + 48) ∷ []) ≡ Ok (thread ∷ []))) }
    {
        let (digit, after) = plain_digit(self.rest)?;
        let thread = u32::from(digit);
        if thread >= threads {
            return None;
        }
        self.rest = after;
        Some(thread)
    }

    /// The turns of the next field of a schedule, in a script with so many threads.
    pub(crate) fn turns(&mut self, threads: u32) -> Option<Result<Turns, Why>>
        ensures { MatchOption result (NoneLeft self.old self.new) (λ turns. (field : List ℕ) × Taken self.old field self.new × (one_by_one turns ≡ turns_of threads field)) }
    {
        match self.next_field() {
            Some(field) => Some(turns_in(field, threads)),
            None => None,
        }
    }

    /// Whether so many fields are left in the line.
    pub(crate) fn has_fields(&self, count: usize) -> bool
        ensures { result ≡ (length (fields_left self.now) == count) }
    {
        let mut rest = Cursor { rest: self.rest };
        for _ in 0..count {
            if rest.next_field().is_none() {
                return false;
            }
        }
        rest.next_field().is_none()
    }
}

/// Where the line ends: at an LF, or where no byte is left.
fn end_of_line(bytes: &[u8]) -> usize
    ensures within { result ≤ length bytes.now }
    ensures same { lines_after bytes.now ≡ lines_after (drop result bytes.now) }
    ensures lf { result < length bytes.now → slice_index bytes.now result ≡ 10 }
{
    let mut at = 0;
    while at < bytes.len() && bytes[at] != b'\n' {
        at += 1;
    }
    at
}

/// The bytes after the line.
fn after_line(bytes: &[u8]) -> &[u8]
    ensures { lines result.now ≡ lines_after bytes.now }
{
    let end = end_of_line(bytes);
    if end < bytes.len() {
        let (_, after) = bytes.split_at(end + 1);
        return after;
    }
    let (_, after) = bytes.split_at(end);
    after
}
