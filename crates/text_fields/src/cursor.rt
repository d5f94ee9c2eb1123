//! Writing into bytes that are there already: each function writes a piece from a place on and answers
//! the place behind it. So the place of a line's end stays in a register while the line is made.

ghost use Rattle.std.specs.Prelude.{◌≡◌, ◌+◌, ◌-◌, ◌*◌, ◌/◌, ◌%◌, ◌<◌, ◌≤◌, [], ◌∷◌, ◌++◌, length, take, slice_index_or, decimal};
ghost use Rattle.heap_terms.specs.Text.{field, name_text, index_text, cell_text, cell_field};
ghost use Rattle.text_fields.specs.DigitCounts.{digit_count};
ghost use Rattle.text_fields.specs.declared.threes.TheConstants.{THREES};

use crate::threes::THREES;
use heap_terms::Cell;
use itoa::Buffer;

/// Writes a few bytes.
#[inline(always)]
pub(crate) fn put<const N: usize>(bytes: &mut [u8], at: usize, piece: &[u8; N]) -> usize
    requires { at + N ≤ length bytes.old }
    ensures text { take result bytes.new ≡ take at bytes.old ++ piece.now }
    ensures end { result ≡ at + N }
    ensures len { length bytes.new ≡ length bytes.old }
{
    put_slice(bytes, at, piece.as_slice())
}

/// Writes bytes.
#[inline(always)]
pub(crate) fn put_slice(bytes: &mut [u8], at: usize, piece: &[u8]) -> usize
    requires { at + length piece.now ≤ length bytes.old }
    ensures text { take result bytes.new ≡ take at bytes.old ++ piece.now }
    ensures end { result ≡ at + length piece.now }
    ensures len { length bytes.new ≡ length bytes.old }
{
    let end = at + piece.len();
    bytes[at..end].copy_from_slice(piece);
    end
}

/// Writes four bytes, of which so many count.
#[inline(always)]
fn put_front(bytes: &mut [u8], at: usize, four: &[u8; 4], count: usize) -> usize
    requires room { at + 4 ≤ length bytes.old }
    requires some { count ≤ 4 }
    ensures text { take result bytes.new ≡ take at bytes.old ++ take count four.now }
    ensures end { result ≡ at + count }
    ensures len { length bytes.new ≡ length bytes.old }
{
    bytes[at..at + 4].copy_from_slice(four.as_slice());
    at + count
}

/// A byte of the table.
#[inline(always)]
fn byte_at(i: usize) -> u8
    requires { i < 4000 }
    ensures { result ≡ slice_index_or THREES i 0 }
{
    THREES[i]
}

/// Four bytes of the table.
#[inline(always)]
fn four_at(i: usize) -> [u8; 4]
    requires { i + 3 < 4000 }
    ensures { result ≡ slice_index_or THREES i 0 ∷ slice_index_or THREES (i + 1) 0 ∷ slice_index_or THREES (i + 2) 0 ∷ slice_index_or THREES (i + 3) 0 ∷ [] }
{
    [byte_at(i), byte_at(i + 1), byte_at(i + 2), byte_at(i + 3)]
}

/// How many digits a number below 1,000 has.
#[inline(always)]
fn digits_of(n: u32) -> usize
    requires { n < 1000 }
    ensures count { result ≡ digit_count n }
{
    (byte_at(n as usize * 4 + 3) - b'0') as usize
}

/// Writes a number below 1,000.
#[inline(always)]
fn put_short(bytes: &mut [u8], at: usize, n: u32) -> usize
    requires most { n < 1000 }
    requires room { at + 4 ≤ length bytes.old }
    ensures text { take result bytes.new ≡ take at bytes.old ++ decimal n }
    ensures end { result ≤ at + 3 }
    ensures len { length bytes.new ≡ length bytes.old }
{
    let count = digits_of(n);
    let from = n as usize * 4 + 3 - count;
    put_front(bytes, at, &four_at(from), count)
}

/// Writes the three digits of a number below 1,000, with zeros at the front.
#[inline(always)]
fn put_three(bytes: &mut [u8], at: usize, n: u32) -> usize
    requires most { n < 1000 }
    requires room { at + 4 ≤ length bytes.old }
    ensures text { take result bytes.new ≡ take at bytes.old ++ (48 + n / 100) ∷ (48 + n % 100 / 10) ∷ (48 + n % 10) ∷ [] }
    ensures end { result ≡ at + 3 }
    ensures len { length bytes.new ≡ length bytes.old }
{
    put_front(bytes, at, &four_at(n as usize * 4), 3)
}

/// Writes a number of any length.
#[cold]
#[inline(never)]
fn put_long(bytes: &mut [u8], at: usize, n: u64) -> usize
    requires { at + 20 ≤ length bytes.old }
    ensures text { take result bytes.new ≡ take at bytes.old ++ decimal n }
    ensures end { result ≤ at + 20 }
    ensures len { length bytes.new ≡ length bytes.old }
{
    let mut buffer = Buffer::new();
    put_slice(bytes, at, buffer.format(n).as_bytes())
}

/// Writes a number.
#[inline(always)]
pub(crate) fn put_number(bytes: &mut [u8], at: usize, n: u64) -> usize
    requires { at + 20 ≤ length bytes.old }
    ensures text { take result bytes.new ≡ take at bytes.old ++ decimal n }
    ensures end { result ≤ at + 20 }
    ensures len { length bytes.new ≡ length bytes.old }
{
    if n < 1000 {
        put_short(bytes, at, n as u32)
    } else if n < 1_000_000 {
        let thousands = n as u32 / 1000;
        let end = put_short(bytes, at, thousands);
        put_three(bytes, end, n as u32 - 1000 * thousands)
    } else {
        put_long(bytes, at, n)
    }
}

/// Writes a word and, each as a field, the name of an object and an index.
#[inline(always)]
pub(crate) fn put_object<const N: usize>(
    bytes: &mut [u8],
    at: usize,
    word: &[u8; N],
    name: u32,
    index: u32,
) -> usize
    requires { at + N + 44 ≤ length bytes.old }
    ensures text { take result bytes.new ≡ take at bytes.old ++ (word.now ++ (field (name_text name) ++ field (index_text index))) }
    ensures end { result ≤ at + N + 44 }
    ensures len { length bytes.new ≡ length bytes.old }
{
    let worded = put(bytes, at, word);
    let marked = put(bytes, worded, b" #");
    let named = put_number(bytes, marked, name as u64);
    let spaced = put(bytes, named, b" @");
    put_number(bytes, spaced, index as u64)
}

/// Writes an index as a field, and ends the line.
#[inline(always)]
pub(crate) fn put_index_end(bytes: &mut [u8], at: usize, index: u32) -> usize
    requires { at + 23 ≤ length bytes.old }
    ensures text { take result bytes.new ≡ take at bytes.old ++ (field (index_text index) ++ 10 ∷ []) }
    ensures end { result ≤ at + 23 }
    ensures len { length bytes.new ≡ length bytes.old }
{
    let spaced = put(bytes, at, b" @");
    let end = put_number(bytes, spaced, index as u64);
    put(bytes, end, b"\n")
}

/// The letter and the number of a cell.
#[inline(always)]
pub(crate) fn parts_of(c: Cell) -> (u8, u8)
    ensures { cell_text c ≡ result.0 ∷ decimal result.1 }
{
    match c {
        Cell::Stack(i) => (b's', i),
        Cell::Exact(i) => (b'b', i),
        Cell::Shared(i) => (b'g', i),
    }
}

/// Writes a cell as a field.
#[inline(always)]
#[tactic(auto, using(std::proofs::lemmas::Fmt::decimal_digit, crate::proofs::Decimals::decimal_two))]
pub(crate) fn put_cell(bytes: &mut [u8], at: usize, c: Cell) -> usize
    requires { at + 22 ≤ length bytes.old }
    ensures text { take result bytes.new ≡ take at bytes.old ++ cell_field c }
    ensures end { result ≤ at + 5 }
    ensures len { length bytes.new ≡ length bytes.old }
{
    let (letter, i) = parts_of(c);
    if i < 10 {
        return put(bytes, at, &[b' ', letter, b'0' + i]);
    }
    let lettered = put(bytes, at, &[b' ', letter]);
    put_short(bytes, lettered, i as u32)
}

/// Writes a word and, each as a field, three cells.
#[inline(always)]
pub(crate) fn put_three_cells<const N: usize>(
    bytes: &mut [u8],
    at: usize,
    word: &[u8; N],
    a: Cell,
    b: Cell,
    c: Cell,
) -> usize
    requires { at + N + 32 ≤ length bytes.old }
    ensures text { take result bytes.new ≡ take at bytes.old ++ (word.now ++ (cell_field a ++ cell_field b ++ cell_field c)) }
    ensures end { result ≤ at + N + 15 }
    ensures len { length bytes.new ≡ length bytes.old }
{
    let worded = put(bytes, at, word);
    let first = put_cell(bytes, worded, a);
    let second = put_cell(bytes, first, b);
    put_cell(bytes, second, c)
}
