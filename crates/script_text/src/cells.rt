//! Lisp cells and raw cells: of any field, and in their usual spelling, with one space before them
//! and a space or an LF after them, which is read without a search for the field's end.

ghost use Rattle.std.specs.Prelude.{◌≡◌, ℕ, ◌+◌, ◌-◌, ◌<◌, ◌≤◌, Some, IfSome, ok_or, take, drop};
ghost use Rattle.heap_terms.specs.Fields.{cell_number, cell_of, raw_cell_of};
ghost use Rattle.heap_terms.specs.declared.faults.Why.TheVariants.{Form};
ghost use Rattle.script_text.specs.Commands.{Reads, a_cell, a_raw_cell};
ghost use Rattle.script_text.specs.Left.{field_len};

use crate::fields::ends_plainly;
use crate::numbers::number;
use heap_terms::{CELLS, Cell, RAW_CELLS, Raw, Why};

/// The number of a cell: below a limit, and with no leading zero.
#[tactic(auto, unfolding(heap_terms::specs::Fields::cell_number))]
fn number_of_cell(digits: &[u8], limit: u32) -> Option<u8>
    requires { limit ≤ 256 }
    ensures { result ≡ cell_number limit digits.now }
{
    let n = number(digits)?;
    if n < u64::from(limit) && (digits.len() == 1 || !matches!(digits, [b'0', ..])) {
        Some(n as u8)
    } else {
        None
    }
}

/// A Lisp cell.
#[tactic(auto, unfolding(heap_terms::specs::Fields::cell_of))]
pub(crate) fn cell(field: &[u8]) -> Result<Cell, Why>
    ensures { result ≡ ok_or (cell_of field.now) Form }
{
    let [kind, digits @ ..] = field else {
        return Err(Why::Form);
    };
    let Some(n) = number_of_cell(digits, CELLS) else {
        return Err(Why::Form);
    };
    match *kind {
        b's' => Ok(Cell::Stack(n)),
        b'b' => Ok(Cell::Exact(n)),
        b'g' => Ok(Cell::Shared(n)),
        _ => Err(Why::Form),
    }
}

/// A raw cell.
#[tactic(auto, unfolding(heap_terms::specs::Fields::raw_cell_of))]
pub(crate) fn raw_cell(field: &[u8]) -> Result<Raw, Why>
    ensures { result ≡ ok_or (raw_cell_of field.now) Form }
{
    let [b'r', digits @ ..] = field else {
        return Err(Why::Form);
    };
    match number_of_cell(digits, RAW_CELLS) {
        Some(n) => Ok(Raw(n)),
        None => Err(Why::Form),
    }
}

/// The number of a Lisp cell at the end of a field, and the bytes after it.
#[inline(always)]
fn plain_number_of_cell(rest: &[u8]) -> Option<(u8, &[u8])>
    ensures { IfSome result (λ f. (n : ℕ) × (n ≡ field_len rest.now) × (cell_number CELLS (take n rest.now) ≡ Some f.0) × (f.1.now ≡ drop n rest.now)) }
{
    if rest.len() < 3 {
        return None;
    }
    let first = rest[0];
    let second = rest[1];
    if first < b'0' || first > b'9' {
        return None;
    }
    if ends_plainly(second) {
        let (_, after) = rest.split_at(1);
        return Some((first - b'0', after));
    }
    if first != b'1' || second < b'0' || second > b'5' || !ends_plainly(rest[2]) {
        return None;
    }
    let (_, after) = rest.split_at(2);
    Some((second - b'0' + 10, after))
}

/// A Lisp cell in its usual spelling, and the bytes after it.
#[inline(always)]
pub(crate) fn plain_cell(rest: &[u8]) -> Option<(Cell, &[u8])>
    ensures { IfSome result (λ f. Reads a_cell rest.now f.0 f.1.now) }
{
    if rest.len() < 5 || rest[0] != b' ' {
        return None;
    }
    let kind = rest[1];
    let (_, digits) = rest.split_at(2);
    let (n, after) = plain_number_of_cell(digits)?;
    match kind {
        b's' => Some((Cell::Stack(n), after)),
        b'b' => Some((Cell::Exact(n), after)),
        b'g' => Some((Cell::Shared(n), after)),
        _ => None,
    }
}

/// A raw cell in its usual spelling, and the bytes after it.
#[inline(always)]
pub(crate) fn plain_raw_cell(rest: &[u8]) -> Option<(Raw, &[u8])>
    ensures { IfSome result (λ f. Reads a_raw_cell rest.now f.0 f.1.now) }
{
    if rest.len() < 4 || rest[0] != b' ' || rest[1] != b'r' {
        return None;
    }
    let digit = rest[2];
    if digit < b'0' || digit > b'7' || !ends_plainly(rest[3]) {
        return None;
    }
    let (_, after) = rest.split_at(3);
    Some((Raw(digit - b'0'), after))
}
