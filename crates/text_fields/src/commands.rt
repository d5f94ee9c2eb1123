//! A command as a script spells it.

ghost use Rattle.std.specs.Prelude.{◌≡◌, ◌+◌, ◌*◌, ◌≤◌, ◌++◌, codes};
ghost use Rattle.std.specs.Fmt.{signed_decimal};
ghost use Rattle.heap_terms.specs.Text.{cell_field, raw_field, number_field, field, word_text, weakness_text, command_text};

use crate::buffer::Text;
use crate::fields::{push, push_cell, push_raw, push_word_field};
use crate::numbers::{push_number_field, push_signed_field};
use crate::room::{CELL_FIELD, COMMAND, NUMBER_FIELD, WEAKNESS_FIELD, WORD_FIELD};
use heap_terms::{Cell, Command, Raw, Weakness};

/// Appends a command.
#[inline(always)]
pub fn push_command(out: &mut Text, command: &Command)
    requires { COMMAND ≤ out.old.room }
    ensures text { out.new.text ≡ out.old.text ++ command_text command.now }
    ensures room { out.old.room ≤ out.new.room + COMMAND }
{
    match *command {
        Command::Fix { d, n } => with_signed(out, b"fix", d, n),
        Command::MakeNil { d } => with_cell(out, b"nil", d),
        Command::Move { d, c } => with_two(out, b"move", d, c),
        Command::NewCons { d, a, b } => with_three(out, b"cons", d, a, b),
        Command::NewVector { d, n } => with_number(out, b"vector", d, n),
        Command::NewInstance { d, n } => with_number(out, b"instance", d, n),
        Command::NewClosure { d, n } => with_number(out, b"closure", d, n),
        Command::NewWords { d, n, w } => with_words(out, d, n, w),
        Command::NewWeak { d, c } => with_two(out, b"weak", d, c),
        Command::NewTable { d, w, b } => with_table(out, d, w, b),
        Command::Get { d, c, i } => with_two_and_number(out, b"get", d, c, i),
        Command::Put { c, i, a } => with_put(out, c, i, a),
        Command::RawGet { r, c, i } => with_raw_get(out, r, c, i),
        Command::RawPut { c, i, r } => with_raw_put(out, c, i, r),
        Command::Same { a, b } => with_two(out, b"eq", a, b),
        Command::Show { c } => with_cell(out, b"show", c),
        Command::Addr { r, c } => with_addr(out, r, c),
        Command::SetRaw { r, w } => with_raw_word(out, r, w),
        Command::AddRaw { r, k } => with_raw_add(out, r, k),
        Command::Pin { c } => with_cell(out, b"pin", c),
        Command::Unpin => push(out, b"unpin"),
        Command::WeakVal { d, c } => with_two(out, b"weakval", d, c),
        Command::TablePut { c, k, v } => with_three(out, b"tput", c, k, v),
        Command::TableGet { d, c, k } => with_three(out, b"tget", d, c, k),
        Command::TableRem { c, k } => with_two(out, b"trem", c, k),
        Command::TableCount { c } => with_cell(out, b"tcount", c),
        Command::Finalize { c, id } => with_number(out, b"finalize", c, id),
        Command::Cancel { c } => with_cell(out, b"cancel", c),
        Command::RunFinalizers => push(out, b"runfin"),
        Command::Collect { g } => with_number_alone(out, b"gc", g as u32),
        Command::Inhibit => push(out, b"nogc"),
        Command::Allow => push(out, b"gcok"),
        Command::ShowPage { p } => with_number_alone(out, b"page", p),
        Command::Stat { g } => with_number_alone(out, b"stat", g as u32),
    }
}

#[inline(always)]
fn with_cell<const N: usize>(out: &mut Text, name: &[u8; N], a: Cell)
    requires { N + CELL_FIELD ≤ out.old.room }
    ensures text { out.new.text ≡ out.old.text ++ (name.now ++ cell_field a) }
    ensures room { out.old.room ≤ out.new.room + (N + CELL_FIELD) }
{
    push(out, name);
    push_cell(out, a);
}

#[inline(always)]
fn with_two<const N: usize>(out: &mut Text, name: &[u8; N], a: Cell, b: Cell)
    requires { N + 2 * CELL_FIELD ≤ out.old.room }
    ensures text { out.new.text ≡ out.old.text ++ (name.now ++ (cell_field a ++ cell_field b)) }
    ensures room { out.old.room ≤ out.new.room + (N + 2 * CELL_FIELD) }
{
    push(out, name);
    push_cell(out, a);
    push_cell(out, b);
}

#[inline(always)]
fn with_three<const N: usize>(out: &mut Text, name: &[u8; N], a: Cell, b: Cell, c: Cell)
    requires { N + 32 ≤ out.old.room }
    ensures text { out.new.text ≡ out.old.text ++ (name.now ++ (cell_field a ++ cell_field b ++ cell_field c)) }
    ensures room { out.old.room ≤ out.new.room + (N + 3 * CELL_FIELD) }
{
    out.push_three_cells(name, a, b, c);
}

#[inline(always)]
fn with_signed<const N: usize>(out: &mut Text, name: &[u8; N], a: Cell, n: i64)
    requires { N + CELL_FIELD + NUMBER_FIELD ≤ out.old.room }
    ensures text { out.new.text ≡ out.old.text ++ (name.now ++ (cell_field a ++ field (signed_decimal n))) }
    ensures room { out.old.room ≤ out.new.room + (N + CELL_FIELD + NUMBER_FIELD) }
{
    push(out, name);
    push_cell(out, a);
    push_signed_field(out, n);
}

#[inline(always)]
fn with_number<const N: usize>(out: &mut Text, name: &[u8; N], a: Cell, n: u32)
    requires { N + CELL_FIELD + NUMBER_FIELD ≤ out.old.room }
    ensures text { out.new.text ≡ out.old.text ++ (name.now ++ (cell_field a ++ number_field n)) }
    ensures room { out.old.room ≤ out.new.room + (N + CELL_FIELD + NUMBER_FIELD) }
{
    push(out, name);
    push_cell(out, a);
    push_number_field(out, n as u64);
}

#[inline(always)]
fn with_two_and_number<const N: usize>(out: &mut Text, name: &[u8; N], a: Cell, b: Cell, n: u32)
    requires { N + 2 * CELL_FIELD + NUMBER_FIELD ≤ out.old.room }
    ensures text { out.new.text ≡ out.old.text ++ (name.now ++ (cell_field a ++ cell_field b ++ number_field n)) }
    ensures room { out.old.room ≤ out.new.room + (N + 2 * CELL_FIELD + NUMBER_FIELD) }
{
    push(out, name);
    push_cell(out, a);
    push_cell(out, b);
    push_number_field(out, n as u64);
}

#[inline(always)]
fn with_number_alone<const N: usize>(out: &mut Text, name: &[u8; N], n: u32)
    requires { N + NUMBER_FIELD ≤ out.old.room }
    ensures text { out.new.text ≡ out.old.text ++ (name.now ++ number_field n) }
    ensures room { out.old.room ≤ out.new.room + (N + NUMBER_FIELD) }
{
    push(out, name);
    push_number_field(out, n as u64);
}

#[inline(always)]
fn with_put(out: &mut Text, c: Cell, i: u32, a: Cell)
    requires { 3 + 2 * CELL_FIELD + NUMBER_FIELD ≤ out.old.room }
    ensures text { out.new.text ≡ out.old.text ++ (codes "put" ++ (cell_field c ++ number_field i ++ cell_field a)) }
    ensures room { out.old.room ≤ out.new.room + (3 + 2 * CELL_FIELD + NUMBER_FIELD) }
{
    push(out, b"put");
    push_cell(out, c);
    push_number_field(out, i as u64);
    push_cell(out, a);
}

fn with_words(out: &mut Text, d: Cell, n: u32, w: u64)
    requires { COMMAND ≤ out.old.room }
    ensures text { out.new.text ≡ out.old.text ++ (codes "words" ++ (cell_field d ++ number_field n ++ field (word_text w))) }
    ensures room { out.old.room ≤ out.new.room + COMMAND }
{
    push(out, b"words");
    push_cell(out, d);
    push_number_field(out, n as u64);
    push_word_field(out, w);
}

fn with_table(out: &mut Text, d: Cell, w: Weakness, b: u32)
    requires { 5 + CELL_FIELD + WEAKNESS_FIELD + NUMBER_FIELD ≤ out.old.room }
    ensures text { out.new.text ≡ out.old.text ++ (codes "table" ++ (cell_field d ++ field (weakness_text w) ++ number_field b)) }
    ensures room { out.old.room ≤ out.new.room + (5 + CELL_FIELD + WEAKNESS_FIELD + NUMBER_FIELD) }
{
    push(out, b"table");
    push_cell(out, d);
    push_weakness(out, w);
    push_number_field(out, b as u64);
}

fn push_weakness(out: &mut Text, w: Weakness)
    requires { WEAKNESS_FIELD ≤ out.old.room }
    ensures text { out.new.text ≡ out.old.text ++ field (weakness_text w) }
    ensures room { out.old.room ≤ out.new.room + WEAKNESS_FIELD }
{
    match w {
        Weakness::Strong => push(out, b" strong"),
        Weakness::Key => push(out, b" key"),
        Weakness::Value => push(out, b" value"),
        Weakness::KeyAndValue => push(out, b" key-and-value"),
        Weakness::KeyOrValue => push(out, b" key-or-value"),
    }
}

fn with_raw_get(out: &mut Text, r: Raw, c: Cell, i: u32)
    requires { 6 + 2 * CELL_FIELD + NUMBER_FIELD ≤ out.old.room }
    ensures text { out.new.text ≡ out.old.text ++ (codes "rawget" ++ (raw_field r ++ cell_field c ++ number_field i)) }
    ensures room { out.old.room ≤ out.new.room + (6 + 2 * CELL_FIELD + NUMBER_FIELD) }
{
    push(out, b"rawget");
    push_raw(out, r);
    push_cell(out, c);
    push_number_field(out, i as u64);
}

fn with_raw_put(out: &mut Text, c: Cell, i: u32, r: Raw)
    requires { 6 + 2 * CELL_FIELD + NUMBER_FIELD ≤ out.old.room }
    ensures text { out.new.text ≡ out.old.text ++ (codes "rawput" ++ (cell_field c ++ number_field i ++ raw_field r)) }
    ensures room { out.old.room ≤ out.new.room + (6 + 2 * CELL_FIELD + NUMBER_FIELD) }
{
    push(out, b"rawput");
    push_cell(out, c);
    push_number_field(out, i as u64);
    push_raw(out, r);
}

fn with_addr(out: &mut Text, r: Raw, c: Cell)
    requires { 4 + 2 * CELL_FIELD ≤ out.old.room }
    ensures text { out.new.text ≡ out.old.text ++ (codes "addr" ++ (raw_field r ++ cell_field c)) }
    ensures room { out.old.room ≤ out.new.room + (4 + 2 * CELL_FIELD) }
{
    push(out, b"addr");
    push_raw(out, r);
    push_cell(out, c);
}

fn with_raw_word(out: &mut Text, r: Raw, w: u64)
    requires { 3 + CELL_FIELD + WORD_FIELD ≤ out.old.room }
    ensures text { out.new.text ≡ out.old.text ++ (codes "raw" ++ (raw_field r ++ field (word_text w))) }
    ensures room { out.old.room ≤ out.new.room + (3 + CELL_FIELD + WORD_FIELD) }
{
    push(out, b"raw");
    push_raw(out, r);
    push_word_field(out, w);
}

fn with_raw_add(out: &mut Text, r: Raw, k: i64)
    requires { 3 + CELL_FIELD + NUMBER_FIELD ≤ out.old.room }
    ensures text { out.new.text ≡ out.old.text ++ (codes "add" ++ (raw_field r ++ field (signed_decimal k))) }
    ensures room { out.old.room ≤ out.new.room + (3 + CELL_FIELD + NUMBER_FIELD) }
{
    push(out, b"add");
    push_raw(out, r);
    push_signed_field(out, k);
}
