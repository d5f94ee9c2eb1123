//! What the fields of a line say, behind its word.

ghost use Rattle.std.specs.Prelude.{◌≡◌, ℕ, ◌-◌, ◌^◌, [], OnOk, IfOk, IfErr, IfSome, Ok, Err, drop, min, codes};
ghost use Rattle.heap_terms.specs.Grammar.{Version, HeapOf, AutoOf, statement_of};
ghost use Rattle.script_text.specs.Commands.{front_command, field_count, does, IsFront, SaysCommand};
ghost use Rattle.script_text.specs.Left.{fields_left, lines_after};
ghost use Rattle.script_text.specs.Words.{text_of_name};

use crate::cells::{plain_cell, plain_raw_cell};
use crate::cursor::Cursor;
use crate::numbers::{auto_words, page_count, plain_fixnum, plain_index, plain_signed, version};
use crate::words::{Name, plain_name};
use heap_terms::{Command, OLDEST_COLLECTED, OLDEST_GENERATION, Why};

impl Name {
    /// How many fields the command has after its word.
    fn fields(self) -> usize
        ensures { result ≡ field_count self }
    {
        match self {
            Name::Unpin | Name::Nogc | Name::Gcok | Name::Runfin => 0,
            Name::Nil
            | Name::Show
            | Name::Pin
            | Name::TableCount
            | Name::Gc
            | Name::Page
            | Name::Stat
            | Name::Cancel => 1,
            Name::Fix
            | Name::Move
            | Name::Vector
            | Name::Instance
            | Name::Closure
            | Name::Weak
            | Name::Eq
            | Name::Addr
            | Name::Raw
            | Name::Add
            | Name::WeakVal
            | Name::TableRem
            | Name::Finalize => 2,
            Name::Cons
            | Name::Words
            | Name::Table
            | Name::Get
            | Name::Put
            | Name::RawGet
            | Name::RawPut
            | Name::TablePut
            | Name::TableGet => 3,
        }
    }
}

/// The version of a `lispheap` line, which is 1.
pub(crate) fn version_of(left: &mut Cursor) -> Result<(), Why>
    ensures good { IfOk result (λ _. (threads : ℕ) → statement_of threads (codes "lispheap") (fields_left left.old) ≡ Ok Version) }
    ensures bad { IfErr result (λ why. (threads : ℕ) → statement_of threads (codes "lispheap") (fields_left left.old) ≡ Err why) }
    ensures lines { OnOk result (lines_after left.new ≡ lines_after left.old) }
{
    let field = left.only_field()?;
    version(field)?;
    Ok(())
}

/// The pages of a `heap` line; a number above `u64::MAX` is given as `u64::MAX`.
pub(crate) fn pages_of(left: &mut Cursor) -> Result<u64, Why>
    ensures good { IfOk result (λ pages. (n : ℕ) × (pages ≡ min n (2 ^ 64 - 1)) × ((threads : ℕ) → statement_of threads (codes "heap") (fields_left left.old) ≡ Ok (HeapOf n))) }
    ensures bad { IfErr result (λ why. (threads : ℕ) → statement_of threads (codes "heap") (fields_left left.old) ≡ Err why) }
    ensures lines { OnOk result (lines_after left.new ≡ lines_after left.old) }
{
    let field = left.only_field()?;
    page_count(field)
}

/// The words of an `auto` line.
pub(crate) fn auto_of(left: &mut Cursor) -> Result<u64, Why>
    ensures good { IfOk result (λ words. (threads : ℕ) → statement_of threads (codes "auto") (fields_left left.old) ≡ Ok (AutoOf words)) }
    ensures bad { IfErr result (λ why. (threads : ℕ) → statement_of threads (codes "auto") (fields_left left.old) ≡ Err why) }
    ensures lines { OnOk result (lines_after left.new ≡ lines_after left.old) }
{
    let field = left.only_field()?;
    auto_words(field)
}

/// The command of the fields at the front, whatever follows them.
fn front(name: Name, left: &mut Cursor) -> Result<Command, Why>
    ensures value { result ≡ front_command name (fields_left left.old) }
    ensures fields { OnOk result (fields_left left.new ≡ drop (field_count name) (fields_left left.old)) }
    ensures lines { OnOk result (lines_after left.new ≡ lines_after left.old) }
{
    match name {
        Name::Fix => {
            let d = left.cell()?;
            let n = left.fixnum()?;
            Ok(Command::Fix { d, n })
        }
        Name::Nil => {
            let d = left.cell()?;
            Ok(Command::MakeNil { d })
        }
        Name::Move => {
            let d = left.cell()?;
            let c = left.cell()?;
            Ok(Command::Move { d, c })
        }
        Name::Cons => {
            let d = left.cell()?;
            let a = left.cell()?;
            let b = left.cell()?;
            Ok(Command::NewCons { d, a, b })
        }
        Name::Vector => {
            let d = left.cell()?;
            let n = left.index()?;
            Ok(Command::NewVector { d, n })
        }
        Name::Instance => {
            let d = left.cell()?;
            let n = left.index()?;
            Ok(Command::NewInstance { d, n })
        }
        Name::Closure => {
            let d = left.cell()?;
            let n = left.index()?;
            Ok(Command::NewClosure { d, n })
        }
        Name::Words => {
            let d = left.cell()?;
            let n = left.index()?;
            let w = left.raw_word()?;
            Ok(Command::NewWords { d, n, w })
        }
        Name::Weak => {
            let d = left.cell()?;
            let c = left.cell()?;
            Ok(Command::NewWeak { d, c })
        }
        Name::Table => {
            let d = left.cell()?;
            let w = left.weakness()?;
            let b = left.capacity()?;
            Ok(Command::NewTable { d, w, b })
        }
        Name::Get => {
            let d = left.cell()?;
            let c = left.cell()?;
            let i = left.index()?;
            Ok(Command::Get { d, c, i })
        }
        Name::Put => {
            let c = left.cell()?;
            let i = left.index()?;
            let a = left.cell()?;
            Ok(Command::Put { c, i, a })
        }
        Name::RawGet => {
            let r = left.raw_cell()?;
            let c = left.cell()?;
            let i = left.index()?;
            Ok(Command::RawGet { r, c, i })
        }
        Name::RawPut => {
            let c = left.cell()?;
            let i = left.index()?;
            let r = left.raw_cell()?;
            Ok(Command::RawPut { c, i, r })
        }
        Name::Eq => {
            let a = left.cell()?;
            let b = left.cell()?;
            Ok(Command::Same { a, b })
        }
        Name::Show => {
            let c = left.cell()?;
            Ok(Command::Show { c })
        }
        Name::Addr => {
            let r = left.raw_cell()?;
            let c = left.cell()?;
            Ok(Command::Addr { r, c })
        }
        Name::Raw => {
            let r = left.raw_cell()?;
            let w = left.raw_word()?;
            Ok(Command::SetRaw { r, w })
        }
        Name::Add => {
            let r = left.raw_cell()?;
            let k = left.signed()?;
            Ok(Command::AddRaw { r, k })
        }
        Name::Pin => {
            let c = left.cell()?;
            Ok(Command::Pin { c })
        }
        Name::Unpin => Ok(Command::Unpin),
        Name::WeakVal => {
            let d = left.cell()?;
            let c = left.cell()?;
            Ok(Command::WeakVal { d, c })
        }
        Name::TablePut => {
            let c = left.cell()?;
            let k = left.cell()?;
            let v = left.cell()?;
            Ok(Command::TablePut { c, k, v })
        }
        Name::TableGet => {
            let d = left.cell()?;
            let c = left.cell()?;
            let k = left.cell()?;
            Ok(Command::TableGet { d, c, k })
        }
        Name::TableRem => {
            let c = left.cell()?;
            let k = left.cell()?;
            Ok(Command::TableRem { c, k })
        }
        Name::TableCount => {
            let c = left.cell()?;
            Ok(Command::TableCount { c })
        }
        Name::Gc => {
            let g = left.generation(OLDEST_COLLECTED)?;
            Ok(Command::Collect { g })
        }
        Name::Page => {
            let p = left.wide()?;
            Ok(Command::ShowPage { p })
        }
        Name::Stat => {
            let g = left.generation(OLDEST_GENERATION)?;
            Ok(Command::Stat { g })
        }
        Name::Nogc => Ok(Command::Inhibit),
        Name::Gcok => Ok(Command::Allow),
        Name::Finalize => {
            let c = left.cell()?;
            let id = left.wide()?;
            Ok(Command::Finalize { c, id })
        }
        Name::Cancel => {
            let c = left.cell()?;
            Ok(Command::Cancel { c })
        }
        Name::Runfin => Ok(Command::RunFinalizers),
    }
}

/// The command of a line whose word is read. The number of its fields is judged before their forms
/// and ranges, so where a field is bad they are counted.
pub(crate) fn command(name: Name, left: &mut Cursor) -> Result<Command, Why>
    ensures value { (threads : ℕ) → does result ≡ statement_of threads (text_of_name name) (fields_left left.old) }
    ensures fields { OnOk result (fields_left left.new ≡ []) }
    ensures lines { OnOk result (lines_after left.new ≡ lines_after left.old) }
{
    let start = left.here();
    match front(name, left) {
        Ok(command) => {
            if left.is_at_end() {
                Ok(command)
            } else {
                Err(Why::Fields)
            }
        }
        Err(why) => {
            if start.has_fields(name.fields()) {
                Err(why)
            } else {
                Err(Why::Fields)
            }
        }
    }
}

/// The fields of a `fix` in their usual spelling, and the bytes after them.
#[inline(always)]
fn plain_fix(rest: &[u8]) -> Option<(Command, &[u8])>
    ensures { IfSome result (λ f. IsFront Name.Fix rest.now f.0 f.1.now) }
{
    let (d, rest) = plain_cell(rest)?;
    let (n, rest) = plain_fixnum(rest)?;
    Some((Command::Fix { d, n }, rest))
}

/// The fields of a `cons` in their usual spelling, and the bytes after them.
#[inline(always)]
fn plain_cons(rest: &[u8]) -> Option<(Command, &[u8])>
    ensures { IfSome result (λ f. IsFront Name.Cons rest.now f.0 f.1.now) }
{
    let (d, rest) = plain_cell(rest)?;
    let (a, rest) = plain_cell(rest)?;
    let (b, rest) = plain_cell(rest)?;
    Some((Command::NewCons { d, a, b }, rest))
}

/// The fields of a `get` in their usual spelling, and the bytes after them.
#[inline(always)]
fn plain_get(rest: &[u8]) -> Option<(Command, &[u8])>
    ensures { IfSome result (λ f. IsFront Name.Get rest.now f.0 f.1.now) }
{
    let (d, rest) = plain_cell(rest)?;
    let (c, rest) = plain_cell(rest)?;
    let (i, rest) = plain_index(rest)?;
    Some((Command::Get { d, c, i }, rest))
}

/// The fields of a `put` in their usual spelling, and the bytes after them.
#[inline(always)]
fn plain_put(rest: &[u8]) -> Option<(Command, &[u8])>
    ensures { IfSome result (λ f. IsFront Name.Put rest.now f.0 f.1.now) }
{
    let (c, rest) = plain_cell(rest)?;
    let (i, rest) = plain_index(rest)?;
    let (a, rest) = plain_cell(rest)?;
    Some((Command::Put { c, i, a }, rest))
}

/// The field of a `show` in its usual spelling, and the bytes after it.
#[inline(always)]
fn plain_show(rest: &[u8]) -> Option<(Command, &[u8])>
    ensures { IfSome result (λ f. IsFront Name.Show rest.now f.0 f.1.now) }
{
    let (c, rest) = plain_cell(rest)?;
    Some((Command::Show { c }, rest))
}

/// The field of a `nil` in their usual spelling, and the bytes after them.
#[inline(always)]
fn plain_nil(rest: &[u8]) -> Option<(Command, &[u8])>
    ensures { IfSome result (λ f. IsFront Name.Nil rest.now f.0 f.1.now) }
{
    let (d, rest) = plain_cell(rest)?;
    Some((Command::MakeNil { d }, rest))
}

/// The fields of a `move` in their usual spelling, and the bytes after them.
#[inline(always)]
fn plain_move(rest: &[u8]) -> Option<(Command, &[u8])>
    ensures { IfSome result (λ f. IsFront Name.Move rest.now f.0 f.1.now) }
{
    let (d, rest) = plain_cell(rest)?;
    let (c, rest) = plain_cell(rest)?;
    Some((Command::Move { d, c }, rest))
}

/// The fields of a `vector` in their usual spelling, and the bytes after them.
#[inline(always)]
fn plain_vector(rest: &[u8]) -> Option<(Command, &[u8])>
    ensures { IfSome result (λ f. IsFront Name.Vector rest.now f.0 f.1.now) }
{
    let (d, rest) = plain_cell(rest)?;
    let (n, rest) = plain_index(rest)?;
    Some((Command::NewVector { d, n }, rest))
}

/// The fields of an `instance` in their usual spelling, and the bytes after them.
#[inline(always)]
fn plain_instance(rest: &[u8]) -> Option<(Command, &[u8])>
    ensures { IfSome result (λ f. IsFront Name.Instance rest.now f.0 f.1.now) }
{
    let (d, rest) = plain_cell(rest)?;
    let (n, rest) = plain_index(rest)?;
    Some((Command::NewInstance { d, n }, rest))
}

/// The fields of a `closure` in their usual spelling, and the bytes after them.
#[inline(always)]
fn plain_closure(rest: &[u8]) -> Option<(Command, &[u8])>
    ensures { IfSome result (λ f. IsFront Name.Closure rest.now f.0 f.1.now) }
{
    let (d, rest) = plain_cell(rest)?;
    let (n, rest) = plain_index(rest)?;
    Some((Command::NewClosure { d, n }, rest))
}

/// The fields of a `rawget` in their usual spelling, and the bytes after them.
#[inline(always)]
fn plain_rawget(rest: &[u8]) -> Option<(Command, &[u8])>
    ensures { IfSome result (λ f. IsFront Name.RawGet rest.now f.0 f.1.now) }
{
    let (r, rest) = plain_raw_cell(rest)?;
    let (c, rest) = plain_cell(rest)?;
    let (i, rest) = plain_index(rest)?;
    Some((Command::RawGet { r, c, i }, rest))
}

/// The fields of a `rawput` in their usual spelling, and the bytes after them.
#[inline(always)]
fn plain_rawput(rest: &[u8]) -> Option<(Command, &[u8])>
    ensures { IfSome result (λ f. IsFront Name.RawPut rest.now f.0 f.1.now) }
{
    let (c, rest) = plain_cell(rest)?;
    let (i, rest) = plain_index(rest)?;
    let (r, rest) = plain_raw_cell(rest)?;
    Some((Command::RawPut { c, i, r }, rest))
}

/// The fields of an `eq` in their usual spelling, and the bytes after them.
#[inline(always)]
fn plain_eq(rest: &[u8]) -> Option<(Command, &[u8])>
    ensures { IfSome result (λ f. IsFront Name.Eq rest.now f.0 f.1.now) }
{
    let (a, rest) = plain_cell(rest)?;
    let (b, rest) = plain_cell(rest)?;
    Some((Command::Same { a, b }, rest))
}

/// The fields of an `addr` in their usual spelling, and the bytes after them.
#[inline(always)]
fn plain_addr(rest: &[u8]) -> Option<(Command, &[u8])>
    ensures { IfSome result (λ f. IsFront Name.Addr rest.now f.0 f.1.now) }
{
    let (r, rest) = plain_raw_cell(rest)?;
    let (c, rest) = plain_cell(rest)?;
    Some((Command::Addr { r, c }, rest))
}

/// The fields of an `add` in their usual spelling, and the bytes after them.
#[inline(always)]
fn plain_add(rest: &[u8]) -> Option<(Command, &[u8])>
    ensures { IfSome result (λ f. IsFront Name.Add rest.now f.0 f.1.now) }
{
    let (r, rest) = plain_raw_cell(rest)?;
    let (k, rest) = plain_signed(rest)?;
    Some((Command::AddRaw { r, k }, rest))
}

/// The fields of a `tput` in their usual spelling, and the bytes after them.
#[inline(always)]
fn plain_tput(rest: &[u8]) -> Option<(Command, &[u8])>
    ensures { IfSome result (λ f. IsFront Name.TablePut rest.now f.0 f.1.now) }
{
    let (c, rest) = plain_cell(rest)?;
    let (k, rest) = plain_cell(rest)?;
    let (v, rest) = plain_cell(rest)?;
    Some((Command::TablePut { c, k, v }, rest))
}

/// The fields of a `tget` in their usual spelling, and the bytes after them.
#[inline(always)]
fn plain_tget(rest: &[u8]) -> Option<(Command, &[u8])>
    ensures { IfSome result (λ f. IsFront Name.TableGet rest.now f.0 f.1.now) }
{
    let (d, rest) = plain_cell(rest)?;
    let (c, rest) = plain_cell(rest)?;
    let (k, rest) = plain_cell(rest)?;
    Some((Command::TableGet { d, c, k }, rest))
}

/// The command of the fields at the front in their usual spelling, and the bytes after them.
#[inline(always)]
fn plain_front(name: Name, rest: &[u8]) -> Option<(Command, &[u8])>
    ensures { IfSome result (λ f. IsFront name rest.now f.0 f.1.now) }
{
    match name {
        Name::Fix => plain_fix(rest),
        Name::Nil => plain_nil(rest),
        Name::Move => plain_move(rest),
        Name::Cons => plain_cons(rest),
        Name::Vector => plain_vector(rest),
        Name::Instance => plain_instance(rest),
        Name::Closure => plain_closure(rest),
        Name::Get => plain_get(rest),
        Name::Put => plain_put(rest),
        Name::RawGet => plain_rawget(rest),
        Name::RawPut => plain_rawput(rest),
        Name::Eq => plain_eq(rest),
        Name::Show => plain_show(rest),
        Name::Addr => plain_addr(rest),
        Name::Add => plain_add(rest),
        Name::TablePut => plain_tput(rest),
        Name::TableGet => plain_tget(rest),
        Name::Words
        | Name::Weak
        | Name::Table
        | Name::Raw
        | Name::Pin
        | Name::Unpin
        | Name::WeakVal
        | Name::TableRem
        | Name::TableCount
        | Name::Gc
        | Name::Page
        | Name::Stat
        | Name::Nogc
        | Name::Gcok
        | Name::Finalize
        | Name::Cancel
        | Name::Runfin => None,
    }
}

/// How many bytes the longest line of the usual spelling has, and more. Where so many are left, one
/// test serves for most of the line's bytes; the last lines of a script are read as any other.
const LONGEST_PLAIN: usize = 32;

/// The command of a line in its usual spelling: the name at its very front, one space before each
/// field, and the LF behind the last. With it come the bytes from that LF on.
#[inline(always)]
pub(crate) fn plain_command(rest: &[u8]) -> Option<(Command, &[u8])>
    ensures { IfSome result (λ f. SaysCommand rest.now f.0 f.1.now) }
{
    if rest.len() < LONGEST_PLAIN {
        return None;
    }
    let (name, fields) = plain_name(rest)?;
    let (command, after) = plain_front(name, fields)?;
    if after.is_empty() || after[0] != b'\n' {
        return None;
    }
    Some((command, after))
}
