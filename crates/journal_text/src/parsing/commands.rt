//! The fields of a command behind its word.

ghost use Rattle.journal_text.specs.LineReading.{Gives, read_command};

use super::cursor::Fields;
use super::words::Name;
use heap_terms::Command;

/// The command of this name, from the fields behind its word.
#[tactic(auto, unfolding(crate::specs::LineReading::read_command))]
pub(crate) fn command(name: Name, fields: &mut Fields) -> Option<Command>
    ensures { Gives (read_command name) fields.old fields.new result }
{
    match name {
        Name::Fix => {
            let d = fields.cell()?;
            let n = fields.fixnum()?;
            Some(Command::Fix { d, n })
        }
        Name::Nil => {
            let d = fields.cell()?;
            Some(Command::MakeNil { d })
        }
        Name::Move => {
            let d = fields.cell()?;
            let c = fields.cell()?;
            Some(Command::Move { d, c })
        }
        Name::Cons => {
            let d = fields.cell()?;
            let a = fields.cell()?;
            let b = fields.cell()?;
            Some(Command::NewCons { d, a, b })
        }
        Name::Vector => {
            let d = fields.cell()?;
            let n = fields.element()?;
            Some(Command::NewVector { d, n })
        }
        Name::Instance => {
            let d = fields.cell()?;
            let n = fields.element()?;
            Some(Command::NewInstance { d, n })
        }
        Name::Closure => {
            let d = fields.cell()?;
            let n = fields.element()?;
            Some(Command::NewClosure { d, n })
        }
        Name::Words => {
            let d = fields.cell()?;
            let n = fields.element()?;
            let w = fields.word()?;
            Some(Command::NewWords { d, n, w })
        }
        Name::Weak => {
            let d = fields.cell()?;
            let c = fields.cell()?;
            Some(Command::NewWeak { d, c })
        }
        Name::Table => {
            let d = fields.cell()?;
            let w = fields.weakness()?;
            let b = fields.capacity()?;
            Some(Command::NewTable { d, w, b })
        }
        Name::Get => {
            let d = fields.cell()?;
            let c = fields.cell()?;
            let i = fields.element()?;
            Some(Command::Get { d, c, i })
        }
        Name::Put => {
            let c = fields.cell()?;
            let i = fields.element()?;
            let a = fields.cell()?;
            Some(Command::Put { c, i, a })
        }
        Name::RawGet => {
            let r = fields.raw()?;
            let c = fields.cell()?;
            let i = fields.element()?;
            Some(Command::RawGet { r, c, i })
        }
        Name::RawPut => {
            let c = fields.cell()?;
            let i = fields.element()?;
            let r = fields.raw()?;
            Some(Command::RawPut { c, i, r })
        }
        Name::Eq => {
            let a = fields.cell()?;
            let b = fields.cell()?;
            Some(Command::Same { a, b })
        }
        Name::Show => {
            let c = fields.cell()?;
            Some(Command::Show { c })
        }
        Name::Addr => {
            let r = fields.raw()?;
            let c = fields.cell()?;
            Some(Command::Addr { r, c })
        }
        Name::Raw => {
            let r = fields.raw()?;
            let w = fields.word()?;
            Some(Command::SetRaw { r, w })
        }
        Name::Add => {
            let r = fields.raw()?;
            let k = fields.long()?;
            Some(Command::AddRaw { r, k })
        }
        Name::Pin => {
            let c = fields.cell()?;
            Some(Command::Pin { c })
        }
        Name::Unpin => Some(Command::Unpin),
        Name::WeakVal => {
            let d = fields.cell()?;
            let c = fields.cell()?;
            Some(Command::WeakVal { d, c })
        }
        Name::Tput => {
            let c = fields.cell()?;
            let k = fields.cell()?;
            let v = fields.cell()?;
            Some(Command::TablePut { c, k, v })
        }
        Name::Tget => {
            let d = fields.cell()?;
            let c = fields.cell()?;
            let k = fields.cell()?;
            Some(Command::TableGet { d, c, k })
        }
        Name::Trem => {
            let c = fields.cell()?;
            let k = fields.cell()?;
            Some(Command::TableRem { c, k })
        }
        Name::Tcount => {
            let c = fields.cell()?;
            Some(Command::TableCount { c })
        }
        Name::Finalize => {
            let c = fields.cell()?;
            let id = fields.number_32()?;
            Some(Command::Finalize { c, id })
        }
        Name::Cancel => {
            let c = fields.cell()?;
            Some(Command::Cancel { c })
        }
        Name::RunFin => Some(Command::RunFinalizers),
        Name::Gc => {
            let g = fields.collected()?;
            Some(Command::Collect { g })
        }
        Name::NoGc => Some(Command::Inhibit),
        Name::GcOk => Some(Command::Allow),
        Name::Page => {
            let p = fields.number_32()?;
            Some(Command::ShowPage { p })
        }
        Name::Stat => {
            let g = fields.generation_number()?;
            Some(Command::Stat { g })
        }
    }
}
