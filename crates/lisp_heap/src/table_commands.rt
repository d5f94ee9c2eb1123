//! The commands on tables: `tput`, `tget`, `trem` and `tcount`. A key is compared by its word: two
//! values are the same just where their words are.

ghost use Rattle.std.specs.Prelude.{◌≡◌, ◌<◌, length, OnOk, OnErr, Some};
ghost use Rattle.heap_terms.specs.declared.commands.Command.TheVariants as commands;
ghost use Rattle.heap_terms.specs.declared.pages.Next.{Next};
ghost use Rattle.heap_terms.specs.Histories.{command_at};
ghost use Rattle.heap_terms.specs.Valid.{IsCell};
ghost use Rattle.lisp_heap.specs.Agreement.{Agrees};
ghost use Rattle.lisp_heap.specs.Events.{Happens};
ghost use Rattle.lisp_heap.specs.LookUps.{IsFound, answer_after_insert, answer_after_remove};
ghost use Rattle.lisp_heap.specs.ParcelView.{ParcelView};
ghost use Rattle.lisp_heap.specs.Plan.{IsPlan};
ghost use Rattle.lisp_heap.specs.View.{heap_of, next_of};

use crate::cell_commands::NIL_WORD;
use crate::plan::{Change, Plan, apply};
use crate::world::World;
use eq_index::{Inserted, count, insert, look_up, remove};
use heap_terms::{Answer, Cell, Command, Event, Kind, Memory, Refusal};

impl World {
    /// `tput`. For want of memory nothing changes.
    pub(crate) fn put_pair(&mut self, t: u32, c: Cell, k: Cell, v: Cell) -> Result<(), Memory>
        requires thread { t < length self.old.program.threads }
        requires command { command_at self.old.program (heap_of self.old) t ≡ Some (commands.TablePut c k v) }
        requires simple { next_of self.old t ≡ Next.Simple }
        requires c { IsCell c }
        requires k { IsCell k }
        requires v { IsCell v }
        ensures ok { OnOk result (Happens t self.old self.new) }
        ensures others { OnOk result ((q : ParcelView) → Agrees (heap_of self.old) q → Agrees (heap_of self.new) q) }
        ensures err { OnErr result (self.new ≡ self.old) }
    {
        let command = Command::TablePut { c, k, v };
        let of = self.cell(t as usize, c);
        let Some(table) = self.object_of_kind(of, Kind::Table) else {
            return self.carry_out(t, command, Plan::refused(Refusal::NotType));
        };
        let key = self.cell(t as usize, k);
        let value = self.cell(t as usize, v);
        // All memory is taken before the first change.
        self.history.reserve(1)?;
        let answer = after_insert(insert(&mut self.space, table, key, value));
        self.history
            .push(Event::Did {
                thread: t,
                command,
                answer,
            })
            .unwrap();
        self.states.advance(t as usize);
        Ok(())
    }

    /// `tget`. For want of memory nothing changes.
    pub(crate) fn get_value(&mut self, t: u32, d: Cell, c: Cell, k: Cell) -> Result<(), Memory>
        requires thread { t < length self.old.program.threads }
        requires command { command_at self.old.program (heap_of self.old) t ≡ Some (commands.TableGet d c k) }
        requires simple { next_of self.old t ≡ Next.Simple }
        requires d { IsCell d }
        requires c { IsCell c }
        requires k { IsCell k }
        ensures ok { OnOk result (Happens t self.old self.new) }
        ensures others { OnOk result ((q : ParcelView) → Agrees (heap_of self.old) q → Agrees (heap_of self.new) q) }
        ensures err { OnErr result (self.new ≡ self.old) }
    {
        let command = Command::TableGet { d, c, k };
        let of = self.cell(t as usize, c);
        let Some(table) = self.object_of_kind(of, Kind::Table) else {
            return self.carry_out(t, command, Plan::refused(Refusal::NotType));
        };
        let key = self.cell(t as usize, k);
        // All memory is taken before the first change.
        self.history.reserve(1)?;
        let found = look_up(&mut self.space, table, key);
        let Plan { answer, change } = self.value_found(t as usize, d, c, k, found);
        self.history
            .push(Event::Did {
                thread: t,
                command,
                answer,
            })
            .unwrap();
        apply(
            &mut self.cells,
            &mut self.space,
            &mut self.states,
            &mut self.pins,
            t as usize,
            change,
        );
        self.states.advance(t as usize);
        Ok(())
    }

    /// What `tget` answers and puts into d, given the word of the value that was found.
    fn value_found(&self, t: usize, d: Cell, c: Cell, k: Cell, found: Option<u64>) -> Plan
        requires d { IsCell d }
        requires found { IsFound (heap_of self.now) t c k found }
        ensures { IsPlan (heap_of self.now) t (commands.TableGet d c k) result.answer result.change }
    {
        match found {
            Some(word) => Plan {
                answer: Answer::Val(self.value_of(word)),
                change: Change::InCell { cell: d, word },
            },
            None => Plan {
                answer: Answer::Absent,
                change: Change::InCell {
                    cell: d,
                    word: NIL_WORD,
                },
            },
        }
    }

    /// `trem`. For want of memory nothing changes.
    pub(crate) fn remove_pair(&mut self, t: u32, c: Cell, k: Cell) -> Result<(), Memory>
        requires thread { t < length self.old.program.threads }
        requires command { command_at self.old.program (heap_of self.old) t ≡ Some (commands.TableRem c k) }
        requires simple { next_of self.old t ≡ Next.Simple }
        requires c { IsCell c }
        requires k { IsCell k }
        ensures ok { OnOk result (Happens t self.old self.new) }
        ensures others { OnOk result ((q : ParcelView) → Agrees (heap_of self.old) q → Agrees (heap_of self.new) q) }
        ensures err { OnErr result (self.new ≡ self.old) }
    {
        let command = Command::TableRem { c, k };
        let of = self.cell(t as usize, c);
        let Some(table) = self.object_of_kind(of, Kind::Table) else {
            return self.carry_out(t, command, Plan::refused(Refusal::NotType));
        };
        let key = self.cell(t as usize, k);
        // All memory is taken before the first change.
        self.history.reserve(1)?;
        let answer = after_remove(remove(&mut self.space, table, key));
        self.history
            .push(Event::Did {
                thread: t,
                command,
                answer,
            })
            .unwrap();
        self.states.advance(t as usize);
        Ok(())
    }

    /// `tcount`.
    pub(crate) fn pairs_counted(&self, t: usize, c: Cell) -> Plan
        requires thread { t < length self.now.program.threads }
        requires c { IsCell c }
        ensures { IsPlan (heap_of self.now) t (commands.TableCount c) result.answer result.change }
    {
        // Looked into here, so that what follows may use what a World keeps true.
        let _space = &self.space;
        let of = self.cell(t, c);
        let Some(table) = self.object_of_kind(of, Kind::Table) else {
            return Plan::refused(Refusal::NotType);
        };
        Plan {
            answer: Answer::Count(u64::from(count(&self.space, table))),
            change: Change::Nothing,
        }
    }
}

/// What `tput` answers.
fn after_insert(inserted: Inserted) -> Answer
    ensures { result ≡ answer_after_insert inserted }
{
    match inserted {
        Inserted::Added | Inserted::Replaced => Answer::Done,
        Inserted::Full => Answer::Refused(Refusal::TableFull),
    }
}

/// What `trem` answers.
fn after_remove(removed: bool) -> Answer
    ensures { result ≡ answer_after_remove removed }
{
    if removed { Answer::Yes } else { Answer::No }
}
