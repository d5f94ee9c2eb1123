//! Reading a journal.

ghost use Rattle.std.specs.Prelude.{List, ◌≡◌, ◌-◌, ◌<◌, ◌^◌, length, IfOk, IfErr, MatchResult};
ghost use Rattle.heap_terms.specs.declared.events.Event.{Event as HeapEvent};
ghost use Rattle.journal_text.specs.declared.faults.JournalFault.TheVariants.{Memory};
ghost use Rattle.journal_text.specs.Journals.{IsFault, IsJournal};

mod answers;
mod commands;
mod cursor;
mod faults;
mod items;
mod lines;
mod numbers;
mod openings;
mod pieces;
mod plain;
mod reader;
mod records;
mod rows;
mod stages;
mod values;
mod words;

use crate::faults::JournalFault;
use heap_terms::{Event, Why};
use reader::Reader;
use std::alloc::Global;

/// The events that a journal tells, or where the bytes are no journal: the first line that with all
/// lines before it begins none, or the end, where more would have to follow. The bytes are read
/// once; the memory taken is linear in them.
pub fn parse(alloc: Global, bytes: &[u8]) -> Result<Vec<Event>, JournalFault>
    requires { length bytes.now < 2 ^ 32 - 1 }
    // What is answered is what the journal tells.
    ensures journal { IfOk result (λ events. IsJournal bytes.now events.items) }
    // A fault is where the bytes stop being a journal; want of memory alone is free.
    ensures fault { IfErr result (λ fault. IsFault fault bytes.now) }
    // A journal is read as the events that it tells, unless memory runs out.
    ensures exact { (h : List HeapEvent) → IsJournal bytes.now h → MatchResult result (λ events. events.items ≡ h) (λ fault. fault ≡ Memory) }
{
    events_of(alloc, bytes)
}

/// The same, without the clause that follows from the others.
fn events_of(alloc: Global, bytes: &[u8]) -> Result<Vec<Event>, JournalFault>
    requires { length bytes.now < 2 ^ 32 - 1 }
    ensures journal { IfOk result (λ events. IsJournal bytes.now events.items) }
    ensures fault { IfErr result (λ fault. IsFault fault bytes.now) }
{
    let mut reader = Reader::new(alloc);
    let mut rest = bytes;
    let mut number: u32 = 1;
    loop {
        match reader.take_line(alloc, rest) {
            Ok(Some(behind)) => {
                rest = behind;
                number += 1;
            }
            Ok(None) => break,
            Err(fault) => return Err(fault.at(number)),
        }
    }
    if !rest.is_empty() {
        return Err(JournalFault::Line(number, Why::Missing));
    }
    if !reader.is_done() {
        return Err(JournalFault::Line(number, Why::Missing));
    }
    Ok(reader.into_events())
}
