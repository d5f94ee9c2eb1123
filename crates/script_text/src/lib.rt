//! Scripts as text: reading one, with the exact line and the exact reason where it is refused, and
//! printing the program of one.
#![tactic(auto)]

mod cells;
mod commands;
mod cursor;
mod faults;
mod fields;
mod numbers;
mod printing;
mod raw_words;
mod reader;
mod schedules;
mod turns;
mod weaknesses;
mod words;

ghost use Rattle.std.specs.Prelude.{◌<◌, ◌-◌, ◌^◌, length, IfOk};
ghost use Rattle.heap_terms.specs.ScriptReading.{read_script};
ghost use Rattle.heap_terms.specs.Valid.{IsValid};
ghost use Rattle.script_text.specs.Gives.{Gives};

use crate::cursor::Cursor;
use crate::reader::Reader;
pub use faults::ScriptFault;
use heap_terms::{Program, Why};
pub use printing::print;
use std::alloc::Global;

/// The program that a script says, or why it is refused: the first line that is bad decides, and on
/// it the first check that fails. The bytes are read once; the memory taken is linear in the
/// program.
pub fn parse(alloc: Global, bytes: &[u8]) -> Result<Program, ScriptFault>
    requires { length bytes.now < 2 ^ 32 - 1 }
    // What is answered is what the script says; want of memory alone is free.
    ensures exact { Gives result (read_script bytes.now) }
    // A program that is read can be run.
    ensures valid { IfOk result IsValid }
{
    let mut reader = Reader::new(alloc);
    let mut left = Cursor::new(bytes);
    let mut number: u32 = 1;
    while !left.is_done() {
        if let Err(fault) = reader.line(alloc, &mut left) {
            return Err(fault.at(number));
        }
        left.next_line();
        number += 1;
    }
    match reader.finish() {
        Some(program) => Ok(program),
        None => Err(ScriptFault::Line(number, Why::Missing)),
    }
}
