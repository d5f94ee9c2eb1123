//! The forms of the generator: the script of a seed, or the summary of its run.

ghost use Rattle.std.specs.Prelude.{◌≡◌, Some, None, IfOk, IfErr, OnOk, map};
ghost use Rattle.std.specs.String.{string_bytes};
ghost use Rattle.heap_terms.specs.Valid.{IsValid};
ghost use Rattle.lispheap.specs.Answers.{change};
ghost use Rattle.lispheap.specs.Generating.{Generates, IsGenerate, IsSummaryOf, IsTextOf};

use crate::faults::Fault;
use crate::still::write;
use command_words::{Wanted, read_generate};
use heap_io::Sink;
use heap_report::{print_summary, summary};
use heap_terms::{Memory, Program};
use replay_core::run_history;
use script_gen::generate;
use script_text::print;
use std::alloc::Global;
use std::mem::forget;

/// Writes what words of the generator ask for.
pub(crate) fn write_generated<K: Sink>(
    alloc: Global,
    words: &[String],
    out: &mut K,
) -> Result<(), Fault>
    requires { IsGenerate (map string_bytes words.now) }
    ensures done { OnOk result (Generates (map string_bytes words.now) None
        (change (K.state out.old) (K.state out.new))) }
    ensures failed { IfErr result (λ fault. Generates (map string_bytes words.now) (Some fault)
        (change (K.state out.old) (K.state out.new))) }
{
    let wanted = read_generate(alloc, words)?;
    let text = text_for(alloc, wanted)?;
    write(out, &text)
}

/// The script of a seed, or the summary of its run.
fn text_for(alloc: Global, wanted: Wanted) -> Result<Vec<u8>, Memory>
    ensures { IfOk result (λ text. IsTextOf wanted.script wanted.seed text.items) }
{
    let program = generate(alloc, wanted.seed)?;
    if wanted.script {
        print(alloc, &program)
    } else {
        summary_for(alloc, program)
    }
}

/// The summary of the run of a program. Its journal is not printed for it.
fn summary_for(alloc: Global, program: Program) -> Result<Vec<u8>, Memory>
    requires { IsValid program }
    ensures { IfOk result (λ text. IsSummaryOf program text.items) }
{
    let world = run_history(alloc, program)?;
    let totals = summary(world.program(), world.history());
    let text = print_summary(alloc, &totals);
    // The process ends once the text is written: a long history is not gone over again to be freed.
    forget(world);
    text
}
