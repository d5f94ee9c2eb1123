//! The call that may wait: it runs a script on threads, and hands every other list of words to the
//! call that waits for nobody.

ghost use Rattle.std.specs.Prelude.{◌≡◌, ◌↔◌, ◌≤◌, ◌⊎◌, None, Some, IsTrue, OnOk, IfOk, IfErr, codes, length, map};
ghost use Rattle.std.specs.String.{string_bytes};
ghost use Rattle.heap_terms.specs.ScriptReading.{read_script};
ghost use Rattle.heap_terms.specs.Valid.{IsValid};
ghost use Rattle.lispheap.specs.Answers.{change, Answers, IsExact, IsForm, Refuses, Replays};
ghost use Rattle.lispheap.specs.Generating.{EndsGenerating, IsGenerate};
ghost use Rattle.lispheap.specs.OnThreads.{AnswersRun, IsExactRun, IsRun, IsSomeJournal, IsSomeJournalOf};
ghost use Rattle.lispheap.specs.Texts.{status_of};

use crate::faults::Fault;
use crate::still::{lispheap_still, read, report, write};
use heap_io::{Sink, Source};
use heap_terms::{Memory, Program};
use journal_text::print;
use script_text::{ScriptFault, parse};
use std::alloc::Global;
use std::mem::forget;
use std::sync::Wait;
use std::thread::Threads;
use thread_scripts::{Gate, run_threads};

/// Does what the words say and answers the status, as [`lispheap_still`] does, and serves the form
/// `run` too: the source is read to its end as a script, the script runs on threads, one for each
/// of its threads, and the journal of what happened is written to `out`. Which complete history of
/// the script that is the threads decide. The gate may hold them.
///
/// It may wait for threads, and promises what it answers where it returns.
pub fn lispheap<R: Threads + Wait + Sync, S: Source, K: Sink, E: Sink, G: Gate>(
    rt: &R,
    alloc: Global,
    words: &[String],
    source: &mut S,
    out: &mut K,
    err: &mut E,
    gate: &G,
) -> u8
    ensures run { IsRun (map string_bytes words.now) → AnswersRun
        (change (S.state source.old) (S.state source.new))
        (change (K.state out.old) (K.state out.new))
        (change (E.state err.old) (E.state err.new))
        result }
    ensures still { (¬ IsRun (map string_bytes words.now)) → Answers (map string_bytes words.now)
        (change (S.state source.old) (S.state source.new))
        (change (K.state out.old) (K.state out.new))
        (change (E.state err.old) (E.state err.new))
        result }

    // The words alone decide this status.
    ensures usage { (result ≡ 2) ↔ ¬ (IsRun (map string_bytes words.now) ⊎ IsForm (map string_bytes words.now)) }

    // Without a fault of the source or of `out` the bytes alone decide the status, unless memory
    // runs out.
    ensures exact_run { IsRun (map string_bytes words.now) → IsExactRun
        (change (S.state source.old) (S.state source.new))
        (change (K.state out.old) (K.state out.new))
        result }
    ensures exact { IsExact (map string_bytes words.now)
        (change (S.state source.old) (S.state source.new))
        (change (K.state out.old) (K.state out.new))
        result }

    // The generator takes nothing from the source, and 3, 4 and 6 never come for it.
    ensures generator { IsGenerate (map string_bytes words.now) → EndsGenerating
        (change (S.state source.old) (S.state source.new))
        (change (K.state out.old) (K.state out.new))
        result }
{
    if is_run(words) {
        answer_run(rt, alloc, source, out, err, gate)
    } else {
        lispheap_still(alloc, words, source, out, err)
    }
}

/// Whether the words are `run`.
fn is_run(words: &[String]) -> bool
    ensures { IsTrue result ↔ IsRun (map string_bytes words.now) }
{
    match words {
        [word] => is_run_word(word),
        _ => false,
    }
}

/// Whether a word is `run`.
fn is_run_word(word: &String) -> bool
    ensures { IsTrue result ↔ (string_bytes word.now ≡ codes "run") }
{
    word.as_str() == "run"
}

/// Runs a script on threads, and answers the status.
fn answer_run<R: Threads + Wait + Sync, S: Source, K: Sink, E: Sink, G: Gate>(
    rt: &R,
    alloc: Global,
    source: &mut S,
    out: &mut K,
    err: &mut E,
    gate: &G,
) -> u8
    ensures { AnswersRun
        (change (S.state source.old) (S.state source.new))
        (change (K.state out.old) (K.state out.new))
        (change (E.state err.old) (E.state err.new))
        result }
{
    match run(rt, alloc, source, out, gate) {
        Ok(()) => 0,
        Err(fault) => report(err, fault),
    }
}

/// Reads a script, runs it on threads, and writes the journal of what happened.
fn run<R: Threads + Wait + Sync, S: Source, K: Sink, G: Gate>(
    rt: &R,
    alloc: Global,
    source: &mut S,
    out: &mut K,
    gate: &G,
) -> Result<(), Fault>
    ensures done { OnOk result (Replays IsSomeJournal None
        (change (S.state source.old) (S.state source.new))
        (change (K.state out.old) (K.state out.new))) }
    ensures failed { IfErr result (λ fault. Replays IsSomeJournal (Some fault)
        (change (S.state source.old) (S.state source.new))
        (change (K.state out.old) (K.state out.new))) }
{
    let bytes = read(alloc, source)?;
    let journal = journal_for(rt, alloc, &bytes, gate)?;
    write(out, &journal)
}

/// The journal of a run of what a script says.
fn journal_for<R: Threads + Wait + Sync, G: Gate>(
    rt: &R,
    alloc: Global,
    bytes: &[u8],
    gate: &G,
) -> Result<Vec<u8>, Fault>
    requires { length bytes.now ≤ 4194304 }
    ensures journal { IfOk result (λ text. IsSomeJournal bytes.now text.items) }
    ensures refused { IfErr result (λ fault. Refuses fault (read_script bytes.now)) }
{
    match parse(alloc, bytes) {
        Ok(program) => Ok(run_program(rt, alloc, program, gate)?),
        Err(ScriptFault::Line(n, why)) => Err(Fault::Line(n, why)),
        Err(ScriptFault::Limit(_, kind)) => Err(Fault::Limit(kind)),
        Err(ScriptFault::Memory) => Err(Fault::Memory),
    }
}

/// The journal of a run of a program.
fn run_program<R: Threads + Wait + Sync, G: Gate>(
    rt: &R,
    alloc: Global,
    program: Program,
    gate: &G,
) -> Result<Vec<u8>, Memory>
    requires { IsValid program }
    ensures { IfOk result (λ text. IsSomeJournalOf program text.items) }
{
    let world = run_threads(rt, alloc, program, gate)?;
    let text = print(alloc, world.history());
    // The process ends once the text is written: a long history is not gone over again to be freed.
    forget(world);
    text
}
