//! The call that waits for nobody: it replays a script and writes its journal, or does what is wanted of
//! the generator.

ghost use Rattle.std.specs.Prelude.{◌≡◌, ◌↔◌, ◌<◌, ◌≤◌, ◌-◌, ◌^◌, None, Some, IsTrue, OnOk, IfOk, IfErr, codes, length, map, true, false};
ghost use Rattle.std.specs.String.{string_bytes};
ghost use Rattle.heap_terms.specs.ScriptReading.{read_script};
ghost use Rattle.heap_terms.specs.Valid.{IsValid};
ghost use Rattle.lispheap.specs.Answers.{change, Answers, Ends, IsExact, IsForm, asks_for_steps, IsReplay, IsInput, IsUnread, IsUnwritten, SaysAll, Refuses, Replays, Reports};
ghost use Rattle.lispheap.specs.Generating.{EndsGenerating, IsGenerate};
ghost use Rattle.lispheap.specs.Journals.{IsJournal, IsJournalOf};
ghost use Rattle.lispheap.specs.Texts.{status_of};

use crate::faults::{Fault, put_text, say};
use crate::generating::write_generated;
use command_words::is_generate;
use heap_io::{ReadFault, Sink, Source, read_all};
use heap_terms::{MOST_BYTES, Memory, Program};
use journal_text::{print, print_words};
use replay_core::{run_history, run_schedule};
use script_text::{ScriptFault, parse};
use std::alloc::Global;
use std::mem::forget;

/// How many bytes of input there may be.
const INPUT_LIMIT: u64 = MOST_BYTES as u64;

/// Does what the words say and answers the status: 0 done, 2 usage, 3 no script, 4 read fault, 5
/// write fault, 6 a limit, 7 out of memory. The forms of words are these:
/// - `replay` and `replay --words`: the source is read to its end as a script, the script runs by its
///   schedule, and its journal is written to `out`, in the second form with the steps of the word
///   machine.
/// - `gen --seed N` and `gen --seed=N`: the summary of the run of N's generated program is written to
///   `out`; with `--script` after them its script. Nothing is read.
///
/// What went wrong is said on `err` in one line, and a fault of `err` changes no status. The order
/// is: usage, read, too long, grammar, run, write; want of memory may come at each of them before
/// the write.
pub fn lispheap_still<S: Source, K: Sink, E: Sink>(
    alloc: Global,
    words: &[String],
    source: &mut S,
    out: &mut K,
    err: &mut E,
) -> u8
    ensures answers { Answers (map string_bytes words.now)
        (change (S.state source.old) (S.state source.new))
        (change (K.state out.old) (K.state out.new))
        (change (E.state err.old) (E.state err.new))
        result }

    // The words alone decide this status.
    ensures usage { (result ≡ 2) ↔ ¬ IsForm (map string_bytes words.now) }

    // Without a fault of the source or of `out` the bytes alone decide the status, unless memory
    // runs out.
    ensures exact { IsExact (map string_bytes words.now)
        (change (S.state source.old) (S.state source.new))
        (change (K.state out.old) (K.state out.new))
        result }

    // The generator takes nothing from the source, and 3, 4 and 6 never come for it.
    ensures generator { IsGenerate (map string_bytes words.now) → EndsGenerating
        (change (S.state source.old) (S.state source.new))
        (change (K.state out.old) (K.state out.new))
        result }
{
    answer(alloc, words, source, out, err)
}

/// The same, without the clauses that follow from what it answers.
fn answer<S: Source, K: Sink, E: Sink>(
    alloc: Global,
    words: &[String],
    source: &mut S,
    out: &mut K,
    err: &mut E,
) -> u8
    ensures { Answers (map string_bytes words.now)
        (change (S.state source.old) (S.state source.new))
        (change (K.state out.old) (K.state out.new))
        (change (E.state err.old) (E.state err.new))
        result }
{
    match perform(alloc, words, source, out) {
        Ok(()) => 0,
        Err(fault) => report(err, fault),
    }
}

/// Says what went wrong, and answers its status.
pub(crate) fn report<E: Sink>(err: &mut E, fault: Fault) -> u8
    ensures status { result ≡ status_of (Some fault) }
    ensures reports { Reports (Some fault)
        (change (E.state err.old) (E.state err.new)) }
{
    let _ = say(err, fault);
    fault.status()
}

/// Does what the words say.
fn perform<S: Source, K: Sink>(
    alloc: Global,
    words: &[String],
    source: &mut S,
    out: &mut K,
) -> Result<(), Fault>
    ensures done { OnOk result (Ends None (map string_bytes words.now)
        (change (S.state source.old) (S.state source.new))
        (change (K.state out.old) (K.state out.new))) }
    ensures failed { IfErr result (λ fault. Ends (Some fault) (map string_bytes words.now)
        (change (S.state source.old) (S.state source.new))
        (change (K.state out.old) (K.state out.new))) }
{
    if is_replay(words) {
        return replay(alloc, words.len() > 1, source, out);
    }
    if is_generate(words) {
        return write_generated(alloc, words, out);
    }
    Err(Fault::Usage)
}

/// Whether the words are one of the two forms of a replay.
fn is_replay(words: &[String]) -> bool
    ensures { IsTrue result ↔ IsReplay (map string_bytes words.now) }
{
    match words {
        [word] => is_word(word),
        [word, option] => is_word(word) && is_option(option),
        _ => false,
    }
}

/// Whether a word is `replay`.
fn is_word(word: &String) -> bool
    ensures { IsTrue result ↔ (string_bytes word.now ≡ codes "replay") }
{
    word.as_str() == "replay"
}

/// Whether a word is `--words`.
fn is_option(word: &String) -> bool
    ensures { IsTrue result ↔ (string_bytes word.now ≡ codes "--words") }
{
    word.as_str() == "--words"
}

/// Reads a script, replays it, and writes its journal, with the word steps where they are asked for.
fn replay<S: Source, K: Sink>(
    alloc: Global,
    steps: bool,
    source: &mut S,
    out: &mut K,
) -> Result<(), Fault>
    ensures done { OnOk result (Replays (IsJournal steps) None
        (change (S.state source.old) (S.state source.new))
        (change (K.state out.old) (K.state out.new))) }
    ensures failed { IfErr result (λ fault. Replays (IsJournal steps) (Some fault)
        (change (S.state source.old) (S.state source.new))
        (change (K.state out.old) (K.state out.new))) }
{
    let bytes = read(alloc, source)?;
    let journal = journal_for(alloc, steps, &bytes)?;
    write(out, &journal)
}

/// Writes a journal, or what the generator makes.
pub(crate) fn write<K: Sink>(out: &mut K, text: &[u8]) -> Result<(), Fault>
    ensures written { OnOk result (SaysAll text.now
        (change (K.state out.old) (K.state out.new))) }
    ensures stopped { IfErr result (λ fault. IsUnwritten fault text.now
        (change (K.state out.old) (K.state out.new))) }
{
    match put_text(out, text) {
        Ok(()) => Ok(()),
        Err(_) => Err(Fault::Write),
    }
}

/// Reads the source to its end.
pub(crate) fn read<S: Source>(alloc: Global, source: &mut S) -> Result<Vec<u8>, Fault>
    ensures read { IfOk result (λ bytes. IsInput
        (change (S.state source.old) (S.state source.new)) bytes.items) }
    ensures failed { IfErr result (λ fault. IsUnread fault
        (change (S.state source.old) (S.state source.new))) }
{
    match read_all(alloc, source, INPUT_LIMIT) {
        Ok(bytes) => Ok(bytes),
        Err(ReadFault::Read) => Err(Fault::Read),
        Err(ReadFault::TooLong) => Err(Fault::TooLong),
        Err(ReadFault::Memory) => Err(Fault::Memory),
    }
}

/// The journal of what a script says.
fn journal_for(alloc: Global, steps: bool, bytes: &[u8]) -> Result<Vec<u8>, Fault>
    requires { length bytes.now ≤ INPUT_LIMIT }
    ensures journal { IfOk result (λ text. IsJournal steps bytes.now text.items) }
    ensures refused { IfErr result (λ fault. Refuses fault (read_script bytes.now)) }
{
    match parse(alloc, bytes) {
        Ok(program) => Ok(run(alloc, steps, program)?),
        Err(ScriptFault::Line(n, why)) => Err(Fault::Line(n, why)),
        Err(ScriptFault::Limit(_, kind)) => Err(Fault::Limit(kind)),
        Err(ScriptFault::Memory) => Err(Fault::Memory),
    }
}

/// The journal of a program, with the word steps where they are asked for.
fn run(alloc: Global, steps: bool, program: Program) -> Result<Vec<u8>, Memory>
    requires { IsValid program }
    ensures { IfOk result (λ text. IsJournalOf steps program text.items) }
{
    if steps {
        run_with_steps(alloc, program)
    } else {
        run_alone(alloc, program)
    }
}

/// The journal of a program without its word steps, which are not kept.
fn run_alone(alloc: Global, program: Program) -> Result<Vec<u8>, Memory>
    requires { IsValid program }
    ensures { IfOk result (λ text. IsJournalOf false program text.items) }
{
    let world = run_history(alloc, program)?;
    let text = print(alloc, world.history());
    // The process ends once the text is written: a long history is not gone over again to be freed.
    forget(world);
    text
}

/// The journal of a program with its word steps.
fn run_with_steps(alloc: Global, program: Program) -> Result<Vec<u8>, Memory>
    requires { IsValid program }
    ensures { IfOk result (λ text. IsJournalOf true program text.items) }
{
    let replay = run_schedule(alloc, program)?;
    let text = print_words(alloc, replay.lines.as_slice(), replay.world.history());
    // For the same reason.
    forget(replay);
    text
}
