//! What the lines so far say.

ghost use Rattle.std.specs.Prelude.{◌≡◌, ◌<◌, ◌≤◌, ◌-◌, ◌^◌, ℕ, true, IsTrue, OnOk, OnErr, Ok, length, min, ok_or};
ghost use Rattle.heap_terms.specs.Grammar.{Version, HeapOf, NewThread, Does, EndOfScript, schedule_of, statement_of};
ghost use Rattle.heap_terms.specs.ScriptReading.{within_limits, judged, judged_word, nothing_read, onto_last, finished, LineFault as MadeAt};
ghost use Rattle.heap_terms.specs.declared.faults.Why.TheVariants.{Missing};
ghost use Rattle.heap_terms.specs.Valid.{is_built, is_gc};
ghost use Rattle.script_text.specs.ReaderAnswers.{IsJudged};
ghost use Rattle.script_text.specs.Left.{fields_left, lines_after};
ghost use Rattle.script_text.specs.Words.{text_of};

use crate::commands::{auto_of, command, pages_of, version_of};
use crate::cursor::Cursor;
use crate::faults::LineFault;
use crate::schedules::add_turns;
use crate::words::{Keyword, Place, meaning_of};
use heap_terms::{
    Command, Commands, LimitKind, MOST_COMMANDS, MOST_GCS, MOST_PAGES, MOST_THREADS, Program,
    Scripts, Turns, Why,
};
use std::alloc::{AllocFailed, Global};
use std::marker::Model;

/// How many bytes a short line of a command has. It is a guess: where lines are shorter, a thread's
/// list of commands grows.
const SHORT_LINE: usize = 8;

/// What the lines so far say.
#[derive(Drop)]
pub(crate) struct Reader {
    place: Place,
    pages: u32,
    auto: u64,
    threads: Vec<Commands>,
    schedule: Vec<u32>,
    commands: u32,
    gcs: u32,
}

impl Model for Reader {
    ghost use Rattle.heap_terms.specs.ScriptReading.{SoFar};

    ghost Value = { SoFar };

    ghost use Rattle.script_text.specs.Reader.{view_of, Counts};

    ghost view = { view_of };

    ghost invariant = { Counts };
}

/// Whether a command is `gc`.
fn is_collect(command: &Command) -> bool
    ensures { result ≡ is_gc command.now }
{
    matches!(command, Command::Collect { .. })
}

/// Adds a command to the last thread.
fn push_to_last(threads: &mut Vec<Commands>, command: Command) -> Result<(), AllocFailed<Command>>
    requires { 0 < length threads.old.items }
    ensures ok { OnOk result (threads.new.items ≡ onto_last threads.old.items command) }
    ensures err { OnErr result (threads.new.items ≡ threads.old.items) }
{
    let last = threads.len() - 1;
    threads[last].push(command)
}

impl Reader {
    /// No line was read.
    pub(crate) fn new(alloc: Global) -> Self
        ensures { result ≡ nothing_read }
    {
        Reader {
            place: Place::Start,
            pages: 0,
            auto: 0,
            threads: Vec::new(alloc),
            schedule: Vec::new(alloc),
            commands: 0,
            gcs: 0,
        }
    }

    /// A number of pages.
    fn heap(&mut self, pages: u64) -> Result<(), LineFault>
        ensures { (n : ℕ) → pages ≡ min n (2 ^ 64 - 1) → IsJudged result self.new (within_limits self.old (Ok (HeapOf n))) }
    {
        if pages > u64::from(MOST_PAGES) {
            return Err(LineFault::Over(LimitKind::Pages));
        }
        self.pages = pages as u32;
        self.place = Place::Heap;
        Ok(())
    }

    /// A thread, with no command yet, and room for the commands that so many bytes can be.
    fn thread(&mut self, alloc: Global, bytes: usize) -> Result<(), LineFault>
        ensures { IsJudged result self.new (within_limits self.old (Ok NewThread)) }
    {
        if self.threads.len() >= MOST_THREADS as usize {
            return Err(LineFault::Over(LimitKind::Threads));
        }
        let most = (MOST_COMMANDS - self.commands) as usize;
        let commands = Vec::with_capacity(alloc, most.min(bytes / SHORT_LINE))?;
        self.threads.push(Commands::from_vec(commands))?;
        self.place = Place::Thread;
        Ok(())
    }

    /// A command of the last thread.
    #[inline(always)]
    #[tactic(auto, using(crate::proofs::Sums::counted))]
    fn command(&mut self, command: Command) -> Result<(), LineFault>
        ensures { IsJudged result self.new (within_limits self.old (Ok (Does command))) }
    {
        if self.commands >= MOST_COMMANDS {
            return Err(LineFault::Over(LimitKind::Commands));
        }
        let collects = is_collect(&command);
        if collects && self.gcs >= MOST_GCS {
            return Err(LineFault::Over(LimitKind::Gcs));
        }
        // Not reached, since a command stands behind a `thread` line: then there is no script to
        // add it to.
        if self.threads.is_empty() {
            self.place = Place::Thread;
            return Ok(());
        }
        push_to_last(&mut self.threads, command)?;
        self.commands += 1;
        self.gcs += u32::from(collects);
        self.place = Place::Thread;
        Ok(())
    }

    /// The turns of a `schedule` line.
    #[tactic(auto, using(crate::proofs::Scheduled::scheduled))]
    fn schedule(&mut self, left: &mut Cursor) -> Result<(), LineFault>
        ensures judged { IsJudged result self.new (within_limits self.old (schedule_of (length self.old.program.threads) (fields_left left.old))) }
        ensures lines { OnOk result (lines_after left.new ≡ lines_after left.old) }
    {
        if left.is_at_end() {
            return Err(LineFault::Bad(Why::Fields));
        }
        let threads = self.threads.len() as u32;
        add_turns(&mut self.schedule, threads, left)?;
        self.place = Place::Schedule;
        Ok(())
    }

    /// A line with its word, at a place where it may stand.
    #[tactic(auto, using(crate::proofs::Statements::words))]
    fn word(&mut self, alloc: Global, word: Keyword, left: &mut Cursor) -> Result<(), LineFault>
        ensures judged { IsJudged result self.new (within_limits self.old (statement_of (length self.old.program.threads) (text_of word) (fields_left left.old))) }
        ensures lines { OnOk result (lines_after left.new ≡ lines_after left.old) }
    {
        match word {
            Keyword::Command(name) => {
                let command = command(name, left)?;
                self.command(command)
            }
            Keyword::Schedule => self.schedule(left),
            Keyword::Lispheap => {
                version_of(left)?;
                self.place = Place::Version;
                Ok(())
            }
            Keyword::Heap => {
                let pages = pages_of(left)?;
                self.heap(pages)
            }
            Keyword::Auto => {
                self.auto = auto_of(left)?;
                self.place = Place::Auto;
                Ok(())
            }
            Keyword::Thread => {
                if !left.is_at_end() {
                    return Err(LineFault::Bad(Why::Fields));
                }
                self.thread(alloc, left.len())
            }
            Keyword::End => {
                if !left.is_at_end() {
                    return Err(LineFault::Bad(Why::Fields));
                }
                self.place = Place::End;
                Ok(())
            }
        }
    }

    /// A line with its word, wherever it stands.
    #[tactic(auto, unfolding(heap_terms::specs::ScriptReading::judged_word))]
    fn placed(&mut self, alloc: Global, word: Keyword, left: &mut Cursor) -> Result<(), LineFault>
        requires { is_built (text_of word) ≡ true }
        ensures judged { IsJudged result self.new (judged_word self.old (text_of word) (fields_left left.old)) }
        ensures lines { OnOk result (lines_after left.new ≡ lines_after left.old) }
    {
        if !self.place.admits(word) {
            return Err(LineFault::Bad(Why::Order));
        }
        self.word(alloc, word, left)
    }

    /// A line, from its first field on. The usual one is a command in its usual spelling.
    #[inline(always)]
    #[tactic(auto, using(crate::proofs::Plain::plain_judged))]
    pub(crate) fn line(&mut self, alloc: Global, left: &mut Cursor) -> Result<(), LineFault>
        ensures judged { IsJudged result self.new (judged self.old (fields_left left.old)) }
        ensures lines { OnOk result (lines_after left.new ≡ lines_after left.old) }
    {
        if let Place::Thread = self.place {
            if let Some(command) = left.plain_command() {
                return self.command(command);
            }
        }
        self.any_line(alloc, left)
    }

    /// The same, whatever the line and its spelling.
    #[cold]
    #[inline(never)]
    #[tactic(auto, unfolding(heap_terms::specs::ScriptReading::judged, heap_terms::specs::ScriptReading::judged_word))]
    fn any_line(&mut self, alloc: Global, left: &mut Cursor) -> Result<(), LineFault>
        ensures judged { IsJudged result self.new (judged self.old (fields_left left.old)) }
        ensures lines { OnOk result (lines_after left.new ≡ lines_after left.old) }
    {
        let Some(word) = left.next_field() else {
            return Ok(());
        };
        if let [b';', ..] = word {
            return Ok(());
        }
        let Some(word) = meaning_of(word) else {
            return Err(LineFault::Bad(Why::Word));
        };
        self.placed(alloc, word, left)
    }

    /// The program, if `end` was read.
    pub(crate) fn finish(self) -> Option<Program>
        ensures { (number : ℕ) → finished self number ≡ ok_or result (MadeAt number Missing) }
    {
        match self.place {
            Place::End => Some(Program {
                pages: self.pages,
                auto: self.auto,
                threads: Scripts::from_vec(self.threads),
                schedule: Turns::from_vec(self.schedule),
            }),
            _ => None,
        }
    }
}
