//! The program of a seed.

ghost use Rattle.std.specs.Prelude.{◌≡◌, ◌≤◌, IfOk, OnOk};
ghost use Rattle.heap_terms.specs.Generated.{commands_from, generated, next_drawn, progress_after, progressed, threads_from};
ghost use Rattle.heap_terms.specs.Valid.{IsValid};
ghost use Rattle.script_gen.specs.Drawing.{progress_of};

use crate::draws::Draws;
use heap_terms::{Command, Commands, Memory, Program, Scripts, Turns};
use std::alloc::Global;

/// The pages of the heap.
const PAGES: u32 = 64;

/// After how many committed words a collection is owed.
const AUTO: u64 = 4096;

/// The threads.
const THREADS: u32 = 4;

/// The commands of each thread.
const COMMANDS_EACH: u32 = 400;

/// How far a generation is: the numbers that are left to draw, and how many `gc` there are.
#[derive(Drop)]
pub(crate) struct Generation {
    pub(crate) draws: Draws,
    pub(crate) gcs: u32,
}

/// The program of a seed, of which there is one for each number of 64 bits: 64 pages, a collection
/// each 4,096 words, and four threads of 400 commands, which are drawn one after the other. It has
/// no schedule. The memory taken is the same for each seed.
pub fn generate(alloc: Global, seed: u64) -> Result<Program, Memory>
    ensures made { IfOk result (λ program. program ≡ generated seed) }
    // It is a program that a script can say, so it can be run.
    ensures valid { IfOk result IsValid }
{
    let mut generation = Generation {
        draws: Draws { state: seed },
        gcs: 0,
    };
    let threads = generation.threads(alloc)?;
    Ok(Program {
        pages: PAGES,
        auto: AUTO,
        threads,
        schedule: Turns::new(alloc),
    })
}

impl Generation {
    /// The commands of all threads.
    fn threads(&mut self, alloc: Global) -> Result<Scripts, Memory>
        requires { self.old.gcs ≤ 16 }
        ensures { IfOk result (λ threads. threads ≡ threads_from 4 (progress_of self.old)) }
    {
        let mut threads = Scripts::new(alloc);
        for _ in 0..THREADS {
            threads.push(self.commands(alloc)?)?;
        }
        Ok(threads)
    }

    /// The commands of one thread.
    fn commands(&mut self, alloc: Global) -> Result<Commands, Memory>
        requires { self.old.gcs ≤ 16 }
        ensures commands { IfOk result (λ commands. commands ≡ commands_from 400 (progress_of self.old)) }
        ensures progress { OnOk result (progress_of self.new ≡ progress_after 400 (progress_of self.old)) }
        ensures gcs { OnOk result (self.new.gcs ≤ 16) }
    {
        let mut commands = Commands::new(alloc);
        for _ in 0..COMMANDS_EACH {
            commands.push(self.command())?;
        }
        Ok(commands)
    }

    /// The next command.
    fn command(&mut self) -> Command
        requires { self.old.gcs ≤ 16 }
        ensures command { result ≡ (next_drawn (progress_of self.old)).command }
        ensures progress { progress_of self.new ≡ progressed (progress_of self.old) }
        ensures gcs { self.new.gcs ≤ 16 }
    {
        let number = self.draws.below(20);
        let command = self.draws.command(self.gcs, number);
        if let Command::Collect { .. } = command {
            self.gcs += 1;
        }
        command
    }
}
