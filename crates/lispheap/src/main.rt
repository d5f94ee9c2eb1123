//! The program: it reads a script, runs it by its schedule or on threads, and writes the journal of
//! what happened; or it makes a script of its own.
#![tactic(auto)]

mod faults;
mod generating;
mod on_threads;
mod still;
#[cfg(test)]
mod tests;

use faults::{Fault, say};
use heap_io::{StdSink, StdSource};
use heap_terms::Memory;
use on_threads::lispheap;
use std::env;
use std::io::ErrorKind;
use std::process::ExitCode;
use std::sync::Wait;
use std::thread::Threads;
use thread_scripts::OpenGate;

fn main(rt: HostRuntime) -> ExitCode {
    ExitCode::from(run(&rt, &rt))
}

/// Hands the words after the program's name to the call that does them. Threads are started with the
/// second handle, which is the same.
fn run<R: Threads + Wait + Sync>(rt: &HostRuntime, threads: &R) -> u8 {
    let mut err = StdSink::new(rt.stderr());
    let Ok(words) = words(rt) else {
        let _ = say(&mut err, Fault::Memory);
        return Fault::Memory.status();
    };
    let mut source = StdSource::new(rt.stdin());
    let mut out = StdSink::new(rt.stdout());
    lispheap(
        threads,
        rt.alloc(),
        &words,
        &mut source,
        &mut out,
        &mut err,
        &OpenGate,
    )
}

/// The words after the program's name. Where one of them is no text the answer is no words, which
/// are no form that the program knows either.
fn words(rt: &HostRuntime) -> Result<Vec<String>, Memory> {
    let mut words = Vec::new(rt.alloc());
    let all = match env::args(rt) {
        Ok(all) => all,
        Err(error) => {
            return match error.kind() {
                ErrorKind::InvalidData => Ok(words),
                _ => Err(Memory),
            };
        }
    };
    for word in all.skip(1) {
        words.push(word)?;
    }
    Ok(words)
}
