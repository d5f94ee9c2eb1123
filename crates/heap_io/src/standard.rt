//! Adapters over the system's streams. What the system reads and writes is trusted: no clause can
//! say it.

ghost use Rattle.std.specs.Prelude.{◌≡◌, ◌≤◌, ◌<◌, None, length, take, IfOk, OnOk, OnErr};
ghost use Rattle.std.specs.Io.KnownBytes.{Consumes, Appends, IsAtEnd};
ghost use Rattle.heap_io.specs.Streams.{Rose, next_count};

use crate::{Failed, Sink, Source};
use std::io::{Read, Write};

/// A source over a reader, as `StdSource::new(rt.stdin())`. It tells no contents, and counts each
/// error.
#[derive(Drop)]
pub struct StdSource<R> {
    /// What it reads from.
    pub reader: R,
    /// How many errors there were.
    pub faults: u64,
}

impl<R: Read> StdSource<R> {
    /// A source with no fault so far.
    pub fn new(reader: R) -> Self
        ensures { result ≡ record { reader = reader; faults = 0 } }
    {
        StdSource { reader, faults: 0 }
    }
}

impl<R: Read> Source for StdSource<R> {
    ghost state = { λ s. record { contents = None; faults = s.faults } };

    fn take(&mut self, buf: &mut [u8]) -> Result<usize, Failed>
        requires { 0 < length buf.old }
        ensures bound { IfOk result (λ k. k ≤ length buf.new) }
        ensures failed { OnErr result (Rose self.old.faults self.new.faults) }
        ensures quiet { OnOk result (self.new.faults ≡ self.old.faults) }
        ensures counted { self.old.faults ≤ self.new.faults }

        // It passes on what the reader gives, and counts each error once.
        ensures passed { IfOk result (λ k.
            Consumes (R.remaining self.old.reader) (R.remaining self.new.reader) (take k buf.new)) }
        ensures ended { IfOk result (λ k. k ≡ 0 → IsAtEnd (R.remaining self.new.reader)) }
        ensures counts { OnErr result (self.new.faults ≡ next_count self.old.faults) }
    {
        match self.reader.read(buf) {
            Ok(k) => Ok(k),
            Err(_) => {
                self.faults = self.faults.saturating_add(1);
                Err(Failed)
            }
        }
    }
}

/// A sink over a writer, as `StdSink::new(rt.stdout())`. It tells no contents, and counts each
/// error and each call that takes nothing.
#[derive(Drop)]
pub struct StdSink<W> {
    /// What it writes to.
    pub writer: W,
    /// How many errors there were, and calls that took nothing.
    pub faults: u64,
}

impl<W: Write> StdSink<W> {
    /// A sink with no fault so far.
    pub fn new(writer: W) -> Self
        ensures { result ≡ record { writer = writer; faults = 0 } }
    {
        StdSink { writer, faults: 0 }
    }
}

impl<W: Write> Sink for StdSink<W> {
    ghost state = { λ s. record { contents = None; faults = s.faults } };

    fn put(&mut self, piece: &[u8]) -> Result<usize, Failed>
        requires { 0 < length piece.now }
        ensures some { IfOk result (λ k. 0 < k) }
        ensures bound { IfOk result (λ k. k ≤ length piece.now) }
        ensures failed { OnErr result (Rose self.old.faults self.new.faults) }
        ensures quiet { OnOk result (self.new.faults ≡ self.old.faults) }
        ensures counted { self.old.faults ≤ self.new.faults }

        // It passes on what the writer takes, and counts each error and each call that takes
        // nothing once.
        ensures passed { IfOk result (λ k.
            Appends (W.contents self.old.writer) (W.contents self.new.writer) (take k piece.now)) }
        ensures counts { OnErr result (self.new.faults ≡ next_count self.old.faults) }
    {
        match self.writer.write(piece) {
            Ok(k) if k > 0 => Ok(k),
            _ => {
                self.faults = self.faults.saturating_add(1);
                Err(Failed)
            }
        }
    }
}
