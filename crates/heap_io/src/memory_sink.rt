//! A sink in memory, whose failing calls are listed beforehand.

ghost use Rattle.std.specs.Prelude.{◌≡◌, ◌≤◌, ◌<◌, ◌+◌, ◌++◌, ◌↔◌, [], Some, length, take, vec_len, vec_capacity, IfOk, OnOk, OnErr, IsErr};
ghost use Rattle.heap_io.specs.Streams.{Rose, Grew};
ghost use Rattle.heap_io.specs.Memory.{appended, sink_after, sink_failed, SinkFails};

use crate::memory_source::least;
use crate::{Failed, NoRoom, Sink};
use std::alloc::Global;
use std::marker::Model;

/// A sink that keeps its bytes in memory, at most `size` of them. A call fails exactly where its
/// number, from 0, stands in a list, or where the sink is full, and another call appends as many
/// bytes as it can, at most `most`.
#[derive(Drop)]
pub struct MemorySink {
    bytes: Vec<u8>,
    size: u64,
    most: u64,
    fails: Vec<u64>,
    call: u64,
    faults: u64,
}

impl Model for MemorySink {
    ghost use Rattle.std.specs.Prelude.{◌≤◌, vec_len, vec_capacity};
    ghost use Rattle.heap_io.specs.Memory.{SinkState};

    ghost Value = { SinkState };

    ghost view = { λ s. record {
      bytes = s.bytes.items;
      size = s.size;
      most = s.most;
      fails = s.fails.items;
      call = s.call;
      faults = s.faults;
    } };

    ghost invariant = { λ s. (vec_len s.bytes ≤ s.size) × (s.size ≤ vec_capacity s.bytes) × (1 ≤ s.most) };
}

impl MemorySink {
    /// An empty sink with room for `size` bytes that appends at most `most` bytes in a call, and
    /// fails the calls whose numbers stand in `fails`. It reserves the room here: its calls take no
    /// memory.
    pub fn new(alloc: Global, most: u64, size: u64, fails: Vec<u64>) -> Result<MemorySink, NoRoom>
        requires { 1 ≤ most }
        ensures { IfOk result (λ sink. sink ≡ record {
          bytes = [];
          size = size;
          most = most;
          fails = fails.items;
          call = 0;
          faults = 0;
        }) }
    {
        let bytes = Vec::with_capacity(alloc, size as usize)?;
        Ok(MemorySink {
            bytes,
            size,
            most,
            fails,
            call: 0,
            faults: 0,
        })
    }

    /// What was appended.
    pub fn bytes(&self) -> &[u8]
        ensures { result.now ≡ self.now.bytes }
    {
        &self.bytes
    }
}

impl Sink for MemorySink {
    ghost state = { λ s. record { contents = Some s.bytes; faults = s.faults } };

    fn put(&mut self, piece: &[u8]) -> Result<usize, Failed>
        requires { 0 < length piece.now }
        ensures some { IfOk result (λ k. 0 < k) }
        ensures bound { IfOk result (λ k. k ≤ length piece.now) }
        ensures appended { IfOk result (λ k.
            Grew (Some self.old.bytes) (Some self.new.bytes) (take k piece.now)) }
        ensures failed { OnErr result (Rose self.old.faults self.new.faults) }
        ensures kept { OnErr result (Some self.new.bytes ≡ Some self.old.bytes) }
        ensures quiet { OnOk result (self.new.faults ≡ self.old.faults) }
        ensures counted { self.old.faults ≤ self.new.faults }

        // Exactly which calls fail, and how many bytes the others append.
        ensures fails { IsErr result ↔ SinkFails self.old }
        ensures count { IfOk result (λ k. k ≡ appended self.old (length piece.now)) }
        ensures after { IfOk result (λ k. self.new ≡ sink_after self.old (take k piece.now)) }
        ensures after_failed { OnErr result (self.new ≡ sink_failed self.old) }
    {
        let number = self.call;
        self.call = number.saturating_add(1);
        let room = self.size - self.bytes.len() as u64;
        if room == 0 || self.fails.contains(&number) {
            self.faults = self.faults.saturating_add(1);
            return Err(Failed);
        }
        let k = least(self.most, piece.len(), room as usize);
        append(&mut self.bytes, &piece[..k]);
        Ok(k)
    }
}

/// Appends the piece to bytes that have room for it.
fn append(bytes: &mut Vec<u8>, piece: &[u8])
    requires { vec_len bytes.old + length piece.now ≤ vec_capacity bytes.old }
    ensures items { bytes.new.items ≡ bytes.old.items ++ piece.now }
    ensures capacity { vec_capacity bytes.old ≤ vec_capacity bytes.new }
{
    bytes.extend_from_slice(piece).unwrap();
}
