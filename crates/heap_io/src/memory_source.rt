//! A source in memory, whose failing calls are listed beforehand.

ghost use Rattle.std.specs.Prelude.{◌≡◌, ◌≤◌, ◌<◌, ◌++◌, ◌↔◌, min, ℕ, List, [], Some, length, take, drop, IfOk, OnOk, OnErr, IsErr, Contains};
ghost use Rattle.heap_io.specs.Streams.{Rose, Gave};
ghost use Rattle.heap_io.specs.Memory.{passed, source_after, source_failed};

use crate::{Failed, Source};
use std::marker::Model;

/// A source over bytes in memory. A call fails exactly where its number, from 0, stands in a list,
/// and another call passes as many bytes as it can, at most `most`.
#[derive(Drop)]
pub struct MemorySource {
    bytes: Vec<u8>,
    taken: usize,
    most: u64,
    fails: Vec<u64>,
    call: u64,
    faults: u64,
}

impl Model for MemorySource {
    ghost use Rattle.std.specs.Prelude.{◌≤◌, drop, vec_len};
    ghost use Rattle.heap_io.specs.Memory.{SourceState};

    ghost Value = { SourceState };

    ghost view = { λ s. record {
      left = drop s.taken s.bytes.items;
      most = s.most;
      fails = s.fails.items;
      call = s.call;
      faults = s.faults;
    } };

    ghost invariant = { λ s. (s.taken ≤ vec_len s.bytes) × (1 ≤ s.most) };
}

impl MemorySource {
    /// A source of these bytes that passes at most `most` bytes in a call, and fails the calls
    /// whose numbers stand in `fails`. It takes no memory.
    pub fn new(bytes: Vec<u8>, most: u64, fails: Vec<u64>) -> MemorySource
        requires { 1 ≤ most }
        ensures { result ≡
            record { left = bytes.items; most = most; fails = fails.items; call = 0; faults = 0 } }
    {
        MemorySource {
            bytes,
            taken: 0,
            most,
            fails,
            call: 0,
            faults: 0,
        }
    }
}

impl Source for MemorySource {
    ghost state = { λ s. record { contents = Some s.left; faults = s.faults } };

    fn take(&mut self, buf: &mut [u8]) -> Result<usize, Failed>
        requires { 0 < length buf.old }
        ensures bound { IfOk result (λ k. k ≤ length buf.new) }
        ensures taken { IfOk result (λ k.
            Gave (Some self.old.left) (Some self.new.left) (take k buf.new)) }
        ensures end { IfOk result (λ k.
            (xs : List ℕ) → Some self.old.left ≡ Some xs → (k ≡ 0) ↔ (xs ≡ [])) }
        ensures failed { OnErr result (Rose self.old.faults self.new.faults) }
        ensures kept { OnErr result (Some self.new.left ≡ Some self.old.left) }
        ensures quiet { OnOk result (self.new.faults ≡ self.old.faults) }
        ensures counted { self.old.faults ≤ self.new.faults }

        // Exactly which calls fail, how many bytes the others pass, and what stands in the buffer
        // then.
        ensures fails { IsErr result ↔ Contains self.old.fails self.old.call }
        ensures count { IfOk result (λ k. k ≡ passed self.old (length buf.old)) }
        ensures after { IfOk result (λ k. self.new ≡ source_after self.old k) }
        ensures after_failed { OnErr result (self.new ≡ source_failed self.old) }
        ensures buffer { IfOk result (λ k. buf.new ≡ take k self.old.left ++ drop k buf.old) }
        ensures buffer_failed { OnErr result (buf.new ≡ buf.old) }
    {
        let number = self.call;
        self.call = number.saturating_add(1);
        if self.fails.contains(&number) {
            self.faults = self.faults.saturating_add(1);
            return Err(Failed);
        }
        let k = copy_front(self.most, &self.bytes[self.taken..], buf);
        self.taken += k;
        Ok(k)
    }
}

/// Copies the front of the bytes to the front of the buffer, at most `most` of them, and answers
/// how many.
fn copy_front(most: u64, left: &[u8], buf: &mut [u8]) -> usize
    ensures count { result ≡ min most (min (length buf.old) (length left.now)) }
    ensures buffer { buf.new ≡ take result left.now ++ drop result buf.old }
{
    let k = least(most, buf.len(), left.len());
    buf[..k].copy_from_slice(&left[..k]);
    k
}

/// The least of the three.
pub(crate) fn least(most: u64, room: usize, left: usize) -> usize
    ensures { result ≡ min most (min room left) }
{
    (most.min(room.min(left) as u64)) as usize
}
