//! Writing bytes to a sink.

ghost use Rattle.std.specs.Prelude.{◌≡◌, ◌≤◌, ◌<◌, [], length, take, IfErr, OnErr, OnOk, IsOk};
ghost use Rattle.heap_io.specs.Streams.{Rose, Grew};

use crate::Sink;
use thiserror::Error;

/// A sink failed before all bytes were written: only the first `written` of them were appended.
#[derive(Clone, Copy, Debug, PartialEq, Eq, Error)]
#[error("the sink failed after {written} bytes")]
pub struct Stopped {
    /// How many bytes were appended.
    pub written: u64,
}

/// Appends all the bytes, in as many calls as the sink needs. It takes no memory.
/// Where there are none it makes no call. A call that fails is not made again: where all the bytes
/// were appended, no call failed.
pub fn write_all<K: Sink>(sink: &mut K, bytes: &[u8]) -> Result<(), Stopped>
    ensures whole { OnOk result (Grew (K.state sink.old).contents (K.state sink.new).contents bytes.now) }
    ensures front { IfErr result (λ stopped.
        Grew (K.state sink.old).contents (K.state sink.new).contents (take stopped.written bytes.now)) }
    ensures proper { IfErr result (λ stopped. stopped.written < length bytes.now) }
    ensures failed { OnErr result (Rose (K.state sink.old).faults (K.state sink.new).faults) }
    ensures quiet { OnOk result ((K.state sink.new).faults ≡ (K.state sink.old).faults) }
    ensures counted { (K.state sink.old).faults ≤ (K.state sink.new).faults }
    ensures nothing { bytes.now ≡ [] → IsOk result × (sink.new ≡ sink.old) }
{
    let mut written = 0;
    while written < bytes.len() {
        let Ok(k) = sink.put(&bytes[written..]) else {
            return Err(Stopped {
                written: written as u64,
            });
        };
        written += k;
    }
    Ok(())
}
