//! What can go wrong, with its status and its line.

ghost use Rattle.std.specs.Prelude.{◌≡◌, ◌≤◌, ◌++◌, Some, OnOk, OnErr, codes, decimal};
ghost use Rattle.lispheap.specs.Answers.{change, SaysAll, StopsWithin};
ghost use Rattle.lispheap.specs.Texts.{status_of, why_text, fault_text};

use heap_io::{Sink, Stopped, write_all};
use heap_terms::{LimitKind, Memory, Why};
use itoa::Buffer;
use thiserror::Error;

/// Why no journal was written.
#[derive(Clone, Copy, Debug, PartialEq, Eq, Error)]
pub enum Fault {
    /// The words are no form that the program knows: status 2.
    #[error("usage")]
    Usage,
    /// The input is no script. The number of the first bad line, from 1, and why it is bad: status
    /// 3.
    #[error("line {0}: {1:?}")]
    Line(u32, Why),
    /// The source failed: status 4.
    #[error("read fault")]
    Read,
    /// The output failed: status 5.
    #[error("write fault")]
    Write,
    /// There are more than 4,194,304 bytes of input: status 6.
    #[error("limit bytes")]
    TooLong,
    /// The script passes a limit: status 6.
    #[error("limit {0:?}")]
    Limit(LimitKind),
    /// Want of memory: status 7.
    #[error("out of memory")]
    Memory,
}

impl From<Memory> for Fault {
    ghost use Rattle.lispheap.specs.declared.faults.Fault.TheVariants.{Memory as NoMemory};

    ghost from_gives = { λ _ f. f ≡ NoMemory };

    fn from(_: Memory) -> Fault {
        Fault::Memory
    }
}

impl Fault {
    /// The status with which the program ends.
    pub fn status(self) -> u8
        ensures { result ≡ status_of (Some self) }
    {
        match self {
            Fault::Usage => 2,
            Fault::Line(_, _) => 3,
            Fault::Read => 4,
            Fault::Write => 5,
            Fault::TooLong | Fault::Limit(_) => 6,
            Fault::Memory => 7,
        }
    }
}

/// Says what went wrong, in one line. It takes no memory.
pub fn say<E: Sink>(err: &mut E, fault: Fault) -> Result<(), Stopped>
    ensures said { OnOk result (SaysAll (fault_text fault)
        (change (E.state err.old) (E.state err.new))) }
    ensures stopped { OnErr result (StopsWithin (fault_text fault)
        (change (E.state err.old) (E.state err.new))) }
    ensures counted { (E.state err.old).faults ≤ (E.state err.new).faults }
{
    match fault {
        Fault::Usage => put_text(err, b"lispheap: usage\n"),
        Fault::Line(n, why) => say_line(err, n, why),
        Fault::Read => put_text(err, b"lispheap: read fault\n"),
        Fault::Write => put_text(err, b"lispheap: write fault\n"),
        Fault::TooLong => put_text(err, b"lispheap: limit bytes 4194304\n"),
        Fault::Limit(kind) => say_limit(err, kind),
        Fault::Memory => put_text(err, b"lispheap: out of memory\n"),
    }
}

/// Says that a line is bad.
fn say_line<E: Sink>(err: &mut E, n: u32, why: Why) -> Result<(), Stopped>
    ensures said { OnOk result (SaysAll (fault_text (Fault.Line n why))
        (change (E.state err.old) (E.state err.new))) }
    ensures stopped { OnErr result (StopsWithin (fault_text (Fault.Line n why))
        (change (E.state err.old) (E.state err.new))) }
    ensures counted { (E.state err.old).faults ≤ (E.state err.new).faults }
{
    put_text(err, b"lispheap: line ")?;
    say_number(err, n, why)
}

/// Says the number of a bad line and why it is bad, and ends the line.
fn say_number<E: Sink>(err: &mut E, n: u32, why: Why) -> Result<(), Stopped>
    ensures said { OnOk result (SaysAll (decimal n ++ (codes ": " ++ why_text why ++ codes "\n"))
        (change (E.state err.old) (E.state err.new))) }
    ensures stopped { OnErr result (StopsWithin (decimal n ++ (codes ": " ++ why_text why ++ codes "\n"))
        (change (E.state err.old) (E.state err.new))) }
    ensures counted { (E.state err.old).faults ≤ (E.state err.new).faults }
{
    let mut buffer = Buffer::new();
    put_text(err, buffer.format(n).as_bytes())?;
    say_why(err, why)
}

/// Says why a line is bad, and ends the line.
fn say_why<E: Sink>(err: &mut E, why: Why) -> Result<(), Stopped>
    ensures said { OnOk result (SaysAll (codes ": " ++ why_text why ++ codes "\n")
        (change (E.state err.old) (E.state err.new))) }
    ensures stopped { OnErr result (StopsWithin (codes ": " ++ why_text why ++ codes "\n")
        (change (E.state err.old) (E.state err.new))) }
    ensures counted { (E.state err.old).faults ≤ (E.state err.new).faults }
{
    match why {
        Why::Word => put_text(err, b": word\n"),
        Why::Order => put_text(err, b": order\n"),
        Why::Fields => put_text(err, b": fields\n"),
        Why::Form => put_text(err, b": form\n"),
        Why::Range => put_text(err, b": range\n"),
        Why::Missing => put_text(err, b": missing\n"),
    }
}

/// Says that a limit is passed.
fn say_limit<E: Sink>(err: &mut E, kind: LimitKind) -> Result<(), Stopped>
    ensures said { OnOk result (SaysAll (fault_text (Fault.Limit kind))
        (change (E.state err.old) (E.state err.new))) }
    ensures stopped { OnErr result (StopsWithin (fault_text (Fault.Limit kind))
        (change (E.state err.old) (E.state err.new))) }
    ensures counted { (E.state err.old).faults ≤ (E.state err.new).faults }
{
    match kind {
        LimitKind::Pages => put_text(err, b"lispheap: limit pages 1024\n"),
        LimitKind::Threads => put_text(err, b"lispheap: limit threads 8\n"),
        LimitKind::Commands => put_text(err, b"lispheap: limit commands 20000\n"),
        LimitKind::Gcs => put_text(err, b"lispheap: limit gcs 64\n"),
        LimitKind::Schedule => put_text(err, b"lispheap: limit schedule 1000000\n"),
    }
}

/// Appends a text, or stops within it. It takes no memory.
pub(crate) fn put_text<K: Sink>(sink: &mut K, text: &[u8]) -> Result<(), Stopped>
    ensures said { OnOk result (SaysAll text.now
        (change (K.state sink.old) (K.state sink.new))) }
    ensures stopped { OnErr result (StopsWithin text.now
        (change (K.state sink.old) (K.state sink.new))) }
    ensures counted { (K.state sink.old).faults ≤ (K.state sink.new).faults }
{
    write_all(sink, text)
}
