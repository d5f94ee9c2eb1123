//! Small runs of the loops over streams in memory, and of the adapters over readers and writers.

ghost use Rattle.std.specs.Prelude.{◌≤◌};

use crate::{
    Failed, MemorySink, MemorySource, NoRoom, ReadFault, Sink, Source, StdSink, StdSource, Stopped,
    read_all, write_all,
};
use std::alloc::{AllocError, Global};
use std::test::Fail;

const TEXT: &[u8] = b"0 fix s0 5\n0 show s0 5\n";

/// A source of the text whose listed calls fail.
fn source(alloc: Global, most: u64, fails: &[u64]) -> Result<MemorySource, AllocError>
    requires { 1 ≤ most }
{
    let bytes = Vec::from_slice(alloc, TEXT)?;
    Ok(MemorySource::new(bytes, most, Vec::from_slice(alloc, fails)?))
}

#[test]
fn a_source_is_read_to_its_end_in_pieces_of_any_size(rt: HostRuntime) -> Result<(), Fail> {
    for most in [1, 2, 22, 23, 24, u64::MAX] {
        let mut source = source(rt.alloc(), most, &[])?;
        let bytes = read_all(rt.alloc(), &mut source, 100)?;
        assert_eq!(rt; bytes.as_slice(), TEXT, "at {most}");
    }
    Ok(())
}

#[test]
fn a_source_that_fails_takes_nothing_in_that_call(rt: HostRuntime) -> Result<(), Fail> {
    for (fails, left) in [(0, 23), (1, 13), (2, 3)] {
        let mut source = source(rt.alloc(), 10, &[fails])?;
        assert_eq!(rt;
            read_all(rt.alloc(), &mut source, 100).err(),
            Some(ReadFault::Read)
        );
        assert_eq!(rt; read_all(rt.alloc(), &mut source, 100)?.len(), left);
    }
    Ok(())
}

#[test]
fn the_limit_may_be_met_and_not_passed(rt: HostRuntime) -> Result<(), Fail> {
    for most in [1, 10, 100] {
        let mut met = source(rt.alloc(), most, &[])?;
        assert_eq!(rt; read_all(rt.alloc(), &mut met, 23)?.len(), 23);
        let mut passed = source(rt.alloc(), most, &[])?;
        let answer = read_all(rt.alloc(), &mut passed, 22);
        assert_eq!(rt; answer.err(), Some(ReadFault::TooLong));
    }
    Ok(())
}

/// A sink of that size, 10 bytes a call, whose listed calls fail.
fn sink(alloc: Global, size: u64, fails: &[u64]) -> Result<MemorySink, NoRoom> {
    MemorySink::new(alloc, 10, size, Vec::from_slice(alloc, fails)?)
}

#[test]
fn a_sink_that_fails_keeps_what_it_had(rt: HostRuntime) -> Result<(), Fail> {
    let calls: [(u64, &[u64], Option<u64>); 6] = [
        (100, &[], None),
        (100, &[0], Some(0)),
        (100, &[1], Some(10)),
        (100, &[7, 2], Some(20)),
        (23, &[3], None),
        (22, &[], Some(22)),
    ];
    for (size, fails, written) in calls {
        let mut sink = sink(rt.alloc(), size, fails)?;
        let answer = write_all(&mut sink, TEXT);
        assert_eq!(rt; answer.err(), written.map(|written| Stopped { written }));
        let appended = written.unwrap_or(23) as usize;
        assert_eq!(rt; sink.bytes().len(), appended);
        assert!(rt; TEXT.starts_with(sink.bytes()));
    }
    Ok(())
}

#[test]
fn nothing_is_written_with_no_call(rt: HostRuntime) -> Result<(), Fail> {
    let mut sink = sink(rt.alloc(), 0, &[0])?;
    assert_eq!(rt; write_all(&mut sink, b""), Ok(()));
    assert_eq!(rt; sink.put(b"x"), Err(Failed));
    assert_eq!(rt; sink.bytes().len(), 0);
    Ok(())
}

#[test]
fn the_adapters_pass_on_what_the_system_does(rt: HostRuntime) -> Result<(), Fail> {
    let mut source = StdSource::new(TEXT);
    let mut piece = [0; 10];
    assert_eq!(rt; source.take(&mut piece), Ok(10));
    assert_eq!(rt;
        read_all(rt.alloc(), &mut source, 100)?.as_slice(),
        &TEXT[10..]
    );

    let mut sink = StdSink::new(Vec::new(rt.alloc()));
    assert_eq!(rt; write_all(&mut sink, TEXT), Ok(()));

    // A writer that is full takes nothing, which is a fault.
    let mut room = [0u8; 10];
    let mut full = StdSink::new(room.as_mut_slice());
    assert_eq!(rt; write_all(&mut full, TEXT), Err(Stopped { written: 10 }));
    Ok(())
}
