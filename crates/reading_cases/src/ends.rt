//! The ends over the system's traits, and the ends in memory.

use crate::answers::gives;
use port_io::{
    Failed, IoTurn, IoTurns, MemorySink, MemorySource, Sink, Source, StdSink, StdSource, SureSink,
    SureSource,
};
use ptl_types::Bytes;
use std::io;
use std::io::{Read, Write};
use std::test::Fail;

/// A reader that is broken, and a writer that takes nothing.
#[derive(Drop)]
struct Broken;

impl Read for Broken {
    fn read(&mut self, _buf: &mut [u8]) -> io::Result<usize> {
        Err(io::Error::from(io::ErrorKind::BrokenPipe))
    }
}

impl Write for Broken {
    fn write(&mut self, _buf: &[u8]) -> io::Result<usize> {
        Ok(0)
    }

    fn flush(&mut self) -> io::Result<()> {
        Err(io::Error::from(io::ErrorKind::BrokenPipe))
    }
}

#[test]
fn a_source_over_a_reader(rt: HostRuntime) {
    let mut into = [0u8; 4];
    let mut source = StdSource::new(b"abc".as_slice());
    gives!(rt; source.read(&mut into), Ok(3));
    gives!(rt; into.as_slice(), b"abc\0".as_slice());
    gives!(rt; source.read(&mut into), Ok(0));
    gives!(rt; StdSource::new(Broken).read(&mut into), Err(Failed));
}

#[test]
fn a_sink_over_a_writer(rt: HostRuntime) {
    let mut sink = StdSink::new(io::sink());
    gives!(rt; sink.write(b"abc"), Ok(3));
    gives!(rt; sink.finish(), Ok(()));
    let mut broken = StdSink::new(Broken);
    gives!(rt; broken.write(b"abc"), Err(Failed));
    gives!(rt; broken.write(b""), Ok(0));
    gives!(rt; broken.finish(), Err(Failed));
}

#[test]
fn ends_that_never_fail(rt: HostRuntime) -> Result<(), Fail> {
    let alloc = rt.alloc();
    let mut into = [0u8; 2];
    let mut source = SureSource::new(Bytes::of(alloc, b"abc")?);
    gives!(rt; source.read(&mut into), Ok(2));
    gives!(rt; source.read(&mut into), Ok(1));
    gives!(rt; into, [b'c', b'b']);
    let mut sink = SureSink::with_room(alloc, 4)?;
    gives!(rt; sink.write(b"abcdef"), Ok(6));
    gives!(rt; sink.as_slice(), b"abcd".as_slice());
    gives!(rt; sink.more(), 2);
    gives!(rt; sink.finish(), Ok(()));
    gives!(rt; sink.finishes(), 1);
    Ok(())
}

#[test]
fn ends_that_follow_a_script(rt: HostRuntime) -> Result<(), Fail> {
    let alloc = rt.alloc();
    let mut into = [0u8; 4];
    let mut turns = IoTurns::new(alloc);
    turns.add(IoTurn::Take(1))?;
    turns.add(IoTurn::Fail)?;
    let mut source = MemorySource::new(Bytes::of(alloc, b"abc")?, turns);
    gives!(rt; source.read(&mut into), Ok(1));
    gives!(rt; source.read(&mut into), Err(Failed));
    gives!(rt; source.read(&mut into), Ok(2));
    let mut sink = MemorySink::new(alloc, IoTurns::new(alloc));
    gives!(rt; sink.write(b"a"), Err(Failed));
    gives!(rt; sink.faults(), 1);
    gives!(rt; sink.finish(), Ok(()));
    gives!(rt; sink.finishes(), 1);
    gives!(rt; sink.as_slice().is_empty(), true);
    Ok(())
}
