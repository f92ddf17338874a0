//! The fakes fail where they were told to, and each adapter passes on what its stream does.
use dem_model::List;
use dem_outside::{
    BlankSink, Fail, Failed, Gate, HoldGate, MemSink, MemSource, OpenGate, Point, RealSink,
    RealSource, Sink, Source,
};
use std::io;
use std::io::{Error, ErrorKind, Read, Write};
use std::test::Fail as TestFail;

// A stream that is gone.
#[derive(Drop)]
struct Gone;

impl Read for Gone {
    fn read(&mut self, _buf: &mut [u8]) -> io::Result<usize> {
        Err(Error::from(ErrorKind::BrokenPipe))
    }
}

impl Write for Gone {
    fn write(&mut self, _buf: &[u8]) -> io::Result<usize> {
        Err(Error::from(ErrorKind::BrokenPipe))
    }

    fn flush(&mut self) -> io::Result<()> {
        Err(Error::from(ErrorKind::BrokenPipe))
    }
}

#[test]
fn reads_in_pieces_and_fails_where_told(rt: HostRuntime) -> Result<(), TestFail> {
    let alloc = rt.alloc();
    let mut fails = List::new(alloc);
    fails.push(2)?;
    let mut source = MemSource::new(Vec::from_slice(alloc, b"abcde")?, 3, fails);
    let mut buf = [0; 4];
    assert_eq!(rt; source.read(&mut buf), Ok(3));
    assert_eq!(rt; buf, *b"abc\0");
    assert_eq!(rt; source.read(&mut buf), Err(Failed));
    assert_eq!(rt; source.read(&mut buf), Ok(2));
    assert_eq!(rt; buf, *b"dec\0");
    assert_eq!(rt; source.read(&mut buf), Ok(0));
    Ok(())
}

#[test]
fn takes_a_prefix_where_told_and_nothing_without_room(rt: HostRuntime) -> Result<(), TestFail> {
    let alloc = rt.alloc();
    let mut fails = List::new(alloc);
    fails.push(Fail { call: 2, take: 4 })?;
    fails.push(Fail { call: 2, take: 1 })?;
    let mut sink = MemSink::new(alloc, 9, fails)?;
    assert_eq!(rt; sink.put(b"ab\n"), Ok(()));
    assert_eq!(rt; sink.put(b"end,done"), Err(Failed));
    assert_eq!(rt; sink.held(), b"ab\nend,".as_slice());
    assert_eq!(rt; sink.put(b"xyz"), Err(Failed));
    assert_eq!(rt; sink.put(b"xy"), Ok(()));
    assert_eq!(rt; sink.held(), b"ab\nend,xy".as_slice());
    Ok(())
}

#[test]
fn blank_takes_all(rt: HostRuntime) {
    assert_eq!(rt; BlankSink.put(b"frame,0\n"), Ok(()));
}

#[test]
fn real_source_reads_and_counts(rt: HostRuntime) {
    let mut buf = [0; 4];
    let mut source = RealSource::new(b"abcde".as_slice());
    assert_eq!(rt; source.read(&mut buf), Ok(4));
    assert_eq!(rt; source.read(&mut buf), Ok(1));
    assert_eq!(rt; source.read(&mut buf), Ok(0));
    assert_eq!(rt; RealSource::new(Gone).read(&mut buf), Err(Failed));
}

#[test]
fn real_sink_writes_and_counts(rt: HostRuntime) {
    let mut room = [0; 4];
    let mut sink = RealSink::new(room.as_mut_slice());
    assert_eq!(rt; sink.put(b"abc"), Ok(()));
    // The room ends within this piece, and a write there takes nothing.
    assert_eq!(rt; sink.put(b"de"), Err(Failed));
    assert_eq!(rt; sink.into_writer().len(), 0);
    assert_eq!(rt; RealSink::new(Gone).put(b"a"), Err(Failed));
    assert_eq!(rt; RealSink::new(Gone).put(b""), Ok(()));
}

#[test]
fn two_threads_meet(rt: HostRuntime) {
    let gate = HoldGate::meet(Point::Step, 4, Point::Deliver, 2);
    std::thread::join(
        &rt,
        || gate.pass(Point::Step, 4),
        || gate.pass(Point::Deliver, 2),
    );
    assert!(rt; gate.arrived() && !gate.gave_up());
    gate.pass(Point::Step, 4);
    assert!(rt; gate.arrived() && !gate.gave_up());
}

#[test]
fn one_action_may_meet_itself(rt: HostRuntime) {
    let gate = HoldGate::meet(Point::Post, 1, Point::Post, 1);
    gate.pass(Point::Post, 1);
    assert!(rt; gate.arrived() && !gate.gave_up());
}

#[test]
fn everyone_passes_an_open_gate(_rt: HostRuntime) {
    OpenGate.pass(Point::Collect, 1);
}
