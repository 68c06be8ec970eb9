use super::{Pipe, WriterSink};
use mm_outside::{Failed, Link, Sink};
use std::io;
use std::io::{ErrorKind, Read};
use std::test::Fail;

/// A reader whose reads all fail.
#[derive(Drop)]
struct Broken;

impl Read for Broken {
    fn read(&mut self, _room: &mut [u8]) -> io::Result<usize> {
        Err(io::Error::from(ErrorKind::Other))
    }
}

#[test]
fn pipe_moves_octets(rt: HostRuntime) -> Result<(), Fail> {
    let mut output = Vec::new(rt.alloc());
    let mut pipe = Pipe::new(b"abc".as_slice(), &mut output);
    let mut room = [0u8; 2];
    assert_eq!(rt; pipe.read(&mut room), Ok(2));
    assert!(rt; room.as_slice() == b"ab".as_slice());
    assert_eq!(rt; pipe.read(&mut room), Ok(1));
    assert_eq!(rt; pipe.read(&mut room), Ok(0));
    assert_eq!(rt; pipe.write(b"xyz"), Ok(3));
    assert_eq!(rt; (pipe.read_faults, pipe.write_faults), (0, 0));
    drop(pipe);
    assert!(rt; output.as_slice() == b"xyz".as_slice());
    Ok(())
}

#[test]
fn pipe_counts_faults(rt: HostRuntime) {
    let mut full = [0u8; 0];
    let mut pipe = Pipe::new(Broken, full.as_mut_slice());
    let mut room = [0u8; 2];
    assert_eq!(rt; pipe.read(&mut room), Err(Failed));
    assert_eq!(rt; (pipe.read_faults, pipe.write_faults), (1, 0));
    assert_eq!(rt; pipe.write(b"x"), Err(Failed));
    assert_eq!(rt; (pipe.read_faults, pipe.write_faults), (1, 1));
}

#[test]
fn sink_writes_and_counts(rt: HostRuntime) {
    let mut place = [0u8; 2];
    let mut sink = WriterSink::new(place.as_mut_slice());
    assert_eq!(rt; sink.write(b"abc"), Ok(2));
    assert_eq!(rt; sink.faults, 0);
    assert_eq!(rt; sink.write(b"c"), Err(Failed));
    assert_eq!(rt; sink.faults, 1);
    drop(sink);
    assert!(rt; place.as_slice() == b"ab".as_slice());
}
