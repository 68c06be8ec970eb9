use super::{read_some, read_whole, write_whole};
use mm_outside::{Failed, ReadAllError};
use std::alloc::Global;
use std::io;
use std::io::{ErrorKind, Read, Write};
use std::test::Fail;

/// A reader that gives two octets at its first read and fails from then on.
#[derive(Drop)]
struct Short {
    reads: u32,
}

impl Read for Short {
    fn read(&mut self, room: &mut [u8]) -> io::Result<usize> {
        self.reads = self.reads.saturating_add(1);
        if self.reads > 1 || room.len() < 2 {
            return Err(io::Error::from(ErrorKind::Other));
        }
        room[0] = b'a';
        room[1] = b'b';
        Ok(2)
    }
}

/// A writer that takes three octets at its first write and fails from then on.
#[derive(Drop)]
struct Full {
    writes: u32,
}

impl Write for Full {
    fn write(&mut self, piece: &[u8]) -> io::Result<usize> {
        self.writes = self.writes.saturating_add(1);
        if self.writes > 1 {
            return Err(io::Error::from(ErrorKind::Other));
        }
        Ok(piece.len().min(3))
    }

    fn flush(&mut self) -> io::Result<()> {
        Ok(())
    }
}

#[test]
fn a_read_that_is_short_ends_there(rt: HostRuntime) {
    let mut reader = Short { reads: 0 };
    let mut room = [0u8; 8];
    let mut faults = 0;
    assert_eq!(rt; read_some(&mut reader, &mut room, &mut faults), Ok(2));
    assert_eq!(rt; (reader.reads, faults), (1, 0));
    assert_eq!(rt; read_some(&mut reader, &mut room, &mut faults), Err(Failed));
    assert_eq!(rt; (reader.reads, faults), (2, 1));
}

/// What is answered of a text that may have so many octets.
fn whole(alloc: Global, text: &[u8], most: u64) -> Option<Result<usize, ReadAllError>> {
    let mut faults = 0;
    let mut reader = text;
    match read_whole(&mut reader, alloc, most, &mut faults) {
        Ok(octets) if octets.octets() == text => Some(Ok(text.len())),
        Ok(_) => None,
        Err(error) => Some(Err(error)),
    }
}

#[test]
fn whole_texts(rt: HostRuntime) {
    let alloc = rt.alloc();
    assert_eq!(rt; whole(alloc, b"", 0), Some(Ok(0)));
    assert_eq!(rt; whole(alloc, b"abc", 3), Some(Ok(3)));
    assert_eq!(rt; whole(alloc, b"abc", 2), Some(Err(ReadAllError::TooLong)));
}

#[test]
fn a_text_that_is_cut_is_not_whole(rt: HostRuntime) {
    let mut faults = 0;
    let read = read_whole(&mut Short { reads: 0 }, rt.alloc(), 8, &mut faults);
    assert!(rt; matches!(read, Err(ReadAllError::Failed)));
    let written = write_whole(&mut Full { writes: 0 }, b"abcd", &mut faults);
    assert_eq!(rt; (written, faults), (Err(Failed), 2));
}
