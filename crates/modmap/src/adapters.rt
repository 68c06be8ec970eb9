//! A link and a sink over any reader and writer of std, the standard streams among them. A sink tells what its writer
//! tells. A link tells no octets by its trait, since it keeps none that it read; what a read takes from its reader and
//! what a write gives to its writer are clauses of its own calls.

#[cfg(test)]
mod tests;

use crate::streams::{read_some, write_some};
use mm_outside::{Failed, Link, Sink};
use std::io::{Read, Write};

/// A link over a reader and a writer. Each error of the reader, and each of the writer, raises its count of faults;
/// a writer that takes no octets has failed.
#[derive(Drop)]
pub struct Pipe<R, W> {
    reader: R,
    writer: W,
    read_faults: u64,
    write_faults: u64,
}

impl<R: Read, W: Write> Pipe<R, W> {
    ghost use Rattle.modmap.specs.Adapters.{IsOver};

    /// A link that reads from `reader` and writes to `writer`.
    pub fn new(reader: R, writer: W) -> Pipe<R, W>
        ensures { IsOver reader writer result }
    {
        Pipe {
            reader,
            writer,
            read_faults: 0,
            write_faults: 0,
        }
    }
}

impl<R: Read, W: Write> Link for Pipe<R, W> {
    ghost use Rattle.std.specs.Prelude.{◌≡◌, ◌<◌, length, None};
    ghost use Rattle.std.specs.Io.{ReadsAtMost};
    ghost use Rattle.mm_outside.specs.Causes.{HasCause};
    ghost use Rattle.mm_outside.specs.Octets.{Reads, Writes, WritesSome};
    ghost use Rattle.mm_outside.specs.Told.{Told};
    ghost use Rattle.modmap.specs.Adapters.{ReadsFrom, WritesTo, read_faults_of, write_faults_of};

    ghost octets = { λ _. None };

    ghost read_faults = { read_faults_of };

    ghost write_faults = { write_faults_of };

    fn read(&mut self, room: &mut [u8]) -> Result<usize, Failed>
        requires { 0 < length room.old }
        ensures bound { ReadsAtMost result room.new }
        ensures cause { HasCause (read_faults_of self.old) (read_faults_of self.new) result }
        ensures write_faults { write_faults_of self.new ≡ write_faults_of self.old }
        ensures streams { ReadsFrom R.remaining result room.new self.old self.new }
    {
        read_some(&mut self.reader, room, &mut self.read_faults)
    }

    fn write(&mut self, piece: &[u8]) -> Result<usize, Failed>
        requires { 0 < length piece.now }
        ensures bound { WritesSome result piece.now }
        ensures cause { HasCause (write_faults_of self.old) (write_faults_of self.new) result }
        ensures read_faults { read_faults_of self.new ≡ read_faults_of self.old }
        ensures streams { WritesTo W.contents result piece.now self.old self.new }
    {
        write_some(&mut self.writer, piece, &mut self.write_faults)
    }
}

/// A sink over a writer. Each error of the writer raises the count of faults; a writer that takes no octets has failed.
#[derive(Drop)]
pub struct WriterSink<W> {
    writer: W,
    faults: u64,
}

impl<W: Write> WriterSink<W> {
    ghost use Rattle.modmap.specs.Adapters.{IsSinkOver};

    /// A sink that writes to `writer`.
    pub fn new(writer: W) -> WriterSink<W>
        ensures { IsSinkOver writer result }
    {
        WriterSink { writer, faults: 0 }
    }
}

impl<W: Write> Sink for WriterSink<W> {
    ghost written = { λ sink. W.contents sink.writer };

    ghost faults = { λ sink. sink.faults };

    fn write(&mut self, piece: &[u8]) -> Result<usize, Failed> {
        write_some(&mut self.writer, piece, &mut self.faults)
    }
}
