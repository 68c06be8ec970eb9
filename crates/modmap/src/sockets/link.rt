//! One connection over a socket.

use crate::streams::{read_some, write_some};
use mapper_commands::Address;
use mm_outside::{Failed, Link};
use std::io::{Read, Write};
use std::net::{Net, TcpListener, TcpStream};
use std::os::unix::net::UnixStream;
use std::{io, str};

#[cfg(test)]
mod tests;

/// A connected socket.
#[derive(Drop)]
pub enum Stream {
    Unix(UnixStream),
    Tcp(TcpStream),
}

impl Stream {
    /// A stream over a TCP socket, which sends what is written without delay where the machine can.
    pub fn of_tcp(stream: TcpStream) -> Stream {
        let _ = stream.set_nodelay(true);
        Stream::Tcp(stream)
    }

    /// Connects to the address.
    pub fn connect<R>(rt: &R, address: Address<'_>) -> Option<Stream>
    where
        R: Net<Listener = TcpListener, Stream = TcpStream>,
    {
        match address {
            Address::Unix(path) => {
                let path = str::from_utf8(path).ok()?;
                Some(Stream::Unix(UnixStream::connect(rt, path).ok()?))
            }
            Address::Tcp(host, port) => {
                let host = str::from_utf8(host).ok()?;
                Some(Stream::of_tcp(TcpStream::connect(rt, (host, port)).ok()?))
            }
        }
    }
}

impl Read for Stream {
    fn read(&mut self, room: &mut [u8]) -> io::Result<usize> {
        match self {
            Stream::Unix(stream) => stream.read(room),
            Stream::Tcp(stream) => stream.read(room),
        }
    }
}

impl Write for Stream {
    fn write(&mut self, piece: &[u8]) -> io::Result<usize> {
        match self {
            Stream::Unix(stream) => stream.write(piece),
            Stream::Tcp(stream) => stream.write(piece),
        }
    }

    fn flush(&mut self) -> io::Result<()> {
        Ok(())
    }
}

/// A link over a socket. Each error of a read, and each of a write, raises its count of faults; a write to a peer that
/// is gone is such an error.
#[derive(Drop)]
pub struct SocketLink {
    stream: Stream,
    read_faults: u64,
    write_faults: u64,
}

impl SocketLink {
    ghost use Rattle.modmap.specs.Sockets.{IsLinkOver};

    /// A link over a connected socket, with no fault yet.
    pub fn new(stream: Stream) -> SocketLink
        ensures { IsLinkOver stream result }
    {
        SocketLink {
            stream,
            read_faults: 0,
            write_faults: 0,
        }
    }
}

impl Link for SocketLink {
    ghost use Rattle.std.specs.Prelude.{None};

    ghost octets = { λ _. None };

    ghost read_faults = { λ link. link.read_faults };

    ghost write_faults = { λ link. link.write_faults };

    fn read(&mut self, room: &mut [u8]) -> Result<usize, Failed> {
        read_some(&mut self.stream, room, &mut self.read_faults)
    }

    fn write(&mut self, piece: &[u8]) -> Result<usize, Failed> {
        write_some(&mut self.stream, piece, &mut self.write_faults)
    }
}
