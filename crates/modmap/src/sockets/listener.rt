//! A listening socket, and the file of a Unix one.

use super::link::Stream;
use mapper_commands::Address;
use std::fs::Files;
use std::net::{Net, TcpListener, TcpStream};
use std::os::unix::fs::MetadataExt;
use std::os::unix::net::UnixListener;
use std::time::{Clock, Duration};
use std::{fs, str, thread};

/// How often an accept is tried before it has failed.
const TRIES: u32 = 100;

/// How long it waits between two tries, in milliseconds.
const PAUSE: u64 = 10;

/// A socket that listens.
#[derive(Drop)]
pub enum Listener {
    Unix(UnixListener),
    Tcp(TcpListener),
}

impl Listener {
    /// Listens at the address. At a Unix address that makes the socket's file; where a file stands already, it fails.
    pub fn bind<R>(rt: &R, address: Address<'_>) -> Option<Listener>
    where
        R: Files + Net<Listener = TcpListener, Stream = TcpStream>,
    {
        match address {
            Address::Unix(path) => {
                let path = str::from_utf8(path).ok()?;
                Some(Listener::Unix(UnixListener::bind(rt, path).ok()?))
            }
            Address::Tcp(host, port) => {
                let host = str::from_utf8(host).ok()?;
                Some(Listener::Tcp(TcpListener::bind(rt, (host, port)).ok()?))
            }
        }
    }

    /// Another listener of the same socket: what one accepts, the other doesn't.
    pub fn another(&self) -> Option<Listener> {
        match self {
            Listener::Unix(listener) => Some(Listener::Unix(listener.try_clone().ok()?)),
            Listener::Tcp(listener) => Some(Listener::Tcp(listener.try_clone().ok()?)),
        }
    }

    /// Accepts one connection, in one try.
    fn try_accept(&self) -> Option<Stream> {
        match self {
            Listener::Unix(listener) => {
                let (stream, _) = listener.accept().ok()?;
                Some(Stream::Unix(stream))
            }
            Listener::Tcp(listener) => {
                let (stream, _) = listener.accept().ok()?;
                Some(Stream::of_tcp(stream))
            }
        }
    }

    /// Accepts one connection. Most errors of an accept pass: the peer is gone already, or the process has no
    /// descriptor left until a link is given back. So it tries again a hundred times, for about a second.
    pub fn accept(&self, clock: &impl Clock) -> Option<Stream> {
        for _ in 0..TRIES {
            let accepted = self.try_accept();
            if accepted.is_some() {
                return accepted;
            }
            thread::sleep(clock, Duration::from_millis(PAUSE));
        }
        None
    }
}

/// The file that a listener over a Unix socket made.
#[derive(Drop)]
pub struct SocketFile {
    path: String,
    node: Option<(u64, u64)>,
}

impl SocketFile {
    /// The file that was made at the path.
    pub fn at(files: &impl Files, path: String) -> SocketFile {
        let node = node_of(files, path.as_str());
        SocketFile { path, node }
    }

    /// Removes the file, if it is still the one that was made.
    pub fn remove(&self, files: &impl Files) {
        if self.node.is_some() && node_of(files, self.path.as_str()) == self.node {
            let _ = fs::remove_file(files, self.path.as_str());
        }
    }
}

/// The device and the number of the file at the path.
fn node_of(files: &impl Files, path: &str) -> Option<(u64, u64)> {
    let metadata = fs::symlink_metadata(files, path).ok()?;
    Some((metadata.dev(), metadata.ino()))
}
