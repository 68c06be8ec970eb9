//! Opening the halls of a server, and the link of a client.

ghost use Rattle.std.specs.Prelude.{◌≡◌, All, IfOk, vec_len};
ghost use Rattle.modmap.specs.Sockets.{IsReady};

use super::hall::SocketHall;
use super::link::{SocketLink, Stream};
use super::listener::{Listener, SocketFile};
use mapper_commands::Address;
use mm_outside::HouseError;
use std::alloc::Global;
use std::fs::Files;
use std::net::{Net, TcpListener, TcpStream};
use std::str;

/// A link to the address.
pub fn open_link<R>(rt: &R, address: &[u8]) -> Option<SocketLink>
where
    R: Net<Listener = TcpListener, Stream = TcpStream>,
{
    Some(SocketLink::new(Stream::connect(rt, Address::read(address)?)?))
}

/// So many halls over one listener at the address. The last one keeps the file that the listener made.
pub fn open_halls<R>(
    rt: &R,
    alloc: Global,
    address: &[u8],
    workers: u32,
    links: u32,
) -> Result<Vec<SocketHall<R>>, HouseError>
where
    R: Net<Listener = TcpListener, Stream = TcpStream> + Files + Copy,
    ensures workers { IfOk result (λ halls. vec_len halls ≡ workers) }
    ensures ready { IfOk result (λ halls. All (IsReady links) halls.items) }
{
    let Some(address) = Address::read(address) else {
        return Err(HouseError::Failed);
    };
    let Ok(mut halls) = Vec::with_capacity(alloc, workers as usize) else {
        return Err(HouseError::Memory);
    };
    let Some(others) = workers.checked_sub(1) else {
        return Ok(halls);
    };
    let path = path_of(alloc, address)?;
    let Some(listener) = Listener::bind(rt, address) else {
        return Err(HouseError::Failed);
    };
    let file = path.map(|path| SocketFile::at(rt, path));
    let last = SocketHall::new(*rt, listener, file, links);
    for _added in 0..others {
        let Some(hall) = last.another(links) else {
            last.close(rt);
            return Err(HouseError::Failed);
        };
        halls.push_reserved(hall);
    }
    halls.push_reserved(last);
    Ok(halls)
}

/// The path of a Unix socket's file, as a text of its own.
fn path_of(alloc: Global, address: Address<'_>) -> Result<Option<String>, HouseError> {
    let Address::Unix(path) = address else {
        return Ok(None);
    };
    let Ok(path) = str::from_utf8(path) else {
        return Err(HouseError::Failed);
    };
    match String::from_str(alloc, path) {
        Ok(path) => Ok(Some(path)),
        Err(_) => Err(HouseError::Memory),
    }
}
