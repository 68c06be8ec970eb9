ghost use Rattle.std.specs.Prelude.{◌<◌, length};

use super::hall::SocketHall;
use super::listener::Listener;
use super::{SocketHouse, SocketLink};
use mm_outside::{Accepted, Failed, Hall, House, HouseError, Link};
use std::net::TcpListener;
use std::os::unix::net::UnixListener;
use std::test::Fail;
use std::time::Duration;
use std::{env, fs, thread};

/// A new folder for temporary files, and the address of a socket `s` in it.
fn fresh(rt: &HostRuntime, name: &str) -> Result<(String, String), Fail> {
    let mut folder = env::temp_dir(rt)?;
    folder.push(name)?;
    let folder = folder.into_string();
    let _ = fs::remove_dir_all(rt, folder.as_str());
    fs::create_dir(rt, folder.as_str())?;
    let address = format!(in rt.alloc(); "unix:{folder}/s")?;
    Ok((folder, address))
}

/// A TCP address at which nothing listens.
pub(super) fn free_port(rt: &HostRuntime) -> Result<String, Fail> {
    let listener = TcpListener::bind(rt, "127.0.0.1:0")?;
    let port = listener.local_addr()?.port();
    Ok(format!(in rt.alloc(); "tcp:127.0.0.1:{port}")?)
}

/// Whether what one link writes is what the other reads.
fn moves(from: &mut SocketLink, to: &mut SocketLink, piece: &[u8]) -> bool
    requires { 0 < length piece.now }
{
    let mut room = [0u8; 64];
    from.write(piece) == Ok(piece.len())
        && to.read(&mut room) == Ok(piece.len())
        && room.get(..piece.len()) == Some(piece)
}

/// Whether the hall gives a link to whoever connects, over which octets go both ways until it hangs up.
fn exchanges(
    clients: &mut SocketHouse<HostRuntime>,
    hall: &mut SocketHall<HostRuntime>,
    address: &[u8],
) -> bool {
    let Ok(mut client) = clients.connect(address) else {
        return false;
    };
    let Accepted::Link(mut server) = hall.accept() else {
        return false;
    };
    let asked = moves(&mut client, &mut server, b"HELLO 1 GCC a.cc\n");
    let answered = moves(&mut server, &mut client, b"HELLO 1 modmap\n");
    clients.hang_up(client);
    let mut room = [0u8; 64];
    let ended = server.read(&mut room) == Ok(0);
    hall.give_back(server, Some(1), 0);
    asked && answered && ended
}

/// Whether the hall gives three links and then no more.
fn serves_three(
    clients: &mut SocketHouse<HostRuntime>,
    hall: &mut SocketHall<HostRuntime>,
    address: &[u8],
) -> bool {
    for _ in 0..3 {
        if !exchanges(clients, hall, address) {
            return false;
        }
    }
    matches!(hall.accept(), Accepted::NoMore)
}

/// Whether two halls at the address give three links each, and nothing is there once they were taken back.
fn serves_six(rt: HostRuntime, address: &[u8]) -> bool {
    let mut house = SocketHouse::new(rt, rt.alloc());
    let mut clients = SocketHouse::new(rt, rt.alloc());
    let Ok(mut halls) = house.bind(address, 2, 3) else {
        return false;
    };
    let first = serves_three(&mut clients, &mut halls[0], address);
    let second = serves_three(&mut clients, &mut halls[1], address);
    house.take_back(halls);
    first && second && clients.connect(address).is_err()
}

/// Whether writes to a peer that hung up fail, once, with a fault of the link.
fn notices_that_the_peer_is_gone(rt: HostRuntime, address: &[u8]) -> bool {
    let mut house = SocketHouse::new(rt, rt.alloc());
    let mut clients = SocketHouse::new(rt, rt.alloc());
    let Ok(mut halls) = house.bind(address, 1, 1) else {
        return false;
    };
    let Ok(client) = clients.connect(address) else {
        return false;
    };
    let Accepted::Link(mut server) = halls[0].accept() else {
        return false;
    };
    clients.hang_up(client);
    house.take_back(halls);
    for _ in 0..1000 {
        if server.write(b"PATHNAME a.gcm\n") == Err(Failed) {
            return true;
        }
    }
    false
}

#[test]
fn unix_sockets_serve(rt: HostRuntime) -> Result<(), Fail> {
    let (folder, address) = fresh(&rt, "modmap-sockets-serve")?;
    assert!(rt; serves_six(rt, address.as_bytes()));
    fs::remove_dir(&rt, folder.as_str())?;
    Ok(())
}

#[test]
fn tcp_sockets_serve(rt: HostRuntime) -> Result<(), Fail> {
    let address = free_port(&rt)?;
    assert!(rt; serves_six(rt, address.as_bytes()));
    Ok(())
}

#[test]
fn writes_to_a_peer_that_is_gone(rt: HostRuntime) -> Result<(), Fail> {
    let (folder, address) = fresh(&rt, "modmap-sockets-gone")?;
    assert!(rt; notices_that_the_peer_is_gone(rt, address.as_bytes()));
    fs::remove_dir(&rt, folder.as_str())?;
    let address = free_port(&rt)?;
    assert!(rt; notices_that_the_peer_is_gone(rt, address.as_bytes()));
    Ok(())
}

#[test]
fn what_stands_at_the_address_stays(rt: HostRuntime) -> Result<(), Fail> {
    let (folder, address) = fresh(&rt, "modmap-sockets-stands")?;
    let file = format!(in rt.alloc(); "{folder}/s")?;
    fs::write(&rt, file.as_str(), b"kept")?;
    let mut house = SocketHouse::new(rt, rt.alloc());
    let refused = house.bind(address.as_bytes(), 1, 1);
    assert!(rt; matches!(refused, Err(HouseError::Failed)));
    assert_eq!(rt; fs::metadata(&rt, file.as_str())?.len(), 4);
    fs::remove_file(&rt, file.as_str())?;
    let halls = house.bind(address.as_bytes(), 1, 1)?;
    let again = house.bind(address.as_bytes(), 1, 1);
    assert!(rt; matches!(again, Err(HouseError::Failed)));
    assert!(rt; fs::exists(&rt, file.as_str())?);
    house.take_back(halls);
    fs::remove_dir(&rt, folder.as_str())?;
    Ok(())
}

#[test]
fn another_file_at_the_address_stays(rt: HostRuntime) -> Result<(), Fail> {
    let (folder, address) = fresh(&rt, "modmap-sockets-other")?;
    let file = format!(in rt.alloc(); "{folder}/s")?;
    let other = format!(in rt.alloc(); "{folder}/other")?;
    let mut house = SocketHouse::new(rt, rt.alloc());
    let halls = house.bind(address.as_bytes(), 2, 1)?;
    fs::write(&rt, other.as_str(), b"kept")?;
    fs::rename(&rt, other.as_str(), file.as_str())?;
    house.take_back(halls);
    assert_eq!(rt; fs::metadata(&rt, file.as_str())?.len(), 4);
    fs::remove_dir_all(&rt, folder.as_str())?;
    Ok(())
}

#[test]
fn an_accept_waits_and_is_tried_again(rt: HostRuntime) -> Result<(), Fail> {
    let (folder, address) = fresh(&rt, "modmap-sockets-tries")?;
    let file = format!(in rt.alloc(); "{folder}/s")?;
    let listener = UnixListener::bind(&rt, file.as_str())?;
    listener.set_nonblocking(true)?;
    let mut hall = SocketHall::new(rt, Listener::Unix(listener), None, 1);
    assert!(rt; matches!(hall.accept(), Accepted::Failed));
    let mut clients = SocketHouse::new(rt, rt.alloc());
    let (accepted, connected) = thread::join(
        &rt,
        || hall.accept(),
        || {
            thread::sleep(&rt, Duration::from_millis(100));
            clients.connect(address.as_bytes())
        },
    );
    assert!(rt; connected.is_ok());
    assert!(rt; matches!(accepted, Accepted::Link(_)));
    fs::remove_dir_all(&rt, folder.as_str())?;
    Ok(())
}
