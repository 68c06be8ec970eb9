use super::{SocketLink, Stream};
use crate::sockets::SocketHouse;
use crate::sockets::tests::free_port;
use mm_outside::{Accepted, Hall, House};
use std::test::Fail;

/// Whether what is written to the link is sent without delay.
fn hurries(link: &SocketLink) -> bool {
    match &link.stream {
        Stream::Tcp(stream) => matches!(stream.nodelay(), Ok(true)),
        Stream::Unix(_) => false,
    }
}

/// Whether both ends of a link at the address send without delay.
fn both_hurry(rt: HostRuntime, address: &[u8]) -> bool {
    let mut house = SocketHouse::new(rt, rt.alloc());
    let mut clients = SocketHouse::new(rt, rt.alloc());
    let Ok(mut halls) = house.bind(address, 1, 1) else {
        return false;
    };
    let Ok(client) = clients.connect(address) else {
        return false;
    };
    let Accepted::Link(server) = halls[0].accept() else {
        return false;
    };
    house.take_back(halls);
    hurries(&client) && hurries(&server)
}

#[test]
fn tcp_sockets_send_without_delay(rt: HostRuntime) -> Result<(), Fail> {
    let address = free_port(&rt)?;
    assert!(rt; both_hurry(rt, address.as_bytes()));
    Ok(())
}
