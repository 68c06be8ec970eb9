//! Where a server gets its halls over a socket, and a client its link.

ghost use Rattle.std.specs.Prelude.{◌≡◌, ◌≤◌, ◌+◌, vec_len};

use super::hall::SocketHall;
use super::link::SocketLink;
use super::opening::{open_halls, open_link};
use crate::streams::count_fault;
use mm_outside::{Failed, House, HouseError};
use std::alloc::Global;
use std::fs::Files;
use std::net::{Net, TcpListener, TcpStream};
use std::time::Clock;

/// Halls and links over the sockets of the machine. Each `bind` and each `connect` that fails raises the count of
/// faults; an address that can't be read is such a fault.
#[derive(Drop)]
pub struct SocketHouse<R> {
    rt: R,
    alloc: Global,
    bound: u64,
    taken_back: u64,
    connected: u64,
    hung_up: u64,
    faults: u64,
    ghost halls: { taken_back ≤ bound },
    ghost links: { hung_up ≤ connected },
}

impl<R> SocketHouse<R> {
    ghost use Rattle.modmap.specs.Sockets.{IsNew};

    /// A house over the sockets that the runtime value reaches, whose halls take their memory from `alloc`.
    pub fn new(rt: R, alloc: Global) -> SocketHouse<R>
        ensures { IsNew result }
    {
        SocketHouse {
            rt,
            alloc,
            bound: 0,
            taken_back: 0,
            connected: 0,
            hung_up: 0,
            faults: 0,
        }
    }
}

impl<R> House for SocketHouse<R>
where
    R: Net<Listener = TcpListener, Stream = TcpStream> + Files + Clock + Copy,
{
    ghost use Rattle.std.specs.Prelude.{None, All, IfOk};
    ghost use Rattle.mm_outside.specs.Causes.{HasCause};
    ghost use Rattle.mm_outside.specs.House.{as_result, count_bound};
    ghost use Rattle.modmap.specs.Sockets.{IsReady, counts_of, faults_of, links_of};

    type Hall = SocketHall<R>;

    type Link = SocketLink;

    ghost stock = { λ _. None };

    ghost counts = { counts_of };

    ghost faults = { faults_of };

    /// Where a file stands at a Unix address, that is a fault, and the file stays. With no worker nothing is bound.
    fn bind(
        &mut self,
        address: &[u8],
        workers: u32,
        links: u32,
    ) -> Result<Vec<SocketHall<R>>, HouseError>
        ensures workers { IfOk result (λ halls. vec_len halls ≡ workers) }
        ensures ready { IfOk result (λ halls. All (IsReady links) halls.items) }
        ensures unused { IfOk result (λ halls. All (λ hall. (links_of hall).back ≡ 0) halls.items) }
        ensures counts { counts_of self.new ≡ count_bound result (counts_of self.old) }
        ensures cause { HasCause (faults_of self.old) (faults_of self.new) (as_result result) }
    {
        let Some(bound) = self.bound.checked_add(u64::from(workers)) else {
            let Failed = count_fault(&mut self.faults);
            return Err(HouseError::Failed);
        };
        match open_halls(&self.rt, self.alloc, address, workers, links) {
            Ok(halls) => {
                self.bound = bound;
                Ok(halls)
            }
            Err(HouseError::Failed) => {
                let Failed = count_fault(&mut self.faults);
                Err(HouseError::Failed)
            }
            Err(HouseError::Memory) => Err(HouseError::Memory),
        }
    }

    /// Closes the halls, and removes the socket's file that their `bind` made.
    fn take_back(&mut self, halls: Vec<SocketHall<R>>)
        requires { (counts_of self.old).taken_back + vec_len halls ≤ (counts_of self.old).bound }
        ensures counts { counts_of self.new ≡ record (counts_of self.old) {
          taken_back = (counts_of self.old).taken_back + vec_len halls;
        } }
        ensures faults { faults_of self.new ≡ faults_of self.old }
    {
        self.taken_back += halls.len() as u64;
        for hall in halls {
            hall.close(&self.rt);
        }
    }

    fn connect(&mut self, address: &[u8]) -> Result<SocketLink, Failed> {
        match self.connected.checked_add(1) {
            Some(connected) if let Some(link) = open_link(&self.rt, address) => {
                self.connected = connected;
                Ok(link)
            }
            _ => Err(count_fault(&mut self.faults)),
        }
    }

    /// Closes the link.
    fn hang_up(&mut self, link: SocketLink) {
        drop(link);
        self.hung_up += 1;
    }

    ghost halls_bounded = { λ house. house.halls };

    ghost links_bounded = { λ house. house.links };
}
