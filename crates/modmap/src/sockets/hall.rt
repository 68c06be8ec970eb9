//! Where one worker gets its connections over a socket.

ghost use Rattle.std.specs.Prelude.{◌+◌, ◌≤◌, ◌<◌, ◌^◌};

use super::link::SocketLink;
use super::listener::{Listener, SocketFile};
use crate::streams::count_fault;
use mm_outside::{Accepted, Failed, Hall};
use std::fs::Files;
use std::time::Clock;

/// A hall over a listening socket, which gives at most so many links. Each accept that fails in all its tries raises
/// the count of faults. A link that is given back is closed.
#[derive(Drop)]
pub struct SocketHall<R> {
    rt: R,
    listener: Listener,
    file: Option<SocketFile>,
    left: u32,
    given: u32,
    back: u32,
    faults: u64,
    ghost most: { given + left < 2 ^ 32 },
    ghost returned: { back ≤ given },
}

impl<R> SocketHall<R> {
    ghost use Rattle.std.specs.Prelude.{IfSome};
    ghost use Rattle.modmap.specs.Sockets.{IsReady};

    /// A hall that gives at most `links` connections, with the file that its listener made, where it is to keep that.
    pub fn new(rt: R, listener: Listener, file: Option<SocketFile>, links: u32) -> SocketHall<R>
        ensures { IsReady links result }
    {
        SocketHall {
            rt,
            listener,
            file,
            left: links,
            given: 0,
            back: 0,
            faults: 0,
        }
    }

    /// Another hall over the same socket, which keeps no file.
    pub fn another(&self, links: u32) -> Option<SocketHall<R>>
    where
        R: Copy,
        ensures { IfSome result (IsReady links) }
    {
        let listener = self.listener.another()?;
        Some(SocketHall::new(self.rt, listener, None, links))
    }

    /// Closes the hall's listener, and removes the file that it keeps.
    pub fn close(self, files: &impl Files)
    where
        R: Copy,
    {
        if let Some(file) = &self.file {
            file.remove(files);
        }
    }
}

impl<R: Clock> Hall for SocketHall<R> {
    ghost use Rattle.std.specs.Prelude.{◌≡◌, ◌↔◌, None};
    ghost use Rattle.mm_outside.specs.Causes.{HasCause};
    ghost use Rattle.mm_outside.specs.Hall.{as_result, count_given};
    ghost use Rattle.modmap.specs.Sockets.{IsNoMore, accept_faults_of, links_of, most_links};

    type Link = SocketLink;

    ghost links = { λ _. None };

    ghost counts = { links_of };

    ghost faults = { accept_faults_of };

    fn accept(&mut self) -> Accepted<SocketLink>
        ensures counts { links_of self.new ≡ count_given result (links_of self.old) }
        ensures most { most_links self.new ≡ most_links self.old }
        ensures no_more { IsNoMore result ↔ (links_of self.old).given ≡ most_links self.old }
        ensures cause { HasCause (accept_faults_of self.old) (accept_faults_of self.new)
            (as_result result) }
    {
        if self.left == 0 {
            return Accepted::NoMore;
        }
        match self.listener.accept(&self.rt) {
            Some(stream) => {
                self.left -= 1;
                self.given += 1;
                Accepted::Link(SocketLink::new(stream))
            }
            None => {
                let Failed = count_fault(&mut self.faults);
                Accepted::Failed
            }
        }
    }

    fn give_back(&mut self, link: SocketLink, _conn: Option<u32>, _status: u8) {
        drop(link);
        self.back += 1;
    }
}
