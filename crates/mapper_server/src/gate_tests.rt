//! That two links are served at the same time: each waits in its first read until the other one is read too.

ghost use Rattle.std.specs.Prelude.{◌≡◌, ◌+◌, ◌≤◌, ◌<◌, ◌^◌, All, IfSome, vec_len};
ghost use Rattle.mm_outside.specs.Causes.{Rose};

use crate::serving::{ServeError, serve};
use mm_outside::{Accepted, Failed, Hall, Link, MemLink, MemSink};
use std::alloc::Global;
use std::sync::Wait;
use std::sync::atomic::{AtomicU32, Ordering};
use std::test::Fail;
use std::thread::{Threads, yield_now};
use unit_registry::Project;

/// Two modules.
const PROJECT: &[u8] = b"modmap-project 1
repo gcm.cache
module a a.cc
module b b.cc
end
";

/// How often a link looks for the other one, at most.
const LOOKS: u32 = 10_000_000;

/// Whether both links came to the gate, as far as so many looks show.
fn both_came(gate: &AtomicU32) -> bool {
    for _looked in 0..LOOKS {
        if gate.load(Ordering::SeqCst) >= 2 {
            return true;
        }
        yield_now();
    }
    false
}

/// A link in memory behind a gate, which opens where two links have come to it.
#[derive(Drop)]
struct GatedLink<'a> {
    gate: &'a AtomicU32,
    came: bool,
    link: MemLink,
    read_faults: u64,
}

/// Whether the gate is open. The first call of a link comes to it.
fn passes(gate: &AtomicU32, came: &mut bool) -> bool {
    if *came {
        return true;
    }
    *came = true;
    gate.fetch_add(1, Ordering::SeqCst);
    both_came(gate)
}

/// Counts a fault.
fn fault(faults: &mut u64) -> Failed
    ensures later { faults.old ≤ faults.new }
    ensures rose { Rose faults.old faults.new }
{
    *faults = faults.saturating_add(1);
    Failed
}

impl Link for GatedLink<'_> {
    ghost use Rattle.std.specs.Prelude.{None};
    ghost use Rattle.mm_outside.specs.MemLink.{write_faults_of};

    ghost octets = { λ _. None };

    ghost read_faults = { λ link. link.read_faults };

    ghost write_faults = { λ link. write_faults_of link.link };

    fn read(&mut self, room: &mut [u8]) -> Result<usize, Failed> {
        if !passes(self.gate, &mut self.came) {
            return Err(fault(&mut self.read_faults));
        }
        match self.link.read(room) {
            Ok(count) => Ok(count),
            Err(Failed) => Err(fault(&mut self.read_faults)),
        }
    }

    fn write(&mut self, piece: &[u8]) -> Result<usize, Failed> {
        self.link.write(piece)
    }
}

/// A hall of such links. It keeps no link that is given back.
#[derive(Drop)]
struct GatedHall<'a> {
    links: Vec<GatedLink<'a>>,
    given: u32,
    back: u32,
    ghost most: { given + vec_len links < 2 ^ 32 },
    ghost returned: { back ≤ given },
}

impl<'a> Hall for GatedHall<'a> {
    ghost use Rattle.std.specs.Prelude.{None};

    type Link = GatedLink<'a>;

    ghost links = { λ _. None };

    ghost counts = { λ hall. record { given = hall.given; back = hall.back } };

    ghost faults = { λ _. 0 };

    fn accept(&mut self) -> Accepted<GatedLink<'a>> {
        match self.links.pop() {
            Some(link) => {
                self.given += 1;
                Accepted::Link(link)
            }
            None => Accepted::NoMore,
        }
    }

    fn give_back(&mut self, link: GatedLink<'a>, _conn: Option<u32>, _status: u8) {
        drop(link);
        self.back += 1;
    }
}

/// A hall of one link, which says this.
fn hall_of<'a>(alloc: Global, gate: &'a AtomicU32, octets: &[u8]) -> Option<GatedHall<'a>>
    ensures { IfSome result (λ hall. hall.back ≡ 0) }
{
    let link = MemLink::new(alloc, octets, 200, &[], &[], &[], &[]).ok()?;
    let mut links = Vec::new(alloc);
    let gated = GatedLink {
        gate,
        came: false,
        link,
        read_faults: 0,
    };
    links.push(gated).ok()?;
    Some(GatedHall {
        links,
        given: 0,
        back: 0,
    })
}

/// Two halls, of a link each, behind one gate.
fn halls_of<'a>(alloc: Global, gate: &'a AtomicU32) -> Option<Vec<GatedHall<'a>>>
    ensures two { IfSome result (λ halls. vec_len halls ≡ 2) }
    ensures unused { IfSome result (λ halls. All (λ hall. hall.back ≡ 0) halls.items) }
{
    let first = hall_of(alloc, gate, b"HELLO 1 GCC a.cc ;\nMODULE-REPO\n")?;
    let second = hall_of(alloc, gate, b"HELLO 1 GCC b.cc ;\nMODULE-REPO\n")?;
    let mut halls = Vec::new(alloc);
    halls.push(first).ok()?;
    halls.push(second).ok()?;
    Some(halls)
}

/// The status of serving both.
fn serve_both<R: Threads + Wait + Sync>(rt: &R, alloc: Global) -> Option<u8> {
    let gate = AtomicU32::new(0);
    let project = Project::read(alloc, PROJECT).ok()?;
    let halls = halls_of(alloc, &gate)?;
    let mut out = MemSink::new(alloc, 1_000, &[]).ok()?;
    match serve(rt, alloc, &project, 64, halls, &mut out) {
        Ok(served) => Some(served.status),
        Err(ServeError::Memory(_)) => None,
    }
}

/// A body that serves one hall after the other, or both by one thread, reads a link whose gate never opens.
#[test]
fn serve_holds_two_links(rt: HostRuntime) -> Result<(), Fail> {
    let alloc = rt.alloc();
    assert!(rt; serve_both(&rt, alloc) == Some(0));
    Ok(())
}
