//! Serving two halls at once, with memory enough: an importer in one, and the exporter that it waits for in the other.

ghost use Rattle.std.specs.Prelude.{◌≡◌, All, IfSome, vec_len};
ghost use Rattle.mm_outside.specs.MemHall.{counts_of};
ghost use Rattle.mm_outside.specs.MemLink.{octets_of};
ghost use Rattle.mm_outside.specs.Octets.{IsFresh};

use crate::serving::{ServeError, Served, serve};
use mm_outside::{MemHall, MemLink, MemSink};
use std::alloc::Global;
use std::sync::Wait;
use std::test::Fail;
use std::thread::Threads;
use unit_registry::Project;

/// A module, another one, a header and a plain unit.
const PROJECT: &[u8] = b"modmap-project 1
repo gcm.cache
module a a.cc
module b b.cc
header ./x.h x.h
plain main.cc
end
";

/// A connection that exports the module and reports it.
const EXPORTS: &[u8] = b"HELLO 1 GCC a.cc ;\nMODULE-EXPORT a ;\nMODULE-COMPILED a\n";

/// A connection that imports the module.
const IMPORTS: &[u8] = b"HELLO 1 GCC main.cc ;\nMODULE-IMPORT a\n";

/// A hall of one link, which gives the octets and takes at most 200.
fn one_hall(alloc: Global, octets: &[u8]) -> Option<MemHall>
    ensures { IfSome result (λ hall. (counts_of hall).back ≡ 0) }
{
    let links = links_of(alloc, octets)?;
    MemHall::new(alloc, links, &[]).ok()
}

/// One link, which gives the octets and takes at most 200.
fn links_of(alloc: Global, octets: &[u8]) -> Option<Vec<MemLink>>
    ensures { IfSome result (λ links. All (λ link. IsFresh (octets_of link)) links.items) }
{
    let link = MemLink::new(alloc, octets, 200, &[], &[], &[], &[]).ok()?;
    let mut links = Vec::new(alloc);
    links.push(link).ok()?;
    Some(links)
}

/// A hall for each of the two texts.
fn halls_of(alloc: Global, first: &[u8], second: &[u8]) -> Option<Vec<MemHall>>
    ensures two { IfSome result (λ halls. vec_len halls ≡ 2) }
    ensures unused { IfSome result (λ halls. All (λ hall. (counts_of hall).back ≡ 0) halls.items) }
{
    let first = one_hall(alloc, first)?;
    let second = one_hall(alloc, second)?;
    let mut halls = Vec::new(alloc);
    halls.push(first).ok()?;
    halls.push(second).ok()?;
    Some(halls)
}

/// Serves two halls over a history of at most 64 entries.
fn serve_pair<R: Threads + Wait + Sync>(
    rt: &R,
    alloc: Global,
    halls: Vec<MemHall>,
    out: &mut MemSink,
) -> Option<Served<MemHall>>
    requires two { vec_len halls ≡ 2 }
    requires unused { All (λ hall. (counts_of hall).back ≡ 0) halls.items }
{
    let project = Project::read(alloc, PROJECT).ok()?;
    match serve(rt, alloc, &project, 64, halls, out) {
        Ok(served) => Some(served),
        Err(ServeError::Memory(_)) => None,
    }
}

/// Whether the hall got its one link back with status 0 and this text.
fn got_back(hall: &MemHall, text: &[u8]) -> bool {
    match hall.given_back() {
        [back] => back.conn.is_some() && back.status == 0 && back.link.written() == text,
        _ => false,
    }
}

/// Whether two halls with these texts come back with these replies, after a history of 13 entries that was printed.
fn serves_so<R: Threads + Wait + Sync>(
    rt: &R,
    alloc: Global,
    texts: [&[u8]; 2],
    replies: [&[u8]; 2],
) -> Option<bool> {
    let halls = halls_of(alloc, texts[0], texts[1])?;
    let mut out = MemSink::new(alloc, 1_000, &[]).ok()?;
    let served = serve_pair(rt, alloc, halls, &mut out)?;
    let printed = out.written();
    let whole = printed.starts_with(b"modmap-trace 1 2 64\n") && printed.ends_with(b"\nend 13\n");
    let backs = match served.halls.as_slice() {
        [first, second] => got_back(first, replies[0]) && got_back(second, replies[1]),
        _ => false,
    };
    Some(backs && whole && served.status == 0 && served.entries == 13)
}

#[test]
fn an_importer_is_served_beside_its_exporter(rt: HostRuntime) -> Result<(), Fail> {
    let alloc = rt.alloc();
    let granted: &[u8] = b"HELLO 1 modmap ;\nPATHNAME a.gcm\n";
    let reported: &[u8] = b"HELLO 1 modmap ;\nPATHNAME a.gcm ;\nOK\n";
    for _run in 0..20 {
        let first = serves_so(&rt, alloc, [IMPORTS, EXPORTS], [granted, reported]);
        assert!(rt; first == Some(true));
        let second = serves_so(&rt, alloc, [EXPORTS, IMPORTS], [reported, granted]);
        assert!(rt; second == Some(true));
    }
    Ok(())
}
