//! Two connections over one history, and workers that serve a hall, with memory enough.

ghost use Rattle.std.specs.Prelude.{◌≡◌, ◌≤◌, All, IfSome, IsFalse};
ghost use Rattle.mm_outside.specs.MemHall.{counts_of};
ghost use Rattle.mm_outside.specs.MemLink.{octets_of};
ghost use Rattle.mm_outside.specs.Octets.{IsFresh};
ghost use Rattle.registry_core.specs.Ledgers.{most_entries};
ghost use Rattle.ruled_history.specs.Views.{first_view};

use crate::example::{TwoServed, two_served};
use crate::worker::work;
use connection_core::{ConnEnd, Session};
use mm_outside::{Back, MemHall, MemLink};
use registry_core::{Book, NoShelf};
use ruled_history::{Bell, Registry, Seat, SharedDesk};
use std::alloc::Global;
use std::sync::Wait;
use std::test::Fail;
use unit_registry::Project;

/// A module and its importer.
const PROJECT: &[u8] = b"modmap-project 1
repo gcm.cache
module a a.cc
plain main.cc
end
";

/// A connection that exports the module and reports it.
const EXPORTS: &[u8] = b"HELLO 1 GCC a.cc ;\nMODULE-EXPORT a ;\nMODULE-COMPILED a\n";

/// A connection that imports the module.
const IMPORTS: &[u8] = b"HELLO 1 GCC main.cc ;\nMODULE-IMPORT a\n";

/// A connection that ends inside a block.
const CUT: &[u8] = b"MODULE-REPO ;\n";

/// A link that gives the octets, and takes at most 200.
fn link_of(alloc: Global, octets: &[u8]) -> Option<MemLink>
    ensures { IfSome result (λ link. IsFresh (octets_of link)) }
{
    MemLink::new(alloc, octets, 200, &[], &[], &[], &[]).ok()
}

/// Serves both links over the project.
fn serve_two<R: Wait>(
    rt: &R,
    alloc: Global,
    first: &mut MemLink,
    second: &mut MemLink,
) -> Result<TwoServed, Fail> {
    let project = Project::read(alloc, PROJECT).or(Err("the project is well-formed"))?;
    let run = two_served(rt, alloc, &project, first, second).ok_or("there is memory")?;
    Ok(run)
}

/// Whether both connections left.
fn have_left(run: &TwoServed) -> bool {
    run.first.how == ConnEnd::Closed && run.second.how == ConnEnd::Closed
}

#[test]
fn the_second_imports_what_the_first_reports(rt: HostRuntime) -> Result<(), Fail> {
    let alloc = rt.alloc();
    let mut first = link_of(alloc, EXPORTS).ok_or("memory")?;
    let mut second = link_of(alloc, IMPORTS).ok_or("memory")?;
    let run = serve_two(&rt, alloc, &mut first, &mut second)?;
    assert!(rt; have_left(&run));
    assert!(rt; first.written() == b"HELLO 1 modmap ;\nPATHNAME a.gcm ;\nOK\n".as_slice());
    assert!(rt; second.written() == b"HELLO 1 modmap ;\nPATHNAME a.gcm\n".as_slice());
    Ok(())
}

/// These links and one more, which gives the octets.
fn and_link(alloc: Global, links: Vec<MemLink>, octets: &[u8]) -> Option<Vec<MemLink>>
    requires { All (λ link. IsFresh (octets_of link)) links.items }
    ensures { IfSome result (λ links. All (λ link. IsFresh (octets_of link)) links.items) }
{
    let mut links = links;
    links.push(link_of(alloc, octets)?).ok()?;
    Some(links)
}

/// A hall of three links. Those of its calls of `accept` fail that are listed.
fn hall_of(alloc: Global, texts: [&[u8]; 3], failing: &[u64]) -> Option<MemHall>
    ensures { IfSome result (λ hall. (counts_of hall).back ≤ (counts_of hall).given) }
{
    let links = and_link(alloc, Vec::new(alloc), texts[0])?;
    let links = and_link(alloc, links, texts[1])?;
    let links = and_link(alloc, links, texts[2])?;
    MemHall::new(alloc, links, failing).ok()
}

/// Serves the links of the hall as the only worker of the registry.
fn work_first<R: Wait>(
    rt: &R,
    registry: &Registry<NoShelf>,
    seat: Seat,
    project: &Project,
    session: &mut Session<()>,
    hall: &mut MemHall,
) -> u8
    requires seat { seat.registry ≡ registry.now.name }
    requires knows { seat.knows ≡ first_view 1 0 }
    requires loose { IsFalse registry.now.metered }
    requires project { registry.now.opening.ledger.project ≡ project.now }
    requires given { (counts_of hall.old).back ≤ (counts_of hall.old).given }
{
    let bell = Bell::new();
    let mut desk = SharedDesk::new(rt, registry, seat, &bell);
    work(rt, project, session, &mut desk, &bell, hall)
}

/// Serves the links of the hall by the only worker of a history with at most so many entries.
fn work_alone<R: Wait>(rt: &R, alloc: Global, entries: u32, hall: &mut MemHall) -> Option<u8>
    requires fewest { 1 ≤ entries }
    requires most { entries ≤ most_entries }
    requires given { (counts_of hall.old).back ≤ (counts_of hall.old).given }
{
    let project = Project::read(alloc, PROJECT).ok()?;
    project.unit_count();
    let mut session = Session::new(alloc).ok()?;
    let book = Book::new(alloc, &project, 1, entries, NoShelf::new()).ok()?;
    let (registry, seat) = Registry::new(alloc, book, false).ok()?;
    Some(work_first(rt, &registry, seat, &project, &mut session, hall))
}

/// Whether the link came back as this connection, with this status and this text.
fn is_back(back: &Back, conn: Option<u32>, status: u8, text: &[u8]) -> bool {
    back.conn == conn && back.status == status && back.link.written() == text
}

#[test]
fn a_worker_serves_its_hall(rt: HostRuntime) -> Result<(), Fail> {
    let alloc = rt.alloc();
    for (entries, conn, status) in [
        (12, None, 9),
        (13, None, 9),
        (14, Some(2), 7),
        (40, Some(2), 7),
    ] {
        let mut hall = hall_of(alloc, [EXPORTS, IMPORTS, CUT], &[]).ok_or("memory")?;
        let worked = work_alone(&rt, alloc, entries, &mut hall).ok_or("memory")?;
        let back = hall.given_back();
        assert!(rt; worked == status && back.len() == 3, "at {entries}");
        assert!(rt;
            is_back(
                &back[0],
                Some(0),
                0,
                b"HELLO 1 modmap ;\nPATHNAME a.gcm ;\nOK\n"
            )
        );
        assert!(rt; is_back(&back[1], Some(1), 0, b"HELLO 1 modmap ;\nPATHNAME a.gcm\n"));
        assert!(rt; is_back(&back[2], conn, status, b""), "at {entries}");
    }
    Ok(())
}

#[test]
fn a_hall_that_fails_ends_its_worker(rt: HostRuntime) -> Result<(), Fail> {
    let alloc = rt.alloc();
    let mut hall = hall_of(alloc, [CUT, EXPORTS, IMPORTS], &[1]).ok_or("memory")?;
    let worked = work_alone(&rt, alloc, 40, &mut hall).ok_or("memory")?;
    let back = hall.given_back();
    assert!(rt; worked == 4 && back.len() == 1);
    assert!(rt; is_back(&back[0], Some(0), 7, b""));
    Ok(())
}
