//! What threads that serve at once show beside the clauses, each at a seat of its own: a block of lines takes one turn,
//! and a connection whose import waits goes on once the unit is reported.

ghost use Rattle.std.specs.Prelude.{◌≡◌, IfSome, IsFalse};
ghost use Rattle.std.specs.Thread.{IsSync};
ghost use Rattle.registry_core.specs.Desks.{Stays};
ghost use Rattle.ruled_history.specs.Examples.{IsFreshSeat};
ghost use Rattle.mapper_server.specs.Sharing.{AreAllSeats, AreSeats, KeepsRun, MayOpen, MayServe};

use crate::worker::serve_link;
use connection_core::{ConnEnd, Session};
use histories::Entry;
use mm_outside::{MemLink, Text};
use registry_core::{Book, Desk, Leaving, NoShelf};
use ruled_history::{Bell, Registry, Seat, SharedDesk};
use std::alloc::Global;
use std::sync::Wait;
use std::thread::{Threads, join, yield_now};
use unit_registry::{Act, Project};

/// A module and its importer.
const PROJECT: &[u8] = b"modmap-project 1
repo gcm.cache
module a a.cc
plain main.cc
end
";

/// How many entries a history may have.
const ENTRIES: u32 = 5_000;

/// How often a visitor opens a connection and leaves, at most.
const VISITS: u32 = 2_000;

/// How often a block of many lines asks where interfaces are kept, after its greeting.
const ASKED: usize = 63;

/// How often the exporter looks for the importer's greeting, at most.
const LOOKS: u32 = 10_000_000;

/// A block that exports the module and reports it.
const EXPORTS: &[u8] = b"HELLO 1 GCC a.cc ;\nMODULE-EXPORT a ;\nMODULE-COMPILED a\n";

/// A block that imports the module.
const IMPORTS: &[u8] = b"HELLO 1 GCC main.cc ;\nMODULE-IMPORT a\n";

/// The project.
fn project_of(alloc: Global) -> Option<Project> {
    Project::read(alloc, PROJECT).ok()
}

/// A greeting and so many lines more, with the mark on all but the last.
fn lines(alloc: Global, greeting: &[u8], line: &[u8], last: &[u8]) -> Option<Text> {
    let mut text = Text::of(alloc, greeting).ok()?;
    for _added in 1..ASKED {
        text.extend(line).ok()?;
    }
    text.extend(last).ok()?;
    Some(text)
}

/// A block of 64 lines, and the replies to it.
fn block(alloc: Global) -> Option<(Text, Text)> {
    let asked = lines(
        alloc,
        b"HELLO 1 GCC a.cc ;\n",
        b"MODULE-REPO ;\n",
        b"MODULE-REPO\n",
    )?;
    let replies = lines(
        alloc,
        b"HELLO 1 modmap ;\n",
        b"PATHNAME gcm.cache ;\n",
        b"PATHNAME gcm.cache\n",
    )?;
    Some((asked, replies))
}

/// A registry over the project for two workers, and its two seats.
fn two_seats(alloc: Global, project: &Project) -> Option<(Registry<NoShelf>, Seat, Seat)>
    ensures { IfSome result (λ made. AreSeats project.now made.0 made.1 made.2) }
{
    project.unit_count();
    let Ok(book) = Book::new(alloc, project, 2, ENTRIES, NoShelf::new()) else {
        return None;
    };
    let Ok((registry, seat)) = Registry::new(alloc, book, false) else {
        return None;
    };
    let (one, two) = registry.split(seat, 1, 0);
    Some((registry, one, two))
}

/// A link that gives the octets.
fn link_of(alloc: Global, octets: &[u8]) -> Option<MemLink> {
    MemLink::new(alloc, octets, 4_000, &[], &[], &[], &[]).ok()
}

/// Serves a link that gives these octets as a connection of the desk to its end. The connection's number, if it left and
/// got these replies.
fn serves<R: Wait, D: Desk<Item = ()>>(
    rt: &R,
    alloc: Global,
    project: &Project,
    desk: &mut D,
    bell: &Bell,
    asked: &[u8],
    replies: &[u8],
) -> Option<u32>
    requires may { MayServe project.now (D.tells desk.old) }
    requires turn { IsFalse (D.holds desk.old) }
    ensures { Stays (D.tells desk.old) (D.tells desk.new) }
{
    let mut session = Session::new(alloc).ok()?;
    let mut link = link_of(alloc, asked)?;
    let served = serve_link(rt, project, &mut session, desk, bell, &mut link)?;
    if served.how == ConnEnd::Closed && link.written() == replies {
        Some(served.conn)
    } else {
        None
    }
}

/// The bell of a registry, and those by which two threads tell each other how far they are.
#[derive(Drop)]
struct Bells {
    registry: Bell,
    begun: Bell,
    ended: Bell,
}

impl Bells {
    /// Bells that were never rung.
    fn new() -> Bells {
        Bells {
            registry: Bell::new(),
            begun: Bell::new(),
            ended: Bell::new(),
        }
    }
}

/// The book of a registry whose seats these are again.
fn closed(registry: Registry<NoShelf>, one: Seat, two: Seat) -> Book<NoShelf>
    requires { AreAllSeats registry one two }
{
    let seat = registry.join(one, two);
    registry.close(seat)
}

// ---- a block takes one turn

/// Serves a block of many lines at the seat, once the other thread has begun, and tells that it has ended.
fn serves_block<R: Wait>(
    rt: &R,
    alloc: Global,
    project: &Project,
    registry: &Registry<NoShelf>,
    bells: &Bells,
    seat: Seat,
) -> Option<(Seat, u32)>
    requires seat { seat.registry ≡ registry.now.name }
    requires fresh { IsFreshSeat seat.knows }
    requires loose { IsFalse registry.now.metered }
    requires project { registry.now.opening.ledger.project ≡ project.now }
    ensures { IfSome result (λ done. KeepsRun seat done.0) }
{
    let (asked, replies) = block(alloc)?;
    let mut desk = SharedDesk::new(rt, registry, seat, &bells.registry);
    bells.begun.wait_past(rt, 0);
    let served = serves(
        rt,
        alloc,
        project,
        &mut desk,
        &bells.registry,
        asked.octets(),
        replies.octets(),
    );
    bells.ended.ring(rt);
    Some((desk.into_seat(), served?))
}

/// Whether a connection was opened, which has left.
fn visits_once<D: Desk<Item = ()>>(desk: &mut D) -> bool
    requires { MayOpen (D.tells desk.old) }
    ensures may { MayOpen (D.tells desk.new) }
    ensures stays { Stays (D.tells desk.old) (D.tells desk.new) }
{
    let Ok(conn) = desk.open() else {
        return false;
    };
    desk.leave(conn, Leaving::Left);
    true
}

/// Opens connections, which leave, until the other thread has ended. Whether none was refused.
fn visits<R: Wait, D: Desk<Item = ()>>(rt: &R, desk: &mut D, bells: &Bells) -> bool
    requires { MayOpen (D.tells desk.old) }
    ensures { Stays (D.tells desk.old) (D.tells desk.new) }
{
    for _visit in 0..VISITS {
        let visited = visits_once(desk);
        bells.begun.ring(rt);
        if !visited {
            return false;
        }
        if bells.ended.count(rt) != 0 {
            return true;
        }
    }
    true
}

/// The same at the seat.
fn visits_at<R: Wait>(
    rt: &R,
    registry: &Registry<NoShelf>,
    bells: &Bells,
    seat: Seat,
) -> Option<Seat>
    requires seat { seat.registry ≡ registry.now.name }
    requires fresh { IsFreshSeat seat.knows }
    requires loose { IsFalse registry.now.metered }
    ensures { IfSome result (KeepsRun seat) }
{
    let mut desk = SharedDesk::new(rt, registry, seat, &bells.registry);
    if !visits(rt, &mut desk, bells) {
        return None;
    }
    Some(desk.into_seat())
}

/// Serves a block of many lines at one seat, while connections open and leave at the other.
fn serves_beside<R: Threads + Wait + Sync>(
    rt: &R,
    alloc: Global,
    project: &Project,
    registry: &Registry<NoShelf>,
    bells: &Bells,
    one: Seat,
    two: Seat,
) -> (Option<(Seat, u32)>, Option<Seat>)
    requires { AreSeats project.now registry.now one two }
    ensures first { IfSome result.0 (λ done. KeepsRun one done.0) }
    ensures second { IfSome result.1 (KeepsRun two) }
{
    join(
        rt,
        || -> Option<(Seat, u32)>
            requires seat { IsSync R.row × (one.registry ≡ registry.now.name) }
            requires fresh { IsFreshSeat one.knows }
            requires loose { IsFalse registry.now.metered }
            requires project { registry.now.opening.ledger.project ≡ project.now }
            ensures { IfSome result (λ done. KeepsRun one done.0) }
        { serves_block(rt, alloc, project, registry, bells, one) },
        || -> Option<Seat>
            requires seat { IsSync R.row × (two.registry ≡ registry.now.name) }
            requires fresh { IsFreshSeat two.knows }
            requires loose { IsFalse registry.now.metered }
            ensures { IfSome result (KeepsRun two) }
        { visits_at(rt, registry, bells, two) },
    )
}

/// Whether the connection's requests and their Pause stand next to each other.
fn stand_together(entries: &[Entry], conn: u32) -> bool {
    let is_asked = |entry: &Entry| entry.conn == conn && entry.act != Act::Open;
    let Some(first) = entries.iter().position(is_asked) else {
        return false;
    };
    let (_, rest) = entries.split_at(first);
    let asked = ASKED + 1;
    let Some((block, rest)) = rest.split_at_checked(asked) else {
        return false;
    };
    let pause = Entry {
        conn,
        act: Act::Pause,
    };
    block
        .iter()
        .all(|entry| entry.conn == conn && entry.act != Act::Pause)
        && rest.first() == Some(&pause)
}

/// Whether the entries of a block of many lines stand next to each other in the closed book, where connections opened and
/// left at another seat meanwhile. `None` comes where memory ran out, or a connection had no room.
fn takes_one_turn<R: Threads + Wait + Sync>(rt: &R, alloc: Global) -> Option<bool> {
    let project = project_of(alloc)?;
    let (registry, one, two) = two_seats(alloc, &project)?;
    let bells = Bells::new();
    let (served, visited) = serves_beside(rt, alloc, &project, &registry, &bells, one, two);
    let (one, conn) = served?;
    let two = visited?;
    let book = closed(registry, one, two);
    Some(stand_together(book.entries(), conn))
}

#[test]
fn a_block_takes_one_turn(rt: HostRuntime) {
    for run in 0..50 {
        assert!(rt; takes_one_turn(&rt, rt.alloc()) == Some(true), "{run}");
    }
}

// ---- a connection waits at the bell

/// Serves the importer at the seat.
fn imports<R: Wait>(
    rt: &R,
    alloc: Global,
    project: &Project,
    registry: &Registry<NoShelf>,
    bell: &Bell,
    seat: Seat,
) -> Option<(Seat, u32)>
    requires seat { seat.registry ≡ registry.now.name }
    requires fresh { IsFreshSeat seat.knows }
    requires loose { IsFalse registry.now.metered }
    requires project { registry.now.opening.ledger.project ≡ project.now }
    ensures { IfSome result (λ done. KeepsRun seat done.0) }
{
    let mut desk = SharedDesk::new(rt, registry, seat, bell);
    let conn = serves(
        rt,
        alloc,
        project,
        &mut desk,
        bell,
        IMPORTS,
        b"HELLO 1 modmap ;\nPATHNAME a.gcm\n",
    )?;
    Some((desk.into_seat(), conn))
}

/// Whether the request at the place has its reply, once it stands in the history.
fn sees<D: Desk<Item = ()>>(project: &Project, desk: &mut D, place: u32) -> bool
    requires may { MayServe project.now (D.tells desk.old) }
    requires turn { IsFalse (D.holds desk.old) }
    ensures may { MayServe project.now (D.tells desk.new) }
    ensures turn { IsFalse (D.holds desk.new) }
    ensures stays { Stays (D.tells desk.old) (D.tells desk.new) }
{
    project.unit_count();
    for _look in 0..LOOKS {
        if desk.look(place).is_some() {
            return true;
        }
        yield_now();
    }
    false
}

/// Serves the exporter at the seat, once the importer's greeting is seen there, and so its whole block.
fn exports<R: Wait>(
    rt: &R,
    alloc: Global,
    project: &Project,
    registry: &Registry<NoShelf>,
    bell: &Bell,
    seat: Seat,
) -> Option<(Seat, u32)>
    requires seat { seat.registry ≡ registry.now.name }
    requires fresh { IsFreshSeat seat.knows }
    requires loose { IsFalse registry.now.metered }
    requires project { registry.now.opening.ledger.project ≡ project.now }
    ensures { IfSome result (λ done. KeepsRun seat done.0) }
{
    let mut desk = SharedDesk::new(rt, registry, seat, bell);
    sees(project, &mut desk, 1);
    let conn = serves(
        rt,
        alloc,
        project,
        &mut desk,
        bell,
        EXPORTS,
        b"HELLO 1 modmap ;\nPATHNAME a.gcm ;\nOK\n",
    )?;
    Some((desk.into_seat(), conn))
}

/// Serves the importer at one seat and the exporter at the other.
fn serves_both<R: Threads + Wait + Sync>(
    rt: &R,
    alloc: Global,
    project: &Project,
    registry: &Registry<NoShelf>,
    bell: &Bell,
    one: Seat,
    two: Seat,
) -> (Option<(Seat, u32)>, Option<(Seat, u32)>)
    requires { AreSeats project.now registry.now one two }
    ensures first { IfSome result.0 (λ done. KeepsRun one done.0) }
    ensures second { IfSome result.1 (λ done. KeepsRun two done.0) }
{
    join(
        rt,
        || -> Option<(Seat, u32)>
            requires seat { IsSync R.row × (one.registry ≡ registry.now.name) }
            requires fresh { IsFreshSeat one.knows }
            requires loose { IsFalse registry.now.metered }
            requires project { registry.now.opening.ledger.project ≡ project.now }
            ensures { IfSome result (λ done. KeepsRun one done.0) }
        { imports(rt, alloc, project, registry, bell, one) },
        || -> Option<(Seat, u32)>
            requires seat { IsSync R.row × (two.registry ≡ registry.now.name) }
            requires fresh { IsFreshSeat two.knows }
            requires loose { IsFalse registry.now.metered }
            requires project { registry.now.opening.ledger.project ≡ project.now }
            ensures { IfSome result (λ done. KeepsRun two done.0) }
        { exports(rt, alloc, project, registry, bell, two) },
    )
}

/// Whether the importer's block, of connection 0, stands whole before the exporter, connection 1, opened.
fn waited(entries: &[Entry]) -> bool {
    let import = Act::Import {
        unit: Some(0),
        name_only: false,
    };
    let expected = [
        Entry {
            conn: 0,
            act: import,
        },
        Entry {
            conn: 0,
            act: Act::Pause,
        },
        Entry {
            conn: 1,
            act: Act::Open,
        },
    ];
    entries.get(2..5) == Some(expected.as_slice())
}

/// Whether the importer's block stood in the history when the exporter opened, and the bell was rung once. Both left with
/// their replies. `None` comes where one didn't, or memory ran out.
fn is_woken<R: Threads + Wait + Sync>(rt: &R, alloc: Global) -> Option<bool> {
    let project = project_of(alloc)?;
    let (registry, one, two) = two_seats(alloc, &project)?;
    let bell = Bell::new();
    let (imported, exported) = serves_both(rt, alloc, &project, &registry, &bell, one, two);
    let (one, importer) = imported?;
    let (two, exporter) = exported?;
    let book = closed(registry, one, two);
    Some((importer, exporter) == (0, 1) && waited(book.entries()) && bell.count(rt) == 1)
}

#[test]
fn an_importer_waits_at_the_bell(rt: HostRuntime) {
    assert!(rt; is_woken(&rt, rt.alloc()) == Some(true));
}
