//! A worked example: two connections are served over one history, each at a seat of its own.

ghost use Rattle.std.specs.Prelude.{◌≡◌, IfSome, IsFalse};
ghost use Rattle.mm_outside.specs.Told.{Told};
ghost use Rattle.registry_core.specs.Ledgers.{IsLedger};
ghost use Rattle.ruled_history.specs.Examples.{IsFreshSeat};
ghost use Rattle.ruled_history.specs.Views.{with_entries};
ghost use Rattle.mapper_server.specs.Examples.{IsKept};
ghost use Rattle.mapper_server.specs.Serving.{ServesIn};

use crate::worker::{ServedConn, serve_link};
use connection_core::Session;
use mm_outside::Link;
use registry_core::{Book, Desk, NoShelf};
use ruled_history::{Bell, Registry, Seat, SharedDesk};
use std::alloc::Global;
use std::sync::Wait;
use unit_registry::Project;

/// How many entries the history may have.
const ENTRIES: u32 = 40;

/// Serves the link at the seat, as its only connection.
fn serve_seat<R: Wait, L: Link>(
    rt: &R,
    registry: &Registry<NoShelf>,
    seat: Seat,
    bell: &Bell,
    project: &Project,
    session: &mut Session<()>,
    link: &mut L,
) -> Option<(Seat, ServedConn)>
    requires seat { seat.registry ≡ registry.now.name }
    requires fresh { IsFreshSeat seat.knows }
    requires loose { IsFalse registry.now.metered }
    requires project { registry.now.opening.ledger.project ≡ project.now }
    ensures kept { IfSome result (λ done. IsKept seat done.0 done.1.conn) }
    ensures served { IfSome result (λ done. Told (ServesIn (with_entries registry.now.opening.ledger done.0.knows.seen) done.1.conn done.1.how) (L.octets link.old) (L.octets link.new)) }
{
    let mut desk = SharedDesk::new(rt, registry, seat, bell);
    let served = serve_link(rt, project, session, &mut desk, bell, link)?;
    desk.done();
    Some((desk.into_seat(), served))
}

/// The closed book, and how both connections were served.
#[derive(Drop)]
pub struct TwoServed {
    /// The book after all entries.
    pub book: Book<NoShelf>,
    /// The connection of the first link.
    pub first: ServedConn,
    /// The connection of the second link.
    pub second: ServedConn,
}

/// Serves two links over one history of the project, one after the other, each at a seat of its own, and closes the
/// book: each connection was served in it as its own octets say. `None` comes where memory ran out, or a connection had
/// no room.
pub fn two_served<R: Wait, L: Link, M: Link>(
    rt: &R,
    alloc: Global,
    project: &Project,
    first: &mut L,
    second: &mut M,
) -> Option<TwoServed>
    ensures legal { IfSome result (λ run. IsLedger run.book.ledger) }
    ensures first { IfSome result (λ run. Told (ServesIn run.book.ledger run.first.conn run.first.how) (L.octets first.old) (L.octets first.new)) }
    ensures second { IfSome result (λ run. Told (ServesIn run.book.ledger run.second.conn run.second.how) (M.octets second.old) (M.octets second.new)) }
{
    project.unit_count();
    let Ok(mut session) = Session::new(alloc) else {
        return None;
    };
    let Ok(book) = Book::new(alloc, project, 2, ENTRIES, NoShelf::new()) else {
        return None;
    };
    let Ok((registry, seat)) = Registry::new(alloc, book, false) else {
        return None;
    };
    let (one, two) = registry.split(seat, 1, 0);
    let bell = Bell::new();
    let (one, served) = serve_seat(rt, &registry, one, &bell, project, &mut session, first)?;
    let (two, other) = serve_seat(rt, &registry, two, &bell, project, &mut session, second)?;
    let seat = registry.join(one, two);
    Some(TwoServed {
        book: registry.close(seat),
        first: served,
        second: other,
    })
}
