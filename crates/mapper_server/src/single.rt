//! Serving one link alone, to its end.

ghost use Rattle.std.specs.Prelude.{◌≡◌, ◌<◌, ◌≤◌, [], length, IfOk, OnErr};
ghost use Rattle.mm_outside.specs.Told.{Told};
ghost use Rattle.registry_core.specs.Alone.{told_alone};
ghost use Rattle.registry_core.specs.Desks.{IsSound};
ghost use Rattle.connection_core.specs.declared.conn_end.ConnEnd.TheVariants as ends;
ghost use Rattle.connection_core.specs.Ends.{HasCauses};
ghost use Rattle.connection_core.specs.Serving.{ServesAlone};
ghost use Rattle.mapper_server.specs.Complete.{NothingHindersOne};
ghost use Rattle.mapper_server.specs.Limits.{fewest_entries, most_entries};
ghost use Rattle.mapper_server.specs.Serving.{FillsUp, IsAnew};
ghost use Rattle.mapper_server.specs.Steps.{Continues, EndsSo, HasOpenedFirst, TellsFull};

use crate::connection::{READ_ROOM, leaving};
use crate::step::{Piece, Stop, serve_on};
use connection_core::{ConnEnd, Session};
use mm_outside::{Link, Memory};
use registry_core::{Book, Desk, NoShelf, Shelf, SoloDesk};
use std::alloc::Global;
use unit_registry::Project;

/// Serves a link as the only connection, to its end, over a history of the project with at most so many entries. It
/// never waits.
///
/// # Errors
///
/// `Memory` comes only before the first read.
pub fn pipe<L: Link>(
    alloc: Global,
    project: &Project,
    entries: u32,
    link: &mut L,
) -> Result<ConnEnd, Memory>
    requires fewest { fewest_entries ≤ entries }
    requires most { entries ≤ most_entries }
    ensures served { IfOk result (λ how. Told (ServesAlone project.now entries how) (L.octets link.old) (L.octets link.new)) }
    ensures causes { IfOk result (λ how. HasCauses (L.read_faults link.old) (L.read_faults link.new) (L.write_faults link.old) (L.write_faults link.new) how) }
    ensures full { IfOk result (λ how. FillsUp how entries) }
    ensures complete { IfOk result (λ how. NothingHindersOne project.now entries (L.octets link.old) (L.read_faults link.old) (L.read_faults link.new) (L.write_faults link.old) (L.write_faults link.new) → how ≡ ends.Closed) }
    ensures memory { OnErr result (link.new ≡ link.old) }
{
    let mut session = Session::new(alloc)?;
    let mut room = vec![in alloc; 0; READ_ROOM]?;
    // A call for its clause alone: the project has few enough units for a book.
    project.unit_count();
    let book = Book::new(alloc, project, 1, entries, NoShelf::new())?;
    let mut desk = SoloDesk::new(book);
    Ok(serve_alone(project, &mut session, &mut desk, link, &mut room))
}

/// Opens the only connection, serves it, lets it go, and ends its worker.
fn serve_alone<S: Shelf, L: Link>(
    project: &Project,
    session: &mut Session<S::Item>,
    desk: &mut SoloDesk<S>,
    link: &mut L,
    room: &mut [u8],
) -> ConnEnd
where
    S::Item: Drop,
    requires room { 0 < length room.old }
    requires anew { IsAnew project.now 0 session.old }
    requires nothing { desk.old.book.ledger ≡ record { project = project.now; workers = 1; limit = desk.old.book.ledger.limit; entries = [] } }
    requires fewest { 3 ≤ desk.old.book.ledger.limit }
    ensures served { Told (ServesAlone project.now desk.old.book.ledger.limit result) (L.octets link.old) (L.octets link.new) }
    ensures causes { HasCauses (L.read_faults link.old) (L.read_faults link.new) (L.write_faults link.old) (L.write_faults link.new) result }
    ensures full { FillsUp result desk.old.book.ledger.limit }
{
    let _conn = desk.open().unwrap();
    let how = serve(project, session, desk, link, room);
    desk.leave(0, leaving(how));
    desk.done();
    how
}

/// Serves a link to its end. No block waits for a reply: with one worker, a connection that has paused is the only one
/// that could go on.
fn serve<S: Shelf, L: Link>(
    project: &Project,
    session: &mut Session<S::Item>,
    desk: &mut SoloDesk<S>,
    link: &mut L,
    room: &mut [u8],
) -> ConnEnd
where
    S::Item: Drop,
    requires room { 0 < length room.old }
    requires anew { IsAnew project.now 0 session.old }
    requires opened { HasOpenedFirst project.now (told_alone S.kept S.held desk.old) }
    ensures ends { Told (EndsSo project.now 0 result (told_alone S.kept S.held desk.new)) (L.octets link.old) (L.octets link.new) }
    ensures causes { HasCauses (L.read_faults link.old) (L.read_faults link.new) (L.write_faults link.old) (L.write_faults link.new) result }
    ensures full { TellsFull desk.new.book.ledger result }
    ensures sound { IsSound (told_alone S.kept S.held desk.new) }
    ensures continues { Continues 0 (told_alone S.kept S.held desk.old) (told_alone S.kept S.held desk.new) }
{
    let mut piece = Piece { at: 0, end: 0 };
    match serve_on(project, session, desk, link, room, &mut piece) {
        Stop::Waits { place: _ } => unreachable!(),
        Stop::Ended(how) => how,
    }
}
