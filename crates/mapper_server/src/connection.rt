//! Serving one connection over a desk that others may share the history with.

ghost use Rattle.std.specs.Prelude.{◌≡◌, ◌<◌, ◌+◌, length, IsFalse};
ghost use Rattle.mm_outside.specs.Told.{Told};
ghost use Rattle.registry_core.specs.Desks.{GoesOnFor, IsSound};
ghost use Rattle.registry_core.specs.Ledgers.{is_open_in, leaving};
ghost use Rattle.connection_core.specs.Ends.{HasCauses, last_of};
ghost use Rattle.mapper_server.specs.Serving.{FillsUp, GoesLast, HasOpened, IsAnew, ServesIn, TellsWasFull};
ghost use Rattle.mapper_server.specs.Steps.{AtDesk, Continues, EndsSo, TellsFull};

use crate::step::{Piece, Stop, serve_on};
use connection_core::{ConnEnd, Session};
use mm_outside::Link;
use registry_core::{Desk, Leaving};
use ruled_history::Bell;
use std::sync::Wait;
use unit_registry::Project;

/// The most octets that are asked of a link at a time.
pub(crate) const READ_ROOM: usize = 65_536;

/// How a connection goes that ended so.
pub(crate) fn leaving(how: ConnEnd) -> Leaving
    ensures { leaving result ≡ last_of how }
{
    match how {
        ConnEnd::Closed => Leaving::Left,
        _ => Leaving::Lost,
    }
}

/// Serves a link to its end as an open connection of the desk, and lets the connection go. Where a block waits for a
/// reply it waits at the bell until that is rung, and then looks again; nothing promises that the reply comes.
///
/// The session was just reset to the connection, which has done nothing but open.
pub fn serve_connection<R: Wait, D: Desk, L: Link>(
    rt: &R,
    project: &Project,
    session: &mut Session<D::Item>,
    desk: &mut D,
    bell: &Bell,
    link: &mut L,
    conn: u32,
) -> ConnEnd
where
    D::Item: Drop,
    requires project { (D.tells desk.old).seen.project ≡ project.now }
    requires loose { IsFalse (D.tells desk.old).metered }
    requires turn { IsFalse (D.holds desk.old) }
    requires session { IsAnew project.now conn session.old }
    requires opened { HasOpened conn (D.tells desk.old) }
    ensures served { Told (ServesIn (D.tells desk.new).seen conn result) (L.octets link.old) (L.octets link.new) }
    ensures causes { HasCauses (L.read_faults link.old) (L.read_faults link.new) (L.write_faults link.old) (L.write_faults link.new) result }
    ensures full { FillsUp result (D.tells desk.new).seen.limit }
    ensures was_full { TellsWasFull result (D.tells desk.new).seen }
    ensures last { GoesLast conn result (D.tells desk.new).seen }
    ensures desk { GoesOnFor conn (D.tells desk.old) (D.tells desk.new) }
    ensures sound { IsSound (D.tells desk.new) }
    ensures gone { IsFalse (is_open_in (D.tells desk.new).seen conn) }
    ensures opened { (D.tells desk.new).opened + 1 ≡ (D.tells desk.old).opened }
    ensures dones { (D.tells desk.new).dones ≡ (D.tells desk.old).dones }
    ensures turn { IsFalse (D.holds desk.new) }
{
    let mut room = [0; READ_ROOM];
    let how = serve_in(rt, project, session, desk, bell, link, &mut room);
    desk.leave(conn, leaving(how));
    how
}

/// Serves a link to its end.
fn serve_in<R: Wait, D: Desk, L: Link>(
    rt: &R,
    project: &Project,
    session: &mut Session<D::Item>,
    desk: &mut D,
    bell: &Bell,
    link: &mut L,
    room: &mut [u8],
) -> ConnEnd
where
    D::Item: Drop,
    requires project { (D.tells desk.old).seen.project ≡ project.now }
    requires loose { IsFalse (D.tells desk.old).metered }
    requires turn { IsFalse (D.holds desk.old) }
    requires session { IsAnew project.now session.old.conn session.old }
    requires opened { HasOpened session.old.conn (D.tells desk.old) }
    requires room { 0 < length room.old }
    ensures ends { Told (EndsSo project.now session.old.conn result (D.tells desk.new)) (L.octets link.old) (L.octets link.new) }
    ensures causes { HasCauses (L.read_faults link.old) (L.read_faults link.new) (L.write_faults link.old) (L.write_faults link.new) result }
    ensures full { TellsFull (D.tells desk.new).seen result }
    ensures at_desk { AtDesk project.now session.old.conn (D.tells desk.new) }
    ensures continues { Continues session.old.conn (D.tells desk.old) (D.tells desk.new) }
    ensures turn { IsFalse (D.holds desk.new) }
{
    let mut piece = Piece { at: 0, end: 0 };
    let mut count = bell.count(rt);
    for _ in rt.forever() {
        match serve_on(project, session, desk, link, room, &mut piece) {
            Stop::Waits { place: _ } => {
                bell.wait_past(rt, count);
                count = bell.count(rt);
            }
            Stop::Ended(how) => return how,
        }
    }
    unreachable!()
}
