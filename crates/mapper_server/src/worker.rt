//! A worker: it serves the links of a hall, one after another, and gives each of them back.

ghost use Rattle.std.specs.Prelude.{◌≡◌, ◌≤◌, ◌+◌, ◌<◌, ◌++◌, ◌∷◌, [], None, IfSome, IsFalse};
ghost use Rattle.mm_outside.specs.Told.{Told};
ghost use Rattle.registry_core.specs.Desks.{IsSound, Looks};
ghost use Rattle.registry_core.specs.Ledgers.{opened_in};
ghost use Rattle.connection_core.specs.Ends.{HasCauses, status_of};
ghost use Rattle.mapper_server.specs.Serving.{FillsUp, HasNoRoom, LeavesOthers, ServesIn, TellsWasFull};
ghost use Rattle.mapper_server.specs.Statuses.{IsServingStatus, less_of};
ghost use Rattle.mapper_server.specs.Workers.{GivesBackOne, WorksAt};

use crate::connection::serve_connection;
use connection_core::{ConnEnd, Session};
use mm_outside::{Accepted, Hall, Link};
use registry_core::Desk;
use ruled_history::Bell;
use std::sync::Wait;
use unit_registry::Project;

/// A connection that was served, and how it ended.
#[derive(Clone, Copy, Debug, PartialEq, Eq)]
pub struct ServedConn {
    /// Its number.
    pub conn: u32,
    /// How it ended.
    pub how: ConnEnd,
}

/// The status that a connection ends with: 0 where all was done, 4 a read failed, 5 a write failed, 7 the input ended
/// inside a block, 8 the input or a block was too long, 9 the history is full. The numbers are this project's own.
pub fn conn_status(how: ConnEnd) -> u8
    ensures { result ≡ status_of how }
{
    match how {
        ConnEnd::Closed => 0,
        ConnEnd::ReadFault => 4,
        ConnEnd::WriteFault => 5,
        ConnEnd::Truncated { .. } => 7,
        ConnEnd::TooLong | ConnEnd::BatchTooLong => 8,
        ConnEnd::HistoryFull { .. } => 9,
    }
}

/// Of two statuses the less that is above 0.
pub(crate) fn less_of(status: u8, other: u8) -> u8
    ensures { result ≡ less_of status other }
{
    if status == 0 || (other != 0 && other < status) {
        other
    } else {
        status
    }
}

/// Opens a connection, and serves the link as that to its end. `None` comes where the history has no room for a
/// connection; the link is then as it was.
pub fn serve_link<R: Wait, D: Desk, L: Link>(
    rt: &R,
    project: &Project,
    session: &mut Session<D::Item>,
    desk: &mut D,
    bell: &Bell,
    link: &mut L,
) -> Option<ServedConn>
where
    D::Item: Drop,
    requires project { (D.tells desk.old).seen.project ≡ project.now }
    requires loose { IsFalse (D.tells desk.old).metered }
    requires turn { IsFalse (D.holds desk.old) }
    requires sound { IsSound (D.tells desk.old) }
    requires worker { (D.tells desk.old).opened + (D.tells desk.old).dones < (D.tells desk.old).share }
    ensures served { IfSome result (λ served. Told (ServesIn (D.tells desk.new).seen served.conn served.how) (L.octets link.old) (L.octets link.new)) }
    ensures causes { IfSome result (λ served. HasCauses (L.read_faults link.old) (L.read_faults link.new) (L.write_faults link.old) (L.write_faults link.new) served.how) }
    ensures full { IfSome result (λ served. FillsUp served.how (D.tells desk.new).seen.limit) }
    ensures was_full { IfSome result (λ served. TellsWasFull served.how (D.tells desk.new).seen) }
    ensures room { IfSome result (λ served. HasNoRoom (D.tells desk.old).seen → ⊥) }
    ensures numbered { IfSome result (λ served. served.conn < opened_in (D.tells desk.new).seen) }
    ensures own { IfSome result (λ served. (D.tells desk.new).connections ≡ (D.tells desk.old).connections ++ served.conn ∷ []) }
    ensures refused { result ≡ None → HasNoRoom (D.tells desk.new).seen }
    ensures looked { result ≡ None → Looks (D.tells desk.old) (D.tells desk.new) }
    ensures untouched { result ≡ None → link.new ≡ link.old }
    ensures others { LeavesOthers (D.tells desk.old) (D.tells desk.new) }
    ensures sound { IsSound (D.tells desk.new) }
    ensures opened { (D.tells desk.new).opened ≡ (D.tells desk.old).opened }
    ensures dones { (D.tells desk.new).dones ≡ (D.tells desk.old).dones }
    ensures turn { IsFalse (D.holds desk.new) }
{
    let Ok(conn) = desk.open() else { return None };
    session.reset(conn);
    let how = serve_connection(rt, project, session, desk, bell, link, conn);
    Some(ServedConn { conn, how })
}

/// Serves a link of the hall, or turns it away where the history has no room for a connection, and gives it back. Its
/// status.
fn serve_next<R: Wait, D: Desk, H: Hall>(
    rt: &R,
    project: &Project,
    session: &mut Session<D::Item>,
    desk: &mut D,
    bell: &Bell,
    hall: &mut H,
    link: H::Link,
) -> u8
where
    D::Item: Drop,
    requires project { (D.tells desk.old).seen.project ≡ project.now }
    requires loose { IsFalse (D.tells desk.old).metered }
    requires turn { IsFalse (D.holds desk.old) }
    requires sound { IsSound (D.tells desk.old) }
    requires worker { (D.tells desk.old).opened + (D.tells desk.old).dones < (D.tells desk.old).share }
    requires given { (H.counts hall.old).back < (H.counts hall.old).given }
    ensures kind { IsServingStatus result }
    ensures back { Told (GivesBackOne H.Link.octets H.Link.read_faults H.Link.write_faults (D.tells desk.old) (D.tells desk.new) link result) (H.links hall.old) (H.links hall.new) }
    ensures others { LeavesOthers (D.tells desk.old) (D.tells desk.new) }
    ensures sound { IsSound (D.tells desk.new) }
    ensures opened { (D.tells desk.new).opened ≡ (D.tells desk.old).opened }
    ensures dones { (D.tells desk.new).dones ≡ (D.tells desk.old).dones }
    ensures turn { IsFalse (D.holds desk.new) }
    ensures counts { H.counts hall.new ≡ record (H.counts hall.old) { back = (H.counts hall.old).back + 1 } }
    ensures faults { H.faults hall.new ≡ H.faults hall.old }
{
    let mut link = link;
    let Some(served) = serve_link(rt, project, session, desk, bell, &mut link) else {
        hall.give_back(link, None, 9);
        return 9;
    };
    let status = conn_status(served.how);
    hall.give_back(link, Some(served.conn), status);
    status
}

/// Serves the links of the hall until it gives no more, and ends the worker. The least status above 0 of a link or a
/// fault of the hall, else 0.
pub fn work<R: Wait, D: Desk, H: Hall>(
    rt: &R,
    project: &Project,
    session: &mut Session<D::Item>,
    desk: &mut D,
    bell: &Bell,
    hall: &mut H,
) -> u8
where
    D::Item: Drop,
    requires project { (D.tells desk.old).seen.project ≡ project.now }
    requires loose { IsFalse (D.tells desk.old).metered }
    requires turn { IsFalse (D.holds desk.old) }
    requires sound { IsSound (D.tells desk.old) }
    requires bare { (D.tells desk.old).connections ≡ [] }
    requires worker { (D.tells desk.old).opened + (D.tells desk.old).dones < (D.tells desk.old).share }
    requires given { (H.counts hall.old).back ≤ (H.counts hall.old).given }
    ensures works { WorksAt H.links H.faults H.counts H.Link.octets H.Link.read_faults H.Link.write_faults (D.tells desk.new).seen (D.tells desk.new).connections hall.old hall.new result }
    ensures others { LeavesOthers (D.tells desk.old) (D.tells desk.new) }
    ensures sound { IsSound (D.tells desk.new) }
    ensures opened { (D.tells desk.new).opened ≡ (D.tells desk.old).opened }
    ensures dones { (D.tells desk.new).dones ≡ (D.tells desk.old).dones + 1 }
    ensures turn { IsFalse (D.holds desk.new) }
{
    let status = serve_all(rt, project, session, desk, bell, hall);
    desk.done();
    status
}

/// Serves the links of the hall until it gives no more.
fn serve_all<R: Wait, D: Desk, H: Hall>(
    rt: &R,
    project: &Project,
    session: &mut Session<D::Item>,
    desk: &mut D,
    bell: &Bell,
    hall: &mut H,
) -> u8
where
    D::Item: Drop,
    requires project { (D.tells desk.old).seen.project ≡ project.now }
    requires loose { IsFalse (D.tells desk.old).metered }
    requires turn { IsFalse (D.holds desk.old) }
    requires sound { IsSound (D.tells desk.old) }
    requires bare { (D.tells desk.old).connections ≡ [] }
    requires worker { (D.tells desk.old).opened + (D.tells desk.old).dones < (D.tells desk.old).share }
    requires given { (H.counts hall.old).back ≤ (H.counts hall.old).given }
    ensures works { WorksAt H.links H.faults H.counts H.Link.octets H.Link.read_faults H.Link.write_faults (D.tells desk.new).seen (D.tells desk.new).connections hall.old hall.new result }
    ensures others { LeavesOthers (D.tells desk.old) (D.tells desk.new) }
    ensures sound { IsSound (D.tells desk.new) }
    ensures opened { (D.tells desk.new).opened ≡ (D.tells desk.old).opened }
    ensures dones { (D.tells desk.new).dones ≡ (D.tells desk.old).dones }
    ensures turn { IsFalse (D.holds desk.new) }
{
    let mut status = 0;
    for _ in rt.forever() {
        match hall.accept() {
            Accepted::Link(link) => {
                let next = serve_next(rt, project, session, desk, bell, hall, link);
                status = less_of(status, next);
            }
            Accepted::NoMore => return status,
            Accepted::Failed => return less_of(status, 4),
        }
    }
    unreachable!()
}
