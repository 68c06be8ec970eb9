//! What tests show of rooms: a desk with room is never refused, and a desk of a full history is, with its two numbers.

ghost use Rattle.std.specs.Prelude.{◌≡◌, IfSome};
ghost use Rattle.ruled_history.specs.Examples.{IsFresh, IsFreshSeat, IsRoomy, HasOpenIn, HaveRooms};

use crate::bell::Bell;
use crate::examples::{book_of, divided, greets};
use crate::registry::{Registry, Seat};
use crate::shared::SharedDesk;
use registry_core::{Desk, Full, Leaving, NoShelf};
use std::alloc::Global;
use std::sync::Wait;
use unit_registry::Act;

/// Opens a connection in a room for three entries. It isn't refused.
fn opens_in_room<D: Desk<Item = ()>>(desk: &mut D) -> u32
    requires { IsRoomy (D.tells desk.old) }
    ensures { HasOpenIn result 1 (D.tells desk.new) }
{
    match desk.open() {
        Ok(conn) => conn,
        Err(_) => unreachable!(),
    }
}

/// Asks where interfaces are kept, in a room for one entry. It isn't refused.
#[tactic(auto, using(crate::proofs::Worked::asked_in_room))]
fn asks_in_room<D: Desk<Item = ()>>(desk: &mut D, conn: u32)
    requires { HasOpenIn conn 1 (D.tells desk.old) }
    ensures { HasOpenIn conn 0 (D.tells desk.new) }
{
    match desk.ask(conn, Act::Repo, None) {
        Ok(_) => {}
        Err(_) => unreachable!(),
    }
}

/// Opens a connection, asks and leaves, in a room for three entries. No call is refused.
fn visits_in_room<D: Desk<Item = ()>>(desk: &mut D)
    requires { IsRoomy (D.tells desk.old) }
{
    let conn = opens_in_room(desk);
    asks_in_room(desk, conn);
    desk.leave(conn, Leaving::Left);
}

/// The same, at a desk of the seat.
fn visits_at<R: Wait>(rt: &R, registry: &Registry<NoShelf>, seat: Seat, bell: &Bell)
    requires seat { seat.registry ≡ registry.now.name }
    requires fresh { IsFreshSeat seat.knows }
    requires room { seat.knows.room ≡ 3 }
{
    let mut desk = SharedDesk::new(rt, registry, seat, bell);
    visits_in_room(&mut desk);
}

/// A metered registry with a limit of eight entries, and its two seats, each with room for three.
fn with_rooms(alloc: Global) -> Option<(Registry<NoShelf>, Seat, Seat)>
    ensures { IfSome result (λ made. HaveRooms made.0 made.1 made.2) }
{
    let book = book_of(alloc, 8)?;
    let Ok((registry, seat)) = Registry::new(alloc, book, true) else {
        return None;
    };
    let (one, two) = registry.split(seat, 1, 3);
    Some((registry, one, two))
}

/// Makes three entries at each of two seats, in its room. `None` comes where memory ran out.
pub(crate) fn visits_twice<R: Wait>(rt: &R, alloc: Global) -> Option<()> {
    let (registry, one, two) = with_rooms(alloc)?;
    let bell = Bell::new();
    visits_at(rt, &registry, one, &bell);
    visits_at(rt, &registry, two, &bell);
    Some(())
}

/// Whether a connection was opened and greeted, and its next request is refused, with two entries and three reserved.
fn fills<D: Desk<Item = ()>>(desk: &mut D) -> bool
    requires fresh { IsFresh (D.tells desk.old) }
{
    if !greets(desk, 0, None, 1) {
        return false;
    }
    desk.ask(0, Act::Repo, None)
        == Err(Full {
            entries: 2,
            reserved: 3,
        })
}

/// Whether an Open is refused, with the same numbers.
fn is_full<D: Desk<Item = ()>>(desk: &mut D) -> bool
    requires fresh { IsFresh (D.tells desk.old) }
{
    desk.open()
        == Err(Full {
            entries: 2,
            reserved: 3,
        })
}

/// Whether two seats were refused once the limit of five was reached.
pub(crate) fn fills_up<R: Wait>(rt: &R, alloc: Global) -> bool {
    let Some((registry, one, two)) = divided(alloc, 5) else {
        return false;
    };
    let bell = Bell::new();
    let mut first = SharedDesk::new(rt, &registry, one, &bell);
    let mut second = SharedDesk::new(rt, &registry, two, &bell);
    if !fills(&mut first) {
        return false;
    }
    is_full(&mut second)
}
