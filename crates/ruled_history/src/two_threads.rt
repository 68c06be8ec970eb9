//! A worked example: two threads serve at once, each at a seat of its own.

ghost use Rattle.std.specs.Prelude.{◌≡◌, ℕ, ◌+◌, ◌++◌, ◌∷◌, [], IfSome, IsTrue, IsFalse};
ghost use Rattle.std.specs.Thread.{IsSync};
ghost use Rattle.unit_registry.specs.declared.act.Act.TheVariants.{Repo};
ghost use Rattle.ruled_history.specs.Examples.{IsFresh, IsFreshSeat, HasOpen, Entered, Asked, Rounds, RoundsAt, Divided, BothServed, AreTwoRounds};

use crate::bell::Bell;
use crate::examples::{divided, opens_any};
use crate::registry::{Registry, Seat};
use crate::shared::SharedDesk;
use registry_core::{Book, Desk, Leaving, NoShelf};
use std::alloc::Global;
use std::sync::Wait;
use std::thread::{Threads, join};
use unit_registry::Act;

/// The connection of a round, and the places that its requests were told.
#[derive(Drop)]
pub(crate) struct Told {
    pub(crate) conn: u32,
    pub(crate) places: Vec<u32>,
}

/// Whether the connection asked once more where interfaces are kept. The place that was told is put at the end.
fn asks_once<D: Desk<Item = ()>>(desk: &mut D, conn: u32, places: &mut Vec<u32>) -> bool
    requires has_open { HasOpen conn (D.tells desk.old) }
    ensures { IsTrue result → (place : ℕ) × (places.new.items ≡ places.old.items ++ place ∷ []) × Entered conn Repo place (D.tells desk.old) (D.tells desk.new) }
{
    match desk.ask(conn, Act::Repo, None) {
        Ok(place) => places.push(place).is_ok(),
        Err(_) => false,
    }
}

/// Whether the connection asked so often.
fn asks_often<D: Desk<Item = ()>>(
    desk: &mut D,
    conn: u32,
    count: u32,
    places: &mut Vec<u32>,
) -> bool
    requires has_open { HasOpen conn (D.tells desk.old) }
    requires empty { places.old.items ≡ [] }
    ensures { IsTrue result → Asked conn count places.new.items (D.tells desk.old) (D.tells desk.new) }
{
    for _round in 0..count {
        if !asks_once(desk, conn, places) {
            return false;
        }
    }
    true
}

/// Keeps the next turn, where turns are kept.
fn holds<D: Desk<Item = ()>>(desk: &mut D, kept: bool)
    ensures { D.tells desk.new ≡ D.tells desk.old }
{
    if kept {
        desk.hold();
    }
}

/// Whether the connection asked so often, in one turn where turns are kept.
fn asks_in_turn<D: Desk<Item = ()>>(
    desk: &mut D,
    conn: u32,
    count: u32,
    kept: bool,
    places: &mut Vec<u32>,
) -> bool
    requires has_open { HasOpen conn (D.tells desk.old) }
    requires empty { places.old.items ≡ [] }
    ensures { IsTrue result → Asked conn count places.new.items (D.tells desk.old) (D.tells desk.new) }
{
    holds(desk, kept);
    let asked = asks_often(desk, conn, count, places);
    desk.release();
    asked
}

/// Opens a connection, asks so often, and leaves.
fn serve<D: Desk<Item = ()>>(alloc: Global, desk: &mut D, count: u32, kept: bool) -> Option<Told>
    requires fresh { IsFresh (D.tells desk.old) }
    ensures { IfSome result (λ told. Rounds told.conn count told.places.items (D.tells desk.old) (D.tells desk.new)) }
{
    let mut places = Vec::new(alloc);
    let conn = opens_any(desk)?;
    if !asks_in_turn(desk, conn, count, kept, &mut places) {
        return None;
    }
    desk.leave(conn, Leaving::Left);
    Some(Told { conn, places })
}

/// Serves at a seat.
fn serve_seat<R: Wait>(
    rt: &R,
    alloc: Global,
    registry: &Registry<NoShelf>,
    bell: &Bell,
    seat: Seat,
    count: u32,
    kept: bool,
) -> Option<(Seat, Told)>
    requires seat { seat.registry ≡ registry.now.name }
    requires fresh { IsFreshSeat seat.knows }
    requires loose { IsFalse registry.now.metered }
    ensures { IfSome result (λ served. RoundsAt served.1.conn count served.1.places.items seat served.0) }
{
    let mut desk = SharedDesk::new(rt, registry, seat, bell);
    let told = serve(alloc, &mut desk, count, kept)?;
    Some((desk.into_seat(), told))
}

/// Serves at both seats at once.
fn run_both<R: Threads + Wait + Sync>(
    rt: &R,
    alloc: Global,
    registry: &Registry<NoShelf>,
    bell: &Bell,
    one: Seat,
    two: Seat,
    count: u32,
    kept: bool,
) -> (Option<(Seat, Told)>, Option<(Seat, Told)>)
    requires one { one.registry ≡ registry.now.name }
    requires two { two.registry ≡ registry.now.name }
    requires one_fresh { IsFreshSeat one.knows }
    requires two_fresh { IsFreshSeat two.knows }
    requires loose { IsFalse registry.now.metered }
    ensures first { IfSome result.0 (λ served. RoundsAt served.1.conn count served.1.places.items one served.0) }
    ensures second { IfSome result.1 (λ served. RoundsAt served.1.conn count served.1.places.items two served.0) }
{
    join(
        rt,
        || -> Option<(Seat, Told)>
            requires seat { IsSync R.row × (one.registry ≡ registry.now.name) }
            requires fresh { IsFreshSeat one.knows }
            requires loose { IsFalse registry.now.metered }
            ensures { IfSome result (λ served. RoundsAt served.1.conn count served.1.places.items one served.0) }
        { serve_seat(rt, alloc, registry, bell, one, count, kept) },
        || -> Option<(Seat, Told)>
            requires seat { IsSync R.row × (two.registry ≡ registry.now.name) }
            requires fresh { IsFreshSeat two.knows }
            requires loose { IsFalse registry.now.metered }
            ensures { IfSome result (λ served. RoundsAt served.1.conn count served.1.places.items two served.0) }
        { serve_seat(rt, alloc, registry, bell, two, count, kept) },
    )
}

/// Serves at both seats at once, and joins the seats.
fn serve_both<R: Threads + Wait + Sync>(
    rt: &R,
    alloc: Global,
    registry: &Registry<NoShelf>,
    one: Seat,
    two: Seat,
    count: u32,
    kept: bool,
) -> Option<(Seat, Told, Told)>
    requires { (limit : ℕ) × Divided limit registry.now one two }
    ensures { IfSome result (λ both. BothServed registry.now both.0 count both.1.conn both.1.places.items both.2.conn both.2.places.items) }
{
    let bell = Bell::new();
    let (first, second) = run_both(rt, alloc, registry, &bell, one, two, count, kept);
    let (one, told) = first?;
    let (two, other) = second?;
    Some((registry.join(one, two), told, other))
}

/// What both threads were told, and the book.
#[derive(Drop)]
pub(crate) struct TwoThreads {
    pub(crate) book: Book<NoShelf>,
    pub(crate) one: Told,
    pub(crate) two: Told,
}

/// The example: two threads each open a connection, ask so often where interfaces are kept, each time in a turn of its
/// own or all in one that is kept, and leave. The closed book has these entries and no others, each at its place. `None`
/// comes where memory ran out or the book was full.
pub(crate) fn two_threads<R: Threads + Wait + Sync>(
    rt: &R,
    alloc: Global,
    count: u32,
    kept: bool,
) -> Option<TwoThreads>
    ensures { IfSome result (λ run. AreTwoRounds run.book.ledger.entries count run.one.conn run.one.places.items run.two.conn run.two.places.items) }
{
    let (registry, one, two) = divided(alloc, 300)?;
    let (seat, one, two) = serve_both(rt, alloc, &registry, one, two, count, kept)?;
    let book = registry.close(seat);
    Some(TwoThreads { book, one, two })
}
