//! The desk of a thread that shares the history with others.

ghost use Rattle.std.specs.Prelude.{◌≡◌, ◌≤◌, ◌<◌, false, IfOk, IfErr, IsOk, IsTrue, IsFalse, Contains};
ghost use Rattle.histories.specs.Answered.{stored_unit};
ghost use Rattle.histories.specs.Entries.{has_its_unit};
ghost use Rattle.histories.specs.Histories.{is_out_of_range};
ghost use Rattle.histories.specs.Counts.{Asks, effect_of};
ghost use Rattle.registry_core.specs.Ledgers.{IsFull, entry, is_open_in};
ghost use Rattle.registry_core.specs.Shelves.{ComesWith};
ghost use Rattle.registry_core.specs.Desks.{Adds, Looks, IsSound, TakesNoTurn};
ghost use Rattle.ruled_history.specs.Runs.{StartsWith};
ghost use Rattle.ruled_history.specs.Seats.{IsSame, IsServed, IsServedIf, IsServing, StillOpen, told_seated};
ghost use Rattle.ruled_history.specs.Views.{at_stage, Knows};
ghost use Rattle.ruled_history.specs.declared.board.Stage.TheVariants.{Idle};

use crate::bell::Bell;
use crate::board::{Board, Place};
use crate::registry::{Registry, Seat, learn};
use crate::served::{
    ask_served, done_served, fetch_served, has_answered, leave_served, look_served, open_served,
};
use crate::turn::{pass_turn, take_turn};
use mm_outside::Memory;
use registry_core::{Answer, Desk, Full, Leaving, Shelf};
use std::marker::{Brand, Model};
use std::sync::{MutexGuard, Wait};
use unit_registry::Act;

/// The desk at a seat of a registry. Each call of it takes a turn with the book, and may wait for that; nothing
/// promises that the turn comes. After `hold` it keeps the turn of its next call until `release`. All other seats wait
/// meanwhile, and forever where the desk is dropped before `release` or `into_seat`.
#[derive(Drop)]
pub struct SharedDesk<'a, R: Wait, S: Shelf> {
    rt: &'a R,
    board: &'a Board<S>,
    place: Place<S>,
    bell: &'a Bell,
    /// Whether the turn is kept after a call.
    keeps: bool,
    /// Whether it is the desk's turn.
    serving: bool,
    /// Whether the bell is to be rung once the turn is passed.
    rings: bool,
    /// What keeps other desks at the gate while it is the desk's turn.
    gate: Option<MutexGuard<'a, ()>>,
}

impl<'a, R: Wait, S: Shelf> Model for SharedDesk<'a, R, S> {
    ghost use Rattle.std.specs.Prelude.{◌≡◌, ◌<◌, ◌||◌};
    ghost use Rattle.ruled_history.specs.declared.board.Stage.TheVariants.{Idle};
    ghost use Rattle.ruled_history.specs.Seats.{Seated, IsServedIf};
    ghost use Rattle.ruled_history.specs.Views.{at_stage};

    ghost Value = { Seated S };

    ghost view = { λ desk. record { opening = desk.board.now.table.shared.key.opening.value; metered = desk.board.now.table.shared.key.metered; holds = desk.keeps || desk.serving; seat = record { registry = desk.place.table_id; knows = at_stage Idle desk.place.me.0 } } };

    ghost invariant = { λ desk. (desk.place.table_id ≡ desk.board.now.table.shared.table_id) × IsServedIf desk.serving S.kept S.held desk.board.now.table.shared.key.opening.value desk.place.me × (0 < desk.place.me.0.share) };
}

impl<'a, R: Wait, S: Shelf> SharedDesk<'a, R, S> {
    /// The desk at the seat. It rings the bell once it has passed a turn in which an import that waited, here or at
    /// another seat, got its reply.
    pub fn new(
        rt: &'a R,
        registry: &'a Registry<S>,
        seat: Seat,
        bell: &'a Bell,
    ) -> SharedDesk<'a, R, S>
        requires seat { seat.registry ≡ registry.now.name }
        ensures desk { result ≡ record { opening = registry.now.opening; metered = registry.now.metered; holds = false; seat = seat } }
        ensures sound { IsSound (told_seated S.kept S.held result) }
    {
        let Seat { badge } = seat;
        let mut place = badge.into_seat();
        let board = &registry.board;
        learn::<Brand, S>(board, &mut place);
        SharedDesk {
            rt,
            board,
            place,
            bell,
            keeps: false,
            serving: false,
            rings: false,
            gate: None,
        }
    }

    /// The seat, as the desk leaves it. A turn that is kept is passed.
    pub fn into_seat(self) -> Seat
        ensures { result ≡ self.entry.seat }
    {
        let mut desk = self;
        desk.pass_kept();
        let SharedDesk {
            rt: _,
            board: _,
            place,
            bell: _,
            keeps: _,
            serving: _,
            rings: _,
            gate: _,
        } = desk;
        Seat {
            badge: place.into_badge(),
        }
    }

    /// Keeps no turn any more, and passes one that is kept.
    fn pass_kept(&mut self)
        ensures { self.new ≡ record self.old { holds = false } }
    {
        let SharedDesk {
            rt,
            board,
            place,
            bell,
            keeps,
            serving,
            rings,
            gate,
        } = self;
        *keeps = false;
        if *serving {
            *rings = end_turn(*rt, *board, place, bell, gate, false, *rings);
            *serving = false;
        }
    }
}

/// Comes in at the gate and waits for the turn, unless it is the seat's already.
fn begin_turn<'a, R: Wait, S: Shelf>(
    rt: &R,
    board: &Board<S>,
    place: &mut Place<S>,
    bell: &'a Bell,
    gate: &mut Option<MutexGuard<'a, ()>>,
    serving: bool,
)
    requires seat { place.old.table_id ≡ board.now.table.shared.table_id }
    requires turn { IsServedIf serving S.kept S.held board.now.table.shared.key.opening.value place.old.me }
    requires share { 0 < place.old.me.0.share }
    ensures seat { IsSame place.old place.new }
    ensures serving { IsServing place.old.me.0 place.new.me.0 }
    ensures seen { StartsWith place.new.me.0.seen place.old.me.0.seen }
    ensures still { StillOpen board.now.table.shared.key.opening.value.ledger place.new.me.0.connections place.old.me.0.seen place.new.me.0.seen }
    ensures served { IsServed S.kept S.held board.now.table.shared.key.opening.value place.new.me }
{
    if !serving {
        *gate = Some(bell.come_in(rt));
    }
    take_turn(rt, board, place, serving);
}

/// Passes the turn, and then rings where that is owed, unless the turn is kept. Whether the ring is still owed.
fn end_turn<R: Wait, S: Shelf>(
    rt: &R,
    board: &Board<S>,
    place: &mut Place<S>,
    bell: &Bell,
    gate: &mut Option<MutexGuard<'_, ()>>,
    keeps: bool,
    rings: bool,
) -> bool
    requires seat { place.old.table_id ≡ board.now.table.shared.table_id }
    requires served { IsServed S.kept S.held board.now.table.shared.key.opening.value place.old.me }
    ensures seat { IsSame place.old place.new }
    ensures served { IsServedIf keeps S.kept S.held board.now.table.shared.key.opening.value place.new.me }
    ensures same { at_stage Idle place.new.me.0 ≡ at_stage Idle place.old.me.0 }
    ensures knows { Knows board.now.table.shared.key.opening.value.ledger (at_stage Idle place.new.me.0) }
{
    if keeps {
        return rings;
    }
    pass_turn(board, place);
    *gate = None;
    if rings {
        bell.ring(rt);
    }
    false
}

impl<'a, R: Wait, S: Shelf> Desk for SharedDesk<'a, R, S>
where
    S::Item: Drop,
{
    ghost use Rattle.ruled_history.specs.Seats.{told_seated};

    type Item = S::Item;

    type Held = S::Held;

    ghost fits = { S.fits };

    ghost tells = { told_seated S.kept S.held };

    ghost holds = { λ desk. desk.holds };

    fn hold(&mut self) {
        self.keeps = true;
    }

    fn release(&mut self) {
        self.pass_kept();
    }

    fn open(&mut self) -> Result<u32, Full> {
        let SharedDesk {
            rt,
            board,
            place,
            bell,
            keeps,
            serving,
            rings,
            gate,
        } = self;
        begin_turn(*rt, *board, place, *bell, gate, *serving);
        let opened = open_served(*board, place);
        let heard = has_answered(*board, place, opened.is_ok());
        *rings = end_turn(*rt, *board, place, bell, gate, *keeps, *rings || heard);
        *serving = *keeps;
        opened
    }

    fn ask(&mut self, conn: u32, act: Act, item: Option<S::Item>) -> Result<u32, Full>
        requires own { Contains (told_seated S.kept S.held self.old).connections conn }
        requires there { IsTrue (is_open_in (told_seated S.kept S.held self.old).seen conn) }
        requires act { effect_of act ≡ Asks }
        requires unit { IsFalse (is_out_of_range (told_seated S.kept S.held self.old).seen.project act) }
        requires whole { IsTrue (has_its_unit act) }
        requires item { ComesWith (S.fits (told_seated S.kept S.held self.old).held) (stored_unit act) item }
        requires room { IsTrue (told_seated S.kept S.held self.old).metered → 1 ≤ (told_seated S.kept S.held self.old).room }
        ensures asked { IfOk result (λ place. Adds (told_seated S.kept S.held self.old) (entry conn act) place (told_seated S.kept S.held self.new)) }
        ensures looked { IfErr result (λ full. Looks (told_seated S.kept S.held self.old) (told_seated S.kept S.held self.new)) }
        ensures full { IfErr result (λ full. IsFull (told_seated S.kept S.held self.new).seen 0 full) }
        ensures roomy { 1 ≤ (told_seated S.kept S.held self.old).room → IsOk result }
        ensures sound { IsSound (told_seated S.kept S.held self.new) }
        ensures turn { TakesNoTurn self.old.holds self.new.holds }
    {
        let SharedDesk {
            rt,
            board,
            place,
            bell,
            keeps,
            serving,
            rings,
            gate,
        } = self;
        begin_turn(*rt, *board, place, *bell, gate, *serving);
        let asked = ask_served(*board, place, conn, act, item);
        let heard = has_answered(*board, place, asked.is_ok());
        *rings = end_turn(*rt, *board, place, bell, gate, *keeps, *rings || heard);
        *serving = *keeps;
        asked
    }

    fn look(&mut self, at: u32) -> Option<Answer> {
        let SharedDesk {
            rt,
            board,
            place,
            bell,
            keeps,
            serving,
            rings,
            gate,
        } = self;
        begin_turn(*rt, *board, place, *bell, gate, *serving);
        let reply = look_served(*board, place, at);
        *rings = end_turn(*rt, *board, place, bell, gate, *keeps, *rings);
        *serving = *keeps;
        reply
    }

    fn leave(&mut self, conn: u32, how: Leaving) {
        let SharedDesk {
            rt,
            board,
            place,
            bell,
            keeps,
            serving,
            rings,
            gate,
        } = self;
        begin_turn(*rt, *board, place, *bell, gate, *serving);
        leave_served(*board, place, conn, how);
        let heard = has_answered(*board, place, true);
        *rings = end_turn(*rt, *board, place, bell, gate, *keeps, *rings || heard);
        *serving = *keeps;
    }

    fn done(&mut self) {
        let SharedDesk {
            rt,
            board,
            place,
            bell,
            keeps,
            serving,
            rings,
            gate,
        } = self;
        begin_turn(*rt, *board, place, *bell, gate, *serving);
        done_served(*board, place);
        let heard = has_answered(*board, place, true);
        *rings = end_turn(*rt, *board, place, bell, gate, *keeps, *rings || heard);
        *serving = *keeps;
    }

    fn fetch(&mut self, unit: u32) -> Result<Option<S::Item>, Memory> {
        let SharedDesk {
            rt,
            board,
            place,
            bell,
            keeps,
            serving,
            rings,
            gate,
        } = self;
        begin_turn(*rt, *board, place, *bell, gate, *serving);
        let kept = fetch_served(*board, place, unit);
        *rings = end_turn(*rt, *board, place, bell, gate, *keeps, *rings);
        *serving = *keeps;
        kept
    }
}
