//! One turn with the book: a ticket is drawn, the turn comes with the book, entries are recorded, and the turn is
//! passed.

ghost use Rattle.std.specs.Prelude.{◌≡◌, ◌<◌, ◌∷◌, ◌++◌, [], ℕ, List, Some, true, false};
ghost use Rattle.histories.specs.declared.entry.Entry.{Entry};
ghost use Rattle.registry_core.specs.Books.{BookView};
ghost use Rattle.registry_core.specs.Ledgers.{entry};
ghost use Rattle.ruled_history.specs.declared.board.Stage.TheVariants.{Idle};
ghost use Rattle.ruled_history.specs.declared.board.View.{View};
ghost use Rattle.ruled_history.specs.Runs.{StartsWith};
ghost use Rattle.ruled_history.specs.Seats.{StandsAfter, IsSame, IsServing, IsServed, IsServedIf, StillOpen};
ghost use Rattle.ruled_history.specs.Steps.{AtTurn, IsEntering};
ghost use Rattle.ruled_history.specs.Views.{at_stage, adds};

use crate::board::{Board, Draw, Look, Pass, Place, Record, Telling};
use registry_core::{Book, Shelf};
use std::marker::Brand;
use std::sync::Wait;
use std::thread;
use unit_registry::Act;

/// Draws a ticket, and waits for the turn.
fn wait_for_turn<J: Telling<S>, S: Shelf, R: Wait>(rt: &R, board: &Board<S>, place: &mut Place<S>)
    requires seat { place.old.table_id ≡ board.now.table.shared.table_id }
    requires idle { (place.old.me.1 ≡ []) × (place.old.me.0.stage ≡ Idle) × (0 < place.old.me.0.share) }
    requires telling { (book : BookView S) (before : List Entry) (view : View) → AtTurn (StandsAfter S.kept S.held board.now.table.shared.key.opening.value) board.now.table.shared.key.opening.value.ledger book before view → J.tells book before view }
    ensures seat { IsSame place.old place.new }
    ensures serving { IsServing place.old.me.0 place.new.me.0 }
    ensures seen { StartsWith place.new.me.0.seen place.old.me.0.seen }
    ensures told { (book : BookView S) × (place.new.me.1 ≡ (0, Some book) ∷ []) × J.tells book place.old.me.0.seen place.new.me.0 }
{
    let shared = &board.table.shared;
    let ticket = shared.fetch_add::<Draw>(place, 0, 1);
    for _ in rt.forever() {
        if shared.load::<Look<J>>(place, 1) == ticket {
            return;
        }
        thread::yield_now();
    }
    unreachable!()
}

/// Waits for the turn, unless it is the seat's already.
pub(crate) fn take_turn<S: Shelf, R: Wait>(
    rt: &R,
    board: &Board<S>,
    place: &mut Place<S>,
    serving: bool,
)
    requires seat { place.old.table_id ≡ board.now.table.shared.table_id }
    requires turn { IsServedIf serving S.kept S.held board.now.table.shared.key.opening.value place.old.me }
    requires share { 0 < place.old.me.0.share }
    ensures seat { IsSame place.old place.new }
    ensures serving { IsServing place.old.me.0 place.new.me.0 }
    ensures seen { StartsWith place.new.me.0.seen place.old.me.0.seen }
    ensures still { StillOpen board.now.table.shared.key.opening.value.ledger place.new.me.0.connections place.old.me.0.seen place.new.me.0.seen }
    ensures served { IsServed S.kept S.held board.now.table.shared.key.opening.value place.new.me }
{
    if serving {
        return;
    }
    wait_for_turn::<Brand, S, R>(rt, board, place);
}

/// Records the last entry of the book in hand.
fn record_told<J: Telling<S>, S: Shelf>(board: &Board<S>, place: &mut Place<S>, conn: u32, act: Act)
    requires seat { place.old.table_id ≡ board.now.table.shared.table_id }
    requires entering { IsEntering (StandsAfter S.kept S.held board.now.table.shared.key.opening.value) board.now.table.shared.key.metered board.now.table.shared.key.opening.value.ledger (entry conn act) place.old.me }
    requires share { 0 < place.old.me.0.share }
    requires telling { (book : BookView S) (before : List Entry) (view : View) → AtTurn (StandsAfter S.kept S.held board.now.table.shared.key.opening.value) board.now.table.shared.key.opening.value.ledger book before view → J.tells book before view }
    ensures seat { IsSame place.old place.new }
    ensures added { place.new.me ≡ (adds (entry conn act) place.old.me.0, place.old.me.1) }
    ensures told { (book : BookView S) × (place.new.me.1 ≡ (0, Some book) ∷ []) × J.tells book place.new.me.0.seen place.new.me.0 }
{
    board.table.shared.fetch_add::<Record<J>>(place, 2, 1);
}

/// Records the last entry of the book in hand. The seat is still served.
pub(crate) fn record<S: Shelf>(board: &Board<S>, place: &mut Place<S>, conn: u32, act: Act)
    requires seat { place.old.table_id ≡ board.now.table.shared.table_id }
    requires entering { IsEntering (StandsAfter S.kept S.held board.now.table.shared.key.opening.value) board.now.table.shared.key.metered board.now.table.shared.key.opening.value.ledger (entry conn act) place.old.me }
    requires share { 0 < place.old.me.0.share }
    ensures seat { IsSame place.old place.new }
    ensures added { place.new.me.0 ≡ adds (entry conn act) place.old.me.0 }
    ensures served { IsServed S.kept S.held board.now.table.shared.key.opening.value place.new.me }
{
    record_told::<Brand, S>(board, place, conn, act);
}

/// Passes the turn.
pub(crate) fn pass_turn<S: Shelf>(board: &Board<S>, place: &mut Place<S>)
    requires seat { place.old.table_id ≡ board.now.table.shared.table_id }
    requires served { IsServed S.kept S.held board.now.table.shared.key.opening.value place.old.me }
    ensures seat { IsSame place.old place.new }
    ensures out { place.new.me ≡ (at_stage Idle place.old.me.0, []) }
{
    board.table.shared.fetch_add::<Pass>(place, 1, 1);
}
