//! What a seat does with the book while it is served.

ghost use Rattle.std.specs.Prelude.{◌≡◌, ◌<◌, ◌≤◌, IfOk, IfErr, IfSome, IsOk, IsTrue, IsFalse, is_some, length};
ghost use Rattle.unit_registry.specs.declared.act.Act.TheVariants.{Open, Done};
ghost use Rattle.unit_registry.specs.Projects.{unit_count};
ghost use Rattle.histories.specs.Answered.{stored_unit};
ghost use Rattle.histories.specs.Entries.{has_its_unit, no_connection};
ghost use Rattle.histories.specs.Histories.{is_out_of_range};
ghost use Rattle.histories.specs.Counts.{Asks, effect_of};
ghost use Rattle.registry_core.specs.Ledgers.{IsFull, answered_last, entry, leaving, is_open_in, reply_at};
ghost use Rattle.registry_core.specs.Shelves.{ComesWith};
ghost use Rattle.ruled_history.specs.Runs.{Has};
ghost use Rattle.ruled_history.specs.Seats.{IsSame, IsServed, is_kept_after};
ghost use Rattle.ruled_history.specs.Views.{with_entries, adds, HasWorker};

use crate::board::{Board, Place};
use crate::turn::record;
use mm_outside::Memory;
use registry_core::{Answer, Book, Full, Leaving, Shelf, going_act};
use unit_registry::Act;

/// Opens the next connection.
pub(crate) fn open_served<S: Shelf>(board: &Board<S>, place: &mut Place<S>) -> Result<u32, Full>
where
    S::Item: Drop,
    requires seat { place.old.table_id ≡ board.now.table.shared.table_id }
    requires served { IsServed S.kept S.held board.now.table.shared.key.opening.value place.old.me }
    requires worker { HasWorker place.old.me.0 }
    requires room { IsTrue board.now.table.shared.key.metered → 2 ≤ place.old.me.0.room }
    ensures seat { IsSame place.old place.new }
    ensures served { IsServed S.kept S.held board.now.table.shared.key.opening.value place.new.me }
    ensures opened { IfOk result (λ conn. place.new.me.0 ≡ adds (entry conn Open) place.old.me.0) }
    ensures same { IfErr result (λ full. place.new.me.0 ≡ place.old.me.0) }
    ensures full { IfErr result (λ full. IsFull (with_entries board.now.table.shared.key.opening.value.ledger place.old.me.0.seen) 1 full) }
    ensures roomy { 2 ≤ place.old.me.0.room → IsOk result }
{
    let Some(book) = place.slot_mut(&board.table.shared, 0) else {
        unreachable!()
    };
    let conn = book.open()?;
    record(board, place, conn, Act::Open);
    Ok(conn)
}

/// The reply to the request at the place.
pub(crate) fn look_served<S: Shelf>(
    board: &Board<S>,
    place: &mut Place<S>,
    at: u32,
) -> Option<Answer>
    requires seat { place.old.table_id ≡ board.now.table.shared.table_id }
    requires served { IsServed S.kept S.held board.now.table.shared.key.opening.value place.old.me }
    ensures seat { IsSame place.old place.new }
    ensures same { place.new.me ≡ place.old.me }
    ensures reply { result ≡ reply_at (with_entries board.now.table.shared.key.opening.value.ledger place.old.me.0.seen) at }
{
    let Some(book) = place.slot_mut(&board.table.shared, 0) else {
        unreachable!()
    };
    book.look(at)
}

/// Enters a request or a pause of an open connection, and answers its place.
pub(crate) fn ask_served<S: Shelf>(
    board: &Board<S>,
    place: &mut Place<S>,
    conn: u32,
    act: Act,
    item: Option<S::Item>,
) -> Result<u32, Full>
where
    S::Item: Drop,
    requires seat { place.old.table_id ≡ board.now.table.shared.table_id }
    requires served { IsServed S.kept S.held board.now.table.shared.key.opening.value place.old.me }
    requires share { 0 < place.old.me.0.share }
    requires own { Has conn place.old.me.0.connections }
    requires there { IsTrue (is_open_in (with_entries board.now.table.shared.key.opening.value.ledger place.old.me.0.seen) conn) }
    requires act { effect_of act ≡ Asks }
    requires unit { IsFalse (is_out_of_range board.now.table.shared.key.opening.value.ledger.project act) }
    requires whole { IsTrue (has_its_unit act) }
    requires item { ComesWith (S.fits (S.held board.now.table.shared.key.opening.value.shelf)) (stored_unit act) item }
    requires room { IsTrue board.now.table.shared.key.metered → 1 ≤ place.old.me.0.room }
    ensures seat { IsSame place.old place.new }
    ensures served { IsServed S.kept S.held board.now.table.shared.key.opening.value place.new.me }
    ensures asked { IfOk result (λ at. place.new.me.0 ≡ adds (entry conn act) place.old.me.0) }
    ensures place { IfOk result (λ at. at ≡ length place.old.me.0.seen) }
    ensures same { IfErr result (λ full. place.new.me.0 ≡ place.old.me.0) }
    ensures full { IfErr result (λ full. IsFull (with_entries board.now.table.shared.key.opening.value.ledger place.old.me.0.seen) 0 full) }
    ensures roomy { 1 ≤ place.old.me.0.room → IsOk result }
{
    let Some(book) = place.slot_mut(&board.table.shared, 0) else {
        unreachable!()
    };
    let at = book.ask(conn, act, item)?;
    record(board, place, conn, act);
    Ok(at)
}

/// The connection goes.
pub(crate) fn leave_served<S: Shelf>(
    board: &Board<S>,
    place: &mut Place<S>,
    conn: u32,
    how: Leaving,
)
where
    S::Item: Drop,
    requires seat { place.old.table_id ≡ board.now.table.shared.table_id }
    requires served { IsServed S.kept S.held board.now.table.shared.key.opening.value place.old.me }
    requires share { 0 < place.old.me.0.share }
    requires own { Has conn place.old.me.0.connections }
    requires there { IsTrue (is_open_in (with_entries board.now.table.shared.key.opening.value.ledger place.old.me.0.seen) conn) }
    ensures seat { IsSame place.old place.new }
    ensures served { IsServed S.kept S.held board.now.table.shared.key.opening.value place.new.me }
    ensures left { place.new.me.0 ≡ adds (entry conn (leaving how)) place.old.me.0 }
{
    let Some(book) = place.slot_mut(&board.table.shared, 0) else {
        unreachable!()
    };
    book.leave(conn, how);
    record(board, place, conn, going_act(how));
}

/// A worker is done.
pub(crate) fn done_served<S: Shelf>(board: &Board<S>, place: &mut Place<S>)
where
    S::Item: Drop,
    requires seat { place.old.table_id ≡ board.now.table.shared.table_id }
    requires served { IsServed S.kept S.held board.now.table.shared.key.opening.value place.old.me }
    requires worker { HasWorker place.old.me.0 }
    ensures seat { IsSame place.old place.new }
    ensures served { IsServed S.kept S.held board.now.table.shared.key.opening.value place.new.me }
    ensures done { place.new.me.0 ≡ adds (entry no_connection Done) place.old.me.0 }
{
    let Some(book) = place.slot_mut(&board.table.shared, 0) else {
        unreachable!()
    };
    book.done();
    record(board, place, u32::MAX, Act::Done);
}

/// A copy of the item that is kept for the unit.
pub(crate) fn fetch_served<S: Shelf>(
    board: &Board<S>,
    place: &mut Place<S>,
    unit: u32,
) -> Result<Option<S::Item>, Memory>
    requires seat { place.old.table_id ≡ board.now.table.shared.table_id }
    requires served { IsServed S.kept S.held board.now.table.shared.key.opening.value place.old.me }
    requires unit { unit < unit_count board.now.table.shared.key.opening.value.ledger.project }
    ensures seat { IsSame place.old place.new }
    ensures same { place.new.me ≡ place.old.me }
    ensures kept { IfOk result (λ item. is_some item ≡ is_kept_after S.kept board.now.table.shared.key.opening.value place.old.me.0.seen unit) }
    ensures fits { IfOk result (λ item. IfSome item (λ item. S.fits (S.held board.now.table.shared.key.opening.value.shelf) unit item)) }
{
    let Some(book) = place.slot_mut(&board.table.shared, 0) else {
        unreachable!()
    };
    book.fetch(board.alloc, unit)
}

/// Whether a waiting import got its reply with the last entry, where the seat has just made that.
pub(crate) fn has_answered<S: Shelf>(board: &Board<S>, place: &mut Place<S>, entered: bool) -> bool
    requires seat { place.old.table_id ≡ board.now.table.shared.table_id }
    requires served { IsServed S.kept S.held board.now.table.shared.key.opening.value place.old.me }
    ensures seat { IsSame place.old place.new }
    ensures same { place.new.me ≡ place.old.me }
    ensures some { IsTrue entered → 0 < length (answered_last (with_entries board.now.table.shared.key.opening.value.ledger place.old.me.0.seen)) → IsTrue result }
    ensures none { IsTrue result → IsTrue entered × (0 < length (answered_last (with_entries board.now.table.shared.key.opening.value.ledger place.old.me.0.seen))) }
{
    if !entered {
        return false;
    }
    let Some(book) = place.slot_mut(&board.table.shared, 0) else {
        unreachable!()
    };
    answers_some(book)
}

/// Whether a waiting import got its reply with the last entry of the book.
fn answers_some<S: Shelf>(book: &Book<S>) -> bool
    ensures some { 0 < length (answered_last book.now.ledger) → IsTrue result }
    ensures none { IsTrue result → 0 < length (answered_last book.now.ledger) }
{
    !book.answered().is_empty()
}
