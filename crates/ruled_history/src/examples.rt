//! What the worked examples begin with: a registry over four units with two seats, and calls of a desk that expect a
//! place.

ghost use Rattle.std.specs.Prelude.{◌≡◌, ◌≤◌, ◌<◌, None, IfSome, IsTrue, IsFalse};
ghost use Rattle.unit_registry.specs.Projects.{unit_count};
ghost use Rattle.histories.specs.Answered.{stored_unit};
ghost use Rattle.histories.specs.Entries.{has_its_unit};
ghost use Rattle.histories.specs.Histories.{is_out_of_range};
ghost use Rattle.histories.specs.Counts.{Asks, effect_of};
ghost use Rattle.ruled_history.specs.Examples.{four_units, blank, IsFresh, HasOpen, Opened, Entered, Greeted, Divided};

use crate::registry::{Registry, Seat};
use registry_core::{Book, Desk, NoShelf};
use std::alloc::Global;
use unit_registry::{Act, Project};

/// Two modules, a header unit and a plain unit.
const PROJECT: &[u8] = b"modmap-project 1
repo gcm.cache
module a a.cc
module b b.cc
header ./x.h x.h
plain main.cc
end
";

/// The project of the four units.
fn read_project(alloc: Global) -> Option<Project>
    ensures { IfSome result (λ project. project ≡ four_units) }
{
    let octets = PROJECT;
    if octets.len() > 2147483648 {
        return None;
    }
    match Project::read(alloc, octets) {
        Ok(project) => Some(project),
        Err(_) => None,
    }
}

/// A book over the project for two workers, with such a limit.
pub(crate) fn book_of(alloc: Global, limit: u32) -> Option<Book<NoShelf>>
    requires limit { (2 ≤ limit) × (limit ≤ 1000) }
    ensures { IfSome result (λ book. book.ledger ≡ blank limit) }
{
    let project = read_project(alloc)?;
    match Book::new(alloc, &project, 2, limit, NoShelf::new()) {
        Ok(book) => Some(book),
        Err(_) => None,
    }
}

/// A registry of such a book that isn't metered, and its two seats.
pub(crate) fn divided(alloc: Global, limit: u32) -> Option<(Registry<NoShelf>, Seat, Seat)>
    requires limit { (2 ≤ limit) × (limit ≤ 1000) }
    ensures { IfSome result (λ made. Divided limit made.0 made.1 made.2) }
{
    let book = book_of(alloc, limit)?;
    let Ok((registry, seat)) = Registry::new(alloc, book, false) else {
        return None;
    };
    let (one, two) = registry.split(seat, 1, 0);
    Some((registry, one, two))
}

/// Opens a connection.
#[tactic(auto, using(crate::proofs::Worked::opened))]
pub(crate) fn opens_any<D: Desk<Item = ()>>(desk: &mut D) -> Option<u32>
    requires fresh { IsFresh (D.tells desk.old) }
    ensures { IfSome result (λ conn. Opened conn (D.tells desk.old) (D.tells desk.new)) }
{
    match desk.open() {
        Ok(conn) => Some(conn),
        Err(_) => None,
    }
}

/// Whether the next connection was opened, and has this number.
pub(crate) fn opens<D: Desk<Item = ()>>(desk: &mut D, conn: u32) -> bool
    requires fresh { IsFresh (D.tells desk.old) }
    ensures { IsTrue result → Opened conn (D.tells desk.old) (D.tells desk.new) }
{
    opens_any(desk) == Some(conn)
}

/// The place that was told for the act of the connection, if it is this one.
#[tactic(auto, using(crate::proofs::Worked::entered))]
pub(crate) fn enters_at<D: Desk<Item = ()>>(
    desk: &mut D,
    conn: u32,
    act: Act,
    place: u32,
) -> Option<u32>
    requires has_open { HasOpen conn (D.tells desk.old) }
    requires act { effect_of act ≡ Asks }
    requires unit { IsFalse (is_out_of_range (D.tells desk.old).seen.project act) }
    requires whole { IsTrue (has_its_unit act) }
    requires bare { stored_unit act ≡ None }
    ensures told { IfSome result (λ told. told ≡ place) }
    ensures entered { IfSome result (λ told. Entered conn act place (D.tells desk.old) (D.tells desk.new)) }
{
    let Ok(told) = desk.ask(conn, act, None) else {
        return None;
    };
    if told != place {
        return None;
    }
    Some(told)
}

/// Whether the act of the connection was entered at this place.
pub(crate) fn enters<D: Desk<Item = ()>>(desk: &mut D, conn: u32, act: Act, place: u32) -> bool
    requires has_open { HasOpen conn (D.tells desk.old) }
    requires act { effect_of act ≡ Asks }
    requires unit { IsFalse (is_out_of_range (D.tells desk.old).seen.project act) }
    requires whole { IsTrue (has_its_unit act) }
    requires bare { stored_unit act ≡ None }
    ensures { IsTrue result → Entered conn act place (D.tells desk.old) (D.tells desk.new) }
{
    enters_at(desk, conn, act, place).is_some()
}

/// The place that was told for the greeting of the connection that was opened, if these are the numbers.
#[tactic(auto, using(crate::proofs::Worked::greeted))]
pub(crate) fn greets_at<D: Desk<Item = ()>>(
    desk: &mut D,
    conn: u32,
    unit: Option<u32>,
    place: u32,
) -> Option<u32>
    requires fresh { IsFresh (D.tells desk.old) }
    requires unit { IfSome unit (λ unit. unit < unit_count (D.tells desk.old).seen.project) }
    ensures told { IfSome result (λ told. told ≡ place) }
    ensures greeted { IfSome result (λ told. Greeted conn unit place (D.tells desk.old) (D.tells desk.new)) }
{
    if !opens(desk, conn) {
        return None;
    }
    enters_at(desk, conn, Act::Hello { version: 1, unit }, place)
}

/// Whether the connection was opened and greeted at this place.
pub(crate) fn greets<D: Desk<Item = ()>>(
    desk: &mut D,
    conn: u32,
    unit: Option<u32>,
    place: u32,
) -> bool
    requires fresh { IsFresh (D.tells desk.old) }
    requires unit { IfSome unit (λ unit. unit < unit_count (D.tells desk.old).seen.project) }
    ensures { IsTrue result → Greeted conn unit place (D.tells desk.old) (D.tells desk.new) }
{
    greets_at(desk, conn, unit, place).is_some()
}
