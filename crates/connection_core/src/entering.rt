//! Entering the acts of a block at a desk.

ghost use Rattle.std.specs.Prelude.{◌≡◌, ◌+◌, ◌<◌, ◌≤◌, ◌++◌, ◌∷◌, [], ℕ, List, length, vec_len, IfOk, IfErr, IsOk, IsTrue, None, Some, true, false};
ghost use Rattle.std.specs.Vec.{vec_capacity};
ghost use Rattle.std.specs.List.{AllByRecursion};
ghost use Rattle.registry_core.specs.Ledgers.{IsFull, entry};
ghost use Rattle.registry_core.specs.Desks.{Adds, Looks, IsSound};
ghost use Rattle.connection_core.specs.Asking.{entered_by, is_refused, requests_of, stored_for};
ghost use Rattle.connection_core.specs.Entering.{as_entered, is_awaited, unit_kept, stash_left, stash_behind, Fits, CanAsk, LineCanAsk, IsServing, EntersLine, EntersSo};

use crate::asked::{Asked, is_refused};
use registry_core::{Desk, Full};
use unit_registry::Act;

/// An item that a session keeps for the next report that its unit is compiled.
#[derive(Debug, Drop)]
pub struct Stash<I> {
    /// The unit.
    pub unit: u32,
    /// The item.
    pub item: I,
}

/// Whether the act reports that the unit is compiled.
fn reports(unit: u32, act: Act) -> bool
    ensures { result ≡ is_awaited (Some unit) act }
{
    match act {
        Act::Compiled {
            unit: Some(named),
            ..
        } => named == unit,
        _ => false,
    }
}

/// Whether the act is the report for which an item is kept.
fn is_awaited<I>(stash: &Option<Stash<I>>, act: Act) -> bool
    ensures { result ≡ is_awaited (unit_kept stash.now) act }
{
    match stash {
        Some(kept) => reports(kept.unit, act),
        None => false,
    }
}

/// Enters a request, with the item that is kept for it if there is one, and answers its place.
fn enter_request<D: Desk>(
    conn: u32,
    act: Act,
    stash: &mut Option<Stash<D::Item>>,
    desk: &mut D,
) -> Result<u32, Full>
where
    D::Item: Drop,
    requires serving { IsServing conn (D.tells desk.old) }
    requires act { CanAsk (D.tells desk.old).seen.project act }
    requires fits { Fits (D.fits (D.tells desk.old).held) stash.old }
    requires room { IsTrue (D.tells desk.old).metered → 1 ≤ (D.tells desk.old).room }
    ensures asked { IfOk result (λ place. Adds (D.tells desk.old)
        (entry conn (as_entered (unit_kept stash.old) act)) place (D.tells desk.new)) }
    ensures looked { IfErr result (λ full. Looks (D.tells desk.old) (D.tells desk.new)) }
    ensures full { IfErr result (λ full. IsFull (D.tells desk.new).seen 0 full) }
    ensures roomy { 1 ≤ (D.tells desk.old).room → IsOk result }
    ensures sound { IsSound (D.tells desk.new) }
    ensures left { stash.new ≡ stash_left stash.old act }
    ensures fits { Fits (D.fits (D.tells desk.old).held) stash.new }
{
    if !is_awaited(stash, act) {
        return desk.ask(conn, act, None);
    }
    let Some(kept) = stash.take() else {
        return desk.ask(conn, act, None);
    };
    let Stash { unit, item } = kept;
    let report = Act::Compiled {
        unit: Some(unit),
        stored: true,
    };
    desk.ask(conn, report, Some(item))
}

/// Enters the request of a line, and notes its place. A malformed line enters nothing.
fn enter_line<D: Desk>(
    conn: u32,
    line: Asked,
    stash: &mut Option<Stash<D::Item>>,
    places: &mut Vec<u32>,
    desk: &mut D,
) -> Result<(), Full>
where
    D::Item: Drop,
    requires serving { IsServing conn (D.tells desk.old) }
    requires act { LineCanAsk (D.tells desk.old).seen.project line }
    requires fits { Fits (D.fits (D.tells desk.old).held) stash.old }
    requires room { IsTrue (D.tells desk.old).metered → 1 ≤ (D.tells desk.old).room }
    requires places { vec_len places.old < vec_capacity places.old }
    ensures entered { EntersLine result conn line stash.old stash.new
        places.old.items places.new.items (D.tells desk.old) (D.tells desk.new) }
    ensures roomy { 1 ≤ (D.tells desk.old).room → IsOk result }
    ensures sound { IsSound (D.tells desk.new) }
    ensures fits { Fits (D.fits (D.tells desk.old).held) stash.new }
    ensures capacity { vec_capacity places.new ≡ vec_capacity places.old }
{
    let Asked::Act(act) = line else {
        return Ok(());
    };
    match enter_request(conn, act, stash, desk) {
        Ok(place) => {
            places.push_reserved(place);
            Ok(())
        }
        Err(full) => Err(full),
    }
}

/// Enters the requests of lines, and notes their places.
fn enter_requests<D: Desk>(
    conn: u32,
    asked: &[Asked],
    stash: &mut Option<Stash<D::Item>>,
    places: &mut Vec<u32>,
    desk: &mut D,
) -> Result<(), Full>
where
    D::Item: Drop,
    requires serving { IsServing conn (D.tells desk.old) }
    requires acts { AllByRecursion (LineCanAsk (D.tells desk.old).seen.project) asked.now }
    requires fits { Fits (D.fits (D.tells desk.old).held) stash.old }
    requires room { IsTrue (D.tells desk.old).metered → length asked.now ≤ (D.tells desk.old).room }
    requires places { vec_len places.old + length asked.now ≤ vec_capacity places.old }
    ensures entered { (requested : List ℕ) × EntersSo result conn
        (stored_for (unit_kept stash.old) (requests_of asked.now)) requested
        (D.tells desk.old) (D.tells desk.new) × (places.new.items ≡ places.old.items ++ requested) }
    ensures left { IfOk result (λ _. stash.new ≡ stash_behind stash.old (requests_of asked.now)) }
    ensures count { IfOk result (λ _. length places.new.items
        ≡ length places.old.items + length (requests_of asked.now)) }
    ensures roomy { length asked.now ≤ (D.tells desk.old).room → IsOk result }
    ensures serving { IsServing conn (D.tells desk.new) }
    ensures fits { Fits (D.fits (D.tells desk.old).held) stash.new }
    ensures capacity { vec_capacity places.new ≡ vec_capacity places.old }
{
    for line in asked {
        match enter_line(conn, *line, stash, places, desk) {
            Ok(()) => {}
            Err(full) => return Err(full),
        }
    }
    Ok(())
}

/// Enters a Pause.
fn enter_pause<D: Desk>(conn: u32, desk: &mut D) -> Result<(), Full>
    requires serving { IsServing conn (D.tells desk.old) }
    requires room { IsTrue (D.tells desk.old).metered → 1 ≤ (D.tells desk.old).room }
    ensures entered { IfOk result (λ _. (place : ℕ)
        × Adds (D.tells desk.old) (entry conn Act.Pause) place (D.tells desk.new)) }
    ensures looked { IfErr result (λ full. Looks (D.tells desk.old) (D.tells desk.new)) }
    ensures full { IfErr result (λ full. IsFull (D.tells desk.new).seen 0 full) }
    ensures roomy { 1 ≤ (D.tells desk.old).room → IsOk result }
    ensures sound { IsSound (D.tells desk.new) }
{
    match desk.ask(conn, Act::Pause, None) {
        Ok(_) => Ok(()),
        Err(full) => Err(full),
    }
}

/// Enters the requests of lines and then a Pause, and notes the places of the requests.
fn enter_and_pause<D: Desk>(
    conn: u32,
    asked: &[Asked],
    stash: &mut Option<Stash<D::Item>>,
    places: &mut Vec<u32>,
    desk: &mut D,
) -> Result<(), Full>
where
    D::Item: Drop,
    requires serving { IsServing conn (D.tells desk.old) }
    requires acts { AllByRecursion (LineCanAsk (D.tells desk.old).seen.project) asked.now }
    requires fits { Fits (D.fits (D.tells desk.old).held) stash.old }
    requires room { IsTrue (D.tells desk.old).metered
        → length asked.now + 1 ≤ (D.tells desk.old).room }
    requires places { vec_len places.old + length asked.now ≤ vec_capacity places.old }
    ensures entered { (requested : List ℕ) × EntersSo result conn
        (stored_for (unit_kept stash.old) (requests_of asked.now ++ Act.Pause ∷ [])) requested
        (D.tells desk.old) (D.tells desk.new) × (places.new.items ≡ places.old.items ++ requested) }
    ensures left { IfOk result (λ _. stash.new ≡ stash_behind stash.old (requests_of asked.now)) }
    ensures count { IfOk result (λ _. is_refused asked.now ≡ false
        → length places.new.items ≡ length places.old.items + length asked.now) }
    ensures roomy { length asked.now + 1 ≤ (D.tells desk.old).room → IsOk result }
    ensures serving { IsServing conn (D.tells desk.new) }
    ensures fits { Fits (D.fits (D.tells desk.old).held) stash.new }
    ensures capacity { vec_capacity places.new ≡ vec_capacity places.old }
{
    match enter_requests(conn, asked, stash, places, desk) {
        Ok(()) => enter_pause(conn, desk),
        Err(full) => Err(full),
    }
}

/// Enters the requests of a block in order and then a Pause, or nothing where some line of it is malformed. It notes
/// the places of the requests. The acts are entered under one turn, which the desk keeps.
pub(crate) fn enter_block<D: Desk>(
    conn: u32,
    asked: &[Asked],
    stash: &mut Option<Stash<D::Item>>,
    places: &mut Vec<u32>,
    desk: &mut D,
) -> Result<(), Full>
where
    D::Item: Drop,
    requires serving { IsServing conn (D.tells desk.old) }
    requires acts { AllByRecursion (LineCanAsk (D.tells desk.old).seen.project) asked.now }
    requires fits { Fits (D.fits (D.tells desk.old).held) stash.old }
    requires room { IsTrue (D.tells desk.old).metered
        → length asked.now + 1 ≤ (D.tells desk.old).room }
    requires places { vec_len places.old + length asked.now ≤ vec_capacity places.old }
    ensures entered { (requested : List ℕ) × EntersSo result conn
        (stored_for (unit_kept stash.old) (entered_by asked.now)) requested
        (D.tells desk.old) (D.tells desk.new) × (places.new.items ≡ places.old.items ++ requested) }
    ensures left { IfOk result (λ _. stash.new ≡ stash_behind stash.old (entered_by asked.now)) }
    ensures count { IfOk result (λ _. is_refused asked.now ≡ false
        → length places.new.items ≡ length places.old.items + length asked.now) }
    ensures refused { is_refused asked.now ≡ true → (desk.new ≡ desk.old) × IsOk result }
    ensures roomy { length asked.now + 1 ≤ (D.tells desk.old).room → IsOk result }
    ensures serving { IsServing conn (D.tells desk.new) }
    ensures fits { Fits (D.fits (D.tells desk.old).held) stash.new }
    ensures capacity { vec_capacity places.new ≡ vec_capacity places.old }
{
    if is_refused(asked) {
        return Ok(());
    }
    desk.hold();
    enter_and_pause(conn, asked, stash, places, desk)
}
