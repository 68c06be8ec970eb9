//! A worked example: at one seat a unit is reported, and then it is imported at the other.

ghost use Rattle.std.specs.Prelude.{◌≡◌, ℕ, ◌<◌, [], ◌∷◌, Some, IfSome, IsFalse};
ghost use Rattle.histories.specs.declared.answer.Answer.TheVariants.{Path, Done as Accepted};
ghost use Rattle.ruled_history.specs.Views.{with_entries};
ghost use Rattle.ruled_history.specs.Examples.{four_units, blank, placed_from, reporting, importing, both_seats, IsFresh, IsFreshSeat, HasOpen, HandsOver, ToldFirst, ToldSecond, Told, ToldAt, Divided, Finished};

use crate::bell::Bell;
use crate::examples::{divided, enters_at, greets_at};
use crate::registry::{Registry, Seat};
use crate::shared::SharedDesk;
use registry_core::{Answer, Book, Desk, NoShelf};
use std::alloc::Global;
use std::snapshot::Snapshot;
use std::sync::Wait;
use unit_registry::Act;

/// What the first seat was told: the places of its three requests, and the reply to the last.
#[derive(Drop)]
pub(crate) struct Reported {
    pub(crate) hello: u32,
    pub(crate) exported: u32,
    pub(crate) compiled: u32,
    pub(crate) answer: Option<Answer>,
}

/// What the second seat was told: the places of its two requests, and the reply to the last.
#[derive(Drop)]
pub(crate) struct Imported {
    pub(crate) hello: u32,
    pub(crate) imported: u32,
    pub(crate) answer: Option<Answer>,
}

/// The places that were told for the export and the report of unit 0, if these are the next two.
#[tactic(auto, using(crate::proofs::Worked::hands_over))]
fn hands_over<D: Desk<Item = ()>>(desk: &mut D) -> Option<(u32, u32)>
    requires has_open { HasOpen 0 (D.tells desk.old) }
    requires project { (D.tells desk.old).seen.project ≡ four_units }
    ensures told { IfSome result (λ told. (told.0 ≡ 2) × (told.1 ≡ 3)) }
    ensures over { IfSome result (λ told. HandsOver (D.tells desk.old) (D.tells desk.new)) }
{
    let act = Act::Compiled {
        unit: Some(0),
        stored: false,
    };
    let exported = enters_at(desk, 0, Act::Export { unit: Some(0) }, 2)?;
    let compiled = enters_at(desk, 0, act, 3)?;
    Some((exported, compiled))
}

/// The first seat's part: it opens, holds unit 0, exports it and reports it, and looks for the reply.
fn reports<D: Desk<Item = ()>>(desk: &mut D) -> Option<Reported>
    requires fresh { IsFresh (D.tells desk.old) }
    requires project { (D.tells desk.old).seen.project ≡ four_units }
    ensures told { IfSome result (λ told. ToldFirst told.hello told.exported told.compiled) }
    ensures made { IfSome result (λ told. Told (placed_from 0 reporting) 3 told.answer (D.tells desk.old) (D.tells desk.new)) }
{
    let hello = greets_at(desk, 0, Some(0), 1)?;
    let (exported, compiled) = hands_over(desk)?;
    let answer = desk.look(3);
    Some(Reported {
        hello,
        exported,
        compiled,
        answer,
    })
}

/// The second seat's part: it opens, is a guest, imports unit 0, and looks for the reply.
fn imports<D: Desk<Item = ()>>(desk: &mut D) -> Option<Imported>
    requires fresh { IsFresh (D.tells desk.old) }
    requires project { (D.tells desk.old).seen.project ≡ four_units }
    ensures told { IfSome result (λ told. ToldSecond told.hello told.imported) }
    ensures made { IfSome result (λ told. (opened_at : ℕ) × (opened_at < 5) × Told (importing opened_at) 6 told.answer (D.tells desk.old) (D.tells desk.new)) }
{
    let import = Act::Import {
        unit: Some(0),
        name_only: false,
    };
    let hello = greets_at(desk, 1, None, 5)?;
    let imported = enters_at(desk, 1, import, 6)?;
    let answer = desk.look(6);
    Some(Imported {
        hello,
        imported,
        answer,
    })
}

/// The first seat's part, at a desk of its own.
fn report_seat<R: Wait>(
    rt: &R,
    registry: &Registry<NoShelf>,
    seat: Seat,
    bell: &Bell,
) -> Option<(Seat, Reported)>
    requires seat { seat.registry ≡ registry.now.name }
    requires fresh { IsFreshSeat seat.knows }
    requires loose { IsFalse registry.now.metered }
    requires project { registry.now.opening.ledger.project ≡ four_units }
    requires workers { registry.now.opening.ledger.workers ≡ 2 }
    ensures told { IfSome result (λ done. ToldFirst done.1.hello done.1.exported done.1.compiled) }
    ensures made { IfSome result (λ done. ToldAt (placed_from 0 reporting) 3 done.1.answer seat done.0) }
{
    let mut desk = SharedDesk::new(rt, registry, seat, bell);
    let told = reports(&mut desk)?;
    Some((desk.into_seat(), told))
}

/// The second seat's part, at a desk of its own.
fn import_seat<R: Wait>(
    rt: &R,
    registry: &Registry<NoShelf>,
    seat: Seat,
    bell: &Bell,
) -> Option<(Seat, Imported)>
    requires seat { seat.registry ≡ registry.now.name }
    requires fresh { IsFreshSeat seat.knows }
    requires loose { IsFalse registry.now.metered }
    requires project { registry.now.opening.ledger.project ≡ four_units }
    requires workers { registry.now.opening.ledger.workers ≡ 2 }
    ensures told { IfSome result (λ done. ToldSecond done.1.hello done.1.imported) }
    ensures made { IfSome result (λ done. (opened_at : ℕ) × (opened_at < 5) × ToldAt (importing opened_at) 6 done.1.answer seat done.0) }
{
    let mut desk = SharedDesk::new(rt, registry, seat, bell);
    let told = imports(&mut desk)?;
    Some((desk.into_seat(), told))
}

/// The seat that both seats are joined to, both seats as they were before, and what they were told.
#[derive(Drop)]
struct BothTold {
    seat: Seat,
    one: Snapshot<Seat>,
    two: Snapshot<Seat>,
    reported: Reported,
    imported: Imported,
}

/// Both seats' parts, one after the other, and the seat that both are joined to.
fn work_both<R: Wait>(
    rt: &R,
    registry: &Registry<NoShelf>,
    one: Seat,
    two: Seat,
) -> Option<BothTold>
    requires { (limit : ℕ) × Divided limit registry.now one two }
    ensures reported { IfSome result (λ both. ToldFirst both.reported.hello both.reported.exported both.reported.compiled) }
    ensures imported { IfSome result (λ both. ToldSecond both.imported.hello both.imported.imported) }
    ensures finished { IfSome result (λ both. Finished registry.now both.one.value both.two.value both.seat both.reported.answer both.imported.answer) }
{
    let bell = Bell::new();
    let (one, reported) = report_seat(rt, registry, one, &bell)?;
    let (two, imported) = import_seat(rt, registry, two, &bell)?;
    let first = Snapshot::of(&one);
    let second = Snapshot::of(&two);
    Some(BothTold {
        seat: registry.join(one, two),
        one: first,
        two: second,
        reported,
        imported,
    })
}

/// What the two seats were told, the registry and the seats as they were before the join, and the book.
#[derive(Drop)]
pub(crate) struct TwoSeats {
    pub(crate) registry: Snapshot<Registry<NoShelf>>,
    pub(crate) one: Snapshot<Seat>,
    pub(crate) two: Snapshot<Seat>,
    pub(crate) reported: Reported,
    pub(crate) imported: Imported,
    pub(crate) book: Book<NoShelf>,
}

/// The example: a registry of two workers with a limit of 40 entries, which isn't metered, and two seats with a share
/// of one each. At the first seat connection 0 opens at place 0, is greeted at 1, and exports and reports unit 0 at 2
/// and 3; the report is accepted. At the second seat connection 1 opens at 4, is greeted as a guest at 5, and imports
/// unit 0 at 6; the reply is the unit's path. Once the seats are joined and the registry is closed, the book has these
/// seven entries. `None` comes where memory ran out, or a call told another number.
pub(crate) fn two_seats<R: Wait>(rt: &R, alloc: Global) -> Option<TwoSeats>
    ensures loose { IfSome result (λ run. IsFalse run.registry.value.metered) }
    ensures shares { IfSome result (λ run. (run.one.value.knows.share ≡ 1) × (run.two.value.knows.share ≡ 1)) }
    ensures first_told { IfSome result (λ run. ToldFirst run.reported.hello run.reported.exported run.reported.compiled) }
    ensures first_places { IfSome result (λ run. run.one.value.knows.places ≡ 0 ∷ 1 ∷ 2 ∷ 3 ∷ []) }
    ensures reported { IfSome result (λ run. run.reported.answer ≡ Some Accepted) }
    ensures second_told { IfSome result (λ run. ToldSecond run.imported.hello run.imported.imported) }
    ensures second_places { IfSome result (λ run. run.two.value.knows.places ≡ 4 ∷ 5 ∷ 6 ∷ []) }
    ensures imported { IfSome result (λ run. run.imported.answer ≡ Some (Path 0)) }
    ensures book { IfSome result (λ run. run.book.ledger ≡ with_entries (blank 40) both_seats) }
{
    let (registry, one, two) = divided(alloc, 40)?;
    let shared = Snapshot::of(&registry);
    let both = work_both(rt, &registry, one, two)?;
    let book = registry.close(both.seat);
    Some(TwoSeats {
        registry: shared,
        one: both.one,
        two: both.two,
        reported: both.reported,
        imported: both.imported,
        book,
    })
}
