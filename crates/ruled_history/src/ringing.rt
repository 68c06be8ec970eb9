//! What tests show of a desk and its bell beside the clauses: which entries ring the bell, that a wait ends with a ring
//! and not before, which items are fetched, and that a look sees what others entered and never waits for a reply.

ghost use Rattle.std.specs.Prelude.{◌≡◌, IsTrue};
ghost use Rattle.ruled_history.specs.Examples.{HasOpen, IsFresh, four_units};

use crate::bell::Bell;
use crate::examples::{divided, enters, greets, opens};
use crate::shared::SharedDesk;
use registry_core::{Answer, Desk, Leaving};
use std::alloc::Global;
use std::sync::Wait;
use std::thread::{Threads, join, yield_now};
use unit_registry::Act;

/// Whether connection 0 was opened, greeted at place 1 and left, the greeting has its reply, and nothing is kept for
/// unit 0.
fn visits<D: Desk<Item = ()>>(desk: &mut D) -> bool
    requires fresh { IsFresh (D.tells desk.old) }
    requires project { (D.tells desk.old).seen.project ≡ four_units }
{
    if !opens(desk, 0) {
        return false;
    }
    let hello = Act::Hello {
        version: 1,
        unit: None,
    };
    if !enters(desk, 0, hello, 1) {
        return false;
    }
    desk.leave(0, Leaving::Left);
    let kept = desk.fetch(0);
    desk.look(1) == Some(Answer::Hello) && kept == Ok(None)
}

/// How often the bell was rung, after one seat made three entries and looked and fetched, and the other made one, none
/// of which answers an import that waits.
pub(crate) fn rings<R: Wait>(rt: &R, alloc: Global) -> Option<u64> {
    let (registry, one, two) = divided(alloc, 40)?;
    let bell = Bell::new();
    let mut desk = SharedDesk::new(rt, &registry, one, &bell);
    if !visits(&mut desk) {
        return None;
    }
    SharedDesk::new(rt, &registry, two, &bell).done();
    Some(bell.count(rt))
}

/// Waits past 0, and answers what the count is then.
fn counts_past<R: Wait>(rt: &R, bell: &Bell) -> u64 {
    bell.wait_past(rt, 0);
    bell.count(rt)
}

/// Rings once, after so many yields that a thread which waits has begun.
fn rings_late<R: Wait>(rt: &R, bell: &Bell) {
    for _yielded in 0..20_000 {
        yield_now();
    }
    bell.ring(rt);
}

/// The count that a thread tells which waits past 0, while this one rings once. Where no thread can be made, `join`
/// runs its second closure first, and so the wait comes behind the ring.
pub(crate) fn wakes<R: Threads + Wait + Sync>(rt: &R) -> u64 {
    let bell = Bell::new();
    let (count, _rung) = join(
        rt,
        || -> u64 { counts_past(rt, &bell) },
        || -> () { rings_late(rt, &bell) },
    );
    count
}

/// Whether an item that is stored for unit 0 is fetched then, and none for unit 1.
fn keeps<D: Desk<Item = ()>>(desk: &mut D) -> bool
    requires fresh { IsFresh (D.tells desk.old) }
    requires project { (D.tells desk.old).seen.project ≡ four_units }
    requires fits { (held : D.Held) → D.fits held 0 tt }
{
    let stored = Act::Compiled {
        unit: Some(0),
        stored: true,
    };
    if !greets(desk, 0, Some(0), 1) {
        return false;
    }
    if !enters(desk, 0, Act::Export { unit: Some(0) }, 2) {
        return false;
    }
    if desk.ask(0, stored, Some(())) != Ok(3) {
        return false;
    }
    let kept = desk.fetch(0);
    let other = desk.fetch(1);
    kept == Ok(Some(())) && other == Ok(None)
}

/// Whether an item is fetched for unit 0.
fn finds<D: Desk<Item = ()>>(desk: &mut D) -> bool
    requires project { (D.tells desk.old).seen.project ≡ four_units }
{
    desk.fetch(0) == Ok(Some(()))
}

/// Whether the first seat keeps an item and fetches it, and then the second fetches it too.
pub(crate) fn fetches<R: Wait>(rt: &R, alloc: Global) -> bool {
    let Some((registry, one, two)) = divided(alloc, 40) else {
        return false;
    };
    let bell = Bell::new();
    let mut first = SharedDesk::new(rt, &registry, one, &bell);
    let mut second = SharedDesk::new(rt, &registry, two, &bell);
    if !keeps(&mut first) {
        return false;
    }
    finds(&mut second)
}

/// Whether connection 0, a guest, imported unit 0 at place 2, and waits for the reply.
fn awaits<D: Desk<Item = ()>>(desk: &mut D) -> bool
    requires fresh { IsFresh (D.tells desk.old) }
    requires project { (D.tells desk.old).seen.project ≡ four_units }
{
    let import = Act::Import {
        unit: Some(0),
        name_only: false,
    };
    if !greets(desk, 0, None, 1) {
        return false;
    }
    if !enters(desk, 0, import, 2) {
        return false;
    }
    desk.look(2) == None
}

/// Whether looks answer that there is no reply: at an import whose unit nobody compiles, and at an Open. No look waits for
/// one, in a turn that is kept neither.
fn looks_in_vain<D: Desk<Item = ()>>(desk: &mut D) -> bool
    requires fresh { IsFresh (D.tells desk.old) }
    requires project { (D.tells desk.old).seen.project ≡ four_units }
{
    if !awaits(desk) {
        return false;
    }
    desk.hold();
    let imported = desk.look(2) == None;
    let opened = desk.look(0) == None;
    desk.release();
    imported && opened
}

/// The same, at a desk of a registry.
pub(crate) fn stays_unanswered<R: Wait>(rt: &R, alloc: Global) -> bool {
    let Some((registry, one, _two)) = divided(alloc, 40) else {
        return false;
    };
    let bell = Bell::new();
    looks_in_vain(&mut SharedDesk::new(rt, &registry, one, &bell))
}

/// Whether connection 1, opened at place 3, exported and reported unit 0.
fn compiles<D: Desk<Item = ()>>(desk: &mut D) -> bool
    requires fresh { IsFresh (D.tells desk.old) }
    requires project { (D.tells desk.old).seen.project ≡ four_units }
    ensures { IsTrue result → HasOpen 1 (D.tells desk.new) }
{
    let compiled = Act::Compiled {
        unit: Some(0),
        stored: false,
    };
    if !greets(desk, 1, Some(0), 4) {
        return false;
    }
    if !enters(desk, 1, Act::Export { unit: Some(0) }, 5) {
        return false;
    }
    enters(desk, 1, compiled, 6)
}

/// How often the bell was rung: once an import waits at the second seat, then once its unit is reported at the first
/// and it has its reply, and then once the first seat's connection has left.
pub(crate) fn hears<R: Wait>(rt: &R, alloc: Global) -> Option<[u64; 3]> {
    let (registry, one, two) = divided(alloc, 40)?;
    let bell = Bell::new();
    let mut first = SharedDesk::new(rt, &registry, one, &bell);
    let mut second = SharedDesk::new(rt, &registry, two, &bell);
    if !awaits(&mut second) {
        return None;
    }
    let waits = bell.count(rt);
    if !compiles(&mut first) {
        return None;
    }
    let reported = bell.count(rt);
    first.leave(1, Leaving::Left);
    if second.look(2) != Some(Answer::Path(0)) {
        return None;
    }
    Some([waits, reported, bell.count(rt)])
}

/// How often the bell was rung before a turn was passed that is kept, and in which an import that waits at another seat
/// got its reply, and after that.
pub(crate) fn rings_after<R: Wait>(rt: &R, alloc: Global) -> Option<[u64; 2]> {
    let (registry, one, two) = divided(alloc, 40)?;
    let bell = Bell::new();
    let mut first = SharedDesk::new(rt, &registry, one, &bell);
    let mut second = SharedDesk::new(rt, &registry, two, &bell);
    if !awaits(&mut second) {
        return None;
    }
    first.hold();
    if !compiles(&mut first) {
        return None;
    }
    let kept = bell.count(rt);
    first.release();
    Some([kept, bell.count(rt)])
}
