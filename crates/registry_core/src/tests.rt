//! Worked examples on a book, as tables: what is entered, and with which entry each reply comes.

ghost use Rattle.std.specs.Prelude.{◌≡◌, ◌+◌, ◌<◌, ◌≤◌, length, Contains, IsTrue, IsFalse};
ghost use Rattle.std.specs.List.{range_with_len};
ghost use Rattle.unit_registry.specs.Projects.{unit_count, is_plain};
ghost use Rattle.histories.specs.Answered.{stored_unit};
ghost use Rattle.histories.specs.Entries.{has_its_unit};
ghost use Rattle.histories.specs.Counts.{Asks, effect_of};
ghost use Rattle.histories.specs.Histories.{is_out_of_range};
ghost use Rattle.registry_core.specs.Ledgers.{is_open_in, opened_in, open_in, done_in};
ghost use Rattle.registry_core.specs.Shelves.{ComesWith};

use super::*;
use mapper_replies::Refusal;
use mm_outside::Memory;
use std::alloc::Global;
use unit_registry::{Act, Project, ProjectError};

/// Two modules, a header unit and a plain unit.
const PROJECT: &[u8] = b"modmap-project 1
repo gcm.cache
module a a.cc
module b b.cc
header ./x.h x.h
plain main.cc
end
";

/// Three modules.
const RING: &[u8] = b"modmap-project 1
repo gcm.cache
module x x.cc
module y y.cc
module z z.cc
end
";

/// An entry.
fn of(conn: u32, act: Act) -> Entry {
    Entry { conn, act }
}

/// A Hello of the unit.
fn hello(unit: u32) -> Act {
    Act::Hello {
        version: 1,
        unit: Some(unit),
    }
}

/// An import of the unit.
fn import(unit: u32) -> Act {
    Act::Import {
        unit: Some(unit),
        name_only: false,
    }
}

/// An export of the unit.
fn export(unit: u32) -> Act {
    Act::Export { unit: Some(unit) }
}

/// A report of the unit, with an item.
fn stored(unit: u32) -> Act {
    Act::Compiled {
        unit: Some(unit),
        stored: true,
    }
}

fn read(alloc: Global, octets: &[u8]) -> Result<Project, ProjectError> {
    if octets.len() > 2147483648 {
        return Err(ProjectError::Memory);
    }
    Project::read(alloc, octets)
}

/// Whether the unit is one of the project, with a name.
fn is_named(project: &Project, unit: u32) -> bool
    ensures within { IsTrue result → unit < unit_count project.now }
    ensures named { IsTrue result → IsFalse (is_plain project.now unit) }
{
    unit < project.unit_count() && project.find_unit(project.name(unit)) == Some(unit)
}

/// Whether the project has the unit that the act names.
#[tactic(auto, using(crate::proofs::Ready::in_range))]
fn has_unit(project: &Project, act: Act) -> bool
    ensures { IsTrue result → IsFalse (is_out_of_range project.now act) }
{
    match act {
        Act::Hello {
            unit: Some(unit),
            ..
        } => unit < project.unit_count(),
        Act::Export { unit: Some(unit) }
        | Act::Import {
            unit: Some(unit),
            ..
        }
        | Act::Compiled {
            unit: Some(unit),
            ..
        } => is_named(project, unit),
        _ => true,
    }
}

/// Whether it is a request or a pause, and an item is of a declared unit.
fn is_asked(act: Act) -> bool
    ensures kind { IsTrue result → effect_of act ≡ Asks }
    ensures whole { IsTrue result → IsTrue (has_its_unit act) }
{
    !matches!(
        act,
        Act::Open
            | Act::Left
            | Act::Lost
            | Act::Done
            | Act::Compiled {
                unit: None,
                stored: true
            }
    )
}

/// The item that comes with the act.
fn item_of(act: Act) -> Option<()>
    ensures { ComesWith (λ unit item. Unit {0}) (stored_unit act) result }
{
    match act {
        Act::Compiled {
            unit: Some(_),
            stored: true,
        } => Some(()),
        _ => None,
    }
}

/// Whether a worker is free.
fn is_free(book: &Book<NoShelf>, workers: u32) -> bool
    ensures { IsTrue result → open_in book.now.ledger + done_in book.now.ledger < workers }
{
    (book.open_count() as u64) + (book.done_count() as u64) < workers as u64
}

/// Whether the next connection was opened, and has this number.
fn opens(book: &mut Book<NoShelf>, workers: u32, conn: u32) -> bool
    requires { book.old.ledger.workers ≡ workers }
    ensures project { book.new.ledger.project ≡ book.old.ledger.project }
    ensures workers { book.new.ledger.workers ≡ book.old.ledger.workers }
{
    if !is_free(book, workers) {
        return false;
    }
    match book.open() {
        Ok(opened) => opened == conn,
        Err(_) => false,
    }
}

/// Whether a worker was ended.
fn ends(book: &mut Book<NoShelf>, workers: u32) -> bool
    requires { book.old.ledger.workers ≡ workers }
    ensures project { book.new.ledger.project ≡ book.old.ledger.project }
    ensures workers { book.new.ledger.workers ≡ book.old.ledger.workers }
{
    if !is_free(book, workers) {
        return false;
    }
    book.done();
    true
}

/// Whether the connection went.
fn leaves(book: &mut Book<NoShelf>, conn: u32, how: Leaving) -> bool
    ensures project { book.new.ledger.project ≡ book.old.ledger.project }
    ensures workers { book.new.ledger.workers ≡ book.old.ledger.workers }
{
    if !book.is_open(conn) {
        return false;
    }
    book.leave(conn, how);
    true
}

/// Whether the act of the connection was entered.
fn asks(book: &mut Book<NoShelf>, project: &Project, conn: u32, act: Act) -> bool
    requires { book.old.ledger.project ≡ project.now }
    ensures project { book.new.ledger.project ≡ book.old.ledger.project }
    ensures workers { book.new.ledger.workers ≡ book.old.ledger.workers }
{
    if !book.is_open(conn) || !is_asked(act) || !has_unit(project, act) {
        return false;
    }
    match book.ask(conn, act, item_of(act)) {
        Ok(_) => true,
        Err(_) => false,
    }
}

/// Whether the entry was made.
fn enters(book: &mut Book<NoShelf>, project: &Project, workers: u32, entry: Entry) -> bool
    requires project { book.old.ledger.project ≡ project.now }
    requires workers { book.old.ledger.workers ≡ workers }
    ensures project { book.new.ledger.project ≡ book.old.ledger.project }
    ensures workers { book.new.ledger.workers ≡ book.old.ledger.workers }
{
    match entry.act {
        Act::Open => opens(book, workers, entry.conn),
        Act::Done => ends(book, workers),
        Act::Left => leaves(book, entry.conn, Leaving::Left),
        Act::Lost => leaves(book, entry.conn, Leaving::Lost),
        act => asks(book, project, entry.conn, act),
    }
}

/// Whether exactly the replies are there that come with entries up to this place.
fn has_replies(book: &Book<NoShelf>, last: u32, replies: &[(u32, u32, Answer)]) -> bool {
    let mut right = true;
    for (with, place, answer) in replies {
        let expected = if *with <= last { Some(*answer) } else { None };
        if book.look(*place) != expected {
            right = false;
        }
    }
    right
}

/// Whether exactly those imports are told of that get their replies with the entry at this place.
fn has_answered(book: &Book<NoShelf>, last: u32, replies: &[(u32, u32, Answer)]) -> bool {
    let answered = book.answered();
    let mut found = 0;
    for (with, place, _) in replies {
        if *with == last && *place < last {
            if found >= answered.len() || answered[found] != *place {
                return false;
            }
            found += 1;
        }
    }
    found == answered.len()
}

/// Whether the entries are made, each followed by exactly the replies that come with it or before.
fn replays(
    book: &mut Book<NoShelf>,
    project: &Project,
    workers: u32,
    entries: &[Entry],
    replies: &[(u32, u32, Answer)],
) -> bool
    requires project { book.old.ledger.project ≡ project.now }
    requires workers { book.old.ledger.workers ≡ workers }
    requires few { length entries.now < 1000 }
    ensures { book.new.ledger.project ≡ project.now }
{
    for place in 0..entries.len() {
        if !enters(book, project, workers, entries[place])
            || !has_replies(book, place as u32, replies)
            || !has_answered(book, place as u32, replies)
        {
            return false;
        }
    }
    true
}

/// Whether a book over the project makes the entries so, and has so many connections open then.
fn is_worked(
    alloc: Global,
    text: &[u8],
    workers: u32,
    limit: u32,
    entries: &[Entry],
    replies: &[(u32, u32, Answer)],
    open: u32,
) -> bool
    requires workers { (1 ≤ workers) × (workers ≤ 64) }
    requires limit { (workers ≤ limit) × (limit ≤ 1000) }
    requires few { length entries.now < 1000 }
{
    let Ok(project) = read(alloc, text) else {
        return false;
    };
    let _count = project.unit_count();
    let Ok(mut book) = Book::new(alloc, &project, workers, limit, NoShelf::new()) else {
        return false;
    };
    replays(&mut book, &project, workers, entries, replies) && book.open_count() == open
}

/// An import waits until its unit is compiled.
fn replayed_wait(alloc: Global) -> bool {
    let entries = [
        of(0, Act::Open),
        of(0, hello(0)),
        of(0, import(1)),
        of(0, Act::Pause),
        of(1, Act::Open),
        of(1, hello(1)),
        of(1, export(1)),
        of(1, stored(1)),
    ];
    let replies = [
        (1, 1, Answer::Hello),
        (5, 5, Answer::Hello),
        (6, 6, Answer::Path(1)),
        (7, 2, Answer::Path(1)),
        (7, 7, Answer::Done),
    ];
    is_worked(alloc, PROJECT, 2, 40, &entries, &replies, 2)
}

/// Two units that import one another: the import that would close the ring is refused.
fn ring_of_two(alloc: Global) -> bool {
    let entries = [
        of(0, Act::Open),
        of(0, hello(0)),
        of(1, Act::Open),
        of(1, hello(1)),
        of(1, import(0)),
        of(1, Act::Pause),
        of(0, export(0)),
        of(0, import(1)),
        of(0, stored(0)),
        of(0, Act::Pause),
    ];
    let replies = [
        (1, 1, Answer::Hello),
        (3, 3, Answer::Hello),
        (6, 6, Answer::Path(0)),
        (7, 7, Answer::Refused(Refusal::ImportCycle)),
        (8, 4, Answer::Path(0)),
        (8, 8, Answer::Done),
    ];
    is_worked(alloc, PROJECT, 2, 40, &entries, &replies, 2)
}

/// Three units in a ring: in this order of the three imports the first two wait, and the third is refused.
fn ring_of_three(alloc: Global, first: u32, second: u32, third: u32) -> bool
    requires first { first < 3 }
    requires second { second < 3 }
    requires third { third < 3 }
{
    let entries = [
        of(0, Act::Open),
        of(1, Act::Open),
        of(2, Act::Open),
        of(0, hello(0)),
        of(1, hello(1)),
        of(2, hello(2)),
        of(first, import((first + 1) % 3)),
        of(second, import((second + 1) % 3)),
        of(third, import((third + 1) % 3)),
    ];
    let replies = [
        (8, 8, Answer::Refused(Refusal::ImportCycle)),
        (9, 6, Answer::Done),
        (9, 7, Answer::Done),
    ];
    is_worked(alloc, RING, 4, 40, &entries, &replies, 3)
}

/// Two imports fail when the holder of their unit leaves.
fn holder_goes(alloc: Global) -> bool {
    let entries = [
        of(0, Act::Open),
        of(0, hello(0)),
        of(0, import(1)),
        of(0, Act::Pause),
        of(1, Act::Open),
        of(1, hello(3)),
        of(1, import(1)),
        of(1, Act::Pause),
        of(2, Act::Open),
        of(2, hello(1)),
        of(2, Act::Left),
    ];
    let replies = [
        (9, 9, Answer::Hello),
        (10, 2, Answer::Refused(Refusal::UnitFailed)),
        (10, 6, Answer::Refused(Refusal::UnitFailed)),
    ];
    is_worked(alloc, PROJECT, 3, 40, &entries, &replies, 2)
}

/// One connection waits for a unit that nobody holds: with the pause it is given up.
fn stall_in_pipe(alloc: Global) -> bool {
    let entries = [
        of(0, Act::Open),
        of(0, hello(0)),
        of(0, import(1)),
        of(0, Act::Pause),
    ];
    let replies = [
        (1, 1, Answer::Hello),
        (3, 2, Answer::Refused(Refusal::UnitFailed)),
    ];
    is_worked(alloc, PROJECT, 1, 40, &entries, &replies, 1)
}

/// A history with room for six: of a block of four the last doesn't fit, and both ends do.
fn full_history(alloc: Global) -> bool {
    let entries = [
        of(0, Act::Open),
        of(0, hello(0)),
        of(0, Act::Repo),
        of(0, export(0)),
        of(0, Act::Lost),
        of(4294967295, Act::Done),
    ];
    let refused = [
        of(0, Act::Open),
        of(0, hello(0)),
        of(0, Act::Repo),
        of(0, export(0)),
        of(0, stored(0)),
    ];
    let replies = [
        (1, 1, Answer::Hello),
        (2, 2, Answer::Repo),
        (3, 3, Answer::Path(0)),
    ];
    is_worked(alloc, PROJECT, 1, 6, &entries, &replies, 0)
        && !is_worked(alloc, PROJECT, 1, 6, &refused, &replies, 1)
        && is_worked(alloc, PROJECT, 1, 7, &refused, &replies, 1)
}

/// What is kept is fetched again.
fn fetches(alloc: Global) -> bool {
    let Ok(project) = read(alloc, PROJECT) else {
        return false;
    };
    let _count = project.unit_count();
    let Ok(mut book) = Book::new(alloc, &project, 1, 40, NoShelf::new()) else {
        return false;
    };
    let entries = [
        of(0, Act::Open),
        of(0, hello(0)),
        of(0, export(0)),
        of(0, stored(0)),
    ];
    if !replays(&mut book, &project, 1, &entries, &[]) || project.unit_count() != 4 {
        return false;
    }
    book.fetch(alloc, 0) == Ok(Some(())) && book.fetch(alloc, 1) == Ok(None)
}

/// Whether the act of the connection is entered at the desk, and answered so.
fn desk_asks(
    desk: &mut SoloDesk<NoShelf>,
    project: &Project,
    conn: u32,
    act: Act,
    answer: Answer,
) -> bool
    requires project { desk.old.book.ledger.project ≡ project.now }
    requires own { Contains (range_with_len 0 (opened_in desk.old.book.ledger)) conn }
    requires there { IsTrue (is_open_in desk.old.book.ledger conn) }
    ensures project { IsTrue result → desk.new.book.ledger.project ≡ project.now }
    ensures own { IsTrue result → Contains (range_with_len 0 (opened_in desk.new.book.ledger)) conn }
    ensures there { IsTrue result → IsTrue (is_open_in desk.new.book.ledger conn) }
{
    if !is_asked(act) || !has_unit(project, act) {
        return false;
    }
    let Ok(place) = desk.ask(conn, act, item_of(act)) else {
        return false;
    };
    desk.look(place) == Some(answer)
}

/// Whether each act of the connection is entered at the desk, and answered so.
fn desk_replays(
    desk: &mut SoloDesk<NoShelf>,
    project: &Project,
    conn: u32,
    acts: &[(Act, Answer)],
) -> bool
    requires project { desk.old.book.ledger.project ≡ project.now }
    requires own { Contains (range_with_len 0 (opened_in desk.old.book.ledger)) conn }
    requires there { IsTrue (is_open_in desk.old.book.ledger conn) }
    ensures project { IsTrue result → desk.new.book.ledger.project ≡ project.now }
{
    for asked in acts {
        let (act, answer) = *asked;
        if !desk_asks(desk, project, conn, act, answer) {
            return false;
        }
    }
    true
}

/// A unit is compiled at the desk of whoever has the book alone, and its item is fetched there.
fn compiled_alone(alloc: Global) -> bool {
    let Ok(project) = read(alloc, PROJECT) else {
        return false;
    };
    let _count = project.unit_count();
    let Ok(book) = Book::new(alloc, &project, 1, 40, NoShelf::new()) else {
        return false;
    };
    let acts = [
        (hello(0), Answer::Hello),
        (export(0), Answer::Path(0)),
        (import(0), Answer::Refused(Refusal::ImportCycle)),
        (stored(0), Answer::Done),
        (import(0), Answer::Path(0)),
    ];
    if !is_free(&book, 1) {
        return false;
    }
    let mut desk = SoloDesk::new(book);
    let Ok(conn) = desk.open() else {
        return false;
    };
    desk_replays(&mut desk, &project, conn, &acts)
        && project.unit_count() == 4
        && desk.fetch(0) == Ok(Some(()))
        && desk.fetch(1) == Ok(None)
}

#[test]
fn worked_examples(rt: HostRuntime) {
    assert!(rt; replayed_wait(rt.alloc()));
    assert!(rt; ring_of_two(rt.alloc()));
    assert!(rt; holder_goes(rt.alloc()));
    assert!(rt; stall_in_pipe(rt.alloc()));
    assert!(rt; full_history(rt.alloc()));
}

#[test]
fn rings_in_each_order(rt: HostRuntime) {
    assert!(rt; ring_of_three(rt.alloc(), 0, 1, 2));
    assert!(rt; ring_of_three(rt.alloc(), 0, 2, 1));
    assert!(rt; ring_of_three(rt.alloc(), 1, 0, 2));
    assert!(rt; ring_of_three(rt.alloc(), 1, 2, 0));
    assert!(rt; ring_of_three(rt.alloc(), 2, 0, 1));
    assert!(rt; ring_of_three(rt.alloc(), 2, 1, 0));
}

#[test]
fn kept_items(rt: HostRuntime) {
    assert!(rt; fetches(rt.alloc()));
    assert!(rt; compiled_alone(rt.alloc()));
}
