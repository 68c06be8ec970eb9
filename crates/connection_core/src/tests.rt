//! Worked sessions: their ends, an import that waits for another connection's report, and a report with an item.

ghost use Rattle.std.specs.Prelude.{◌≡◌, ◌≢◌, ◌+◌, ◌<◌, [], ℕ, IfOk, IfSome, IsTrue, IsFalse};
ghost use Rattle.unit_registry.specs.Projects.{unit_count};
ghost use Rattle.registry_core.specs.Alone.{told_alone};
ghost use Rattle.registry_core.specs.Desks.{GoesOnFor, IsSound};
ghost use Rattle.connection_core.specs.Entering.{Fits, IsServing};
ghost use Rattle.connection_core.specs.Sessions.{IsReading, KeepsNoItem, StandsAfter};

use super::*;
use mm_outside::{MemLink, Memory};
use registry_core::{Book, Desk, NoShelf, Shelf, SoloDesk};
use std::alloc::Global;
use std::test::*;
use unit_registry::{Project, ProjectError};

/// Two modules.
const PROJECT: &[u8] = b"modmap-project 1
repo gcm.cache
module a a.cc
module b b.cc
end
";

/// Unit b imports a.
const IMPORT: &[u8] = b"HELLO 1 GCC b.cc ;
MODULE-IMPORT a
";

/// Unit a exports and reports itself.
const REPORT: &[u8] = b"HELLO 1 GCC a.cc ;
MODULE-EXPORT a ;
MODULE-COMPILED a
";

fn read(alloc: Global, octets: &[u8]) -> Result<Project, ProjectError> {
    if octets.len() > 2147483648 {
        return Err(ProjectError::Memory);
    }
    Project::read(alloc, octets)
}

/// A book of two workers, with no entries.
fn book_of(alloc: Global, project: &Project) -> Result<Book<NoShelf>, Memory>
    ensures { IfOk result (λ book. book.ledger
        ≡ record { project = project.now; workers = 2; limit = 64; entries = [] }) }
{
    project.unit_count();
    Book::new(alloc, project, 2, 64, NoShelf::new())
}

/// Whether the next connection was opened, and has this number.
fn opens<D: Desk>(desk: &mut D, conn: u32) -> bool
    requires worker { (D.tells desk.old).opened + (D.tells desk.old).dones < (D.tells desk.old).share }
    requires room { IsFalse (D.tells desk.old).metered }
    ensures serving { IsTrue result → IsServing conn (D.tells desk.new) }
    ensures beside { (other : ℕ) → IsTrue result → other ≢ conn
        → IsServing other (D.tells desk.old) → IsServing other (D.tells desk.new) }
    ensures project { (D.tells desk.new).seen.project ≡ (D.tells desk.old).seen.project }
    ensures metered { (D.tells desk.new).metered ≡ (D.tells desk.old).metered }
    ensures held { (D.tells desk.new).held ≡ (D.tells desk.old).held }
    ensures share { (D.tells desk.new).share ≡ (D.tells desk.old).share }
    ensures opened { IsTrue result → (D.tells desk.new).opened ≡ (D.tells desk.old).opened + 1 }
    ensures dones { (D.tells desk.new).dones ≡ (D.tells desk.old).dones }
{
    match desk.open() {
        Ok(opened) => opened == conn,
        Err(_) => false,
    }
}

/// Takes a block, and tries its replies.
fn answer<D: Desk<Item = ()>>(
    project: &Project,
    session: &mut Session<()>,
    block: &[u8],
    desk: &mut D,
    link: &mut MemLink,
) -> Option<Turn>
    requires anew { StandsAfter session.old project.now [] }
    requires reading { IsReading session.old }
    requires fits { Fits (D.fits (D.tells desk.old).held) session.old.stash }
    requires project { project.now ≡ (D.tells desk.old).seen.project }
    requires serving { IsServing session.old.conn (D.tells desk.old) }
    requires room { IsFalse (D.tells desk.old).metered }
    ensures serving { IsServing session.old.conn (D.tells desk.new) }
    ensures goes { IfSome result (λ turn.
        GoesOnFor session.old.conn (D.tells desk.old) (D.tells desk.new)) }
    ensures opened { IfSome result (λ turn. (D.tells desk.new).opened ≡ (D.tells desk.old).opened) }
    ensures dones { IfSome result (λ turn. (D.tells desk.new).dones ≡ (D.tells desk.old).dones) }
    ensures conn { session.new.conn ≡ session.old.conn }
{
    let Took::Block { .. } = session.take(project, block, desk) else {
        return None;
    };
    Some(session.try_replies(project, desk, link))
}

/// Whether all replies were written, and the link has this text.
fn is_fed(turn: Turn, link: &MemLink, text: &[u8]) -> bool {
    turn == Turn::Fed && link.written() == text
}

/// Whether the request at this place has no reply yet, and nothing was written.
fn is_waiting(turn: Turn, link: &MemLink, place: u32) -> bool {
    turn == (Turn::Waiting { place }) && link.written().is_empty()
}

/// Whether connection 1 reports unit a and is answered; none where a call was refused.
fn second_reports<D: Desk<Item = ()>>(
    project: &Project,
    session: &mut Session<()>,
    link: &mut MemLink,
    desk: &mut D,
) -> Option<bool>
    requires anew { StandsAfter session.old project.now [] }
    requires reading { IsReading session.old }
    requires none { KeepsNoItem session.old }
    requires conn { session.old.conn ≡ 1 }
    requires worker { (D.tells desk.old).opened + (D.tells desk.old).dones < (D.tells desk.old).share }
    requires room { IsFalse (D.tells desk.old).metered }
    requires project { project.now ≡ (D.tells desk.old).seen.project }
    requires serving { IsServing 0 (D.tells desk.old) }
    ensures serving { IfSome result (λ reported. IsServing 0 (D.tells desk.new)) }
    ensures project { IfSome result (λ reported. project.now ≡ (D.tells desk.new).seen.project) }
{
    if !opens(desk, 1) {
        return None;
    }
    let Some(turn) = answer(project, session, REPORT, desk, link) else {
        return None;
    };
    Some(is_fed(turn, link, b"HELLO 1 modmap ;\nPATHNAME a.gcm ;\nOK\n"))
}

/// Whether an import of connection 0 waits, and is answered when connection 1 has reported its unit.
fn waits_for_report<D: Desk<Item = ()>>(
    project: &Project,
    first: &mut Session<()>,
    second: &mut Session<()>,
    link: &mut MemLink,
    other: &mut MemLink,
    desk: &mut D,
) -> Option<bool>
    requires anew { StandsAfter first.old project.now [] }
    requires reading { IsReading first.old }
    requires none { KeepsNoItem first.old }
    requires conn { first.old.conn ≡ 0 }
    requires second_anew { StandsAfter second.old project.now [] }
    requires second_reading { IsReading second.old }
    requires second_none { KeepsNoItem second.old }
    requires second_conn { second.old.conn ≡ 1 }
    requires opened { (D.tells desk.old).opened ≡ 0 }
    requires dones { (D.tells desk.old).dones ≡ 0 }
    requires share { (D.tells desk.old).share ≡ 2 }
    requires room { IsFalse (D.tells desk.old).metered }
    requires project { project.now ≡ (D.tells desk.old).seen.project }
{
    if !opens(desk, 0) {
        return None;
    }
    let Some(waits) = answer(project, first, IMPORT, desk, link) else {
        return None;
    };
    let waited = is_waiting(waits, link, 2);
    let Some(reported) = second_reports(project, second, other, desk) else {
        return None;
    };
    let turn = first.try_replies(project, desk, link);
    let fed = is_fed(turn, link, b"HELLO 1 modmap ;\nPATHNAME a.gcm\n");
    Some(waited && reported && fed)
}

/// Whether an item is kept for unit a.
fn has_item<D: Desk<Item = ()>>(desk: &mut D) -> bool
    requires { 0 < unit_count (D.tells desk.old).seen.project }
{
    matches!(desk.fetch(0), Ok(Some(())))
}

/// Whether a report of connection 0 takes the item that is kept for it, and leaves that on the shelf.
fn reports_with_item<D: Desk<Item = ()>>(
    project: &Project,
    session: &mut Session<()>,
    link: &mut MemLink,
    desk: &mut D,
) -> Option<bool>
    requires anew { StandsAfter session.old project.now [] }
    requires reading { IsReading session.old }
    requires fits { Fits (D.fits (D.tells desk.old).held) session.old.stash }
    requires conn { session.old.conn ≡ 0 }
    requires worker { (D.tells desk.old).opened + (D.tells desk.old).dones < (D.tells desk.old).share }
    requires room { IsFalse (D.tells desk.old).metered }
    requires project { project.now ≡ (D.tells desk.old).seen.project }
    requires unit { 0 < unit_count project.now }
{
    if !opens(desk, 0) {
        return None;
    }
    let Some(turn) = answer(project, session, REPORT, desk, link) else {
        return None;
    };
    let kept = has_item(desk);
    Some(is_fed(turn, link, b"HELLO 1 modmap ;\nPATHNAME a.gcm ;\nOK\n") && kept)
}

/// A link with no input.
fn link_of(alloc: Global) -> Result<MemLink, Memory> {
    MemLink::new(alloc, b"", 1_000, &[], &[], &[], &[])
}

/// Whether an import of a new session waits, and is answered when another one has reported its unit.
fn sessions_wait<D: Desk<Item = ()>>(
    alloc: Global,
    project: &Project,
    link: &mut MemLink,
    other: &mut MemLink,
    desk: &mut D,
) -> Result<Option<bool>, Memory>
    requires opened { (D.tells desk.old).opened ≡ 0 }
    requires dones { (D.tells desk.old).dones ≡ 0 }
    requires share { (D.tells desk.old).share ≡ 2 }
    requires room { IsFalse (D.tells desk.old).metered }
    requires project { project.now ≡ (D.tells desk.old).seen.project }
{
    let mut first = Session::new(alloc)?;
    let mut second = Session::new(alloc)?;
    second.reset(1);
    Ok(waits_for_report(project, &mut first, &mut second, link, other, desk))
}

/// The same with two new links.
fn links_wait<D: Desk<Item = ()>>(
    alloc: Global,
    project: &Project,
    desk: &mut D,
) -> Result<Option<bool>, Memory>
    requires opened { (D.tells desk.old).opened ≡ 0 }
    requires dones { (D.tells desk.old).dones ≡ 0 }
    requires share { (D.tells desk.old).share ≡ 2 }
    requires room { IsFalse (D.tells desk.old).metered }
    requires project { project.now ≡ (D.tells desk.old).seen.project }
{
    let mut link = link_of(alloc)?;
    let mut other = link_of(alloc)?;
    sessions_wait(alloc, project, &mut link, &mut other, desk)
}

/// The same at a desk that has a whole book.
fn desk_waits<S: Shelf<Item = ()> + Drop>(
    alloc: Global,
    project: &Project,
    book: Book<S>,
) -> Result<Option<bool>, Memory>
    requires { book.ledger ≡ record { project = project.now; workers = 2; limit = 64; entries = [] } }
{
    let mut desk = SoloDesk::new(book);
    links_wait(alloc, project, &mut desk)
}

/// The same with a book of marks.
fn run_waiting(alloc: Global, project: &Project) -> Result<Option<bool>, Memory> {
    let book = book_of(alloc, project)?;
    desk_waits(alloc, project, book)
}

/// Whether a report of a new session takes the item that is kept for it, and leaves that on the shelf.
fn session_reports<D: Desk<Item = ()>>(
    alloc: Global,
    project: &Project,
    desk: &mut D,
) -> Result<Option<bool>, Memory>
    requires fits { D.fits (D.tells desk.old).held 0 tt }
    requires worker { (D.tells desk.old).opened + (D.tells desk.old).dones < (D.tells desk.old).share }
    requires room { IsFalse (D.tells desk.old).metered }
    requires project { project.now ≡ (D.tells desk.old).seen.project }
    requires unit { 0 < unit_count project.now }
{
    let mut session = Session::new(alloc)?;
    session.stash(0, ());
    let mut link = link_of(alloc)?;
    Ok(reports_with_item(project, &mut session, &mut link, desk))
}

/// The same at a desk that has a whole book.
fn desk_reports<S: Shelf<Item = ()> + Drop>(
    alloc: Global,
    project: &Project,
    book: Book<S>,
) -> Result<Option<bool>, Memory>
    requires anew { book.ledger ≡ record { project = project.now; workers = 2; limit = 64; entries = [] } }
    requires fits { S.fits (S.held book.shelf) 0 tt }
    requires unit { 0 < unit_count project.now }
{
    let mut desk = SoloDesk::new(book);
    session_reports(alloc, project, &mut desk)
}

/// The same with a book of marks.
fn run_report(alloc: Global, project: &Project) -> Result<Option<bool>, Memory> {
    if project.unit_count() == 0 {
        return Ok(None);
    }
    let book = book_of(alloc, project)?;
    desk_reports(alloc, project, book)
}

#[test]
fn ends(rt: HostRuntime) -> Result<(), Fail> {
    let mut session: Session<u32> = Session::new(rt.alloc()).ok().ok_or("memory")?;
    assert_eq!(rt; session.end_of_input(), ConnEnd::Closed);
    assert_eq!(rt; session.read_failed(), ConnEnd::Closed);
    session.reset(7);
    assert_eq!(rt; session.read_failed(), ConnEnd::ReadFault);
    assert_eq!(rt; session.end_of_input(), ConnEnd::ReadFault);
    session.reset(8);
    session.stash(3, 40);
    assert_eq!(rt; session.end_of_input(), ConnEnd::Closed);
    Ok(())
}

#[test]
fn a_block_waits(rt: HostRuntime) -> Result<(), Fail> {
    let project = read(rt.alloc(), PROJECT).ok().ok_or("project")?;
    assert_eq!(rt;
        run_waiting(rt.alloc(), &project).ok().ok_or("memory")?,
        Some(true)
    );
    Ok(())
}

#[test]
fn a_report_has_its_item(rt: HostRuntime) -> Result<(), Fail> {
    let project = read(rt.alloc(), PROJECT).ok().ok_or("project")?;
    assert_eq!(rt;
        run_report(rt.alloc(), &project).ok().ok_or("memory")?,
        Some(true)
    );
    Ok(())
}
