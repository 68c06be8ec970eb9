//! Serving the links of many halls at once, over one history.

ghost use Rattle.std.specs.Prelude.{◌≡◌, ◌≤◌, ◌<◌, ◌+◌, ◌∷◌, ◌++◌, [], ℕ, All, IfErr, IfOk, IsFalse, length, vec_len};
ghost use Rattle.std.specs.Thread.{IsSend, IsSync};
ghost use Rattle.std.specs.Vec.{vec_capacity};
ghost use Rattle.mm_outside.specs.Causes.{Rose};
ghost use Rattle.mm_outside.specs.Told.{Told};
ghost use Rattle.registry_core.specs.Ledgers.{LedgerView};
ghost use Rattle.ruled_history.specs.Views.{IsBare, with_entries};
ghost use Rattle.trace_text.specs.Texts.{trace};
ghost use Rattle.mapper_server.specs.Complete.{NothingHinders};
ghost use Rattle.mapper_server.specs.Headline.{EachPair, EndsPrinting, HandsBack, IsOf, ReturnsAll, Serves};
ghost use Rattle.mapper_server.specs.Limits.{most_entries, most_halls};
ghost use Rattle.mapper_server.specs.Printing.{Prints, line_room};
ghost use Rattle.mapper_server.specs.Statuses.{Grew, IsLeast, IsServingStatus};
ghost use Rattle.mapper_server.specs.Workers.{AllWork, IsLeft, IsReady, MayWork, WorksAt};

use crate::printing::print_trace;
use crate::worker::{less_of, work};
use cody_words::LineBuf;
use connection_core::Session;
use mm_outside::{Failed, Hall, Memory, Sink};
use registry_core::{Book, NoShelf};
use ruled_history::{Bell, Registry, Seat, SharedDesk};
use std::alloc::Global;
use std::sync::Wait;
use std::thread::{Threads, join};
use unit_registry::Project;

/// The octets that a line of a trace has at most, its NEWLINE counted.
const LINE_ROOM: u32 = 64;

/// What serving came to.
#[derive(Drop)]
pub struct Served<H> {
    /// The halls, each with its links given back.
    pub halls: Vec<H>,
    /// How many entries the history has.
    pub entries: u32,
    /// The least status above 0 that a link, a hall or the printing ended with, else 0.
    pub status: u8,
}

/// Why nothing was served.
#[derive(Drop)]
pub enum ServeError<H> {
    /// Memory ran out before any link was accepted. The halls are as they were.
    Memory(Vec<H>),
}

/// A worker that has ended: its seat and its hall, and its status.
#[derive(Drop)]
struct Worked<H> {
    seat: Seat,
    hall: H,
    status: u8,
}

/// Workers that have ended: their seats as one and their halls, and the least of their statuses above 0, else 0.
#[derive(Drop)]
struct AllWorked<H> {
    seat: Seat,
    halls: Vec<H>,
    status: u8,
}

/// Serves the links of one hall at a seat of one share.
fn work_at<R: Wait, H: Hall>(
    rt: &R,
    registry: &Registry<NoShelf>,
    bell: &Bell,
    project: &Project,
    seat: Seat,
    session: Session<()>,
    hall: H,
) -> Worked<H>
    requires seat { seat.registry ≡ registry.now.name }
    requires bare { IsBare seat.knows }
    requires one { seat.knows.share ≡ 1 }
    requires loose { IsFalse registry.now.metered }
    requires project { registry.now.opening.ledger.project ≡ project.now }
    requires given { (H.counts hall).back ≤ (H.counts hall).given }
    ensures left { IsLeft seat result.seat }
    ensures works { WorksAt H.links H.faults H.counts H.Link.octets H.Link.read_faults H.Link.write_faults (with_entries registry.now.opening.ledger result.seat.knows.seen) result.seat.knows.connections hall result.hall result.status }
{
    let mut session = session;
    let mut hall = hall;
    let mut desk = SharedDesk::new(rt, registry, seat, bell);
    let status = work(rt, project, &mut session, &mut desk, bell, &mut hall);
    Worked {
        seat: desk.into_seat(),
        hall,
        status,
    }
}

/// Serves the links of all halls at once, each by a worker of its own in a thread of its own, at a seat with as many
/// shares.
#[cycle(workers)]
fn work_all<R: Threads + Wait + Sync, H: Hall + Send + Drop>(
    rt: &R,
    registry: &Registry<NoShelf>,
    bell: &Bell,
    project: &Project,
    seat: Seat,
    sessions: Vec<Session<()>>,
    halls: Vec<H>,
) -> AllWorked<H>
where
    H::Link: Send,
    requires sync { IsSync R.row }
    requires send { IsSend H.row × IsSend H.Link.row }
    requires ready { MayWork H.counts registry.now project.now seat (vec_len sessions) halls.items }
    ensures left { IsLeft seat result.seat }
    ensures work { AllWork H.links H.faults H.counts H.Link.octets H.Link.read_faults H.Link.write_faults registry.now.opening.ledger result.seat.knows halls.items result.halls.items result.status }
    ensures room { vec_capacity result.halls ≡ vec_capacity halls }
{
    let mut sessions = sessions;
    let mut halls = halls;
    let Some(session) = sessions.pop() else {
        unreachable!()
    };
    let Some(hall) = halls.pop() else {
        unreachable!()
    };
    if halls.is_empty() {
        let Worked { seat, hall, status } = work_at(
            rt, registry, bell, project, seat, session, hall,
        );
        halls.push_reserved(hall);
        return AllWorked {
            seat,
            halls,
            status,
        };
    }
    work_beside(
        rt, registry, bell, project, seat, sessions, halls, session, hall,
    )
}

/// Serves the links of one hall more, beside those of all others.
#[cycle(workers)]
fn work_beside<R: Threads + Wait + Sync, H: Hall + Send + Drop>(
    rt: &R,
    registry: &Registry<NoShelf>,
    bell: &Bell,
    project: &Project,
    seat: Seat,
    sessions: Vec<Session<()>>,
    halls: Vec<H>,
    session: Session<()>,
    hall: H,
) -> AllWorked<H>
where
    H::Link: Send,
    requires sync { IsSync R.row }
    requires send { IsSend H.row × IsSend H.Link.row }
    requires ready { MayWork H.counts registry.now project.now seat (vec_len sessions + 1) (halls.items ++ hall ∷ []) }
    requires some { 1 ≤ vec_len halls }
    requires room { vec_len halls < vec_capacity halls }
    ensures left { IsLeft seat result.seat }
    ensures work { AllWork H.links H.faults H.counts H.Link.octets H.Link.read_faults H.Link.write_faults registry.now.opening.ledger result.seat.knows (halls.items ++ hall ∷ []) result.halls.items result.status }
    ensures room { vec_capacity result.halls ≡ vec_capacity halls }
{
    let (rest, last) = registry.split(seat, 1, 0);
    let (all, one) = join(
        rt,
        || -> AllWorked<H>
            requires sync { IsSync R.row × IsSend H.row × IsSend H.Link.row }
            requires ready { MayWork H.counts registry.now project.now rest (vec_len sessions) halls.items }
            ensures left { IsLeft rest result.seat }
            ensures work { AllWork H.links H.faults H.counts H.Link.octets H.Link.read_faults H.Link.write_faults registry.entry.now.opening.ledger result.seat.knows halls.items result.halls.items result.status }
            ensures room { vec_capacity result.halls ≡ vec_capacity halls }
        { work_all(rt, registry, bell, project, rest, sessions, halls) },
        || -> Worked<H>
            requires ready { MayWork H.counts registry.now project.now last 1 (hall ∷ []) }
            ensures left { IsLeft last result.seat }
            ensures works { WorksAt H.links H.faults H.counts H.Link.octets H.Link.read_faults H.Link.write_faults (with_entries registry.entry.now.opening.ledger result.seat.knows.seen) result.seat.knows.connections hall result.hall result.status }
        { work_at(rt, registry, bell, project, last, session, hall) },
    );
    let mut halls = all.halls;
    halls.push_reserved(one.hall);
    AllWorked {
        seat: registry.join(all.seat, one.seat),
        halls,
        status: less_of(all.status, one.status),
    }
}

/// What serving needs, all of it taken before a link is accepted.
#[derive(Drop)]
struct Ready {
    registry: Registry<NoShelf>,
    seat: Seat,
    sessions: Vec<Session<()>>,
    line: LineBuf,
}

impl Ready {
    /// All that so many workers need.
    fn new(alloc: Global, project: &Project, workers: u32, entries: u32) -> Result<Ready, Memory>
        requires some { 1 ≤ workers }
        requires few { workers ≤ most_halls }
        requires fewest { workers ≤ entries }
        requires most { entries ≤ most_entries }
        ensures { IfOk result (λ ready. IsReady project.now workers entries ready.registry ready.seat (vec_len ready.sessions) ready.line) }
    {
        // This tells how many units a project has at most.
        project.unit_count();
        let book = Book::new(alloc, project, workers, entries, NoShelf::new())?;
        let (registry, seat) = Registry::new(alloc, book, false)?;
        let sessions = sessions_for(alloc, workers)?;
        let line = LineBuf::new(alloc, LINE_ROOM)?;
        Ok(Ready {
            registry,
            seat,
            sessions,
            line,
        })
    }
}

/// A session for each of so many workers.
fn sessions_for(alloc: Global, workers: u32) -> Result<Vec<Session<()>>, Memory>
    ensures { IfOk result (λ sessions. vec_len sessions ≡ workers) }
{
    let mut sessions = Vec::with_capacity(alloc, workers as usize)?;
    for _made in 0..workers {
        sessions.push_reserved(Session::new(alloc)?);
    }
    Ok(sessions)
}

/// Prints the history of the book as a trace. The status that the printing ends with.
fn print_book<K: Sink>(
    book: &Book<NoShelf>,
    workers: u32,
    limit: u32,
    line: &mut LineBuf,
    out: &mut K,
) -> u8
    requires limit { limit ≡ book.now.ledger.limit }
    requires room { line_room ≤ line.old.spare }
    requires empty { line.old.octets ≡ [] }
    ensures printed { Told (Prints (trace workers limit book.now.ledger.entries) (K.faults out.old) (K.faults out.new)) (K.written out.old) (K.written out.new) }
    ensures status { IsLeast (EndsPrinting Rose (K.faults out.old) (K.faults out.new)) (EndsPrinting Grew (K.faults out.old) (K.faults out.new)) result }
{
    // This tells that each entry is one that a trace can hold.
    book.is_legal();
    match print_trace(workers, limit, book.entries(), line, out) {
        Ok(()) => 0,
        Err(Failed) => 5,
    }
}

/// Serves the links of all halls, each by a worker of its own and all at once, over one history of the project with at
/// most so many entries; and prints that history as a trace. It returns once each hall gives no further link, and all
/// links that it gave have ended; nothing promises that they do, since a worker may wait for others.
///
/// # Errors
///
/// `Memory` comes only before any link is accepted.
pub fn serve<R: Threads + Wait + Sync, H: Hall + Send + Drop, K: Sink>(
    rt: &R,
    alloc: Global,
    project: &Project,
    entries: u32,
    halls: Vec<H>,
    out: &mut K,
) -> Result<Served<H>, ServeError<H>>
where
    H::Link: Send,
    requires some { 1 ≤ vec_len halls }
    requires few { vec_len halls ≤ most_halls }
    requires fewest { vec_len halls ≤ entries }
    requires most { entries ≤ most_entries }
    requires unused { All (λ hall. (H.counts hall).back ≡ 0) halls.items }
    ensures headline { IfOk result (λ served. (history : LedgerView) × IsOf project.now (vec_len halls) entries served.entries history
        × Serves H.links H.faults H.Link.octets H.Link.read_faults H.Link.write_faults history halls.items served.halls.items served.status
        (K.faults out.old) (K.faults out.new) (K.written out.old) (K.written out.new)) }
    ensures complete { IfOk result (λ served. NothingHinders H.links H.faults H.Link.octets H.Link.read_faults H.Link.write_faults project.now (vec_len halls) entries halls.items served.halls.items
        (K.faults out.old) (K.faults out.new) → served.status ≡ 0) }
    ensures kind { IfOk result (λ served. IsServingStatus served.status) }
    ensures returned { IfOk result (λ served. EachPair (λ old new. ReturnsAll (H.counts old) (H.counts new)) halls.items served.halls.items) }
    ensures memory { IfErr result (λ error. HandsBack halls error × (out.new ≡ out.old)) }
{
    serve_halls(rt, alloc, project, entries, halls, out)
}

/// Takes what serving needs, serves the links of all halls, and prints the history.
fn serve_halls<R: Threads + Wait + Sync, H: Hall + Send + Drop, K: Sink>(
    rt: &R,
    alloc: Global,
    project: &Project,
    entries: u32,
    halls: Vec<H>,
    out: &mut K,
) -> Result<Served<H>, ServeError<H>>
where
    H::Link: Send,
    requires some { 1 ≤ vec_len halls }
    requires few { vec_len halls ≤ most_halls }
    requires fewest { vec_len halls ≤ entries }
    requires most { entries ≤ most_entries }
    requires unused { All (λ hall. (H.counts hall).back ≡ 0) halls.items }
    ensures headline { IfOk result (λ served. (history : LedgerView) × IsOf project.now (vec_len halls) entries served.entries history
        × Serves H.links H.faults H.Link.octets H.Link.read_faults H.Link.write_faults history halls.items served.halls.items served.status
        (K.faults out.old) (K.faults out.new) (K.written out.old) (K.written out.new)) }
    ensures kind { IfOk result (λ served. IsServingStatus served.status) }
    ensures returned { IfOk result (λ served. EachPair (λ old new. ReturnsAll (H.counts old) (H.counts new)) halls.items served.halls.items) }
    ensures memory { IfErr result (λ error. HandsBack halls error × (out.new ≡ out.old)) }
{
    let workers = halls.len() as u32;
    match Ready::new(alloc, project, workers, entries) {
        Ok(ready) => Ok(serve_ready(rt, project, workers, entries, ready, halls, out)),
        Err(Memory) => Err(ServeError::Memory(halls)),
    }
}

/// Serves the links of all halls with what was taken for that, and prints the history.
fn serve_ready<R: Threads + Wait + Sync, H: Hall + Send + Drop, K: Sink>(
    rt: &R,
    project: &Project,
    workers: u32,
    limit: u32,
    ready: Ready,
    halls: Vec<H>,
    out: &mut K,
) -> Served<H>
where
    H::Link: Send,
    requires workers { workers ≡ vec_len halls }
    requires some { 1 ≤ vec_len halls }
    requires ready { IsReady project.now workers limit ready.registry ready.seat (vec_len ready.sessions) ready.line }
    requires unused { All (λ hall. (H.counts hall).back ≡ 0) halls.items }
    ensures kind { IsServingStatus result.status }
    ensures returned { EachPair (λ old new. ReturnsAll (H.counts old) (H.counts new)) halls.items result.halls.items }
    ensures headline { (history : LedgerView) × IsOf project.now workers limit result.entries history
        × Serves H.links H.faults H.Link.octets H.Link.read_faults H.Link.write_faults history halls.items result.halls.items result.status
        (K.faults out.old) (K.faults out.new) (K.written out.old) (K.written out.new) }
{
    let Ready {
        registry,
        seat,
        sessions,
        line,
    } = ready;
    let mut line = line;
    let bell = Bell::new();
    let AllWorked {
        seat,
        halls,
        status,
    } = work_all(rt, &registry, &bell, project, seat, sessions, halls);
    let book = registry.close(seat);
    let printed = print_book(&book, workers, limit, &mut line, out);
    Served {
        halls,
        entries: book.entries().len() as u32,
        status: less_of(status, printed),
    }
}
