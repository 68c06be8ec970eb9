//! Serving a connection, step by step, until it waits or has ended.

ghost use Rattle.std.specs.Prelude.{◌≡◌, ◌≢◌, ◌<◌, ◌≤◌, ◌+◌, List, ℕ, length, None, Some, IfSome, IsFalse};
ghost use Rattle.mm_outside.specs.Causes.{Rose};
ghost use Rattle.mm_outside.specs.Octets.{Octets};
ghost use Rattle.mm_outside.specs.Told.{Told};
ghost use Rattle.registry_core.specs.Desks.{DeskState};
ghost use Rattle.registry_core.specs.Ledgers.{reply_at};
ghost use Rattle.connection_core.specs.declared.conn_end.ConnEnd.TheVariants as ends;
ghost use Rattle.connection_core.specs.Answers.{IsFirstMissing};
ghost use Rattle.connection_core.specs.Sessions.{IsReading, IsWaiting, octets_taken, ended};
ghost use Rattle.mapper_server.specs.declared.step.Step.TheVariants as steps;
ghost use Rattle.mapper_server.specs.declared.step.Stop.TheVariants as stops;
ghost use Rattle.mapper_server.specs.Steps.{as_step, rest_of, IsGoing, AtDesk, Continues, Steps, TurnIn, UnlessEnded, WhereEnded, StepCauses, Fills, EndsInput, TellsFull};

use connection_core::{ConnEnd, Session, Took, Turn};
use mm_outside::{Failed, Link};
use registry_core::Desk;
use unit_registry::Project;

/// What a step of serving a connection comes to.
#[derive(Clone, Copy, Debug, PartialEq, Eq)]
pub enum Step {
    /// What waited was answered, and octets were taken: it goes on.
    GoesOn,
    /// The request at this place of the history has no reply yet, and its block waits for it.
    Waits { place: u32 },
    /// The connection has ended.
    Ended(ConnEnd),
}

/// Where serving a connection stops.
#[derive(Clone, Copy, Debug, PartialEq, Eq)]
pub enum Stop {
    /// The request at this place of the history has no reply yet, and its block waits for it.
    Waits { place: u32 },
    /// The connection has ended.
    Ended(ConnEnd),
}

/// Which octets of the room were read and not yet taken: those from one place to another.
#[derive(Drop)]
pub(crate) struct Piece {
    /// The place of the first.
    pub(crate) at: usize,
    /// The place after the last.
    pub(crate) end: usize,
}

/// The octets that were read and not yet taken.
fn rest<'a>(room: &'a [u8], piece: &Piece) -> &'a [u8]
    requires order { piece.now.at ≤ piece.now.end }
    requires within { piece.now.end ≤ length room.now }
    ensures { result.now ≡ rest_of piece.now.at piece.now.end room.now }
{
    let (front, _) = room.split_at(piece.end);
    let (_, rest) = front.split_at(piece.at);
    rest
}

/// Answers the block that waits, if one does and all its replies are there.
fn reply<D: Desk, L: Link>(
    project: &Project,
    session: &mut Session<D::Item>,
    desk: &mut D,
    link: &mut L,
) -> Step
    requires at_desk { AtDesk project.now session.old.conn (D.tells desk.old) }
    requires going { IsGoing project.now (D.tells desk.old).seen.entries session.old }
    requires turn { TurnIn session.old.reader.stage session.old (D.holds desk.old) }
    ensures steps { (rest : List ℕ) → Told (Steps project.now result session.old session.new (D.tells desk.old) (D.tells desk.new) rest rest) (L.octets link.old) (L.octets link.new) }
    ensures at_desk { AtDesk project.now session.old.conn (D.tells desk.new) }
    ensures continues { Continues session.old.conn (D.tells desk.old) (D.tells desk.new) }
    ensures going { UnlessEnded result (IsGoing project.now (D.tells desk.new).seen.entries session.new) }
    ensures reading { result ≡ steps.GoesOn → IsReading session.new }
    ensures waits { (place : ℕ) → result ≡ steps.Waits place → IsWaiting session.new × IsFirstMissing (reply_at (D.tells desk.new).seen) session.new.places place }
    ensures full { WhereEnded result (TellsFull (D.tells desk.new).seen) }
    ensures causes { StepCauses result (L.read_faults link.old) (L.read_faults link.new) (L.write_faults link.old) (L.write_faults link.new) }
    ensures turn { IsFalse (D.holds desk.new) }
    ensures count { octets_taken session.new ≡ octets_taken session.old }
    ensures conn { session.new.conn ≡ session.old.conn }
{
    match session.try_replies(project, desk, link) {
        Turn::Fed => Step::GoesOn,
        Turn::Waiting { place } => Step::Waits { place },
        Turn::Ended(how) => Step::Ended(how),
    }
}

/// Reads some octets where all were taken; the end where none come.
fn fill<I, L: Link>(
    session: &mut Session<I>,
    link: &mut L,
    room: &mut [u8],
    piece: &mut Piece,
) -> Option<ConnEnd>
    requires room { 0 < length room.old }
    requires order { piece.old.at ≤ piece.old.end }
    requires within { piece.old.end ≤ length room.old }
    requires going { ended session.old ≡ None }
    ensures fills { Told (Fills result (rest_of piece.old.at piece.old.end room.old) (rest_of piece.new.at piece.new.end room.new)) (L.octets link.old) (L.octets link.new) }
    ensures ends { IfSome result (λ how. EndsInput how session.old) }
    ensures some { result ≡ None → piece.new.at < piece.new.end }
    ensures within { piece.new.end ≤ length room.new }
    ensures room { length room.new ≡ length room.old }
    ensures same { result ≡ None → session.new ≡ session.old }
    ensures conn { session.new.conn ≡ session.old.conn }
    ensures read_fault { result ≡ Some ends.ReadFault → Rose (L.read_faults link.old) (L.read_faults link.new) }
    ensures read_kept { result ≢ Some ends.ReadFault → L.read_faults link.new ≡ L.read_faults link.old }
    ensures write_kept { L.write_faults link.new ≡ L.write_faults link.old }
{
    if piece.at < piece.end {
        return None;
    }
    match link.read(room) {
        Ok(0) => Some(session.end_of_input()),
        Ok(count) => {
            piece.at = 0;
            piece.end = count;
            None
        }
        Err(Failed) => Some(session.read_failed()),
    }
}

/// Takes octets of the rest, up to the end of the first block that ends in it.
fn take_some<D: Desk>(
    project: &Project,
    session: &mut Session<D::Item>,
    desk: &mut D,
    room: &[u8],
    piece: &mut Piece,
) -> Step
where
    D::Item: Drop,
    requires at_desk { AtDesk project.now session.old.conn (D.tells desk.old) }
    requires going { IsGoing project.now (D.tells desk.old).seen.entries session.old }
    requires reading { IsReading session.old }
    requires turn { IsFalse (D.holds desk.old) }
    requires some { piece.old.at < piece.old.end }
    requires within { piece.old.end ≤ length room.now }
    ensures steps { (now : Octets) → Steps project.now result session.old session.new (D.tells desk.old) (D.tells desk.new) (rest_of piece.old.at piece.old.end room.now) (rest_of piece.new.at piece.new.end room.now) now now }
    ensures at_desk { AtDesk project.now session.old.conn (D.tells desk.new) }
    ensures continues { Continues session.old.conn (D.tells desk.old) (D.tells desk.new) }
    ensures going { UnlessEnded result (IsGoing project.now (D.tells desk.new).seen.entries session.new) }
    ensures never_waits { (place : ℕ) → result ≢ steps.Waits place }
    ensures full { WhereEnded result (TellsFull (D.tells desk.new).seen) }
    ensures no_fault { (result ≢ steps.Ended ends.ReadFault) × (result ≢ steps.Ended ends.WriteFault) }
    ensures turn { TurnIn session.new.reader.stage session.new (D.holds desk.new) }
    ensures released { result ≢ steps.GoesOn → IsFalse (D.holds desk.new) }
    ensures count { result ≡ steps.GoesOn → octets_taken session.old < octets_taken session.new }
    ensures order { piece.new.at ≤ piece.new.end }
    ensures within { piece.new.end ≤ length room.now }
    ensures conn { session.new.conn ≡ session.old.conn }
{
    match session.take(project, rest(room, piece), desk) {
        Took::All => {
            piece.at = piece.end;
            Step::GoesOn
        }
        Took::Block { used } => {
            piece.at += used;
            Step::GoesOn
        }
        Took::Ended(how) => Step::Ended(how),
    }
}

/// Reads octets where none are left, and takes some.
fn take_more<D: Desk, L: Link>(
    project: &Project,
    session: &mut Session<D::Item>,
    desk: &mut D,
    link: &mut L,
    room: &mut [u8],
    piece: &mut Piece,
) -> Step
where
    D::Item: Drop,
    requires at_desk { AtDesk project.now session.old.conn (D.tells desk.old) }
    requires going { IsGoing project.now (D.tells desk.old).seen.entries session.old }
    requires reading { IsReading session.old }
    requires turn { IsFalse (D.holds desk.old) }
    requires room { 0 < length room.old }
    requires order { piece.old.at ≤ piece.old.end }
    requires within { piece.old.end ≤ length room.old }
    ensures steps { Told (Steps project.now result session.old session.new (D.tells desk.old) (D.tells desk.new) (rest_of piece.old.at piece.old.end room.old) (rest_of piece.new.at piece.new.end room.new)) (L.octets link.old) (L.octets link.new) }
    ensures at_desk { AtDesk project.now session.old.conn (D.tells desk.new) }
    ensures continues { Continues session.old.conn (D.tells desk.old) (D.tells desk.new) }
    ensures going { UnlessEnded result (IsGoing project.now (D.tells desk.new).seen.entries session.new) }
    ensures never_waits { (place : ℕ) → result ≢ steps.Waits place }
    ensures full { WhereEnded result (TellsFull (D.tells desk.new).seen) }
    ensures causes { StepCauses result (L.read_faults link.old) (L.read_faults link.new) (L.write_faults link.old) (L.write_faults link.new) }
    ensures turn { TurnIn session.new.reader.stage session.new (D.holds desk.new) }
    ensures released { result ≢ steps.GoesOn → IsFalse (D.holds desk.new) }
    ensures count { result ≡ steps.GoesOn → octets_taken session.old < octets_taken session.new }
    ensures order { UnlessEnded result (piece.new.at ≤ piece.new.end) }
    ensures within { piece.new.end ≤ length room.new }
    ensures room { length room.new ≡ length room.old }
    ensures conn { session.new.conn ≡ session.old.conn }
{
    match fill(session, link, room, piece) {
        Some(how) => Step::Ended(how),
        None => take_some(project, session, desk, room, piece),
    }
}

/// One step: answers what waits, and then takes octets, up to the end of a block. Octets are read where all that were
/// read before have been taken.
pub(crate) fn advance<D: Desk, L: Link>(
    project: &Project,
    session: &mut Session<D::Item>,
    desk: &mut D,
    link: &mut L,
    room: &mut [u8],
    piece: &mut Piece,
) -> Step
where
    D::Item: Drop,
    requires at_desk { AtDesk project.now session.old.conn (D.tells desk.old) }
    requires going { IsGoing project.now (D.tells desk.old).seen.entries session.old }
    requires turn { TurnIn session.old.reader.stage session.old (D.holds desk.old) }
    requires room { 0 < length room.old }
    requires order { piece.old.at ≤ piece.old.end }
    requires within { piece.old.end ≤ length room.old }
    ensures steps { Told (Steps project.now result session.old session.new (D.tells desk.old) (D.tells desk.new) (rest_of piece.old.at piece.old.end room.old) (rest_of piece.new.at piece.new.end room.new)) (L.octets link.old) (L.octets link.new) }
    ensures at_desk { AtDesk project.now session.old.conn (D.tells desk.new) }
    ensures continues { Continues session.old.conn (D.tells desk.old) (D.tells desk.new) }
    ensures going { UnlessEnded result (IsGoing project.now (D.tells desk.new).seen.entries session.new) }
    ensures waits { (place : ℕ) → result ≡ steps.Waits place → IsWaiting session.new × IsFirstMissing (reply_at (D.tells desk.new).seen) session.new.places place }
    ensures full { WhereEnded result (TellsFull (D.tells desk.new).seen) }
    ensures causes { StepCauses result (L.read_faults link.old) (L.read_faults link.new) (L.write_faults link.old) (L.write_faults link.new) }
    ensures turn { TurnIn session.new.reader.stage session.new (D.holds desk.new) }
    ensures released { result ≢ steps.GoesOn → IsFalse (D.holds desk.new) }
    ensures count { result ≡ steps.GoesOn → octets_taken session.old < octets_taken session.new }
    ensures order { UnlessEnded result (piece.new.at ≤ piece.new.end) }
    ensures within { piece.new.end ≤ length room.new }
    ensures room { length room.new ≡ length room.old }
    ensures conn { session.new.conn ≡ session.old.conn }
{
    match reply(project, session, desk, link) {
        Step::GoesOn => take_more(project, session, desk, link, room, piece),
        Step::Waits { place } => Step::Waits { place },
        Step::Ended(how) => Step::Ended(how),
    }
}

/// Serves a connection step by step until a block waits for a reply or the connection has ended. Each connection is served
/// by this, whether alone or beside others.
pub(crate) fn serve_on<D: Desk, L: Link>(
    project: &Project,
    session: &mut Session<D::Item>,
    desk: &mut D,
    link: &mut L,
    room: &mut [u8],
    piece: &mut Piece,
) -> Stop
where
    D::Item: Drop,
    requires at_desk { AtDesk project.now session.old.conn (D.tells desk.old) }
    requires going { IsGoing project.now (D.tells desk.old).seen.entries session.old }
    requires turn { TurnIn session.old.reader.stage session.old (D.holds desk.old) }
    requires room { 0 < length room.old }
    requires order { piece.old.at ≤ piece.old.end }
    requires within { piece.old.end ≤ length room.old }
    ensures steps { Told (Steps project.now (as_step result) session.old session.new (D.tells desk.old) (D.tells desk.new) (rest_of piece.old.at piece.old.end room.old) (rest_of piece.new.at piece.new.end room.new)) (L.octets link.old) (L.octets link.new) }
    ensures at_desk { AtDesk project.now session.old.conn (D.tells desk.new) }
    ensures continues { Continues session.old.conn (D.tells desk.old) (D.tells desk.new) }
    ensures going { UnlessEnded (as_step result) (IsGoing project.now (D.tells desk.new).seen.entries session.new) }
    ensures waits { (place : ℕ) → result ≡ stops.Waits place → IsWaiting session.new × IsFirstMissing (reply_at (D.tells desk.new).seen) session.new.places place }
    ensures full { WhereEnded (as_step result) (TellsFull (D.tells desk.new).seen) }
    ensures causes { StepCauses (as_step result) (L.read_faults link.old) (L.read_faults link.new) (L.write_faults link.old) (L.write_faults link.new) }
    ensures turn { TurnIn session.new.reader.stage session.new (D.holds desk.new) }
    ensures released { IsFalse (D.holds desk.new) }
    ensures order { UnlessEnded (as_step result) (piece.new.at ≤ piece.new.end) }
    ensures within { piece.new.end ≤ length room.new }
    ensures room { length room.new ≡ length room.old }
    ensures conn { session.new.conn ≡ session.old.conn }
{
    loop {
        match advance(project, session, desk, link, room, piece) {
            Step::GoesOn => {}
            Step::Waits { place } => return Stop::Waits { place },
            Step::Ended(how) => return Stop::Ended(how),
        }
    }
}
