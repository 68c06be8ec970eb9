//! The session of one connection.

ghost use Rattle.std.specs.Prelude.{◌≡◌, ◌≢◌, ◌≤◌, List, ℕ, [], length, IfOk, None, Some, IsTrue, IsFalse, true};
ghost use Rattle.mm_outside.specs.Causes.{HasCause};
ghost use Rattle.cody_batches.specs.Blocks.{held, most_octets};
ghost use Rattle.unit_registry.specs.Projects.{ProjectView};
ghost use Rattle.registry_core.specs.Desks.{Looks};
ghost use Rattle.connection_core.specs.declared.conn_end.ConnEnd.{ConnEnd};
ghost use Rattle.connection_core.specs.Asking.{is_refused};
ghost use Rattle.connection_core.specs.Taking.{Takes, CountsTaken, IsEndOfInput, end_holding};
ghost use Rattle.connection_core.specs.Entering.{Fits, IsServing};
ghost use Rattle.connection_core.specs.Sessions.{StandsAfter, ended, IsIdle, IsReading, IsWaiting, KeepsNoItem, HoldsForBlock, TurnTaken, octets_taken, lines_of, HasRoomFor, EntersTook, EntersNothing, KeepsStash, EndsTaking, RepliesSo, EndsReplying, as_result};

use crate::block_reader::{BlockReader, Stage};
use crate::conn_end::{ConnEnd, Took, Turn};
use crate::entering::{Stash, enter_block};
use crate::replying::gather;
use cody_batches::MOST_LINES;
use connection_replies::{LineReply, ReplyBuf};
use mm_outside::{Failed, Link, Memory};
use registry_core::{Desk, Full};
use std::alloc::Global;
use std::marker::Model;
use unit_registry::Project;

/// The session of one connection. It takes octets, enters what each block asks at a desk when the block is whole, and
/// writes the block's replies when they are all there.
#[derive(Drop)]
pub struct Session<I> {
    /// The octets, and what the lines of the block ask that is begun or waits.
    reader: BlockReader,
    /// The connection.
    conn: u32,
    /// The item that is kept for the next report of its unit.
    stash: Option<Stash<I>>,
    /// The places of the requests of the block that waits.
    places: Vec<u32>,
    /// How the lines of the block are answered.
    replies: Vec<LineReply>,
    /// The reply lines on their way to the link.
    lines: ReplyBuf,
}

impl<I> Model for Session<I> {
    ghost use Rattle.std.specs.Vec.{vec_capacity};
    ghost use Rattle.connection_core.specs.Sessions.{SessionState, IsPrepared};

    ghost Value = { SessionState I };

    ghost view = { λ s. record { reader = s.reader; conn = s.conn; stash = s.stash; places = s.places.items } };

    ghost invariant = { λ s. IsPrepared s.reader.stage s.reader.asked s.places.items
        (vec_capacity s.places) (vec_capacity s.replies) s.lines };
}

impl<I> Session<I> {
    /// A session that has taken nothing, of connection 0. It takes all its memory here.
    ///
    /// # Errors
    ///
    /// `Memory` where there is none.
    pub fn new(alloc: Global) -> Result<Session<I>, Memory>
        ensures stands { IfOk result (λ session. (project : ProjectView) → StandsAfter session project []) }
        ensures going { IfOk result (λ session. ended session ≡ None) }
        ensures idle { IfOk result (λ session. IsIdle session) }
        ensures reading { IfOk result (λ session. IsReading session) }
        ensures stash { IfOk result (λ session. KeepsNoItem session) }
        ensures conn { IfOk result (λ session. session.conn ≡ 0) }
    {
        let reader = BlockReader::new(alloc)?;
        let places = Vec::with_capacity(alloc, MOST_LINES as usize)?;
        let replies = Vec::with_capacity(alloc, MOST_LINES as usize)?;
        let lines = ReplyBuf::new(alloc, MOST_LINES)?;
        Ok(Session {
            reader,
            conn: 0,
            stash: None,
            places,
            replies,
            lines,
        })
    }

    /// Begins anew, as the session of this connection: nothing was taken, no item is kept, and no end has come.
    pub fn reset(&mut self, conn: u32)
    where
        I: Drop,
        ensures stands { (project : ProjectView) → StandsAfter self.new project [] }
        ensures going { ended self.new ≡ None }
        ensures idle { IsIdle self.new }
        ensures reading { IsReading self.new }
        ensures stash { KeepsNoItem self.new }
        ensures conn { self.new.conn ≡ conn }
    {
        self.reader.reset();
        self.conn = conn;
        self.stash = None;
        self.places.clear();
    }

    /// Keeps an item for the next report that this unit is compiled. None is kept so far.
    pub fn stash(&mut self, unit: u32, item: I)
    where
        I: Drop,
        requires { KeepsNoItem self.old }
        ensures { self.new ≡ record self.old { stash = Some (record { unit = unit; item = item }) } }
    {
        self.stash = Some(Stash { unit, item });
    }

    /// Takes octets of the connection's input, up to the end of the first block that ends in the piece, and enters what
    /// that block asks: its requests in order and then a Pause, or nothing where a line of it is malformed. The first
    /// report of a unit for which an item is kept is entered with the item; else the item stays, unless `HistoryFull`
    /// is answered. After `Block` the rest of the piece is to be taken, when `try_replies` has written the block's
    /// replies.
    ///
    /// All acts of a block are entered under one turn of the desk, which it keeps for the block's first `try_replies`.
    ///
    /// # Ends
    ///
    /// `TooLong` exactly at octet 67,108,865 since `reset`, `BatchTooLong` exactly where line 1,025 of a block ends,
    /// and `HistoryFull` where the desk has no room for an act, with its numbers, and never where it has room for the
    /// acts of the block's lines and a Pause; what comes first is answered. An end stays: every later call but `reset`
    /// answers it, and enters and writes nothing.
    pub fn take<D: Desk<Item = I>>(&mut self, project: &Project, piece: &[u8], desk: &mut D) -> Took
    where
        I: Drop,
        requires idle { IsIdle self.old }
        requires project { project.now ≡ (D.tells desk.old).seen.project }
        requires serving { ended self.old ≡ None → IsServing self.old.conn (D.tells desk.old) }
        requires stands { ended self.old ≡ None
            → (fed : List ℕ) × StandsAfter self.old project.now fed }
        requires fits { Fits (D.fits (D.tells desk.old).held) self.old.stash }
        requires room { ended self.old ≡ None → IsTrue (D.tells desk.old).metered
            → HasRoomFor self.old project.now piece.now (D.tells desk.old).room }
        ensures took { (fed : List ℕ) → StandsAfter self.old project.now fed
            → Takes project.now fed piece.now result self.new.reader }
        ensures entered { ended self.old ≡ None
            → EntersTook result self.old self.new (D.tells desk.old) (D.tells desk.new) }
        ensures nothing { ended self.old ≡ None → EntersNothing result self.new
            → desk.new ≡ desk.old }
        ensures roomy { ended self.old ≡ None
            → HasRoomFor self.old project.now piece.now (D.tells desk.old).room
            → (entries reserved : ℕ) → result ≢ Took.Ended (ConnEnd.HistoryFull entries reserved) }
        ensures count { CountsTaken (length piece.now) result
            (octets_taken self.old) (octets_taken self.new) }
        ensures bound { ended self.old ≡ None → octets_taken self.new ≤ most_octets }
        ensures stash { KeepsStash result self.old self.new }
        ensures end { EndsTaking result self.old self.new }
        ensures serving { ended self.old ≡ None → IsServing self.old.conn (D.tells desk.new) }
        ensures turn { TurnTaken result self.new (D.holds desk.old) (D.holds desk.new) }
        ensures conn { self.new.conn ≡ self.old.conn }
        ensures fits { Fits (D.fits (D.tells desk.old).held) self.new.stash }

        // An end stays.
        ensures ended { (how : ConnEnd) → ended self.old ≡ Some how
            → (result ≡ Took.Ended how) × (self.new ≡ self.old) × (desk.new ≡ desk.old) }
    {
        if let Stage::Ended(how) = self.reader.stage() {
            return Took::Ended(how);
        }
        project.units_differ();
        match self.reader.read(project, piece) {
            Took::Block { used } => {
                self.places.clear();
                let asked = self.reader.asked();
                match enter_block(self.conn, asked, &mut self.stash, &mut self.places, desk) {
                    Ok(()) => Took::Block { used },
                    Err(Full { entries, reserved }) => {
                        desk.release();
                        let how = ConnEnd::HistoryFull { entries, reserved };
                        self.reader.end(how);
                        Took::Ended(how)
                    }
                }
            }
            took => took,
        }
    }

    /// Writes the replies of the block that waits for them, in one piece, or answers the place of its first request that
    /// has no reply yet; then nothing is written. Where no block waits nothing is written.
    ///
    /// All replies are looked at under one turn of the desk, the one that it keeps for the block or a new one, and the
    /// turn is given back before anything is written and before `Waiting` is answered.
    ///
    /// # Ends
    ///
    /// `WriteFault` where a write failed. A proper prefix of the replies was written then.
    pub fn try_replies<D: Desk<Item = I>, L: Link>(
        &mut self,
        project: &Project,
        desk: &mut D,
        link: &mut L,
    ) -> Turn
        requires project { project.now ≡ (D.tells desk.old).seen.project }
        requires serving { ended self.old ≡ None → IsServing self.old.conn (D.tells desk.old) }
        ensures replies { ended self.old ≡ None
            → RepliesSo result (D.tells desk.new).seen self.old (L.octets link.old) (L.octets link.new) }
        ensures stands { (fed : List ℕ) → StandsAfter self.old project.now fed
            → result ≡ Turn.Fed → StandsAfter self.new project.now fed }
        ensures waits { (place : ℕ) → result ≡ Turn.Waiting place
            → (self.new ≡ self.old) × (link.new ≡ link.old) }
        ensures looked { ended self.old ≡ None → Looks (D.tells desk.old) (D.tells desk.new) }
        ensures refused { is_refused (lines_of self.old) ≡ true → desk.new ≡ desk.old }
        ensures turn { IsWaiting self.old → HoldsForBlock self.old (D.holds desk.old)
            → IsFalse (D.holds desk.new) }
        ensures idle { IsIdle self.old → ended self.old ≡ None → (result ≡ Turn.Fed)
            × (self.new ≡ self.old) × (desk.new ≡ desk.old) × (link.new ≡ link.old) }
        ensures serving { ended self.old ≡ None → IsServing self.old.conn (D.tells desk.new) }
        ensures count { octets_taken self.new ≡ octets_taken self.old }
        ensures conn { self.new.conn ≡ self.old.conn }
        ensures stash { self.new.stash ≡ self.old.stash }
        ensures end { EndsReplying result self.old self.new }

        // A new end is a write fault alone.
        ensures fault { ended self.old ≡ None
            → HasCause (L.write_faults link.old) (L.write_faults link.new) (as_result result) }
        ensures reads { L.read_faults link.new ≡ L.read_faults link.old }

        // An end stays.
        ensures ended { (how : ConnEnd) → ended self.old ≡ Some how → (result ≡ Turn.Ended how)
            × (self.new ≡ self.old) × (desk.new ≡ desk.old) × (link.new ≡ link.old) }
    {
        match self.reader.stage() {
            Stage::Reading => return Turn::Fed,
            Stage::Ended(how) => return Turn::Ended(how),
            Stage::Waiting => {}
        }
        self.replies.clear();
        if let Some(place) = gather(self.reader.asked(), &self.places, desk, &mut self.replies) {
            return Turn::Waiting { place };
        }
        match self.lines.send(project, &self.replies, link) {
            Ok(()) => {
                self.reader.go_on();
                Turn::Fed
            }
            Err(Failed) => {
                self.reader.end(ConnEnd::WriteFault);
                Turn::Ended(ConnEnd::WriteFault)
            }
        }
    }

    /// Ends the session where the input has ended: `Closed`, or `Truncated` where a block is begun, with the number of
    /// its lines, an unfinished one counted, even one that is white space so far. An end that has come stays.
    pub fn end_of_input(&mut self) -> ConnEnd
        ensures end { (project : ProjectView) (fed : List ℕ) → StandsAfter self.old project fed
            → ended self.old ≡ None → result ≡ end_holding (held fed) }
        ensures kind { ended self.old ≡ None → IsEndOfInput result }
        ensures stays { ended self.new ≡ Some result }
        ensures count { octets_taken self.new ≡ octets_taken self.old }
        ensures conn { self.new.conn ≡ self.old.conn }
        ensures ended { (how : ConnEnd) → ended self.old ≡ Some how
            → (result ≡ how) × (self.new ≡ self.old) }
    {
        if let Stage::Ended(how) = self.reader.stage() {
            return how;
        }
        let how = self.reader.input_end();
        self.reader.end(how);
        how
    }

    /// Ends the session where a read of its link has failed, by `ReadFault`. An end that has come stays.
    pub fn read_failed(&mut self) -> ConnEnd
        ensures end { ended self.old ≡ None → result ≡ ConnEnd.ReadFault }
        ensures stays { ended self.new ≡ Some result }
        ensures count { octets_taken self.new ≡ octets_taken self.old }
        ensures conn { self.new.conn ≡ self.old.conn }
        ensures ended { (how : ConnEnd) → ended self.old ≡ Some how
            → (result ≡ how) × (self.new ≡ self.old) }
    {
        if let Stage::Ended(how) = self.reader.stage() {
            return how;
        }
        self.reader.end(ConnEnd::ReadFault);
        ConnEnd::ReadFault
    }
}
