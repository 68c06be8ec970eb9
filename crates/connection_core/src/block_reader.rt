//! The reader of a connection's blocks: octets in, what the lines of one block ask out.

ghost use Rattle.std.specs.Prelude.{◌≡◌, ◌≢◌, ◌<◌, ◌≤◌, ◌+◌, ◌-◌, All, List, ℕ, [], ◌++◌, ◌∷◌, length, IfOk, None, Some, MatchOption};
ghost use Rattle.cody_words.specs.Octets.{newline};
ghost use Rattle.cody_batches.specs.Blocks.{most_lines, most_octets, held};
ghost use Rattle.unit_registry.specs.Projects.{ProjectView};
ghost use Rattle.connection_core.specs.Standing.{ReaderStands};
ghost use Rattle.connection_core.specs.Taking.{Takes, CountsTaken, IsEndOfInput, end_holding};
ghost use Rattle.connection_core.specs.Working.{GoesOn, StageAfter, StandsSomewhere, TakesLine, TakesLines};

use crate::asked::{Asked, Note, note_line};
use crate::conn_end::{ConnEnd, Took};
use cody_batches::{Intake, MOST_LINES};
use memchr::memchr;
use mm_outside::Memory;
use std::alloc::Global;
use std::marker::Model;
use unit_registry::Project;

/// The most octets of a connection's input, 64 MiB: this project's own limit.
const MOST_OCTETS: u32 = 67_108_864;

/// How a connection goes on. Its end stays until the reader is reset.
#[derive(Clone, Copy, Debug, PartialEq, Eq)]
pub(crate) enum Stage {
    /// A block may be begun.
    Reading,
    /// A whole block waits for its replies.
    Waiting,
    /// The connection has ended.
    Ended(ConnEnd),
}

/// What a line brought.
enum Line {
    /// Its block goes on, or it is blank.
    More,
    /// Its block ended.
    Block,
    /// Its block has too many lines.
    TooMany,
}

/// The reader of one connection's blocks. Contracts say by `ReaderStands` which octets it has taken.
#[derive(Debug, Drop)]
pub(crate) struct BlockReader {
    /// The begun line, and the number of lines of the begun block.
    intake: Intake,
    /// How many octets were taken.
    taken: u32,
    /// What the lines ask of the block that is begun or waits.
    asked: Vec<Asked>,
    /// How the connection goes on.
    stage: Stage,
}

impl Model for BlockReader {
    ghost use Rattle.std.specs.Prelude.{length};
    ghost use Rattle.std.specs.Vec.{vec_capacity};
    ghost use Rattle.connection_core.specs.Standing.{ReaderState};
    ghost use Rattle.connection_core.specs.Working.{IsReady};

    ghost Value = { ReaderState };

    ghost view = { λ r. record { intake = r.intake; taken = r.taken; asked = r.asked.items; stage = r.stage } };

    ghost invariant = { λ r. IsReady r.taken (length r.asked.items) (vec_capacity r.asked) };
}

impl BlockReader {
    /// A reader that has taken nothing. It takes all its memory here.
    ///
    /// # Errors
    ///
    /// `Memory` where there is none.
    pub(crate) fn new(alloc: Global) -> Result<BlockReader, Memory>
        ensures stands { IfOk result (λ reader. (project : ProjectView) → ReaderStands reader project []) }
        ensures stage { IfOk result (λ reader. reader.stage ≡ Stage.Reading) }
        ensures count { IfOk result (λ reader. reader.taken ≡ 0) }
    {
        Ok(BlockReader {
            intake: Intake::new(alloc)?,
            taken: 0,
            asked: Vec::with_capacity(alloc, MOST_LINES as usize)?,
            stage: Stage::Reading,
        })
    }

    /// Begins anew.
    pub(crate) fn reset(&mut self)
        ensures stands { (project : ProjectView) → ReaderStands self.new project [] }
        ensures stage { self.new.stage ≡ Stage.Reading }
        ensures count { self.new.taken ≡ 0 }
    {
        self.intake.reset();
        self.taken = 0;
        self.asked.clear();
        self.stage = Stage::Reading;
    }

    /// How the connection goes on.
    pub(crate) fn stage(&self) -> Stage
        ensures { result ≡ self.now.stage }
    {
        self.stage
    }

    /// What the lines ask of the block that is begun, or that has ended last.
    pub(crate) fn asked(&self) -> &[Asked]
        ensures asked { result.now ≡ self.now.asked }
        ensures few { length result.now ≤ most_lines }
    {
        &self.asked
    }

    /// Ends the connection.
    pub(crate) fn end(&mut self, how: ConnEnd)
        ensures { self.new ≡ record self.old { stage = Stage.Ended how } }
    {
        self.stage = Stage::Ended(how);
    }

    /// The replies of the block that waits were written.
    pub(crate) fn go_on(&mut self)
        ensures { self.new ≡ record self.old { asked = []; stage = Stage.Reading } }
    {
        self.asked.clear();
        self.stage = Stage::Reading;
    }

    /// Takes octets of the connection's input, up to the end of the first block that ends in the piece.
    pub(crate) fn read(&mut self, project: &Project, piece: &[u8]) -> Took
        requires reading { self.old.stage ≡ Stage.Reading }
        requires stands { StandsSomewhere self.old project.now }
        ensures took { (fed : List ℕ) → ReaderStands self.old project.now fed
            → Takes project.now fed piece.now result self.new }
        ensures count { CountsTaken (length piece.now) result self.old.taken self.new.taken }
        ensures bound { self.new.taken ≤ most_octets }
        ensures stage { StageAfter result self.new.stage }
    {
        let room = (MOST_OCTETS - self.taken) as usize;
        if piece.len() <= room {
            return self.take_lines(project, piece);
        }
        let (front, _) = piece.split_at(room);
        match self.take_lines(project, front) {
            Took::All => {
                self.stage = Stage::Ended(ConnEnd::TooLong);
                Took::Ended(ConnEnd::TooLong)
            }
            took => took,
        }
    }

    /// The end of the input: `Closed`, or `Truncated` where lines of a block are held.
    pub(crate) fn input_end(&self) -> ConnEnd
        ensures end { (project : ProjectView) (fed : List ℕ) → ReaderStands self.now project fed
            → result ≡ end_holding (held fed) }
        ensures kind { IsEndOfInput result }
    {
        let lines = self.intake.lines_held();
        if lines == 0 {
            ConnEnd::Closed
        } else {
            ConnEnd::Truncated { lines }
        }
    }

    /// Takes the lines of a piece, up to the end of a block.
    fn take_lines(&mut self, project: &Project, piece: &[u8]) -> Took
        requires room { self.old.taken + length piece.now ≤ most_octets }
        requires reading { self.old.stage ≡ Stage.Reading }
        requires stands { StandsSomewhere self.old project.now }
        ensures took { (fed : List ℕ) → ReaderStands self.old project.now fed
            → TakesLines project.now fed piece.now result self.new }
        ensures count { CountsTaken (length piece.now) result self.old.taken self.new.taken }
        ensures bound { self.new.taken ≤ most_octets }
        ensures stage { StageAfter result self.new.stage }
    {
        let mut used = 0;
        loop {
            let (_, rest) = piece.split_at(used);
            let Some(line) = first_line(rest) else {
                self.take_rest(rest);
                return Took::All;
            };
            used += line.len() + 1;
            match self.take_line(project, line) {
                Line::More => {}
                Line::Block => return Took::Block { used },
                Line::TooMany => return Took::Ended(ConnEnd::BatchTooLong),
            }
        }
    }

    /// Takes octets within a line.
    fn take_rest(&mut self, octets: &[u8])
        requires clean { All (λ octet. octet ≢ newline) octets.now }
        requires room { self.old.taken + length octets.now ≤ most_octets }
        requires reading { self.old.stage ≡ Stage.Reading }
        ensures stands { (project : ProjectView) (fed : List ℕ) → ReaderStands self.old project fed
            → GoesOn project fed octets.now self.new }
        ensures count { self.new.taken ≡ self.old.taken + length octets.now }
        ensures stage { self.new.stage ≡ self.old.stage }
    {
        self.intake.feed_run(octets);
        self.taken += octets.len() as u32;
    }

    /// Takes a line and its NEWLINE.
    fn take_line(&mut self, project: &Project, line: &[u8]) -> Line
        requires clean { All (λ octet. octet ≢ newline) line.now }
        requires room { self.old.taken + length line.now < most_octets }
        requires reading { self.old.stage ≡ Stage.Reading }
        requires stands { StandsSomewhere self.old project.now }
        ensures line { (fed : List ℕ) → ReaderStands self.old project.now fed
            → TakesLine project.now fed (line.now ++ newline ∷ []) result self.new }
        ensures count { self.new.taken ≡ self.old.taken + (length line.now + 1) }
        ensures more { result ≡ Line.More → self.new.stage ≡ Stage.Reading }
        ensures block { result ≡ Line.Block → self.new.stage ≡ Stage.Waiting }
        ensures end { result ≡ Line.TooMany → self.new.stage ≡ Stage.Ended ConnEnd.BatchTooLong }
    {
        self.intake.feed_run(line);
        self.taken += line.len() as u32 + 1;
        let step = self.intake.feed(b'\n');
        match note_line(project, step, self.intake.words()) {
            Note::Nothing => Line::More,
            Note::Line { asked, last: false } => {
                self.asked.push_reserved(asked);
                Line::More
            }
            Note::Line { asked, last: true } => {
                self.asked.push_reserved(asked);
                self.stage = Stage::Waiting;
                Line::Block
            }
            Note::TooMany => {
                self.stage = Stage::Ended(ConnEnd::BatchTooLong);
                Line::TooMany
            }
        }
    }
}

/// The octets before the first NEWLINE, if there is one.
fn first_line(piece: &[u8]) -> Option<&[u8]>
    ensures { MatchOption result (All (λ octet. octet ≢ newline) piece.now)
        (λ line. All (λ octet. octet ≢ newline) line.now
        × ((rest : List ℕ) × (piece.now ≡ line.now ++ newline ∷ rest))) }
{
    match memchr(b'\n', piece) {
        Some(k) => Some(&piece[..k]),
        None => None,
    }
}
