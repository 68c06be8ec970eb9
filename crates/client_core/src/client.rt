//! The client of one unit.

ghost use Rattle.std.specs.Prelude.{◌≡◌, ◌≢◌, ◌≤◌, ◌<◌, ◌+◌, ◌∷◌, [], ◌++◌, ℕ, All, List, length, slice_get, option_map, Option, Some, None, IfOk, OnOk};
ghost use Rattle.cody_words.specs.Octets.{newline};
ghost use Rattle.client_core.specs.Scripts.{block_text, imports_in, reading_of, CanBeRead};
ghost use Rattle.client_core.specs.Clients.{grants, outcome, requests, Compiles, IsNew, StandsAfter, Takes};
ghost use Rattle.client_core.specs.Working.{TakesLine};

use crate::heard::{Heard, conclude};
use crate::outcome::ClientOutcome;
use crate::replies::{first_line, is_more, line_reply};
use crate::script::Script;
use crate::stage::{Got, Stage};
use crate::task::Task;
use cody_batches::Intake;
use export_lists::{Cmi, Verdict, compile_unit};
use mm_outside::{Bytes, List, Memory};
use module_units::SourceError;
use std::alloc::Global;
use std::marker::Model;

/// What a line brought.
enum Line {
    /// Its block goes on, or it is blank.
    More,
    /// Its block of replies ended.
    Block,
    /// It isn't the reply that is due. The line is counted from 1 over the whole connection.
    Fault(u32),
}

/// The client of one unit. Contracts say of it after which octets of its connection it stands, by `StandsAfter`.
#[derive(Drop)]
pub struct Client {
    alloc: Global,
    task: Task,
    stage: Stage,
    intake: Intake,
    heard: Heard,
    /// The interface that was made, until it goes into what the client came to.
    made: Option<Cmi>,
}

impl Model for Client {
    ghost use Rattle.client_core.specs.Clients.{ClientState, made_in};
    ghost use Rattle.client_core.specs.Working.{IsFit};

    ghost Value = { ClientState };

    ghost view = { λ c. record {
      task = c.task;
      stage = c.stage;
      intake = c.intake;
      heard = c.heard;
      made = made_in c.made c.heard.came_to;
    } };

    ghost invariant = { λ c. IsFit c.task c.stage c.heard c.made };
}

impl Client {
    /// The client of a unit: the word by which it says who it is, the name of its unit, which is empty for a plain one,
    /// and what its source is. Its first block is due.
    ///
    /// # Errors
    ///
    /// `Memory` may come for any client.
    pub fn new(alloc: Global, ident: &[u8], name: &[u8], script: Script) -> Result<Client, Memory>
        requires ident { length ident.now ≤ 512 }
        requires name { length name.now ≤ 512 }
        requires readable { CanBeRead script }
        ensures { IfOk result (IsNew ident.now name.now (reading_of script)) }
    {
        Ok(Client {
            alloc,
            task: Task::new(alloc, ident, name, script)?,
            stage: Stage::Due,
            intake: Intake::new(alloc)?,
            heard: Heard {
                answered: 0,
                paths: List::new(alloc),
                came_to: None,
            },
            made: None,
        })
    }

    /// Appends the block that is due, and awaits its replies.
    ///
    /// # Errors
    ///
    /// `Memory` may come for any client. Then neither the client nor `out` is used again.
    pub fn send_into(&mut self, out: &mut Bytes) -> Result<(), Memory>
        requires { self.old.stage ≡ Stage.Due }
        ensures sent { OnOk result (out.new ≡ out.old ++ block_text (requests self.old)) }
        ensures awaits { OnOk result (self.new ≡ record self.old { stage = Stage.Await }) }
        ensures stands { OnOk result ((got : List ℕ) → StandsAfter self.old got → StandsAfter self.new got) }
    {
        self.task.write_block(self.alloc, self.made.is_some(), out)?;
        self.stage = Stage::Await;
        Ok(())
    }

    /// Takes octets of what was read, up to the end of the awaited block of replies. The octets after that are to be
    /// handed in again, when the next block was sent.
    ///
    /// # Errors
    ///
    /// `Memory` may come for any client, which isn't used again then.
    pub fn take(&mut self, piece: &[u8]) -> Result<Got, Memory>
        requires { self.old.stage ≡ Stage.Await }
        ensures { IfOk result (λ answer. (got : List ℕ) → StandsAfter self.old got
            → Takes self.old got piece.now answer self.new) }
    {
        let mut used = 0;
        loop {
            let (_, rest) = piece.split_at(used);
            let Some(line) = first_line(rest) else {
                self.intake.feed_run(rest);
                return Ok(Got::More);
            };
            used += line.len() + 1;
            match self.take_line(line)? {
                Line::More => {}
                Line::Block => return Ok(Got::Block { used }),
                Line::Fault(line) => return Ok(Got::NotReplies { line }),
            }
        }
    }

    /// Takes a line and its NEWLINE.
    fn take_line(&mut self, line: &[u8]) -> Result<Line, Memory>
        requires clean { All (λ octet. octet ≢ newline) line.now }
        requires awaits { self.old.stage ≡ Stage.Await }
        ensures line { IfOk result (λ brought. (got : List ℕ) → StandsAfter self.old got
            → TakesLine self.old got (line.now ++ newline ∷ []) brought self.new) }
        ensures more { result ≡ Ok Line.More → self.new.stage ≡ Stage.Await }
    {
        let second = self.made.is_some();
        let before = self.task.lines_before(second);
        let count = self.task.request_count(second);
        self.intake.feed_run(line);
        let step = self.intake.feed(b'\n');
        if is_more(step) {
            return Ok(Line::More);
        }
        let request = self.task.request(second, self.heard.answered);
        let more = self.heard.answered + 1 < count;
        let Some(reply) = line_reply(&request, more, step, self.intake.words()) else {
            let line = before + self.heard.answered + 1;
            self.heard.came_to = None;
            self.stage = Stage::Over;
            return Ok(Line::Fault(line));
        };
        self.heard.note(self.alloc, &request, &reply)?;
        if more {
            return Ok(Line::More);
        }
        self.stage = conclude(self.task.script(), &mut self.made, &mut self.heard.came_to);
        Ok(Line::Block)
    }

    /// How many imports the unit has.
    pub fn import_count(&self) -> u32
        requires { self.now.stage ≡ Stage.Granted }
        ensures { result ≡ length (imports_in self.now.task.reading) }
    {
        self.task.import_count()
    }

    /// The path that was granted for the import of this number, counted from 0, as the mapper wrote it.
    pub fn import_path(&self, k: u32) -> &[u8]
        requires granted { self.now.stage ≡ Stage.Granted }
        requires within { k < length (imports_in self.now.task.reading) }
        ensures { slice_get (grants self.now).imports k ≡ Some result.now }
    {
        self.heard.paths.get(self.task.paths_before() + k).octets()
    }

    /// The path that was granted for the unit's own interface, as the mapper wrote it. It is empty for a plain unit.
    pub fn export_path(&self) -> &[u8]
        requires { self.now.stage ≡ Stage.Granted }
        ensures { result.now ≡ (grants self.now).export }
    {
        if self.task.name().is_empty() {
            return &[];
        }
        self.heard.paths.get(1).octets()
    }

    /// The path of the repository, as the mapper wrote it.
    pub fn repo(&self) -> &[u8]
        requires { self.now.stage ≡ Stage.Granted }
        ensures { result.now ≡ (grants self.now).repo }
    {
        self.heard.paths.get(0).octets()
    }

    /// Compiles the unit over the interfaces of its imports, one for each, in order.
    ///
    /// # Errors
    ///
    /// `Memory` may come for any client, which isn't used again then.
    pub fn compile(&mut self, cmis: &[Cmi]) -> Result<(), Memory>
        requires granted { self.old.stage ≡ Stage.Granted }
        requires cmis { length cmis.now ≡ length (imports_in self.old.task.reading) }
        ensures compiles { OnOk result (Compiles self.old cmis.now self.new) }
        ensures stands { OnOk result ((got : List ℕ) → StandsAfter self.old got → StandsAfter self.new got) }
    {
        let Script::Good(unit) = self.task.script() else {
            unreachable!()
        };
        match compile_unit(self.alloc, unit, self.task.name(), cmis) {
            Ok(cmi) if self.task.name().is_empty() => {
                self.heard.came_to = Some(ClientOutcome::Compiled(cmi));
                self.stage = Stage::Over;
            }
            Ok(cmi) => {
                self.made = Some(cmi);
                self.heard.answered = 0;
                self.stage = Stage::Due;
            }
            Err(SourceError::Text { line, reason }) => {
                self.heard.came_to = Some(ClientOutcome::Failed(Verdict::Source { line, reason }));
                self.stage = Stage::Over;
            }
            Err(SourceError::Memory) => return Err(Memory),
        }
        Ok(())
    }

    /// The interface that the unit was compiled to, where `compile` has made one.
    pub fn cmi(&self) -> Option<&Cmi>
        ensures { option_map (λ cmi. cmi.now) result ≡ self.now.made }
    {
        if let Some(cmi) = &self.made {
            return Some(cmi);
        }
        match &self.heard.came_to {
            Some(ClientOutcome::Compiled(cmi)) => Some(cmi),
            _ => None,
        }
    }

    /// How the client goes on.
    pub fn stage(&self) -> Stage
        ensures { result ≡ self.now.stage }
    {
        self.stage
    }

    /// What the client came to: nothing where it isn't over, or where a line wasn't the reply that was due.
    pub fn outcome(&self) -> Option<&ClientOutcome>
        ensures { option_map (λ how. how.now) result ≡ outcome self.now }
    {
        match self.stage {
            Stage::Over => self.heard.came_to.as_ref(),
            _ => None,
        }
    }
}
