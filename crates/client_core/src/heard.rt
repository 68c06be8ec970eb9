//! What a client heard of its mapper.

ghost use Rattle.std.specs.Prelude.{◌≡◌, ◌+◌, ◌<◌, ◌≤◌, [], ◌∷◌, ◌++◌, length, IfOk, OnOk, OnErr, None, Some};
ghost use Rattle.std.specs.Option.{option_or};
ghost use Rattle.mapper_requests.specs.Asked.{asked_by};
ghost use Rattle.mapper_replies.specs.Values.{value_of};
ghost use Rattle.client_core.specs.Outcomes.{by_error, without_error};
ghost use Rattle.client_core.specs.Scripts.{reading_of};
ghost use Rattle.client_core.specs.Clients.{made_in, stage_after};
ghost use Rattle.client_core.specs.Working.{noted};

use crate::outcome::ClientOutcome;
use crate::script::Script;
use crate::stage::Stage;
use export_lists::{Cmi, Verdict};
use mapper_replies::Reply;
use mapper_requests::Request;
use mm_outside::{List, Memory, Text};
use std::alloc::Global;

/// What a client heard of its mapper.
#[derive(Debug, Drop)]
pub(crate) struct Heard {
    /// How many replies came to the requests of the block that was sent last.
    pub(crate) answered: u32,
    /// The paths in the replies to the first block, in order.
    pub(crate) paths: List<Text>,
    /// What the client comes to: by the first error while more replies are awaited.
    pub(crate) came_to: Option<ClientOutcome>,
}

impl Heard {
    /// Notes the reply to a request. After `Memory` all is as before.
    pub(crate) fn note(
        &mut self,
        alloc: Global,
        request: &Request<'_>,
        reply: &Reply<'_>,
    ) -> Result<(), Memory>
        requires count { self.old.answered < 2000 }
        requires room { length self.old.paths < 4000 }
        ensures noted { OnOk result (self.new ≡ noted (asked_by request.now) (value_of reply.now) self.old) }
        ensures kept { OnErr result (self.new ≡ self.old) }
    {
        match reply {
            Reply::Pathname(path) => self.note_path(alloc, path),
            Reply::Error(message) => self.note_error(alloc, request, message),
            _ => {
                self.answered += 1;
                Ok(())
            }
        }
    }

    /// Notes a path.
    fn note_path(&mut self, alloc: Global, path: &[u8]) -> Result<(), Memory>
        requires count { self.old.answered < 2000 }
        requires room { length self.old.paths < 4000 }
        ensures noted { OnOk result (self.new ≡ record self.old { answered = self.old.answered + 1; paths = self.old.paths ++ path.now ∷ [] }) }
        ensures kept { OnErr result (self.new ≡ self.old) }
    {
        let path = Text::of(alloc, path)?;
        self.paths.push(path)?;
        self.answered += 1;
        Ok(())
    }

    /// Notes an error, which decides where none came before.
    fn note_error(
        &mut self,
        alloc: Global,
        request: &Request<'_>,
        message: &[u8],
    ) -> Result<(), Memory>
        requires count { self.old.answered < 2000 }
        ensures noted { OnOk result (self.new ≡ record self.old { answered = self.old.answered + 1; came_to = option_or self.old.came_to (Some (by_error (asked_by request.now) message.now)) }) }
        ensures kept { OnErr result (self.new ≡ self.old) }
    {
        if self.came_to.is_none() {
            let how = outcome_by_error(alloc, request, message)?;
            self.came_to = Some(how);
        }
        self.answered += 1;
        Ok(())
    }
}

/// What an error to a request makes of the unit.
fn outcome_by_error(
    alloc: Global,
    request: &Request<'_>,
    message: &[u8],
) -> Result<ClientOutcome, Memory>
    ensures { IfOk result (λ how. how ≡ by_error (asked_by request.now) message.now) }
{
    match request {
        Request::Import { name, .. } => Ok(ClientOutcome::Failed(Verdict::Import {
            name: Text::of(alloc, name)?,
        })),
        _ => Ok(ClientOutcome::Refused(Text::of(alloc, message)?)),
    }
}

/// What a client comes to when all replies to a block are there, and how it goes on. An interface that was made goes
/// into what it comes to.
pub(crate) fn conclude(
    script: &Script,
    made: &mut Option<Cmi>,
    came_to: &mut Option<ClientOutcome>,
) -> Stage
    ensures came_to { came_to.new ≡ option_or came_to.old (without_error (reading_of script.now) made.old) }
    ensures stage { result ≡ stage_after came_to.new }
    ensures made { made_in made.old came_to.old ≡ made.old → made_in made.new came_to.new ≡ made.old }
    ensures kept { result ≡ Stage.Granted → made.new ≡ made.old }
{
    if came_to.is_some() {
        return Stage::Over;
    }
    match script {
        Script::Broken { line, reason } => {
            *came_to = Some(ClientOutcome::Failed(Verdict::Source {
                line: *line,
                reason: *reason,
            }));
            Stage::Over
        }
        Script::Good(_) => match made.take() {
            Some(cmi) => {
                *came_to = Some(ClientOutcome::Compiled(cmi));
                Stage::Over
            }
            None => Stage::Granted,
        },
    }
}
