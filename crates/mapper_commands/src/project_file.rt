//! Reading a project file.

ghost use Rattle.std.specs.Prelude.{◌≡◌, ◌≤◌, ◌+◌, Some, length, IfErr, IfOk};
ghost use Rattle.mm_outside.specs.Causes.{Rose};
ghost use Rattle.mm_outside.specs.Told.{Told};
ghost use Rattle.cody_words.specs.Canonical.{word_room};
ghost use Rattle.unit_registry.specs.Reasons.{reason_text};
ghost use Rattle.mapper_commands.specs.Endings.{frame_room, message_room, reason_room, told_by};
ghost use Rattle.mapper_commands.specs.ListRuns.{IsDeclared};
ghost use Rattle.mapper_commands.specs.ProjectFiles.{FindsProject, KeepsReadsOf, IsOfFile, IsReadAs, most_project_octets, read_as};

use crate::ending::Ending;
use mm_outside::{Files, ReadAllError};
use std::alloc::Global;
use unit_registry::{Project, ProjectError, ProjectReason};

/// The most octets that a project file may have.
const MOST_OCTETS: u64 = 16_777_216;

/// The text of a reason, which is short.
fn reason_text(reason: ProjectReason) -> &'static [u8]
    ensures text { result.now ≡ reason_text reason }
    ensures short { length result.now ≤ reason_room }
{
    reason.text()
}

/// The project that a file's text declares, or the ending at its first fault.
fn parse_project<'a>(alloc: Global, name: &'a [u8], text: &[u8]) -> Result<Project, Ending<'a>>
    requires { length text.now ≤ most_project_octets }
    ensures read { IsReadAs ⊥ name.now (read_as result) (Some text.now) }
    ensures declared { IfOk result IsDeclared }
    ensures kind { IfErr result (λ ending. IsOfFile (told_by ending)) }
    ensures room { IfErr result (λ ending. message_room (told_by ending) ≤ word_room name.now + reason_room + frame_room) }
{
    match Project::read(alloc, text) {
        Ok(project) => Ok(project),
        Err(ProjectError::Text { line, reason }) => Err(Ending::Refused {
            name,
            line,
            reason: reason_text(reason),
        }),
        Err(ProjectError::Memory) => Err(Ending::OutOfMemory),
    }
}

/// The project that the file of this name declares, or the ending of a run that finds none there.
pub fn read_project<'a, F: Files>(
    alloc: Global,
    files: &mut F,
    name: &'a [u8],
) -> Result<Project, Ending<'a>>
    ensures content { Told (FindsProject (Rose (F.read_faults files.old) (F.read_faults files.new)) name.now (read_as result)) (F.content files.old) (F.content files.new) }
    ensures declared { IfOk result IsDeclared }
    ensures kind { IfErr result (λ ending. IsOfFile (told_by ending)) }
    ensures room { IfErr result (λ ending. message_room (told_by ending) ≤ word_room name.now + reason_room + frame_room) }
    ensures kept { KeepsReadsOf (read_as result) (F.read_faults files.old) (F.read_faults files.new) }
    ensures read_faults { F.read_faults files.old ≤ F.read_faults files.new }
    ensures write_faults { F.write_faults files.new ≡ F.write_faults files.old }
{
    match files.read_all(name, MOST_OCTETS) {
        Ok(text) => parse_project(alloc, name, text.octets()),
        Err(ReadAllError::Failed | ReadAllError::Absent) => Err(Ending::CannotRead { name }),
        Err(ReadAllError::TooLong) => Err(Ending::FileTooLong { name }),
        Err(ReadAllError::Memory) => Err(Ending::OutOfMemory),
    }
}
