//! A project that is being read, line by line.

ghost use Rattle.std.specs.Prelude.{◌≡◌, Some};
ghost use Rattle.unit_registry.specs.declared.draft.LineError.TheVariants as error;

use crate::line::{Form, Stage, UnitLine, is_text};
use crate::project::Project;
use crate::reason::{ProjectError, ProjectReason};
use crate::repo_path::RepoPath;
use cody_words::{LexError, Line, Words, lex_line};
use mm_outside::Memory;
use std::alloc::Global;

/// What the lines so far declare, and which line may come next.
#[derive(Debug, Drop)]
pub(crate) struct Draft {
    pub stage: Stage,
    pub project: Project,
}

/// Why a line wasn't taken.
#[derive(Clone, Copy, Debug, PartialEq, Eq)]
pub(crate) enum LineError {
    /// The line is at fault.
    Fault { reason: ProjectReason },
    /// Memory ran out.
    Memory,
}

impl From<Memory> for LineError {
    ghost from_gives = { λ _ given. given ≡ error.Memory };

    fn from(_memory: Memory) -> LineError {
        LineError::Memory
    }
}

impl Draft {
    ghost use Rattle.unit_registry.specs.Drafts.{blank_draft, with_form, with_line, with_said};
    ghost use Rattle.cody_words.specs.Lines as said;
    ghost use Rattle.unit_registry.specs.Lines.{Repository, Entry, declared_by};
    ghost use Rattle.unit_registry.specs.Taken.{Takes};
    ghost use Rattle.unit_registry.specs.Readings.{Answers, ended};

    /// Before the first line.
    pub(crate) fn new(alloc: Global) -> Draft
        ensures { result ≡ blank_draft }
    {
        Draft {
            stage: Stage::Head,
            project: Project::empty(alloc),
        }
    }

    /// The draft behind one line more, without its NEWLINE.
    pub(crate) fn with_line(self, alloc: Global, line: &[u8]) -> Result<Draft, LineError>
        ensures { Takes (with_line self line.now) result }
    {
        match lex_line(alloc, line) {
            Ok(Line::Blank { more }) => self.with_blank(more),
            Ok(Line::Words { words, more }) => self.with_words(alloc, &words, more),
            Err(LexError::Malformed { .. }) => Err(LineError::Fault {
                reason: ProjectReason::Words,
            }),
            Err(LexError::Memory) => Err(LineError::Memory),
        }
    }

    /// The draft behind a blank line.
    fn with_blank(self, marked: bool) -> Result<Draft, LineError>
        ensures { Takes (with_said self said.Blank marked) result }
    {
        if marked {
            Err(LineError::Fault {
                reason: ProjectReason::Syntax,
            })
        } else {
            Ok(self)
        }
    }

    /// The draft behind a line of these words.
    fn with_words(self, alloc: Global, words: &Words, marked: bool) -> Result<Draft, LineError>
        ensures { Takes (with_said self (said.Words words.now) marked) result }
    {
        if marked {
            return Err(LineError::Fault {
                reason: ProjectReason::Syntax,
            });
        }
        match self.stage.form(words) {
            Some(Form::Heading) => Ok(Draft {
                stage: Stage::Repo,
                project: self.project,
            }),
            Some(Form::Repository { path }) => self.with_repo(alloc, path),
            Some(Form::Entry { line }) => self.with_unit(alloc, &line),
            Some(Form::Ending) => Ok(Draft {
                stage: Stage::Over,
                project: self.project,
            }),
            None => Err(LineError::Fault {
                reason: ProjectReason::Syntax,
            }),
        }
    }

    /// The draft with its repository.
    fn with_repo(self, alloc: Global, path: &[u8]) -> Result<Draft, LineError>
        ensures { Takes (with_form self (Some (Repository path.now))) result }
    {
        if !is_text(path) {
            return Err(LineError::Fault {
                reason: ProjectReason::BadText,
            });
        }
        let repo = RepoPath::of(alloc, path)?;
        Ok(Draft {
            stage: Stage::Units,
            project: self.project.with_repo(repo),
        })
    }

    /// The draft with one unit more.
    fn with_unit(self, alloc: Global, line: &UnitLine<'_>) -> Result<Draft, LineError>
        ensures { Takes (with_form self (Some (Entry (declared_by line.now)))) result }
    {
        if let Some(reason) = self.project.unit_fault(line) {
            return Err(LineError::Fault { reason });
        }
        let project = self.project.with_unit(alloc, line)?;
        Ok(Draft {
            stage: Stage::Units,
            project,
        })
    }

    /// What is declared where the file ends before the line of this number.
    pub(crate) fn end(self, number: u32) -> Result<Project, ProjectError>
        ensures { Answers (ended self.stage self.project number) result }
    {
        match self.stage {
            Stage::Over => Ok(self.project),
            Stage::Head | Stage::Repo | Stage::Units => Err(ProjectError::Text {
                line: number,
                reason: ProjectReason::NoEnd,
            }),
        }
    }
}
