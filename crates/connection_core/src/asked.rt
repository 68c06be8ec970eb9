//! What a session keeps of the lines of a block.

ghost use Rattle.std.specs.Prelude.{◌≡◌};
ghost use Rattle.connection_core.specs.Asking.{is_malformed, is_refused};
ghost use Rattle.connection_core.specs.Working.{note_of, HasWords};

use cody_batches::Step;
use cody_words::{Reason, Words};
use mapper_requests::read;
use unit_registry::{Act, Project};

/// What a line of a block asks.
#[derive(Clone, Copy, Debug, PartialEq, Eq)]
pub(crate) enum Asked {
    /// Its request, as an act.
    Act(Act),
    /// Nothing, since it is malformed for this reason.
    Malformed(Reason),
}

/// What the end of a line brings.
#[derive(Clone, Copy, Debug, PartialEq, Eq)]
pub(crate) enum Note {
    /// Nothing: the line is blank.
    Nothing,
    /// A line of the block, which may be its last.
    Line { asked: Asked, last: bool },
    /// The block has too many lines.
    TooMany,
}

/// What a step of the intake brings, with the words that stand then.
pub(crate) fn note_line(project: &Project, step: Step, words: &Words) -> Note
    requires { HasWords step words.now }
    ensures { result ≡ note_of project.now step words.now }
{
    match step {
        Step::More => Note::Nothing,
        Step::Message { last } => Note::Line {
            asked: Asked::Act(project.act_of(&read(words), false)),
            last,
        },
        Step::Malformed { reason, last, .. } => Note::Line {
            asked: Asked::Malformed(reason),
            last,
        },
        Step::BatchTooLong => Note::TooMany,
    }
}

/// Whether a line is malformed.
pub(crate) fn is_malformed(line: &Asked) -> bool
    ensures { result ≡ is_malformed line.now }
{
    matches!(line, Asked::Malformed(_))
}

/// Whether a block is refused: some line of it is malformed.
pub(crate) fn is_refused(lines: &[Asked]) -> bool
    ensures { result ≡ is_refused lines.now }
{
    lines.iter().any(is_malformed)
}
