//! Why a project file is refused.

ghost use Rattle.std.specs.Prelude.{◌≡◌};
ghost use Rattle.unit_registry.specs.Reasons.{reason_text};

use thiserror::Error;

/// Why a line of a project file is refused. The first that applies in this order is the reason (this project's own).
#[derive(Clone, Copy, Debug, PartialEq, Eq)]
pub enum ProjectReason {
    /// The line is malformed.
    Words,
    /// The line isn't of the form that its place asks for, or follows `end`, or has the mark that more follows.
    Syntax,
    /// The path or the ident is empty, has more than 512 octets, or has one below 0x20 or 0x7f.
    BadText,
    /// The name isn't one of its kind.
    BadName,
    /// An earlier unit has the name.
    TwiceName,
    /// An earlier unit has the ident.
    TwiceIdent,
    /// The project has as many units as it may have.
    TooMany,
    /// The file ends before `end`.
    NoEnd,
}

impl ProjectReason {
    /// The text that a message has for the reason.
    pub fn text(self) -> &'static [u8]
        ensures { result.now ≡ reason_text self }
    {
        match self {
            ProjectReason::Words => b"malformed line",
            ProjectReason::Syntax => b"syntax",
            ProjectReason::BadText => b"bad text",
            ProjectReason::BadName => b"bad name",
            ProjectReason::TwiceName => b"name declared twice",
            ProjectReason::TwiceIdent => b"ident declared twice",
            ProjectReason::TooMany => b"too many units",
            ProjectReason::NoEnd => b"no end",
        }
    }
}

/// Why a project file wasn't read.
#[derive(Clone, Copy, Debug, PartialEq, Eq, Error)]
pub enum ProjectError {
    /// The first line at fault, counted from 1, and why.
    #[error("the project file is refused")]
    Text {
        /// The line's number, from 1. Where the file ends before `end`, it is one more than the number of lines.
        line: u32,
        /// Why the line is refused.
        reason: ProjectReason,
    },
    /// Memory ran out. This may come for any file.
    #[error("out of memory")]
    Memory,
}
