//! What a connection does.

use mapper_requests::Bad;

/// What a connection does. A unit is `None` where the name or the ident isn't declared by the project.
#[derive(Clone, Copy, Debug, PartialEq, Eq)]
pub enum Act {
    /// The connection begins.
    Open,
    /// A compiler asks to be connected.
    Hello {
        /// The version of the protocol.
        version: u32,
        /// The unit whose ident it sent.
        unit: Option<u32>,
    },
    /// Where compiled interfaces are kept is asked.
    Repo,
    /// Where the interface of the unit goes is asked.
    Export {
        /// The unit whose name was sent.
        unit: Option<u32>,
    },
    /// Where the interface of the unit stands is asked.
    Import {
        /// The unit whose name was sent.
        unit: Option<u32>,
        /// Whether only the name is wanted and not the contents.
        name_only: bool,
    },
    /// The interface of the unit is reported as compiled.
    Compiled {
        /// The unit whose name was sent.
        unit: Option<u32>,
        /// Whether an item was handed in with it. Then the unit is declared.
        stored: bool,
    },
    /// Whether an include is to be an import is asked.
    Translate {
        /// Whether the name is that of a declared header unit.
        header: bool,
    },
    /// Words that are no request.
    Bad {
        /// Why they are none.
        why: Bad,
    },
    /// All requests of a block were entered.
    Pause,
    /// The connection goes, at the end of a block.
    Left,
    /// The connection goes for another reason.
    Lost,
    /// A worker has no further connection.
    Done,
}
