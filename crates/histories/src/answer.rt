//! Answers to requests.

use mapper_replies::Refusal;

/// The answer to a request (the forms are libcody's).
#[derive(Clone, Copy, Debug, PartialEq, Eq)]
pub enum Answer {
    /// The connection is connected.
    Hello,
    /// The path of the repository.
    Repo,
    /// The path of the unit's compiled interface.
    Path(u32),
    /// What was reported is noted.
    Done,
    /// Whether an include is to be an import.
    Bool(bool),
    /// An error.
    Refused(Refusal),
}

/// What is said to an act at once (this project's own).
#[derive(Clone, Copy, Debug, PartialEq, Eq)]
pub enum Said {
    /// The answer.
    Reply(Answer),
    /// That it waits for this unit.
    Waits(u32),
    /// Nothing, since the act asks nothing.
    Nothing,
}
