//! Entries with what was said to them.

use crate::answer::Said;
use unit_registry::Act;

/// An entry of a history with what was said to it at once.
#[derive(Clone, Copy, Debug, PartialEq, Eq)]
pub struct Answered {
    /// The connection.
    pub conn: u32,
    /// What it does.
    pub act: Act,
    /// What was said to it at once.
    pub said: Said,
}

/// An import that was told to wait.
#[derive(Clone, Copy, Debug, PartialEq, Eq)]
pub struct Wait {
    /// Its place in the history, from 0.
    pub place: u32,
    /// Its connection.
    pub conn: u32,
    /// The unit that it waits for.
    pub unit: u32,
}
