//! The entries of a history.

use unit_registry::Act;

/// An entry of a history: what a connection does.
#[derive(Clone, Copy, Debug, PartialEq, Eq)]
pub struct Entry {
    /// The connection, numbered in the order in which they open, from 0. For a Done it is 4,294,967,295.
    pub conn: u32,
    /// What it does.
    pub act: Act,
}
