//! A trace, as it is read.

use histories::Entry;
use mm_outside::List;

/// The entries of a history, in order.
pub type Entries = List<Entry>;

/// A trace: the entries of a history, with the number of its workers and its limit.
#[derive(Debug, Drop)]
pub struct Trace {
    /// How many workers there are.
    pub workers: u32,
    /// The most entries that the history may have, with the ends that are still to come.
    pub limit: u32,
    /// What was done, in order.
    pub entries: Entries,
}
