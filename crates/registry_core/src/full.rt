//! A history without room.

/// The history has no room for what was asked: its length, and the ends that are still to come. The numbers are in
/// entries.
#[derive(Clone, Copy, Debug, PartialEq, Eq)]
pub struct Full {
    /// How many entries it has.
    pub entries: u32,
    /// How many entries are reserved for ends: one for each open connection, and a Done for each of the workers.
    pub reserved: u32,
}
