//! Why a history isn't legal.

ghost use Rattle.std.specs.Prelude.{◌≡◌, ◌≤◌, length};
ghost use Rattle.histories.specs.Reasons.{illegal_text, longest_illegal_text};

/// Why an entry isn't legal after those before it. The first that applies in this order is the reason (this project's
/// own).
#[derive(Clone, Copy, Debug, PartialEq, Eq)]
pub enum IllegalReason {
    /// An Open comes whose connection isn't the number of Opens before it.
    OutOfOrder,
    /// Another act than an Open or a Done comes of a connection that isn't open.
    NotOpen,
    /// An Open or a Done comes while the open connections and the workers that are done are together as many as there
    /// are workers.
    Crowded,
    /// The act names a unit whose number the project doesn't have or, where it is no Hello, one that is plain and so
    /// has no name.
    OutOfRange,
    /// With the entry, the length of the history and the ends that are still to come are together more than the
    /// limit: an end of each open connection, and a Done of each worker that isn't done.
    Full,
}

impl IllegalReason {
    /// The text that a message has for the reason. It has at most 17 octets.
    pub fn text(self) -> &'static [u8]
        ensures text { result.now ≡ illegal_text self }
        ensures short { length result.now ≤ longest_illegal_text }
    {
        match self {
            IllegalReason::OutOfOrder => b"conn out of order",
            IllegalReason::NotOpen => b"conn not open",
            IllegalReason::Crowded => b"too many open",
            IllegalReason::OutOfRange => b"unit out of range",
            IllegalReason::Full => b"history full",
        }
    }
}
