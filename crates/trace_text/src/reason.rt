//! Why a trace is refused.

ghost use Rattle.std.specs.Prelude.{◌≡◌};
ghost use Rattle.trace_text.specs.declared.reason.TraceError.TheVariants as error;
ghost use Rattle.trace_text.specs.Reasons.{reason_text};

use mm_outside::Memory as OutOfMemory;
use thiserror::Error;

/// Why a line of a trace is refused (this project's own).
#[derive(Clone, Copy, Debug, PartialEq, Eq)]
pub enum TraceReason {
    /// The line isn't of the form that its place asks for.
    Syntax,
    /// The last line has another number than that of the entries.
    WrongCount,
    /// The text ends before the line `end`.
    NoEnd,
    /// Something stands behind the line `end`.
    MoreText,
}

impl TraceReason {
    /// The text that a message has for the reason.
    pub fn text(self) -> &'static [u8]
        ensures { result.now ≡ reason_text self }
    {
        match self {
            TraceReason::Syntax => b"syntax",
            TraceReason::WrongCount => b"wrong count",
            TraceReason::NoEnd => b"no end",
            TraceReason::MoreText => b"more text",
        }
    }
}

/// Why a trace wasn't read.
#[derive(Clone, Copy, Debug, PartialEq, Eq, Error)]
pub enum TraceError {
    /// The first line at fault, counted from 1, and why.
    #[error("the trace is refused")]
    Text { line: u32, reason: TraceReason },
    /// Memory ran out. This may come for any text.
    #[error("out of memory")]
    Memory,
}

impl From<OutOfMemory> for TraceError {
    ghost from_gives = { λ _ e. e ≡ error.Memory };

    fn from(_memory: OutOfMemory) -> TraceError {
        TraceError::Memory
    }
}
