//! Why octets aren't read as an interface.

ghost use Rattle.std.specs.Prelude.{◌≡◌};
ghost use Rattle.export_lists.specs.declared.cmi_error.CmiError.TheVariants as errors;

use mm_outside::Memory;
use thiserror::Error;

/// Why octets aren't read as an interface.
#[derive(Clone, Copy, Debug, PartialEq, Eq, Error)]
pub enum CmiError {
    /// The first line at fault, counted from 1.
    #[error("not a cmi")]
    Text {
        /// The line's number, from 1. Where the text ends before `end`, it is one more than the number of its
        /// NEWLINEs.
        line: u32,
    },
    /// Memory ran out. This may come for any text.
    #[error("out of memory")]
    Memory,
}

impl From<Memory> for CmiError {
    ghost from_gives = { λ _ given. given ≡ errors.Memory };

    fn from(_memory: Memory) -> CmiError {
        CmiError::Memory
    }
}
