//! What becomes of a unit.

use crate::cmi::Cmi;
use mm_outside::Text;
use module_lexer::SourceReason;

/// Why a unit wasn't compiled.
#[derive(Debug, Drop)]
pub enum Verdict {
    /// The first fault of its source, or of its unit over the interfaces of its imports, and the line,
    /// counted from 1.
    Source { line: u32, reason: SourceReason },
    /// The first of its imports whose unit isn't declared or wasn't compiled.
    Import { name: Text },
}

/// What becomes of a unit.
#[derive(Debug, Drop)]
pub enum Outcome {
    /// It was compiled, to this interface.
    Compiled(Cmi),
    /// It had been built before, with this interface.
    Built(Cmi),
    /// It wasn't compiled.
    Failed(Verdict),
}
