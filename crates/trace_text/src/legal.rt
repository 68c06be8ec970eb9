//! Whether a trace is legal.

ghost use Rattle.std.specs.Prelude.{◌≡◌, IfOk, IfErr};
ghost use Rattle.histories.specs.Histories.{IsLegal};
ghost use Rattle.trace_text.specs.declared.legal.CheckError.TheVariants as error;
ghost use Rattle.trace_text.specs.Legal.{TellsIllegal};

use crate::tally::Tally;
use crate::trace::Trace;
use histories::IllegalReason;
use mm_outside::Memory as OutOfMemory;
use std::alloc::Global;
use thiserror::Error;
use unit_registry::Project;

/// Why a trace isn't known to be legal.
#[derive(Clone, Copy, Debug, PartialEq, Eq, Error)]
pub enum CheckError {
    /// The first place, counted from 0, at which an entry isn't legal behind those before it, and why.
    #[error("the trace isn't legal")]
    Illegal { place: u32, reason: IllegalReason },
    /// Memory ran out. This may come for any trace.
    #[error("out of memory")]
    Memory,
}

impl From<OutOfMemory> for CheckError {
    ghost from_gives = { λ _ e. e ≡ error.Memory };

    fn from(_memory: OutOfMemory) -> CheckError {
        CheckError::Memory
    }
}

/// Whether the entries of a trace are a legal history of the project, for its number of workers and its limit.
/// `Illegal` is the first place at which an entry isn't legal behind those before it, counted from 0, with the first
/// reason that applies. `Memory` may come for any trace. It goes over the entries once.
pub fn check_legal(alloc: Global, project: &Project, trace: &Trace) -> Result<(), CheckError>
    ensures legal { IfOk result (λ _.
        IsLegal project.now trace.now.workers trace.now.limit trace.now.entries) }
    ensures illegal { IfErr result (λ error. TellsIllegal project.now trace.now error) }
{
    let mut tally = Tally::new(alloc);
    for place in 0..trace.entries.len() {
        let entry = trace.entries.get(place);
        if let Some(reason) = tally.fault(project, trace, place, entry) {
            return Err(CheckError::Illegal { place, reason });
        }
        tally = tally.with(entry)?;
    }
    Ok(())
}
