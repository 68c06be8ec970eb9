//! Reading the file of a trace.

ghost use Rattle.std.specs.Prelude.{◌≡◌, ◌≤◌, Some, length, IfErr, IfOk};
ghost use Rattle.mm_outside.specs.Causes.{Rose};
ghost use Rattle.mm_outside.specs.Told.{Told};
ghost use Rattle.mapper_commands.specs.Endings.{told_by};
ghost use Rattle.mapper_commands.specs.ProjectFiles.{KeepsReadsOf, IsOfFile, read_as};
ghost use Rattle.mapper_commands.specs.TraceFiles.{FindsTrace, HasForm, IsTraceReadAs, most_trace_octets};

use crate::ending::Ending;
use mm_outside::{Files, ReadAllError};
use std::alloc::Global;
use trace_text::{Trace, TraceError, read};

/// The most octets that the file of a trace may have.
const MOST_OCTETS: u64 = 67_108_864;

/// The trace that a file's text is, or the ending at its first fault.
fn parse_trace<'a>(alloc: Global, name: &'a [u8], text: &[u8]) -> Result<Trace, Ending<'a>>
    requires { length text.now ≤ most_trace_octets }
    ensures read { IsTraceReadAs ⊥ name.now (read_as result) (Some text.now) }
    ensures form { IfOk result (λ trace. HasForm trace) }
    ensures kind { IfErr result (λ ending. IsOfFile (told_by ending)) }
{
    match read(alloc, text) {
        Ok(trace) => Ok(trace),
        Err(TraceError::Text { line, reason }) => Err(Ending::Refused {
            name,
            line,
            reason: reason.text(),
        }),
        Err(TraceError::Memory) => Err(Ending::OutOfMemory),
    }
}

/// The trace that the file of this name holds, or the ending of a run that finds none there.
pub fn read_trace<'a, F: Files>(
    alloc: Global,
    files: &mut F,
    name: &'a [u8],
) -> Result<Trace, Ending<'a>>
    ensures content { Told (FindsTrace (Rose (F.read_faults files.old) (F.read_faults files.new)) name.now (read_as result)) (F.content files.old) (F.content files.new) }
    ensures form { IfOk result (λ trace. HasForm trace) }
    ensures kind { IfErr result (λ ending. IsOfFile (told_by ending)) }
    ensures kept { KeepsReadsOf (read_as result) (F.read_faults files.old) (F.read_faults files.new) }
    ensures read_faults { F.read_faults files.old ≤ F.read_faults files.new }
    ensures write_faults { F.write_faults files.new ≡ F.write_faults files.old }
{
    match files.read_all(name, MOST_OCTETS) {
        Ok(text) => parse_trace(alloc, name, text.octets()),
        Err(ReadAllError::Failed | ReadAllError::Absent) => Err(Ending::CannotRead { name }),
        Err(ReadAllError::TooLong) => Err(Ending::FileTooLong { name }),
        Err(ReadAllError::Memory) => Err(Ending::OutOfMemory),
    }
}
