//! Saying whether a trace is legal.

ghost use Rattle.std.specs.Prelude.{◌≡◌, ◌≢◌, ◌≤◌, [], IfOk, OnErr};
ghost use Rattle.mm_outside.specs.Causes.{Rose};
ghost use Rattle.mapper_commands.specs.Endings.{Ends, Issues, output_of};
ghost use Rattle.mapper_commands.specs.Reports.{ReportsSo, check_report, illegal_report, legal_report};

use crate::sources::read_sources;
use crate::telling::{issue, tell, tell_memory};
use cody_words::{LineBuf, write_number};
use mm_outside::{Files, Memory, Sink};
use std::alloc::Global;
use trace_text::{CheckError, IllegalReason, Trace, check_legal};
use unit_registry::Project;

/// Room for the line of a report.
pub const REPORT_ROOM: u32 = 64;

/// Appends the line for a legal trace of so many entries.
fn write_legal(count: u32, line: &mut LineBuf)
    requires room { 64 ≤ line.old.spare }
    requires empty { line.old.octets ≡ [] }
    ensures { line.new.octets ≡ (legal_report count).text }
{
    line.extend(b"legal ");
    write_number(count, line);
    line.push(b'\n');
}

/// Appends the line for a trace that isn't legal at this place, for this reason.
fn write_illegal(place: u32, reason: IllegalReason, line: &mut LineBuf)
    requires room { 64 ≤ line.old.spare }
    requires empty { line.old.octets ≡ [] }
    ensures { line.new.octets ≡ (illegal_report place reason).text }
{
    line.extend(b"illegal ");
    write_number(place, line);
    line.push(b' ');
    line.extend(reason.text());
    line.push(b'\n');
}

/// Prints that a trace of so many entries is legal, and answers the status.
fn issue_legal<K: Sink>(count: u32, line: &mut LineBuf, out: &mut K) -> u8
    requires room { 64 ≤ line.old.spare }
    requires empty { line.old.octets ≡ [] }
    ensures { Issues (legal_report count) (output_of K.written K.faults out.old out.new) result }
{
    write_legal(count, line);
    issue(line.octets(), true, out)
}

/// Prints that a trace isn't legal at this place, for this reason, and answers the status.
pub fn issue_illegal<K: Sink>(
    place: u32,
    reason: IllegalReason,
    line: &mut LineBuf,
    out: &mut K,
) -> u8
    requires room { 64 ≤ line.old.spare }
    requires empty { line.old.octets ≡ [] }
    ensures { Issues (illegal_report place reason) (output_of K.written K.faults out.old out.new) result }
{
    write_illegal(place, reason, line);
    issue(line.octets(), false, out)
}

/// Prints what a check of the trace reports, and answers the status. It runs out of memory only before it prints.
fn check_trace<K: Sink>(
    alloc: Global,
    project: &Project,
    trace: &Trace,
    out: &mut K,
) -> Result<u8, Memory>
    ensures issued { IfOk result (λ status. Issues (check_report project.now trace.now) (output_of K.written K.faults out.old out.new) status) }
    ensures memory { OnErr result (out.new ≡ out.old) }
{
    let mut line = LineBuf::new(alloc, REPORT_ROOM)?;
    match check_legal(alloc, project, trace) {
        Ok(()) => Ok(issue_legal(trace.entries.len(), &mut line, out)),
        Err(CheckError::Illegal { place, reason }) => {
            Ok(issue_illegal(place, reason, &mut line, out))
        }
        Err(CheckError::Memory) => Err(Memory),
    }
}

/// Reads the project file and then the file of the trace, prints what a check of the trace reports or the message of
/// what went wrong, and answers the status: 0 the trace is legal, 1 it isn't, 3 want of memory, 4 a file is absent or a
/// read failed, 5 a write failed, 6 a file is refused or too long.
pub fn run_check<F: Files, K: Sink>(
    alloc: Global,
    project: &[u8],
    trace: &[u8],
    files: &mut F,
    out: &mut K,
) -> u8
    ensures run { Ends (ReportsSo (Rose (F.read_faults files.old) (F.read_faults files.new)) (F.content files.old) (F.content files.new) check_report project.now trace.now)
        (output_of K.written K.faults out.old out.new) result }
    ensures unhidden { result ≢ 3 → result ≢ 4 → F.read_faults files.new ≡ F.read_faults files.old }
    ensures files { F.write_faults files.new ≡ F.write_faults files.old }
{
    match read_sources(alloc, project, trace, files) {
        Ok(sources) => match check_trace(alloc, &sources.project, &sources.trace, out) {
            Ok(status) => status,
            Err(Memory) => tell_memory(out),
        },
        Err(ending) => tell(alloc, ending, out),
    }
}
