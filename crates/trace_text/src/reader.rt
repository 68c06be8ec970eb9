//! Reading a trace, line by line.

ghost use Rattle.std.specs.Prelude.{◌≡◌, ◌+◌, ◌<◌, ◌≤◌, length, Err, IfOk, IfErr};
ghost use Rattle.unit_registry.specs.Lines.{lines_of};
ghost use Rattle.trace_text.specs.declared.reason.TraceError.TheVariants as error;
ghost use Rattle.trace_text.specs.Faults.{IsTraceText, TellsFault};
ghost use Rattle.trace_text.specs.Reading.{at_end, begun, if_last, read_behind, reading, Answers};

use crate::lines::{BodyLine, Head, read_head, read_line};
use crate::reason::{TraceError, TraceReason};
use crate::trace::Trace;
use mm_outside::List;
use std::alloc::Global;
use unit_registry::cut_line;

/// A line at fault.
fn fault<T>(line: u32, reason: TraceReason) -> Result<T, TraceError>
    ensures { result ≡ Err (error.Text line reason) }
{
    Err(TraceError::Text { line, reason })
}

/// The trace, whose last line has this number, with what stands behind that line.
fn if_last(trace: Trace, number: u32, behind: &[u8]) -> Result<Trace, TraceError>
    requires { number < 4294967295 }
    ensures { Answers (if_last trace number (lines_of behind.now)) result }
{
    if behind.is_empty() {
        Ok(trace)
    } else {
        fault(number + 1, TraceReason::MoreText)
    }
}

/// The trace, whose last line has this count and this number, with what stands behind that line.
fn end_trace(trace: Trace, count: u32, number: u32, behind: &[u8]) -> Result<Trace, TraceError>
    requires { number < 4294967295 }
    ensures { Answers (at_end trace count number (lines_of behind.now)) result }
{
    if count != trace.entries.len() {
        fault(number, TraceReason::WrongCount)
    } else {
        if_last(trace, number, behind)
    }
}

/// The trace of this head and of the lines behind it.
fn read_body(alloc: Global, head: Head, octets: &[u8]) -> Result<Trace, TraceError>
    requires { length octets.now ≤ 2147483648 }
    ensures { Answers (read_behind (begun head) 2 (lines_of octets.now)) result }
{
    let mut trace = Trace {
        workers: head.workers,
        limit: head.limit,
        entries: List::new(alloc),
    };
    let mut number = 2;
    let mut rest = octets;
    while !rest.is_empty() {
        let (line, behind) = cut_line(rest);
        match read_line(line) {
            Some(BodyLine::End { count }) => return end_trace(trace, count, number, behind),
            Some(BodyLine::Item { entry }) => trace.entries.push(entry)?,
            None => return fault(number, TraceReason::Syntax),
        }
        number += 1;
        rest = behind;
    }
    fault(number, TraceReason::NoEnd)
}

/// The one reading of a text, unless memory runs out.
#[tactic(auto, unfolding(crate::specs::Reading::reading))]
fn read_text(alloc: Global, octets: &[u8]) -> Result<Trace, TraceError>
    requires { length octets.now ≤ 2147483648 }
    ensures { Answers (reading octets.now) result }
{
    if octets.is_empty() {
        return fault(1, TraceReason::NoEnd);
    }
    let (line, behind) = cut_line(octets);
    match read_head(line) {
        Some(head) => read_body(alloc, head, behind),
        None => fault(1, TraceReason::Syntax),
    }
}

/// Reads a trace. `Text` is the first line at fault, counted from 1, where the text is no trace's. The last line may
/// lack its NEWLINE. `Memory` may come for any text. The text has at most 2,147,483,648 octets.
pub fn read(alloc: Global, octets: &[u8]) -> Result<Trace, TraceError>
    requires { length octets.now ≤ 2147483648 }
    ensures trace { IfOk result (λ trace.
        IsTraceText octets.now trace.workers trace.limit trace.entries) }
    ensures fault { IfErr result (λ error. TellsFault octets.now error) }
{
    read_text(alloc, octets)
}
