//! Printing a history as a trace.

ghost use Rattle.std.specs.Prelude.{◌≡◌, ◌≤◌, [], All, length};
ghost use Rattle.mm_outside.specs.Causes.{HasCause};
ghost use Rattle.mm_outside.specs.Sending.{AppendsAll};
ghost use Rattle.mm_outside.specs.Told.{Told};
ghost use Rattle.histories.specs.Entries.{IsTraceEntry};
ghost use Rattle.trace_text.specs.Texts.{end_line, ended, entry_line, head_line, trace};
ghost use Rattle.mapper_server.specs.Printing.{Prints, line_room, capacity_of};

use cody_words::LineBuf;
use histories::Entry;
use mm_outside::{Failed, Sink, print};
use trace_text::{write_end, write_entry, write_head};

/// Prints the first line of a trace, whole unless a write fails.
fn print_head<K: Sink>(
    workers: u32,
    limit: u32,
    line: &mut LineBuf,
    out: &mut K,
) -> Result<(), Failed>
    requires room { line_room ≤ capacity_of line.old }
    ensures written { Told (AppendsAll result (ended (head_line workers limit))) (K.written out.old) (K.written out.new) }
    ensures cause { HasCause (K.faults out.old) (K.faults out.new) result }
    ensures room { capacity_of line.new ≡ capacity_of line.old }
{
    line.clear();
    write_head(workers, limit, line);
    print(out, line.octets())
}

/// Prints the line of an entry, whole unless a write fails.
fn print_entry<K: Sink>(entry: &Entry, line: &mut LineBuf, out: &mut K) -> Result<(), Failed>
    requires entry { IsTraceEntry entry.now }
    requires room { line_room ≤ capacity_of line.old }
    ensures written { Told (AppendsAll result (ended (entry_line entry.now))) (K.written out.old) (K.written out.new) }
    ensures cause { HasCause (K.faults out.old) (K.faults out.new) result }
    ensures room { capacity_of line.new ≡ capacity_of line.old }
{
    line.clear();
    write_entry(entry, line);
    print(out, line.octets())
}

/// Prints the last line of a trace of so many entries, whole unless a write fails.
fn print_end<K: Sink>(count: u32, line: &mut LineBuf, out: &mut K) -> Result<(), Failed>
    requires room { line_room ≤ capacity_of line.old }
    ensures written { Told (AppendsAll result (ended (end_line count))) (K.written out.old) (K.written out.new) }
    ensures cause { HasCause (K.faults out.old) (K.faults out.new) result }
{
    line.clear();
    write_end(count, line);
    print(out, line.octets())
}

/// Prints the trace of a history line by line, whole unless a write fails; nothing is written after that.
pub(crate) fn print_trace<K: Sink>(
    workers: u32,
    limit: u32,
    entries: &[Entry],
    line: &mut LineBuf,
    out: &mut K,
) -> Result<(), Failed>
    requires each { All IsTraceEntry entries.now }
    requires few { length entries.now ≤ limit }
    requires room { line_room ≤ line.old.spare }
    requires empty { line.old.octets ≡ [] }
    ensures written { Told (Prints (trace workers limit entries.now) (K.faults out.old) (K.faults out.new)) (K.written out.old) (K.written out.new) }
    ensures cause { HasCause (K.faults out.old) (K.faults out.new) result }
{
    match print_head(workers, limit, line, out) {
        Ok(()) => {}
        Err(Failed) => return Err(Failed),
    }
    for entry in entries {
        match print_entry(entry, line, out) {
            Ok(()) => {}
            Err(Failed) => return Err(Failed),
        }
    }
    print_end(entries.len() as u32, line, out)
}
