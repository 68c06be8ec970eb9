//! Printing how a run ended.

ghost use Rattle.std.specs.Prelude.{◌≡◌, ◌≤◌, ◌<◌, ◌+◌, ◌↔◌, [], length, IfOk, IsTrue};
ghost use Rattle.mm_outside.specs.Told.{Told};
ghost use Rattle.cody_words.specs.Canonical.{word_room};
ghost use Rattle.mapper_server.specs.Printing.{Prints};
ghost use Rattle.mapper_commands.specs.Endings.{OutOfMemory, frame_room, longest_name, longest_reason, message_room, output_of, reason_room, told_by, Issues, RisesOnlyOver, Tells};

use crate::ending::Ending;
use cody_words::LineBuf;
use mm_outside::{Failed, Memory, Sink, print};
use std::alloc::Global;

/// The most octets of a message beside the name and the reason in it.
const FRAME_ROOM: u32 = 60;

/// The most octets of the reason of a project file's first fault.
const REASON_ROOM: usize = 20;

/// The longest name of which a message is made.
const LONGEST_NAME: usize = 1_000_000_000;

/// The longest reason of which a message is made.
const LONGEST_REASON: usize = 1_000;

/// Prints a text that isn't empty, whole unless a write fails.
fn print_some<K: Sink>(text: &[u8], out: &mut K)
    requires { 0 < length text.now }
    ensures written { Told (Prints text.now (K.faults out.old) (K.faults out.new)) (K.written out.old) (K.written out.new) }
    ensures cause { RisesOnlyOver text.now (K.faults out.old) (K.faults out.new) }
{
    let _ = print(out, text);
}

/// Prints a text, whole unless a write fails, which changes no status. Behind a failed write it is never made whole.
pub fn print_text<K: Sink>(text: &[u8], out: &mut K)
    ensures written { Told (Prints text.now (K.faults out.old) (K.faults out.new)) (K.written out.old) (K.written out.new) }
    ensures cause { RisesOnlyOver text.now (K.faults out.old) (K.faults out.new) }
{
    if text.is_empty() {
        return;
    }
    print_some(text, out)
}

/// Whether a message is made of a name and a reason of so many octets. No reason of this
/// program is too long.
fn can_frame(name: usize, reason: usize) -> bool
    ensures { IsTrue result ↔ ((name ≤ longest_name) × (reason ≤ longest_reason)) }
{
    name <= LONGEST_NAME && reason <= LONGEST_REASON
}

/// A buffer with room for a message with this name and a reason of so many octets.
fn framed_buffer(alloc: Global, name: &[u8], reason: usize) -> Result<LineBuf, Memory>
    ensures { IfOk result (λ buffer. (buffer.octets ≡ []) × (word_room name.now + reason + frame_room ≤ buffer.spare)) }
{
    if !can_frame(name.len(), reason) {
        return Err(Memory);
    }
    let word_room = 3 * name.len() as u32 + 2;
    LineBuf::new(alloc, word_room + reason as u32 + FRAME_ROOM)
}

/// A buffer with room for a message with this name, and the reason of a project file's first fault.
pub fn message_buffer(alloc: Global, name: &[u8]) -> Result<LineBuf, Memory>
    ensures { IfOk result (λ buffer. (buffer.octets ≡ []) × (word_room name.now + reason_room + frame_room ≤ buffer.spare)) }
{
    framed_buffer(alloc, name, REASON_ROOM)
}

/// A buffer with room for the message of the ending.
fn ending_buffer(alloc: Global, ending: Ending<'_>) -> Result<LineBuf, Memory>
    ensures { IfOk result (λ buffer. (buffer.octets ≡ []) × (message_room (told_by ending.entry) ≤ buffer.spare)) }
{
    match ending {
        Ending::CannotRead { name }
        | Ending::FileTooLong { name }
        | Ending::CannotOpen { address: name } => framed_buffer(alloc, name, 0),
        Ending::Refused { name, reason, .. } => framed_buffer(alloc, name, reason.len()),
        Ending::BadWords | Ending::OutOfMemory | Ending::Served(_) => {
            framed_buffer(alloc, b"", 0)
        }
    }
}

/// Prints the message of the ending, and answers its status. Where there is no memory for the message, the run ends for
/// want of memory in its place.
pub fn tell<K: Sink>(alloc: Global, ending: Ending<'_>, out: &mut K) -> u8
    ensures { Tells (told_by ending.entry) (output_of K.written K.faults out.old out.new) result }
{
    let Ok(mut message) = ending_buffer(alloc, ending) else {
        return tell_memory(out);
    };
    ending.write_message(&mut message);
    print_text(message.octets(), out);
    ending.status()
}

/// Prints that memory was wanted, and answers the status.
pub fn tell_memory<K: Sink>(out: &mut K) -> u8
    ensures { Tells OutOfMemory (output_of K.written K.faults out.old out.new) result }
{
    print_text(b"modmap: out of memory\n", out);
    3
}

/// Prints a report, and answers the status: 0 where all that it tells of is well, 1 where it isn't, and 5 where it
/// couldn't be printed whole.
pub fn issue<K: Sink>(report: &[u8], good: bool, out: &mut K) -> u8
    ensures { Issues (record { text = report.now; good = good }) (output_of K.written K.faults out.old out.new) result }
{
    match print(out, report) {
        Ok(()) if good => 0,
        Ok(()) => 1,
        Err(Failed) => 5,
    }
}
