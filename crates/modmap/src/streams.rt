//! Reading and writing the readers and writers of std, with a count of faults. What a reader has left and what a writer
//! holds is known where its type tells it; of a file, a terminal or a socket nothing is.

ghost use Rattle.std.specs.Prelude.{◌≡◌, ◌≤◌, ◌<◌, length, IfOk, IfSome, Some};
ghost use Rattle.std.specs.Io.{ReadsAtMost};
ghost use Rattle.std.specs.Io.KnownBytes.{ReadConsumes};
ghost use Rattle.mm_outside.specs.Causes.{HasCause, Rose};
ghost use Rattle.mm_outside.specs.Files.{Reports, as_result};
ghost use Rattle.mm_outside.specs.Octets.{Appends, WritesSome};
ghost use Rattle.mm_outside.specs.Sending.{AppendsAll};
ghost use Rattle.mm_outside.specs.Told.{Told};

#[cfg(test)]
mod tests;

use mm_outside::{Bytes, Failed, ReadAllError, Text};
use std::alloc::Global;
use std::io::{Read, Write};

/// Counts a fault.
pub fn count_fault(faults: &mut u64) -> Failed
    ensures later { faults.old ≤ faults.new }
    ensures rose { Rose faults.old faults.new }
{
    *faults = faults.saturating_add(1);
    Failed
}

/// Reads octets to the front of `room`, and answers how many: none at the end of the input or where there is no room.
/// An error of the reader raises the count of faults, and takes no octet.
pub fn read_some<R: Read>(
    reader: &mut R,
    room: &mut [u8],
    faults: &mut u64,
) -> Result<usize, Failed>
    ensures bound { ReadsAtMost result room.new }
    ensures octets { ReadConsumes (R.remaining reader.old) (R.remaining reader.new) result room.new }
    ensures cause { HasCause faults.old faults.new result }
{
    match reader.read(room) {
        Ok(count) => Ok(count),
        Err(_) => Err(count_fault(faults)),
    }
}

/// Writes octets from the front of `piece`, at least one, and answers how many. An error of the writer, and a writer
/// that takes no octets, raise the count of faults; nothing is written then.
pub fn write_some<W: Write>(writer: &mut W, piece: &[u8], faults: &mut u64) -> Result<usize, Failed>
    ensures bound { WritesSome result piece.now }
    ensures octets { Told (Appends result piece.now) (W.contents writer.old) (W.contents writer.new) }
    ensures cause { HasCause faults.old faults.new result }
{
    match writer.write(piece) {
        Ok(count) if count > 0 => Ok(count),
        _ => Err(count_fault(faults)),
    }
}

/// All the octets that the reader has left, if these are at most `most`. A read that fails raises the count of faults.
pub fn read_whole<R: Read>(
    reader: &mut R,
    alloc: Global,
    most: u64,
    faults: &mut u64,
) -> Result<Bytes, ReadAllError>
    ensures bound { IfOk result (λ octets. length octets ≤ most) }
    ensures octets { IfSome (R.remaining reader.old) (λ left. Reports result (Some left) most) }
    ensures cause { HasCause faults.old faults.new (as_result result) }
{
    let mut text = Text::new(alloc);
    let mut room = [0u8; 65_536];
    for _ in 0..u64::MAX {
        match read_some(reader, &mut room, faults) {
            Ok(0) => return Ok(text),
            Ok(count) => {
                if count as u64 > most - text.octets().len() as u64 {
                    return Err(ReadAllError::TooLong);
                }
                let (piece, _) = room.split_at(count);
                let Ok(()) = text.extend(piece) else {
                    return Err(ReadAllError::Memory);
                };
            }
            Err(Failed) => return Err(ReadAllError::Failed),
        }
    }
    let Failed = count_fault(faults);
    Err(ReadAllError::Failed)
}

/// Writes all the octets, in as many writes as it takes. After `Failed` a proper prefix was written.
pub fn write_whole<W: Write>(writer: &mut W, piece: &[u8], faults: &mut u64) -> Result<(), Failed>
    ensures octets { Told (AppendsAll result piece.now) (W.contents writer.old) (W.contents writer.new) }
    ensures cause { HasCause faults.old faults.new result }
{
    let mut at = 0;
    while at < piece.len() {
        let (_, rest) = piece.split_at(at);
        at += write_some(writer, rest, faults)?;
    }
    Ok(())
}
