//! Pieces that are written whole.

ghost use Rattle.std.specs.Prelude.{◌≡◌};
ghost use Rattle.mm_outside.specs.Told.{Told};
ghost use Rattle.mm_outside.specs.Causes.{HasCause};
ghost use Rattle.mm_outside.specs.Sending.{Sends, AppendsAll};

use crate::{Failed, Link, Sink};

/// Writes all the octets to a link, in as many writes as it takes. After `Failed` a proper
/// prefix was written.
pub fn send<L: Link>(link: &mut L, piece: &[u8]) -> Result<(), Failed>
    ensures octets { Told (Sends result piece.now) (L.octets link.old) (L.octets link.new) }
    ensures cause { HasCause (L.write_faults link.old) (L.write_faults link.new) result }
    ensures read_faults { L.read_faults link.new ≡ L.read_faults link.old }
{
    let mut at = 0;
    while at < piece.len() {
        let (_, rest) = piece.split_at(at);
        at += link.write(rest)?;
    }
    Ok(())
}

/// Writes all the octets to a sink, in as many writes as it takes. After `Failed` a proper
/// prefix was written.
pub fn print<K: Sink>(sink: &mut K, piece: &[u8]) -> Result<(), Failed>
    ensures written { Told (AppendsAll result piece.now) (K.written sink.old) (K.written sink.new) }
    ensures cause { HasCause (K.faults sink.old) (K.faults sink.new) result }
{
    let mut at = 0;
    while at < piece.len() {
        let (_, rest) = piece.split_at(at);
        at += sink.write(rest)?;
    }
    Ok(())
}
