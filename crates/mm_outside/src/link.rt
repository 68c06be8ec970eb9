ghost use Rattle.std.specs.Prelude.{◌≡◌, ◌<◌, ℕ, length, Option};
ghost use Rattle.std.specs.Io.{ReadsAtMost};
ghost use Rattle.mm_outside.specs.Told.{Told};
ghost use Rattle.mm_outside.specs.Causes.{HasCause};
ghost use Rattle.mm_outside.specs.Octets.{Octets, Reads, Writes, WritesSome};

use crate::Failed;

/// One connection. It has two counts of faults, of failed reads and of failed writes.
pub trait Link {
    /// The octets that were read, are still to come and were written, where the link tells them.
    ghost octets: { Self → Option Octets };

    /// How often a read has failed.
    ghost read_faults: { Self → ℕ };

    /// How often a write has failed.
    ghost write_faults: { Self → ℕ };

    /// Reads the next octets to the front of `room`, and answers how many; 0 is the end of the
    /// input.
    fn read(&mut self, room: &mut [u8]) -> Result<usize, Failed>
        requires { 0 < length room.old }
        ensures bound { ReadsAtMost result room.new }
        ensures octets { Told (Reads result room.new) (octets self.old) (octets self.new) }
        ensures cause { HasCause (read_faults self.old) (read_faults self.new) result }
        ensures write_faults { write_faults self.new ≡ write_faults self.old };

    /// Writes octets from the front of `piece`, at least one, and answers how many.
    /// Where the real thing takes none, that is a fault.
    fn write(&mut self, piece: &[u8]) -> Result<usize, Failed>
        requires { 0 < length piece.now }
        ensures bound { WritesSome result piece.now }
        ensures octets { Told (Writes result piece.now) (octets self.old) (octets self.new) }
        ensures cause { HasCause (write_faults self.old) (write_faults self.new) result }
        ensures read_faults { read_faults self.new ≡ read_faults self.old };
}
