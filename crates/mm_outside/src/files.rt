ghost use Rattle.std.specs.Prelude.{◌≡◌, ◌≤◌, ◌+◌, ℕ, List, Option, length, IfOk};
ghost use Rattle.mm_outside.specs.Told.{Told};
ghost use Rattle.mm_outside.specs.Causes.{HasCause};

use crate::Failed;
use crate::text::Bytes;

/// Why a file was not read.
#[derive(Clone, Copy, Debug, PartialEq, Eq)]
pub enum ReadAllError {
    /// The count of failed reads rose. It comes before `Absent` and `TooLong`.
    Failed,
    /// There is no file of that name.
    Absent,
    /// The file holds more octets than were asked for.
    TooLong,
    /// Want of memory.
    Memory,
}

/// Files by their names. They have two counts of faults, of failed reads and of failed writes.
pub trait Files {
    ghost use Rattle.mm_outside.specs.Files.{Finds, Stores, as_result};

    /// What each name holds, where the files tell it.
    ghost content: { Self → Option (List ℕ → Option (List ℕ)) };

    /// How often a read has failed.
    ghost read_faults: { Self → ℕ };

    /// How often a write has failed.
    ghost write_faults: { Self → ℕ };

    /// What the file of that name holds, if that is at most `most` octets. No read changes a file.
    fn read_all(&mut self, name: &[u8], most: u64) -> Result<Bytes, ReadAllError>
        ensures bound { IfOk result (λ octets. length octets ≤ most) }
        ensures content { Told (Finds result name.now most) (content self.old) (content self.new) }
        ensures cause { HasCause (read_faults self.old) (read_faults self.new) (as_result result) }
        ensures write_faults { write_faults self.new ≡ write_faults self.old };

    /// Puts the octets under the name, in place of what it held. After `Failed` it may hold
    /// anything. No other name changes.
    fn write_all(&mut self, name: &[u8], octets: &[u8]) -> Result<(), Failed>
        ensures content { Told (Stores result name.now octets.now) (content self.old)
            (content self.new) }
        ensures cause { HasCause (write_faults self.old) (write_faults self.new) result }
        ensures read_faults { read_faults self.new ≡ read_faults self.old };
}
