ghost use Rattle.std.specs.Prelude.{◌≡◌, ◌<◌, ℕ, List, length, Option};
ghost use Rattle.mm_outside.specs.Told.{Told};
ghost use Rattle.mm_outside.specs.Causes.{HasCause};
ghost use Rattle.mm_outside.specs.Octets.{Appends, WritesSome};

use crate::Failed;

/// Where reports and traces go.
pub trait Sink {
    /// The octets that were written, where the sink tells them.
    ghost written: { Self → Option (List ℕ) };

    /// How often a write has failed.
    ghost faults: { Self → ℕ };

    /// Writes octets from the front of `piece`, at least one, and answers how many.
    /// Where the real thing takes none, that is a fault.
    fn write(&mut self, piece: &[u8]) -> Result<usize, Failed>
        requires { 0 < length piece.now }
        ensures bound { WritesSome result piece.now }
        ensures written { Told (Appends result piece.now) (written self.old) (written self.new) }
        ensures cause { HasCause (faults self.old) (faults self.new) result };
}
