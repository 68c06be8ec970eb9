//! What a desk is.

ghost use Rattle.std.specs.Prelude.{◌≡◌, ◌+◌, ◌<◌, ◌≤◌, true, ℕ, Bool, Option, IfSome, IfOk, IfErr, IsOk, IsTrue, Contains, IsFalse, is_some};
ghost use Rattle.unit_registry.specs.declared.act.Act.TheVariants.{Open, Done};
ghost use Rattle.unit_registry.specs.Projects.{unit_count};
ghost use Rattle.histories.specs.Entries.{has_its_unit, no_connection};
ghost use Rattle.histories.specs.Histories.{is_out_of_range};
ghost use Rattle.histories.specs.Counts.{Asks, effect_of};
ghost use Rattle.registry_core.specs.Ledgers.{IsFull, entry, leaving, is_open_in, reply_at};
ghost use Rattle.histories.specs.Answered.{stored_unit};
ghost use Rattle.registry_core.specs.Shelves.{ComesWith};
ghost use Rattle.registry_core.specs.Desks.{DeskState, Adds, Looks, IsSound, TakesNoTurn, is_kept};

use crate::{Answer, Full, Leaving};
use mm_outside::Memory;
use unit_registry::Act;

/// Whoever makes entries in a history, alone or together with others. `tells` is what it tells, and each call says what
/// it changes of that.
pub trait Desk {
    /// What is kept for a unit.
    type Item;

    /// What the desk's shelf holds besides its items.
    type Held;

    /// By what the shelf holds besides its items, whether an item fits a unit.
    ghost fits: { Self.Held → ℕ → Self.Item → Type 0 };

    /// What the desk tells.
    ghost tells: { Self → DeskState Self.Held };

    /// Whether it keeps its turn from one call to the next.
    ghost holds: { Self → Bool };

    /// Keeps the turn that the next call takes, and so the calls after it take none, until `release`. Whoever shares
    /// the history waits meanwhile. A desk that has a whole book does nothing.
    fn hold(&mut self)
        ensures same { tells self.new ≡ tells self.old };

    /// Gives back the turn that it keeps, if it keeps one.
    fn release(&mut self)
        ensures same { tells self.new ≡ tells self.old }
        ensures released { IsFalse (holds self.new) }
        ensures idle { IsFalse (holds self.old) → self.new ≡ self.old };

    /// Opens the next connection. `Full` comes exactly where the history that is then seen has no room for it and its
    /// end; the numbers are of that history.
    fn open(&mut self) -> Result<u32, Full>
        requires worker { (tells self.old).opened + (tells self.old).dones < (tells self.old).share }
        requires room { IsTrue (tells self.old).metered → 2 ≤ (tells self.old).room }
        ensures opened { IfOk result (λ conn. (place : ℕ) × Adds (tells self.old) (entry conn Open) place (tells self.new)) }
        ensures looked { IfErr result (λ full. Looks (tells self.old) (tells self.new)) }
        ensures full { IfErr result (λ full. IsFull (tells self.new).seen 1 full) }
        ensures roomy { 2 ≤ (tells self.old).room → IsOk result }
        ensures sound { IsSound (tells self.new) }
        ensures turn { TakesNoTurn (holds self.old) (holds self.new) };

    /// Enters a request or a pause of an open connection, and answers its place. `Full` comes exactly where the history
    /// that is then seen has no room for it; the numbers are of that history.
    fn ask(&mut self, conn: u32, act: Act, item: Option<Self::Item>) -> Result<u32, Full>
        requires own { Contains (tells self.old).connections conn }
        requires there { IsTrue (is_open_in (tells self.old).seen conn) }
        requires act { effect_of act ≡ Asks }
        requires unit { IsFalse (is_out_of_range (tells self.old).seen.project act) }
        requires whole { IsTrue (has_its_unit act) }
        requires item { ComesWith (fits (tells self.old).held) (stored_unit act) item }
        requires room { IsTrue (tells self.old).metered → 1 ≤ (tells self.old).room }
        ensures asked { IfOk result (λ place. Adds (tells self.old) (entry conn act) place (tells self.new)) }
        ensures looked { IfErr result (λ full. Looks (tells self.old) (tells self.new)) }
        ensures full { IfErr result (λ full. IsFull (tells self.new).seen 0 full) }
        ensures roomy { 1 ≤ (tells self.old).room → IsOk result }
        ensures sound { IsSound (tells self.new) }
        ensures turn { TakesNoTurn (holds self.old) (holds self.new) };

    /// The reply to the request at the place, if it has come in the history that is then seen.
    fn look(&mut self, place: u32) -> Option<Answer>
        ensures looked { Looks (tells self.old) (tells self.new) }
        ensures reply { result ≡ reply_at (tells self.new).seen place }
        ensures sound { IsSound (tells self.new) }
        ensures turn { TakesNoTurn (holds self.old) (holds self.new) };

    /// The connection goes. It is never refused.
    fn leave(&mut self, conn: u32, how: Leaving)
        requires own { Contains (tells self.old).connections conn }
        requires there { IsTrue (is_open_in (tells self.old).seen conn) }
        ensures left { (place : ℕ) × Adds (tells self.old) (entry conn (leaving how)) place (tells self.new) }
        ensures sound { IsSound (tells self.new) }
        ensures turn { TakesNoTurn (holds self.old) (holds self.new) };

    /// A worker is done. It is never refused.
    fn done(&mut self)
        requires worker { (tells self.old).opened + (tells self.old).dones < (tells self.old).share }
        ensures done { (place : ℕ) × Adds (tells self.old) (entry no_connection Done) place (tells self.new) }
        ensures sound { IsSound (tells self.new) }
        ensures turn { TakesNoTurn (holds self.old) (holds self.new) };

    /// A copy of the item that is kept for the unit: it was kept at the start, or is stored in the history that is then
    /// seen. `Memory` may come for any unit, and more of the history may have been seen then.
    fn fetch(&mut self, unit: u32) -> Result<Option<Self::Item>, Memory>
        requires unit { unit < unit_count (tells self.old).seen.project }
        ensures looked { Looks (tells self.old) (tells self.new) }
        ensures kept { IfOk result (λ item. is_some item ≡ is_kept (tells self.new) unit) }
        ensures fits { IfOk result (λ item. IfSome item (λ item. fits (tells self.new).held unit item)) }
        ensures sound { IsSound (tells self.new) }
        ensures turn { TakesNoTurn (holds self.old) (holds self.new) };
}
