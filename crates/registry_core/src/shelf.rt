//! Where items are kept beside a history.

ghost use Rattle.std.specs.Prelude.{◌≡◌, ◌==◌, ◌<◌, ℕ, Option, Some, None, IfOk, if◌then◌else◌};

use mm_outside::Memory;
use std::alloc::Global;

/// Keeps an item for each of so many units.
pub trait Shelf {
    /// What is kept for a unit.
    type Item;

    /// What the shelf holds besides its items.
    type Held;

    /// What it holds besides its items.
    ghost held: { Self → Self.Held };

    /// By that, whether an item fits a unit.
    ghost fits: { Self.Held → ℕ → Self.Item → Type 0 };

    /// For how many units it has a place.
    ghost units: { Self → ℕ };

    /// The item that is kept for a unit, if one is.
    ghost kept: { Self → ℕ → Option Self.Item };

    /// Keeps the item for the unit. It takes no memory.
    fn put(&mut self, unit: u32, item: Self::Item)
        requires unit { unit < units self.old }
        requires fits { fits (held self.old) unit item }
        requires free { kept self.old unit ≡ None }
        ensures kept { (other : ℕ) → kept self.new other ≡ (if unit == other then Some item else kept self.old other) }
        ensures held { held self.new ≡ held self.old }
        ensures units { units self.new ≡ units self.old };

    /// A copy of the item that is kept for the unit, if one is. `Memory` may come for any unit.
    fn copy(&self, alloc: Global, unit: u32) -> Result<Option<Self::Item>, Memory>
        requires { unit < units self.now }
        ensures { IfOk result (λ item. item ≡ kept self.now unit) };

    /// Each item that it keeps fits its unit.
    ghost kept_fits: { (shelf : Self) (unit : ℕ) (item : Self.Item) → kept shelf unit ≡ Some item → fits (held shelf) unit item };
}
