//! A shelf of marks.

ghost use Rattle.std.specs.Prelude.{◌≡◌, ℕ, None};
ghost use Rattle.registry_core.specs.Marks.{mark_at};

use crate::shelf::Shelf;
use mm_outside::Memory;
use std::alloc::Global;

/// A shelf for which every item is the same: it keeps one mark for each of 16,384 units.
#[derive(Drop)]
pub struct NoShelf {
    marks: [bool; 16384],
}

impl NoShelf {
    /// The shelf that keeps nothing yet.
    pub fn new() -> NoShelf
        ensures { (unit : ℕ) → mark_at result.marks unit ≡ None }
    {
        NoShelf {
            marks: [false; 16384],
        }
    }
}

impl Shelf for NoShelf {
    ghost use Rattle.registry_core.specs.Marks.{mark_at};

    type Item = ();

    type Held = ();

    ghost held = { λ shelf. tt };

    ghost fits = { λ held unit item. Unit {0} };

    ghost units = { λ shelf. 16384 };

    ghost kept = { λ shelf unit. mark_at shelf.marks unit };

    fn put(&mut self, unit: u32, _item: ()) {
        self.marks[unit as usize] = true;
    }

    fn copy(&self, _alloc: Global, unit: u32) -> Result<Option<()>, Memory> {
        if self.marks[unit as usize] {
            return Ok(Some(()));
        }
        Ok(None)
    }

    ghost kept_fits = { λ shelf unit item kept. tt };
}
