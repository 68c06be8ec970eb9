//! A compiled module interface.

use crate::listed::Listed;
use mm_outside::{List, Text};

/// The compiled module interface of a unit: the names that it exports and sees.
#[derive(Debug, Drop)]
pub struct Cmi {
    /// The name of the unit. It is empty for a plain one.
    pub unit: Text,
    /// Whether the unit is an interface: a module, an interface partition or a header unit.
    pub interface: bool,
    /// What it exports. Of equal entries the first is kept.
    pub exports: List<Listed>,
    /// What it sees. Of equal entries the first is kept.
    pub view: List<Listed>,
}
