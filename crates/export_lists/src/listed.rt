//! The entries of lists.

use mm_outside::Text;
use module_units::DeclKind;

/// The most names of a list of exports, and of a view.
pub(crate) const MOST_NAMES: u32 = 65536;

/// The most entries that a list in memory has.
pub(crate) const MOST_ENTRIES: u32 = 2147483648;

/// Which of a unit's own declarations a list takes.
#[derive(Clone, Copy, Debug, PartialEq, Eq)]
pub(crate) enum Own {
    /// All of them.
    All,
    /// Those that are exported.
    Exported,
}

/// A name in a list of exports or in a view.
#[derive(Debug, Drop)]
pub struct Listed {
    /// What the name declares.
    pub kind: DeclKind,
    /// The name.
    pub name: Text,
    /// The module or the header that declares it. It is empty for a plain unit's own names.
    pub owner: Text,
}
