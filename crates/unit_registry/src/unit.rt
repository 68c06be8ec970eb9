//! A unit as a project declares it.

use crate::kind::Kind;
use mm_outside::Text;

/// A unit of a project.
#[derive(Debug, Drop)]
pub(crate) struct Declared {
    /// Its kind.
    pub kind: Kind,
    /// Its name, empty for a plain unit.
    pub name: Text,
    /// The word by which its compiler says who it is.
    pub ident: Text,
    /// Whether its interface was built before.
    pub built: bool,
}
