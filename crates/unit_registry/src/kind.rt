//! The kinds of units, and the names that they may have.

ghost use Rattle.std.specs.Prelude.{◌≡◌};
ghost use Rattle.header_units.specs.Names.{name_kind};
ghost use Rattle.unit_registry.specs.Kinds.{fits, is_header_name, is_module_name};

use header_units::{Name, NameKind};

/// The kind of a unit.
#[derive(Clone, Copy, Debug, PartialEq, Eq)]
pub enum Kind {
    /// A module or a partition of a module.
    Module,
    /// A header unit.
    Header,
    /// A source without a name that others import.
    Plain,
}

/// Whether a unit of the kind may have the name.
pub(crate) fn fits(kind: Kind, name: &[u8]) -> bool
    ensures { result ≡ fits kind name.now }
{
    match kind {
        Kind::Module => is_module_name(name),
        Kind::Header => is_header_name(name),
        Kind::Plain => name.is_empty(),
    }
}

/// Whether the octets are the name of a module or of a partition.
fn is_module_name(name: &[u8]) -> bool
    ensures { result ≡ is_module_name (name_kind name.now) }
{
    match Name::read(name) {
        Ok(name) => name.kind() != NameKind::Header,
        Err(_) => false,
    }
}

/// Whether the octets are the name of a header.
fn is_header_name(name: &[u8]) -> bool
    ensures { result ≡ is_header_name (name_kind name.now) }
{
    match Name::read(name) {
        Ok(name) => name.kind() == NameKind::Header,
        Err(_) => false,
    }
}
