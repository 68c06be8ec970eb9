//! Which words the text of an interface may have.

ghost use Rattle.std.specs.Prelude.{◌≡◌, is_some};
ghost use Rattle.header_units.specs.Names.{name_kind};
ghost use Rattle.export_lists.specs.CmiTexts.{is_owner, is_good_entry};

use header_units::{Name, NameKind, is_identifier};

/// Whether the octets are a name of a module, of a partition or of a header unit.
pub(crate) fn is_name(octets: &[u8]) -> bool
    ensures { result ≡ is_some (name_kind octets.now) }
{
    Name::read(octets).is_ok()
}

/// Whether the octets may own names: a dotted name or a header name.
fn is_owner(octets: &[u8]) -> bool
    ensures { result ≡ is_owner octets.now }
{
    match Name::read(octets) {
        Ok(name) => name.kind() != NameKind::Partition,
        Err(_) => false,
    }
}

/// Whether an entry of this name and owner may be read.
pub(crate) fn is_good_entry(name: &[u8], owner: &[u8]) -> bool
    ensures { result ≡ is_good_entry name.now owner.now }
{
    is_identifier(name) && is_owner(owner)
}
