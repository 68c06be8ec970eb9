//! Lists of entries, of which the first of equal ones is kept.

ghost use Rattle.std.specs.Prelude.{◌≡◌, [], map, IfOk};
ghost use Rattle.export_lists.specs.Entries.{kind_number, with_entry, with_entries};
ghost use Rattle.export_lists.specs.Lists.{is_taken, own_entries};

use crate::listed::{Listed, MOST_ENTRIES, Own};
use indexmap::IndexSet;
use mm_outside::{List, Memory, Text};
use module_units::{Decl, DeclKind};
use std::alloc::Global;
use std::marker::Model;

/// What tells entries apart.
#[derive(Clone, Copy, PartialEq, Eq, Hash, Drop)]
struct Key<'a> {
    kind: u8,
    name: &'a [u8],
    owner: &'a [u8],
}

/// Entries, no two equal, which contracts see as a list in the order in which they came.
#[derive(Drop)]
pub(crate) struct Entries<'a> {
    list: List<Listed>,
    keys: IndexSet<Key<'a>>,
}

impl<'a> Model for Entries<'a> {
    ghost use Rattle.std.specs.Prelude.{◌≡◌, List, map};
    ghost use Rattle.export_lists.specs.Entries.{Listed};
    ghost use Rattle.export_lists.specs.Keys.{seen_key, key_of};

    ghost Value = { List Listed };

    ghost view = { λ entries. entries.list };

    ghost invariant = { λ entries. map seen_key entries.keys.keys ≡ map key_of entries.list };
}

/// The number of a kind of declaration.
pub(crate) fn kind_number(kind: DeclKind) -> u8
    ensures { result ≡ kind_number kind }
{
    match kind {
        DeclKind::Struct => 0,
        DeclKind::Class => 1,
        DeclKind::Alias => 2,
        DeclKind::Variable => 3,
        DeclKind::Function => 4,
    }
}

/// Whether a list takes a declaration of its unit.
fn is_taken(own: Own, decl: &Decl) -> bool
    ensures { result ≡ is_taken own decl.now }
{
    match own {
        Own::All => true,
        Own::Exported => decl.exported,
    }
}

impl<'a> Entries<'a> {
    /// No entries. It takes no memory.
    pub(crate) fn new(alloc: Global) -> Entries<'a>
        ensures { result ≡ [] }
    {
        Entries {
            list: List::new(alloc),
            keys: IndexSet::new(alloc),
        }
    }

    /// Adds an entry, unless an equal one is there.
    pub(crate) fn add(
        self,
        alloc: Global,
        kind: DeclKind,
        name: &'a [u8],
        owner: &'a [u8],
    ) -> Result<Entries<'a>, Memory>
        ensures { IfOk result (λ entries. entries ≡ with_entry self.entry (record { kind = kind; name = name.now; owner = owner.now })) }
    {
        let Entries { mut list, mut keys } = self;
        let key = Key {
            kind: kind_number(kind),
            name,
            owner,
        };
        if keys.contains(&key) {
            return Ok(Entries { list, keys });
        }
        if list.len() == MOST_ENTRIES {
            return Err(Memory);
        }
        keys.insert(key)?;
        let name = Text::of(alloc, name)?;
        let owner = Text::of(alloc, owner)?;
        list.push(Listed { kind, name, owner })?;
        Ok(Entries { list, keys })
    }

    /// Adds entries of a list, each unless an equal one is there.
    pub(crate) fn add_all(self, alloc: Global, listed: &'a [Listed]) -> Result<Entries<'a>, Memory>
        ensures { IfOk result (λ entries. entries ≡ with_entries self.entry listed.now) }
    {
        let mut entries = self;
        for entry in listed {
            entries = entries.add(alloc, entry.kind, entry.name.octets(), entry.owner.octets())?;
        }
        Ok(entries)
    }

    /// Adds the declarations of an owner that are taken, each unless an equal entry is there.
    pub(crate) fn add_decls(
        self,
        alloc: Global,
        own: Own,
        owner: &'a [u8],
        decls: &'a [Decl],
    ) -> Result<Entries<'a>, Memory>
        ensures { IfOk result (λ entries. entries ≡ with_entries self.entry (own_entries own owner.now decls.now)) }
    {
        let mut entries = self;
        for decl in decls {
            if is_taken(own, decl) {
                entries = entries.add(alloc, decl.kind, decl.name.octets(), owner)?;
            }
        }
        Ok(entries)
    }

    /// The entries.
    pub(crate) fn into_list(self) -> List<Listed>
        ensures { result ≡ self.entry }
    {
        self.list
    }
}
