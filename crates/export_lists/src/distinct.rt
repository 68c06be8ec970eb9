//! Entries that are read one by one, no two of which may be equal.

ghost use Rattle.std.specs.Prelude.{◌≡◌, ◌==◌, [], length, map, IfOk};
ghost use Rattle.export_lists.specs.OwnKeys.{seen_own, has_own};
ghost use Rattle.export_lists.specs.Keys.{key_of};
ghost use Rattle.export_lists.specs.Drafts.{added, Takes};
ghost use Rattle.export_lists.specs.declared.distinct.LineError.TheVariants as errors;

use crate::entries::kind_number;
use crate::grammar::is_good_entry;
use crate::listed::{Listed, MOST_NAMES};
use indexmap::IndexSet;
use mm_outside::{List, Memory, Text};
use module_units::DeclKind;
use std::alloc::Global;
use std::marker::Model;

/// Why a line isn't taken.
#[derive(Clone, Copy, Debug, PartialEq, Eq)]
pub(crate) enum LineError {
    /// No text of an interface goes on with it.
    Fault,
    /// Memory ran out.
    Memory,
}

impl From<Memory> for LineError {
    ghost from_gives = { λ _ given. given ≡ errors.Memory };

    fn from(_memory: Memory) -> LineError {
        LineError::Memory
    }
}

/// What tells entries apart.
#[derive(PartialEq, Eq, Hash, Drop)]
struct OwnKey {
    kind: u8,
    name: Vec<u8>,
    owner: Vec<u8>,
}

/// Entries, which contracts see as a list in the order in which they came.
#[derive(Drop)]
pub(crate) struct Distinct {
    list: List<Listed>,
    keys: IndexSet<OwnKey>,
}

impl Model for Distinct {
    ghost use Rattle.std.specs.Prelude.{◌≡◌, List, map};
    ghost use Rattle.export_lists.specs.Entries.{Listed};
    ghost use Rattle.export_lists.specs.OwnKeys.{seen_own};
    ghost use Rattle.export_lists.specs.Keys.{key_of};

    ghost Value = { List Listed };

    ghost view = { λ entries. entries.list };

    ghost invariant = { λ entries. map seen_own entries.keys.keys ≡ map key_of entries.list };
}

/// What tells an entry from others.
fn own_key(alloc: Global, kind: DeclKind, name: &[u8], owner: &[u8]) -> Result<OwnKey, Memory>
    ensures { IfOk result (λ key. seen_own key ≡ key_of (record { kind = kind; name = name.now; owner = owner.now })) }
{
    let name = Vec::from_slice(alloc, name)?;
    let owner = Vec::from_slice(alloc, owner)?;
    Ok(OwnKey {
        kind: kind_number(kind),
        name,
        owner,
    })
}

/// Whether the key is one of these.
fn has_key(keys: &IndexSet<OwnKey>, key: &OwnKey) -> bool
    ensures { result ≡ has_own keys.now.keys key.now }
{
    keys.contains(key)
}

impl Distinct {
    /// No entries. It takes no memory.
    pub(crate) fn new(alloc: Global) -> Distinct
        ensures { result ≡ [] }
    {
        Distinct {
            list: List::new(alloc),
            keys: IndexSet::new(alloc),
        }
    }

    /// Whether there are none.
    pub(crate) fn is_empty(&self) -> bool
        ensures { result ≡ (length self.now == 0) }
    {
        self.list.len() == 0
    }

    /// Adds an entry that may follow those that are there.
    pub(crate) fn add(
        self,
        alloc: Global,
        kind: DeclKind,
        name: &[u8],
        owner: &[u8],
    ) -> Result<Distinct, LineError>
        ensures { Takes (added self (record { kind = kind; name = name.now; owner = owner.now })) result }
    {
        if !is_good_entry(name, owner) {
            return Err(LineError::Fault);
        }
        let Distinct { mut list, mut keys } = self;
        if list.len() >= MOST_NAMES {
            return Err(LineError::Fault);
        }
        let key = own_key(alloc, kind, name, owner)?;
        if has_key(&keys, &key) {
            return Err(LineError::Fault);
        }
        let Ok(_) = keys.insert(key) else {
            return Err(LineError::Memory);
        };
        let name = Text::of(alloc, name)?;
        let owner = Text::of(alloc, owner)?;
        list.push(Listed { kind, name, owner })?;
        Ok(Distinct { list, keys })
    }

    /// The entries.
    pub(crate) fn into_list(self) -> List<Listed>
        ensures { result ≡ self }
    {
        self.list
    }
}
