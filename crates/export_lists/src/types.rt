//! The names of types, as a set.

ghost use Rattle.std.specs.Prelude.{◌≡◌, ◌++◌, [], ◌∷◌, slice_get, OnOk, IfOk, List, ℕ};
ghost use Rattle.export_lists.specs.Compiling.{is_type, is_among, type_name, types_in, unknown_in, unknown_lines};
ghost use Rattle.export_lists.specs.Types.{Knows};

use crate::listed::Listed;
use indexmap::IndexSet;
use mm_outside::Memory;
use module_units::{Decl, DeclKind, TypeUse};
use std::alloc::Global;
use std::marker::Model;

/// Names of types. Contracts see a list of them, in which each stands once.
#[derive(Drop)]
pub(crate) struct Types<'a> {
    names: IndexSet<&'a [u8]>,
}

impl<'a> Model for Types<'a> {
    ghost use Rattle.std.specs.Prelude.{List, ℕ, map};

    ghost Value = { List (List ℕ) };

    ghost view = { λ types. map (λ name. name.now) types.names.keys };
}

/// Whether declarations of the kind are types.
fn is_type(kind: DeclKind) -> bool
    ensures { result ≡ is_type kind }
{
    matches!(kind, DeclKind::Struct | DeclKind::Class | DeclKind::Alias)
}

impl<'a> Types<'a> {
    /// No names. It takes no memory.
    pub(crate) fn new(alloc: Global) -> Types<'a>
        ensures { Knows result [] }
    {
        Types {
            names: IndexSet::new(alloc),
        }
    }

    /// Whether the name is there.
    fn has(&self, name: &[u8]) -> bool
        ensures { result ≡ is_among self.now name.now }
    {
        self.names.contains(name)
    }

    /// Adds a name.
    fn add(&mut self, name: &'a [u8]) -> Result<(), Memory>
        ensures { OnOk result ((known : List (List ℕ)) → Knows self.old known → Knows self.new (known ++ name.now ∷ [])) }
    {
        self.names.insert(name)?;
        Ok(())
    }

    /// Adds a name, where declarations of the kind are types.
    fn add_type(&mut self, kind: DeclKind, name: &'a [u8]) -> Result<(), Memory>
        ensures { OnOk result ((known : List (List ℕ)) → Knows self.old known → Knows self.new (known ++ type_name kind name.now)) }
    {
        if !is_type(kind) {
            return Ok(());
        }
        self.add(name)?;
        Ok(())
    }

    /// Adds the names of the types among entries.
    pub(crate) fn add_listed(&mut self, entries: &'a [Listed]) -> Result<(), Memory>
        ensures { OnOk result ((known : List (List ℕ)) → Knows self.old known → Knows self.new (known ++ types_in entries.now)) }
    {
        for entry in entries {
            self.add_type(entry.kind, entry.name.octets())?;
        }
        Ok(())
    }

    /// The line of the first of the uses whose name isn't there.
    fn first_unknown(&self, uses: &[TypeUse]) -> Option<u32>
        ensures { result ≡ slice_get (unknown_in self.now uses.now) 0 }
    {
        for used in uses {
            if !self.has(used.name.octets()) {
                return Some(used.line);
            }
        }
        None
    }

    /// The line of the first use of a type that is neither there nor declared before.
    pub(crate) fn first_undeclared(mut self, decls: &'a [Decl]) -> Result<Option<u32>, Memory>
        ensures { IfOk result (λ line. (known : List (List ℕ)) → Knows self.entry known → line ≡ slice_get (unknown_lines known decls.now) 0) }
    {
        for decl in decls {
            if let Some(line) = self.first_unknown(decl.types.as_slice()) {
                return Ok(Some(line));
            }
            self.add_type(decl.kind, decl.name.octets())?;
        }
        Ok(None)
    }
}
