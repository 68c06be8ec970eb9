//! Laws of names and CMI names, as the contracts of functions that do nothing.

ghost use Rattle.std.specs.Prelude.{◌≡◌, ◌≢◌, ◌≤◌, List, ℕ, Some, None, length};
ghost use Rattle.header_units.specs.declared.name.NameKind.{NameKind};
ghost use Rattle.header_units.specs.Names.{name_kind};
ghost use Rattle.header_units.specs.Grammar.{IsName};
ghost use Rattle.header_units.specs.CmiNames.{cmi_component, cmi_name, cmi_name_room};

/// Octets have a kind exactly where they are a name of that kind by the grammar, and none where they
/// are no name.
pub fn kind_by_grammar()
    ensures is_name { (kind : NameKind) (name : List ℕ) → name_kind name ≡ Some kind → IsName kind name }
    ensures has_kind { (kind : NameKind) (name : List ℕ) → IsName kind name → name_kind name ≡ Some kind }
    ensures no_name { (name : List ℕ) → name_kind name ≡ None → (kind : NameKind) → IsName kind name → ⊥ }
{}

/// A name has one kind.
pub fn one_kind()
    ensures { (kind other : NameKind) (name : List ℕ) → IsName kind name → IsName other name → kind ≡ other }
{}

/// Components that differ are written differently.
pub fn distinct_components()
    ensures { (part other : List ℕ) → cmi_component part ≡ cmi_component other → part ≡ other }
{}

/// Names that differ have CMI names that differ.
pub fn distinct_cmi_names()
    ensures same { (kind other : NameKind) (name another : List ℕ)
        → IsName kind name → IsName other another
        → cmi_name name ≡ cmi_name another → name ≡ another }
    ensures differ { (kind other : NameKind) (name another : List ℕ)
        → IsName kind name → IsName other another
        → name ≢ another → cmi_name name ≢ cmi_name another }
{}

/// A CMI name has no more octets than the room that it is given.
pub fn cmi_name_fits()
    ensures { (kind : NameKind) (name : List ℕ) → IsName kind name → length (cmi_name name) ≤ cmi_name_room }
{}
