//! What a unit is made of.

use mm_outside::{List, Text};

/// What a declaration declares. The first three are types.
#[derive(Clone, Copy, Debug, PartialEq, Eq)]
pub enum DeclKind {
    /// `struct NAME;`
    Struct,
    /// `class NAME;`
    Class,
    /// `using NAME = TYPE;`
    Alias,
    /// `TYPE NAME;`
    Variable,
    /// `TYPE NAME(TYPES);`
    Function,
}

/// The kind of a unit.
#[derive(Clone, Copy, Debug, PartialEq, Eq)]
pub enum UnitKind {
    /// `export module M;`
    Interface,
    /// `module M;`
    Implementation,
    /// `export module M:P;`
    PartitionInterface,
    /// `module M:P;`
    PartitionImplementation,
    /// No module declaration.
    Plain,
}

/// An identifier that a declaration's types use.
#[derive(Debug, Drop)]
pub struct TypeUse {
    /// The identifier.
    pub name: Text,
    /// Its line, counted from 1.
    pub line: u32,
}

/// An import of a unit.
#[derive(Debug, Drop)]
pub struct Import {
    /// Whether it begins with `export`.
    pub exported: bool,
    /// The name of the unit that it imports: `M`, `M:P`, or the name of a header.
    pub name: Text,
    /// The line of its first token, counted from 1.
    pub line: u32,
}

/// A declaration of a unit.
#[derive(Debug, Drop)]
pub struct Decl {
    /// Whether it is exported, by its own `export` or by that of a group.
    pub exported: bool,
    /// What it declares.
    pub kind: DeclKind,
    /// Its identifier.
    pub name: Text,
    /// The line of its identifier, counted from 1.
    pub line: u32,
    /// The identifiers among the bases of its types, in the order of the text.
    pub types: List<TypeUse>,
}
