//! Where a reader of a unit stands, and what it has read.

use crate::parts::{DeclKind, TypeUse};
use crate::terminal::Ident;
use crate::unit::Unit;
use mm_outside::{List, Memory, Text};

/// How much of a type was read.
#[derive(Clone, Copy, Debug, PartialEq, Eq)]
pub(crate) enum TypePlace {
    Begin,
    AfterConst,
    AfterBase,
    AfterReference,
}

/// What a type is of.
#[derive(Drop)]
pub(crate) enum Owner {
    OfAlias(Ident),
    OfDeclared,
    OfParameter(Ident),
}

/// Where a reader of an item stands.
#[derive(Drop)]
pub(crate) enum ItemPlace {
    WantsName(DeclKind),
    WantsAliasName,
    WantsEquals(Ident),
    InType(Owner, List<TypeUse>, TypePlace),
    AfterName(List<TypeUse>, Ident),
    AfterOpen(List<TypeUse>, Ident),
    WantsEnd(DeclKind, Ident, List<TypeUse>),
}

/// Where a terminal takes a reader of an item.
#[derive(Drop)]
pub(crate) enum ItemStep {
    Fails,
    Goes(ItemPlace),
    Ends(DeclKind, Ident, List<TypeUse>),
}

/// What may come next between the parts of a unit.
#[derive(Clone, Copy, Debug, PartialEq, Eq)]
pub(crate) enum Stage {
    AtHead,
    AtImports,
    AtDecls,
}

/// A dotted name so far, which goes on with an identifier or has one.
#[derive(Drop)]
pub(crate) enum NamePlace {
    Wants(Text),
    Has(Text),
}

/// Where an item stands, with the line of its `export`.
#[derive(Clone, Copy, Debug)]
pub(crate) enum Context {
    Alone(Option<u32>),
    Grouped(u32),
}

/// Where a reader of a unit stands. Numbers are lines, the first one of an `export`.
#[derive(Drop)]
pub(crate) enum Place {
    Between(Stage),
    Exported(Stage, u32),
    InModule(Option<u32>, u32, NamePlace),
    InPartition(Option<u32>, u32, Text, NamePlace),
    AfterImport(Option<u32>, u32),
    InImport(Option<u32>, u32, NamePlace),
    AfterHeader(Option<u32>, u32, Text),
    InItem(Context, ItemPlace),
    InGroup(u32),
}

/// A unit so far, and where its reader stands.
#[derive(Drop)]
pub(crate) struct Parser {
    /// The parts that were read whole.
    pub(crate) unit: Unit,
    /// Where the reader stands.
    pub(crate) place: Place,
}

/// Why a terminal takes a reader nowhere.
#[derive(Clone, Copy, Debug)]
pub(crate) enum StepError {
    Syntax,
    Memory,
}

impl From<Memory> for StepError {
    ghost use Rattle.std.specs.Prelude.{◌≡◌};
    ghost use Rattle.module_units.specs.declared.places.StepError.TheVariants.{Memory};

    ghost from_gives = { λ _ error. error ≡ Memory };

    fn from(_want: Memory) -> Self {
        StepError::Memory
    }
}
