//! The units of a subset of C++: a source is read as a unit, with its imports and declarations.
//!
//! The grammar is a subset of ISO C++20 ([module.unit], [module.import]). It and the checks on a unit
//! are this project's own. A source that is no unit is refused at its first fault, which is one of
//! three steps: its octets, then the grammar, then the checks.
#![tactic(auto)]

mod faults;
mod items;
mod laws;
mod names;
mod parts;
mod places;
mod reader;
mod spelling;
mod steps;
mod terminal;
#[cfg(test)]
mod tests;
mod unit;

pub use faults::{Fault, can_export};
pub use laws::{each_token_is_spelled, one_reading, one_syntax_fault, one_unit};
pub use parts::{Decl, DeclKind, Import, TypeUse, UnitKind};
pub use unit::{SourceError, Unit};
