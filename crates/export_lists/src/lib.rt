//! What the units of a project export and see: lists of names, and the outcome of each unit.
//!
//! A unit exports the names of its exported declarations and what its exported imports export. It
//! sees its own declarations and what its imports export, and within one module what its imports see
//! (ISO C++20 [module.import]). The lists are kept in a compiled module interface, a CMI, which has a
//! text. The lists, the text and the generated projects are this project's own.
//!
//! What a unit exports and sees stands in `specs/Lists.antt`, what it compiles to in
//! `specs/Compiling.antt`, and the unit that a source is in a project in `specs/Sources.antt`. The
//! outcome of a unit is defined in `specs/Outcomes.antt`, the outcomes of all units of a project in
//! `specs/Listings.antt`, and the report on them in `specs/Reports.antt`.
#![tactic(auto)]

mod cmi;
mod cmi_error;
mod cmi_reader;
#[cfg(test)]
mod cmi_tests;
mod cmi_text;
mod compile;
mod copies;
mod distinct;
mod draft;
mod draws;
mod entries;
mod generated;
mod grammar;
mod laws;
#[cfg(test)]
mod limit_tests;
mod lines;
mod listed;
mod listing;
#[cfg(test)]
mod listing_tests;
mod outcome;
mod rounds;
mod slots;
mod source;
#[cfg(test)]
mod tests;
mod types;
mod words;

pub use cmi::Cmi;
pub use cmi_error::CmiError;
pub use compile::{compile_unit, view_of};
pub use generated::{Generated, generate};
pub use laws::{
    one_cmi_reading, one_listing, one_source, rings_have_no_interface, written_cmi_is_read,
};
pub use listed::Listed;
pub use listing::{Listing, list_project};
pub use outcome::{Outcome, Verdict};
pub use source::unit_for;
