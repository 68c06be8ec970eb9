//! Pairs of units, of which the first waits for the second, and the walks along them.
//!
//! A walk is a list of units in which neighbours are such pairs, so a walk of one unit has no pair. A graph of waits
//! keeps the pairs, tells whether a walk leads from one unit to another, and takes no pair that would close a circle.
//! These rules are this project's own.
//!
//! The definitions stand in `specs/Walks.antt`, over lists of pairs. The laws say what they come to.
#![tactic(auto)]

mod laws;
mod marks;
mod waits;

pub use laws::{dropped_pairs, fewer_pairs, last_pair, one_more_pair, settled_pairs, walk_test};
pub use waits::Waits;

#[cfg(test)]
mod tests;
