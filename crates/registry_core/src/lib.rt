//! The registry of a module mapper: the history of what its connections do, the items that are kept beside it, and the
//! desks at which entries are made.
#![tactic(auto)]

mod book;
mod desk;
mod full;
mod leaving;
mod ledger;
mod no_shelf;
mod shelf;
mod solo;

pub use book::{Book, Entered, MOST_ENTRIES, MOST_WORKERS};
pub use desk::Desk;
pub use full::Full;
pub use histories::{Answer, Entry};
pub use leaving::Leaving;
pub use ledger::going_act;
pub use no_shelf::NoShelf;
pub use shelf::Shelf;
pub use solo::SoloDesk;

#[cfg(test)]
mod tests;
