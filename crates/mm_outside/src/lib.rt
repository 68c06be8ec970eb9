//! The outside of the mapper server: texts and lists, want of memory and faults, the traits of
//! links, sinks, files, halls and houses, and a form in memory of each.
//!
//! The traits and their rules are this project's own. An object of the outside has a count of
//! faults, which never falls. A call answers `Failed` only where the count rose in that call or
//! stood at its last value, and no other answer changes the count. What an object tells of octets,
//! files, links and halls is optional, and clauses on it hold where it is told. After each call all
//! else that the object tells is as before.
//!
//! A call that may run out of memory takes `alloc` as its first argument, where it has no receiver or
//! `&self`. A method with `&mut self` takes none: its value keeps the allocator of its constructor,
//! or that of the values it was made of.
//!
//! The forms in memory tell everything. They take their room when they are made, count the calls of
//! each method from 0, and fail exactly where the call's number was listed or room is lacking.
#![tactic(auto)]

mod asked;
mod errors;
mod files;
mod hall;
mod house;
mod link;
mod list;
mod mem_files;
mod mem_hall;
mod mem_house;
mod mem_link;
mod mem_sink;
mod notes;
mod page;
mod script;
mod sink;
mod tape;
#[cfg(test)]
mod tests;
mod text;
mod writing;

pub use errors::{Failed, Memory};
pub use files::{Files, ReadAllError};
pub use hall::{Accepted, Back, Hall};
pub use house::{House, HouseError};
pub use link::Link;
pub use list::List;
pub use mem_files::MemFiles;
pub use mem_hall::MemHall;
pub use mem_house::MemHouse;
pub use mem_link::MemLink;
pub use mem_sink::MemSink;
pub use sink::Sink;
pub use text::{Bytes, Text};
pub use writing::{print, send};
