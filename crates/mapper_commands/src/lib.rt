//! The calls of the mapper server: the words of a command line, over files, a link or a house, and a sink, and out of them
//! an exit status, a message, a report or a trace. They stand on no stream and no file of the machine, so they serve in any
//! program that has such objects of its own.
#![tactic(auto)]

mod address;
mod alone;
mod askings;
mod check;
mod command;
mod ending;
#[cfg(test)]
mod gen_tests;
mod generator;
mod held;
mod list;
#[cfg(test)]
mod list_tests;
mod project_file;
mod replay;
#[cfg(test)]
mod replay_tests;
#[cfg(test)]
mod serve_tests;
mod serve_words;
mod shared;
mod sources;
mod telling;
#[cfg(test)]
mod tests;
mod trace_file;
#[cfg(test)]
mod trace_tests;
mod unit_files;
mod verb;

pub use address::Address;
pub use alone::run_alone;
pub use ending::Ending;
pub use shared::{is_shared, run_shared};
pub use telling::tell;
