//! Requests of libcody's protocol: the request that the words of a line are, and its one canonical line.
//!
//! | verb | words | form |
//! |---|---|---|
//! | `HELLO` | 3 or 4 | `HELLO version compiler [ident]`; a missing ident is empty |
//! | `MODULE-REPO` | 1 | |
//! | `MODULE-EXPORT` | 2 or 3 | `MODULE-EXPORT name [flags]` |
//! | `MODULE-IMPORT` | 2 or 3 | `MODULE-IMPORT name [flags]` |
//! | `MODULE-COMPILED` | 2 or 3 | `MODULE-COMPILED name [flags]` |
//! | `INCLUDE-TRANSLATE` | 2 or 3 | `INCLUDE-TRANSLATE name [flags]` |
//!
//! The verbs and forms are libcody's, version 1. Which spellings of a number are read, and the order in which
//! a request is found to be bad, are this project's own. A number is one to ten decimal digits of value at
//! most 4,294,967,295; leading zeros are accepted. Missing flags are 0. Words are tried in this order: the first
//! word is no verb of the table, the count of words is wrong, the version or the flags are no number.
//!
//! The table stands in `specs/Requests.antt`, the spelling of numbers in `specs/Numbers.antt`.
#![tactic(auto)]

mod laws;
mod number;
mod reader;
mod request;
mod verb;
mod writer;

pub use laws::{line_read_back, number_read_back, numbers_fit, room_fits, words_read_back};
pub use number::{read_decimal, read_number};
pub use reader::{read, word_or_empty};
pub use request::{Bad, Request};
pub use writer::write_into;

#[cfg(test)]
mod tests;
