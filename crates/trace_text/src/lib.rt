//! Traces: the text of a history, written and read, and whether the history is legal.
//!
//! A trace is lines of words. The first is `modmap-trace 1 W N`, of the number of workers and the limit of the history.
//! Then comes a line for each entry: its connection, its verb and what the verb needs. The last is `end COUNT`, of the
//! number of entries. Words stand apart by one space and are never quoted, numbers have no leading zeros, and no line
//! is blank. The last line may lack its NEWLINE. The text, its limits and its refusals are this project's own.
//!
//! The words, the lines and the text stand in `specs/Texts.antt`, the texts of traces and the first fault of any other
//! text in `specs/Faults.antt`, and what a check tells in `specs/Legal.antt`. The laws say that a text has one reading,
//! and that equal texts are of equal histories.
#![tactic(auto)]

mod laws;
mod legal;
mod lines;
mod reader;
mod reason;
mod tally;
mod trace;
mod words;
mod writer;

pub use histories::IllegalReason;
pub use laws::{equal_traces, lines_of_a_trace, one_reading};
pub use legal::{CheckError, check_legal};
pub use reader::read;
pub use reason::{TraceError, TraceReason};
pub use trace::{Entries, Trace};
pub use writer::{write_end, write_entry, write_head};

#[cfg(test)]
mod tests;
