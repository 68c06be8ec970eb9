//! Lines and words of libcody's protocol: reading a line, and the one canonical way of writing one.
//!
//! A line is the octets up to a NEWLINE. It carries the mark, a semicolon at its end behind white
//! space, where more lines of its block follow. Its words stand apart by white space, and are
//! written bare or between apostrophes. Which octets are accepted, which lines are malformed and
//! where, and the canonical way of writing are this project's own.
#![tactic(auto)]

mod laws;
mod line_buf;
mod mode;
mod octets;
mod reader;
mod reason;
mod scanner;
mod words;
mod writer;

pub use laws::{
    canonical_spelling, canonical_text, line_says, no_newline_within, one_meaning, one_word,
    words_fit,
};
pub use line_buf::LineBuf;
pub use mode::is_white;
pub use reader::{LexError, Line, Reading, lex_line};
pub use reason::Reason;
pub use scanner::Scanner;
pub use words::{LONGEST_LINE, Words};
pub use writer::{write_line, write_number, write_word, write_words};

#[cfg(test)]
mod tests;
