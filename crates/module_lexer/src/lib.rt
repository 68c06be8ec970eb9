//! The tokens of a source of the subset of C++, and the reasons for which a source is refused.
//!
//! A source is cut from its front to its end into white space, comments and tokens, each as long as
//! it can be. The tokens and their rules are those of ISO C++20 for the subset; the subset and its
//! limits are this project's own.
//!
//! - White space is SPACE, TAB, 0x0d and NEWLINE.
//! - A comment is `//` up to the line's end, or `/*` up to the next `*/`.
//! - An identifier is `[A-Za-z_][A-Za-z0-9_]*` of at most 255 octets. The words `export module import
//!   struct class using const void bool char int unsigned long` are reserved.
//! - The punctuators are `; : . , ( ) { } * & =`.
//! - A string is `"`, octets that are neither `"` nor below 0x20 nor 0x7f, and `"`.
//!
//! A place is counted in octets from 0. Its line is 1 plus the number of NEWLINEs before it.
#![tactic(auto)]

mod front;
mod laws;
mod lengths;
mod lexed;
mod lines;
mod octets;
mod reason;
#[cfg(test)]
mod tests;
mod token;

pub use laws::{one_reading, tokens_in_order};
pub use lexed::{LexFault, Lexed};
pub use lines::end_line;
pub use reason::SourceReason;
pub use token::{Token, TokenKind};
