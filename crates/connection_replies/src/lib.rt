//! The lines in which a module mapper answers: replies to requests, and the refusal of a block with a malformed line.
//!
//! A block is answered by as many lines as it has, in order, each a canonical line with the mark on all but the last,
//! as libcody's protocol says. The forms of replies are libcody's: `HELLO 1 builder`, `PATHNAME path`, `OK`,
//! `BOOL TRUE`, `BOOL FALSE` and `ERROR message`. The builder `modmap`, the texts of errors and that a block with a
//! malformed line is refused by line numbers are this project's own.
//!
//! The lines stand in `specs/ReplyLines.antt`.
#![tactic(auto)]

mod line_reply;
mod reply_buf;
mod texts;
mod writing;

pub use line_reply::LineReply;
pub use reply_buf::ReplyBuf;

#[cfg(test)]
mod tests;
