//! Replies of libcody's protocol, version 1: reading the words of one, writing one as a line, and the
//! texts of refusals.
//!
//! The forms of replies are libcody's. That a missing flags word is 0, that flags 0 are left out, which
//! words are numbers, and all refusal texts are this project's own.
//!
//! The table of replies stands in `specs/Replies.antt`, what is seen of a reply in `specs/Values.antt`,
//! and the texts of refusals in `specs/Refusals.antt`. Numbers are those of requests.
#![tactic(auto)]

mod laws;
mod reader;
mod refusal;
mod reply;
mod writer;

pub use laws::{one_reply, refusals_differ, written_is_read};
pub use reader::read;
pub use refusal::Refusal;
pub use reply::{NotAReply, Reply};
pub use writer::write_into;

#[cfg(test)]
mod tests;
