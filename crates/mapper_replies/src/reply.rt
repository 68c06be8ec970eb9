//! What a reply says.

/// A reply of a mapper (libcody's protocol text).
#[derive(Clone, Copy, Debug, PartialEq, Eq)]
pub enum Reply<'a> {
    /// The greeting, `HELLO 1 builder [flags]`: the connection is accepted.
    Hello {
        /// The mapper's own word for itself.
        builder: &'a [u8],
        /// Flags, by which a mapper may tell what it wants to be asked; 0 where the word is missing.
        flags: u32,
    },
    /// A path.
    Pathname(&'a [u8]),
    /// Nothing but assent.
    Done,
    /// Whether an include is to be translated.
    Bool(bool),
    /// A refusal, with its message.
    Error(&'a [u8]),
}

/// The words are in no row of the table of replies.
#[derive(Clone, Copy, Debug, PartialEq, Eq)]
pub struct NotAReply;
