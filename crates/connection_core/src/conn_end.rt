//! How a connection goes on, and how it ends.

/// How a connection ended. The limits are this project's own.
#[derive(Clone, Copy, Debug, PartialEq, Eq)]
pub enum ConnEnd {
    /// The input ended behind a whole block, or before any.
    Closed,
    /// The input ended inside a block.
    Truncated {
        /// How many lines of it were held, an unfinished one counted.
        lines: u32,
    },
    /// A read of the link failed.
    ReadFault,
    /// A write of the link failed.
    WriteFault,
    /// The input has more octets than a connection may send, 67,108,864.
    TooLong,
    /// A block has more lines than a block may have, 1,024, blank ones not counted.
    BatchTooLong,
    /// The history has no room for all that a block enters.
    HistoryFull {
        /// How many entries the history had.
        entries: u32,
        /// How many ends were kept free in it.
        reserved: u32,
    },
}

/// What a session took of a piece of input.
#[derive(Clone, Copy, Debug, PartialEq, Eq)]
pub enum Took {
    /// All of it, and no block ended in it.
    All,
    /// Its first `used` octets, with which a block ended. The block waits for its replies.
    Block { used: usize },
    /// Nothing counts of it: the connection has ended.
    Ended(ConnEnd),
}

/// Whether the replies of a block were written.
#[derive(Clone, Copy, Debug, PartialEq, Eq)]
pub enum Turn {
    /// All reply lines were written, or none was due.
    Fed,
    /// The request at this place of the history has no reply yet, the first such of the block, and nothing was written.
    Waiting { place: u32 },
    /// The connection has ended.
    Ended(ConnEnd),
}
