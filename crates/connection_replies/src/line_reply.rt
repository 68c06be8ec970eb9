//! What a line of a block is answered.

use cody_words::Reason;
use histories::Answer;

/// What a line of a block is answered. Lines are counted from 1 in their block, blank ones left out.
#[derive(Clone, Copy, Debug, PartialEq, Eq)]
pub enum LineReply {
    /// The answer to the request that the line is.
    Answer(Answer),
    /// The refusal of a malformed line.
    Malformed {
        /// The number of the line.
        number: u32,
        /// Why it is malformed.
        reason: Reason,
    },
    /// The refusal of another line of a block that has a malformed one.
    Refused {
        /// The number of the first malformed line of the block.
        first: u32,
    },
}
