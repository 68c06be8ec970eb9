//! Laws of replies, as the contracts of functions that do nothing.

ghost use Rattle.client_core.specs.Laws.{AllAreTold, BlockIsOne, FirstIsFaulty, MoreIsAwaited, RepliesAreRead, TellingsStay};

/// The words of a line are a reply by the table of replies exactly where the function reads them as that reply.
pub fn replies_are_read()
    ensures { RepliesAreRead }
{}

/// All replies to a block are told exactly where the first lines are a reply to each of its requests.
pub fn all_are_told()
    ensures { AllAreTold }
{}

/// A reply is awaited exactly where there are fewer lines than requests, each of them a reply.
pub fn more_is_awaited()
    ensures { MoreIsAwaited }
{}

/// A line is at fault exactly where those before it are replies, and it isn't the one that is due.
pub fn first_is_faulty()
    ensures { FirstIsFaulty }
{}

/// More octets take nothing back of what was told.
pub fn tellings_stay()
    ensures { TellingsStay }
{}

/// The octets of a block are one block, whose lines are those of its requests, and nothing is held after it.
pub fn block_is_one()
    ensures { BlockIsOne }
{}
