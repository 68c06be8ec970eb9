//! Histories of what the connections of a module mapper do, and the replies that they give.
//!
//! A history is a list of entries, each an act of a connection. The replies, who holds a unit, how it has ended, which
//! imports wait and when a history is stalled are functions of that list, of the project and of the number of workers.
//! What is said of an entry asks the entries before it alone, and a stall asks the entry itself besides. The rules are
//! this project's own.
//!
//! The words on entries with what was said to them at once stand in `specs/Answered.antt`, fates, replies and waits in
//! `specs/Noted.antt`, the table of answers in `specs/Answers.antt`, stalls and legal histories in
//! `specs/Histories.antt`, and what the kinds of acts do to the counts in `specs/Counts.antt`. The laws say what they
//! come to.
#![tactic(auto)]

mod answer;
mod answered;
mod entry;
mod illegal_reason;
mod laws;
mod standing;

pub use answer::{Answer, Said};
pub use answered::{Answered, Wait};
pub use entry::Entry;
pub use illegal_reason::IllegalReason;
pub use laws::{
    connection_numbers, ends_fit, entries_counted, entries_may_come, fates_stay,
    first_fault_decides, items_stored, legal_entries, one_more_entry, open_connections_counted,
    open_under_entries, paused_under_entries, replies_come, replies_stay, replies_tell_fates,
    reported_once, room_is_used_up, someone_goes_on, unanswered_wait, waits_are_acyclic,
    waits_until_ended,
};
pub use standing::{Fate, Who};
