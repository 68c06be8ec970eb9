//! The session of one connection over any desk: octets in, acts entered, the reply octets of whole blocks out.
//!
//! A block's requests are entered at the desk in order, each name replaced by its unit, and then a Pause. Each line is
//! answered by one reply line, in order, as libcody's protocol text says, and no reply is begun before all replies of
//! the block are there. A block with a malformed line enters nothing and is refused by line numbers; that, the Pause
//! and the limits are this project's own.
//!
//! `TooLong` comes exactly at octet 67,108,865 since `reset`, `BatchTooLong` exactly where line 1,025 of a block ends,
//! and `HistoryFull` where the desk's history has no room for an act. After an end every call but `reset` answers that
//! end, and enters and writes nothing.
//!
//! What blocks ask and enter stands in `specs/Asking.antt`, the octets in which a history answers them in
//! `specs/Answers.antt`, how a connection stands when it has ended in `specs/Ends.antt`, the history of one that is
//! served alone in `specs/Alone.antt`, what its serving comes to in `specs/Serving.antt`, and what a session's calls
//! come to in `specs/Taking.antt`, `specs/Entering.antt` and `specs/Sessions.antt`.
#![tactic(auto)]

mod asked;
mod block_reader;
mod conn_end;
mod entering;
mod laws;
mod replying;
mod session;

pub use conn_end::{ConnEnd, Took, Turn};
pub use entering::Stash;
pub use laws::{answers_go_on, answers_join, answers_stay, answers_stay_later, served_stays};
pub use session::Session;

#[cfg(test)]
mod tests;
