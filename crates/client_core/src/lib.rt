//! One client of a module mapper: the compiler's side of a connection.
//!
//! A client greets, asks where the interface of its unit goes and where those of its imports are, compiles the unit over
//! these, and reports it. It works over octets: whoever has the connection writes what the client is due to send, and
//! hands it what was read, however that is cut.
//!
//! What a client asks stands in `specs/Scripts.antt`, how what it reads is read as replies in `specs/Replies.antt`, and
//! what it comes to in `specs/Outcomes.antt`. What its calls change is said in `specs/Clients.antt`.
#![tactic(auto)]

mod client;
mod heard;
mod laws;
mod outcome;
mod replies;
mod script;
mod stage;
mod task;

pub use client::Client;
pub use laws::{
    all_are_told, block_is_one, first_is_faulty, more_is_awaited, replies_are_read, tellings_stay,
};
pub use outcome::ClientOutcome;
pub use script::Script;
pub use stage::{Got, Stage};
