//! Serving connections: one over any desk, alone or beside others; those of a hall, one after another; and those of many
//! halls at once, over one history that is printed.
//!
//! One step of serving answers the block that waits, if its replies are there, and then takes octets up to the end of a
//! block; octets are read where all that were read before have been taken. Two loops stand over that step. `pipe` serves
//! a link as the only connection of a history, and never waits. `serve_connection` serves a link beside others, and
//! where a block waits for a reply it waits at a bell. `work` serves the links of a hall as connections of one desk, and
//! `serve` those of many halls, each with a worker in a thread of its own.
//!
//! What serving comes to stands in `specs/Headline.antt`; for one connection in `specs/Serving.antt`, and for one that is
//! served alone in `Serving.antt` of `connection_core`.
#![tactic(auto)]

mod connection;
mod example;
mod printing;
mod serving;
mod single;
mod step;
mod worker;

pub use connection::serve_connection;
pub use example::{TwoServed, two_served};
pub use serving::{ServeError, Served, serve};
pub use single::pipe;
pub use worker::{ServedConn, conn_status, serve_link, work};

#[cfg(test)]
mod gate_tests;
#[cfg(test)]
mod law_tests;
#[cfg(test)]
mod serve_tests;
#[cfg(test)]
mod tests;
#[cfg(test)]
mod turn_tests;
