//! Halls and links over the sockets of the machine, Unix and TCP. They tell no content: which octets a socket gives
//! and takes is outside every clause.
//!
//! An address is that of `mapper_commands`. All halls of one `bind` accept from one listener, and each gives at
//! most as many links as it was asked for. A write to a peer that is gone fails, and raises no signal.

mod hall;
mod house;
mod link;
mod listener;
mod opening;
#[cfg(test)]
mod tests;

pub use hall::SocketHall;
pub use house::SocketHouse;
pub use link::SocketLink;
