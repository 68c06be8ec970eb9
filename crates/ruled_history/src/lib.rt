//! One history that many threads make together, each at a desk of its own, on a table of three words and a slot.
#![tactic(auto)]

mod bell;
mod board;
mod registry;
mod served;
mod shared;
mod turn;

pub use bell::Bell;
pub use board::{Stage, View};
pub use registry::{Registry, Seat};
pub use shared::SharedDesk;

#[cfg(test)]
mod examples;
#[cfg(test)]
mod holding;
#[cfg(test)]
mod ringing;
#[cfg(test)]
mod rooms;
#[cfg(test)]
mod tests;
#[cfg(test)]
mod two_seats;
#[cfg(test)]
mod two_threads;
