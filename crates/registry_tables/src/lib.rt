//! What a registry keeps beside its history: tables of what the entries say of each unit and of each connection, the
//! imports that wait with the graph of who waits for whom, and the replies of all places.
//!
//! Each table is a function of the entries, and none of them is read again. The words are those of `histories`.
#![tactic(auto)]

mod acts;
mod conn_rows;
mod imports;
mod stalls;
mod tables;
mod wait_counts;

pub use acts::may_end;
pub use imports::{Imports, Waiting};
pub use stalls::settle_stall;
pub use tables::Tables;
