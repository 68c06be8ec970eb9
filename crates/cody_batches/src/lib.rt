//! Lines and blocks of a connection's octets, octet by octet.
//!
//! Octets are cut into lines at each NEWLINE. A line with the mark has more of its block behind it, as libcody's
//! protocol says: each line of a block but its last has the mark, and its last has none. That blank lines are
//! ignored, with the mark or without, and end no block, is this project's own rule; so are the limits of 1,024 lines
//! a block and of 67,108,864 octets a connection, behind which nothing is taken.
//!
//! The definitions stand in `specs/Blocks.antt`, over whole lists of octets. The laws say what they come to.
#![tactic(auto)]

mod intake;
mod laws;

pub use intake::{Intake, MOST_LINES, Step};
pub use laws::{
    blank_line_ends, blocks_stay, cut_list, few_lines, limits_stay, line_by_line, line_ends,
    line_list, long_begins, long_stays, run_within, taken_at_lines_limit, taken_at_octets_limit,
    taken_grows, taken_whole, within_limits,
};

#[cfg(test)]
mod tests;
