//! The project that a project file declares, and requests with their names replaced by the numbers of units.
//!
//! A project file is lines of words. The first is `modmap-project 1`, the second `repo PATH`. Then come the lines of
//! the units, `module NAME IDENT`, `header NAME IDENT` or `plain IDENT`, of which those with a name may begin with
//! the word `built`. The last is `end`. Units are numbered in the order of their lines, from 0. Blank lines are
//! ignored, and no line has the mark that more follows. The file, its limits and its refusals are this project's own.
//!
//! The grammar of whole files stands in `specs/Grammar.antt`, and what a text declares in `specs/Readings.antt`. The
//! forms of lines stand in `specs/Lines.antt`, the faults in `specs/Drafts.antt`, and the act that a request is in
//! `specs/Acts.antt`.
#![tactic(auto)]

mod act;
mod draft;
mod kind;
mod laws;
mod line;
mod numbers;
mod project;
mod reader;
mod reason;
mod repo_path;
mod unit;
mod word;

pub use act::Act;
pub use kind::Kind;
pub use laws::{
    declared_line_by_line, declared_units_differ, found_by_ident, found_by_name, one_reading,
};
pub use project::Project;
pub use reader::{cut_at_newline, cut_line};
pub use reason::{ProjectError, ProjectReason};

#[cfg(test)]
mod tests;
