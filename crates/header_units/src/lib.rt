//! Names of modules and header units, and the names of their compiled module interfaces.
//!
//! A module name is identifiers joined by dots, and for a partition two such names joined by a
//! colon. A header name is a path that begins with `./` or `/` (P1184R2 names header units by paths).
//! Each name has one CMI name, the name of the file of its compiled module interface within the
//! repository, and names that differ have CMI names that differ. Writing `./` as `,/` and `..` as `,,`
//! comes from libcody. The other rules, and the limits, are this project's own.
#![tactic(auto)]

mod cmi_name;
mod grammar;
mod laws;
mod name;

pub use cmi_name::CMI_NAME_ROOM;
pub use grammar::is_identifier;
pub use laws::{cmi_name_fits, distinct_cmi_names, distinct_components, kind_by_grammar, one_kind};
pub use name::{BadName, Name, NameKind};

#[cfg(test)]
mod tests;
