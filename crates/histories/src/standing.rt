//! Who a connection is, and how a unit has ended (this project's own).

/// Who a connection is.
#[derive(Clone, Copy, Debug, PartialEq, Eq)]
pub enum Who {
    /// No hello of it was accepted.
    Nobody,
    /// Its accepted hello named no unit of the project.
    Guest,
    /// Its accepted hello took this unit.
    Holder(u32),
}

/// How a unit has ended.
#[derive(Clone, Copy, Debug, PartialEq, Eq)]
pub enum Fate {
    /// It was built before, or reported as compiled.
    Compiled,
    /// Its holder went without reporting it, or it was given up.
    Failed,
}
