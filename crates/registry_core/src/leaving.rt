//! How a connection goes.

/// How a connection goes (this project's own).
#[derive(Clone, Copy, Debug, PartialEq, Eq)]
pub enum Leaving {
    /// At the end of a block.
    Left,
    /// For another reason.
    Lost,
}
