//! The path of a project's repository.

ghost use Rattle.std.specs.Prelude.{◌≡◌, ◌≤◌, [], true, length, IfOk};
ghost use Rattle.unit_registry.specs.Lines.{is_text, longest_text};

use mm_outside::{Memory, Text};
use std::alloc::Global;
use std::marker::Model;

/// The path of the repository, of at most 512 octets. Contracts see its octets.
#[derive(Debug, Drop)]
pub(crate) struct RepoPath {
    text: Text,
}

impl Model for RepoPath {
    ghost use Rattle.std.specs.Prelude.{◌≤◌, ℕ, List, length};
    ghost use Rattle.unit_registry.specs.Lines.{longest_text};

    ghost Value = { List ℕ };

    ghost view = { λ path. path.text };

    ghost invariant = { λ path. length path.text ≤ longest_text };
}

impl RepoPath {
    /// No path. It takes no memory.
    pub(crate) fn empty(alloc: Global) -> RepoPath
        ensures { result ≡ [] }
    {
        RepoPath {
            text: Text::new(alloc),
        }
    }

    /// A copy of a path.
    pub(crate) fn of(alloc: Global, path: &[u8]) -> Result<RepoPath, Memory>
        requires { is_text path.now ≡ true }
        ensures { IfOk result (λ copy. copy ≡ path.now) }
    {
        let text = Text::of(alloc, path)?;
        Ok(RepoPath { text })
    }

    /// The octets of the path.
    pub(crate) fn octets(&self) -> &[u8]
        ensures octets { result.now ≡ self.now }
        ensures short { length result.now ≤ longest_text }
    {
        self.text.octets()
    }
}
