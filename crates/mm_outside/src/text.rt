//! Octets that contracts see as a list.

ghost use Rattle.std.specs.Prelude.{◌≡◌, ◌↔◌, ◌++◌, [], IfOk, OnOk, OnErr, IsTrue};

use crate::Memory;
use std::alloc::Global;
use std::marker::Model;

/// Octets, which contracts see as a list.
///
/// Two texts are equal where they have the same octets in the same order.
#[derive(Debug, Drop)]
pub struct Text {
    octets: Vec<u8>,
}

/// The octets of a file.
pub type Bytes = Text;

impl Model for Text {
    ghost use Rattle.std.specs.Prelude.{List, ℕ};

    ghost Value = { List ℕ };

    ghost view = { λ text. text.octets.items };
}

impl Text {
    /// The empty text. It takes no memory.
    pub fn new(alloc: Global) -> Text
        ensures { result ≡ [] }
    {
        Text {
            octets: Vec::new(alloc),
        }
    }

    /// The text of these octets. It takes no memory.
    pub fn from_vec(octets: Vec<u8>) -> Text
        ensures { result ≡ octets.items }
    {
        Text { octets }
    }

    /// The octets of the text. It takes no memory.
    pub fn into_vec(self) -> Vec<u8>
        ensures { result.items ≡ self }
    {
        self.octets
    }

    /// A copy of the octets.
    pub fn of(alloc: Global, octets: &[u8]) -> Result<Text, Memory>
        ensures { IfOk result (λ text. text ≡ octets.now) }
    {
        let octets = Vec::from_slice(alloc, octets)?;
        Ok(Text { octets })
    }

    /// Appends the octets. After `Memory` the text is as before.
    pub fn extend(&mut self, octets: &[u8]) -> Result<(), Memory>
        ensures ok { OnOk result (self.new ≡ self.old ++ octets.now) }
        ensures err { OnErr result (self.new ≡ self.old) }
    {
        self.octets.extend_from_slice(octets)?;
        Ok(())
    }

    /// The octets of the text, lent.
    pub fn octets(&self) -> &[u8]
        ensures { result.now ≡ self.now }
    {
        &self.octets
    }
}

impl PartialEq for Text {
    ghost use Rattle.std.specs.Prelude.{bytes_eq};
    ghost use Rattle.std.specs.Cmp.{nat_eq_equiv, partial_equiv_from_equiv};
    ghost use Rattle.std.specs.Cmp.Lexicographic.{lists_equiv};

    ghost eq = { bytes_eq };

    ghost laws = { partial_equiv_from_equiv (lists_equiv nat_eq_equiv) };

    fn eq(&self, other: &Text) -> bool {
        self.octets.as_slice() == other.octets.as_slice()
    }
}

impl Eq for Text {
    ghost use Rattle.std.specs.Cmp.{nat_eq_equiv};
    ghost use Rattle.std.specs.Cmp.Lexicographic.{lists_equiv};

    ghost laws = { lists_equiv nat_eq_equiv };
}
