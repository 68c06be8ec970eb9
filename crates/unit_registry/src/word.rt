//! Words as keys of a map.

use indexmap::Equivalent;
use mm_outside::Memory;
use std::alloc::Global;
use std::hash::{Hash, Hasher};
use std::marker::Model;

/// Octets that are hashed in one piece. A `Vec` feeds a hasher one octet after another, which takes most of a lookup.
#[derive(Debug, Drop)]
pub(crate) struct Word {
    octets: Vec<u8>,
}

impl Model for Word {
    ghost use Rattle.std.specs.Prelude.{List, ℕ};

    ghost Value = { List ℕ };

    ghost view = { λ word. word.octets.items };
}

impl Word {
    ghost use Rattle.std.specs.Prelude.{◌≡◌, IfOk};

    /// A copy of the octets.
    pub(crate) fn of(alloc: Global, octets: &[u8]) -> Result<Word, Memory>
        ensures ok { IfOk result (λ word. word ≡ octets.now) }
    {
        let octets = Vec::from_slice(alloc, octets)?;
        Ok(Word { octets })
    }
}

impl PartialEq for Word {
    ghost use Rattle.std.specs.Str.{bytes_eq};
    ghost use Rattle.std.specs.Cmp.{nat_eq_equiv, partial_equiv_from_equiv};
    ghost use Rattle.std.specs.Cmp.Lexicographic.{lists_equiv};

    ghost eq = { bytes_eq };

    ghost laws = { partial_equiv_from_equiv (lists_equiv nat_eq_equiv) };

    fn eq(&self, other: &Word) -> bool {
        self.octets.as_slice() == other.octets.as_slice()
    }
}

impl Eq for Word {
    ghost use Rattle.std.specs.Cmp.{nat_eq_equiv};
    ghost use Rattle.std.specs.Cmp.Lexicographic.{lists_equiv};

    ghost laws = { lists_equiv nat_eq_equiv };
}

impl Hash for Word {
    ghost use Rattle.std.specs.Prelude.{[], ◌∷◌};
    ghost use Rattle.std.proofs.Common.{ap};
    ghost use Rattle.std.specs.Cmp.Lexicographic.{bytes_decides};

    ghost hash_input = { λ word. word ∷ [] };

    ghost respects_eq = { λ x y same. ap (λ word. word ∷ []) ((bytes_decides x y).0 same) };

    fn hash<H: Hasher>(&self, state: &mut H) {
        state.write(self.octets.as_slice());
    }
}

/// What a word is looked up by.
#[derive(Clone, Copy)]
pub(crate) struct Asked<'a> {
    pub(crate) octets: &'a [u8],
}

impl PartialEq for Asked<'_> {
    ghost use Rattle.std.specs.Str.{bytes_eq};
    ghost use Rattle.std.specs.Cmp.{on_per, nat_eq_equiv, partial_equiv_from_equiv};
    ghost use Rattle.std.specs.Cmp.Lexicographic.{lists_equiv};

    ghost eq = { λ a b. bytes_eq a.octets.now b.octets.now };

    ghost laws = { on_per (λ asked. asked.octets.now) (partial_equiv_from_equiv (lists_equiv nat_eq_equiv)) };

    fn eq(&self, other: &Self) -> bool {
        self.octets == other.octets
    }
}

impl Eq for Asked<'_> {
    ghost use Rattle.std.specs.Cmp.{on_equiv, nat_eq_equiv};
    ghost use Rattle.std.specs.Cmp.Lexicographic.{lists_equiv};

    ghost laws = { on_equiv (λ asked. asked.octets.now) (lists_equiv nat_eq_equiv) };
}

impl Hash for Asked<'_> {
    ghost use Rattle.std.specs.Prelude.{[], ◌∷◌};
    ghost use Rattle.std.proofs.Common.{ap};
    ghost use Rattle.std.specs.Cmp.Lexicographic.{bytes_decides};

    ghost hash_input = { λ asked. asked.octets.now ∷ [] };

    ghost respects_eq = { λ x y same. ap (λ word. word ∷ []) ((bytes_decides x.octets.now y.octets.now).0 same) };

    fn hash<H: Hasher>(&self, state: &mut H) {
        state.write(self.octets);
    }
}

impl Equivalent<Word> for Asked<'_> {
    ghost use Rattle.std.proofs.Common.{ap};
    ghost use Rattle.std.specs.Prelude.{[], ◌∷◌};
    ghost use Rattle.std.specs.Str.{bytes_eq};
    ghost use Rattle.std.specs.Cmp.{nat_eq_equiv};
    ghost use Rattle.std.specs.Cmp.Lexicographic.{lists_equiv, bytes_decides};

    ghost equivalent = { λ asked word. bytes_eq asked.octets.now word };

    ghost respects_hash = { λ asked word same. ap (λ octets. octets ∷ []) ((bytes_decides asked.octets.now word).0 same) };

    ghost respects_eq = { λ asked x y. (lists_equiv nat_eq_equiv).congr asked.octets.now x y };

    fn equivalent(&self, key: &Word) -> bool {
        self.octets == key.octets.as_slice()
    }
}
