//! Words with their numbers, found by hashing.

ghost use Rattle.std.specs.Prelude.{◌≡◌, [], None, OnOk, OnErr};
ghost use Rattle.unit_registry.specs.Numbers.{number_in, with_number};

use crate::word::{Asked, Word};
use indexmap::IndexMap;
use mm_outside::Memory;
use std::alloc::Global;
use std::marker::Model;

/// Words with their numbers. Contracts see them as pairs in order.
#[derive(Debug, Drop)]
pub(crate) struct Numbers {
    numbers: IndexMap<Word, u32>,
}

impl Model for Numbers {
    ghost use Rattle.std.specs.Prelude.{List, ℕ};

    ghost Value = { List (List ℕ × ℕ) };

    ghost view = { λ kept. kept.numbers.entries };
}

impl Numbers {
    /// No words. It takes no memory.
    pub(crate) fn new(alloc: Global) -> Numbers
        ensures { result ≡ [] }
    {
        Numbers {
            numbers: IndexMap::new(alloc),
        }
    }

    /// The number of the word, if it has one.
    pub(crate) fn find(&self, word: &[u8]) -> Option<u32>
        ensures { result ≡ number_in self.now word.now }
    {
        self.numbers.get(Asked { octets: word }).copied()
    }

    /// Adds a word that has no number yet. An empty word gets none.
    pub(crate) fn add(&mut self, alloc: Global, word: &[u8], number: u32) -> Result<(), Memory>
        requires { number_in self.old word.now ≡ None }
        ensures ok { OnOk result (self.new ≡ with_number self.old word.now number) }
        ensures err { OnErr result (self.new ≡ self.old) }
    {
        if word.is_empty() {
            return Ok(());
        }
        let key = Word::of(alloc, word)?;
        self.numbers.insert(key, number)?;
        Ok(())
    }
}
