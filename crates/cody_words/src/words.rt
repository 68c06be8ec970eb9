//! The words of one line.

ghost use Rattle.std.specs.Prelude.{◌≡◌, ◌+◌, ◌<◌, ◌≤◌, ◌++◌, ◌∷◌, ◌↔◌, [], length, IfOk, IsTrue, slice_get, Some};
ghost use Rattle.std.specs.List.{fold};
ghost use Rattle.cody_words.specs.Pieces.{total, cut, InOrder};
ghost use Rattle.cody_words.specs.Canonical.{line_room, most_line_room};
ghost use Rattle.cody_words.specs.Lines.{longest_line};
ghost use Rattle.cody_words.specs.Scan.{with_octet, with_word};

use mm_outside::Memory;
use std::alloc::Global;
use std::marker::Model;

/// The most octets that a line may have, without its NEWLINE (this project's own limit).
pub const LONGEST_LINE: usize = 8192;

/// The words of one line, in order. There is always room for those of the longest line.
#[derive(Debug, Drop)]
pub struct Words {
    octets: Vec<u8>,
    starts: Vec<u32>,
}

impl Model for Words {
    ghost use Rattle.std.specs.Prelude.{List, ℕ};
    ghost use Rattle.std.specs.Vec.{vec_capacity};
    ghost use Rattle.cody_words.specs.Pieces.{cut, IsCut};

    ghost Value = { List (List ℕ) };

    ghost view = { λ w. cut w.starts.items w.octets.items };

    ghost invariant = { λ w. IsCut w.starts.items w.octets.items (vec_capacity w.starts) (vec_capacity w.octets) };
}

impl Words {
    /// No words.
    pub(crate) fn new(alloc: Global) -> Result<Words, Memory>
        ensures { IfOk result (λ words. words ≡ []) }
    {
        let octets = Vec::with_capacity(alloc, LONGEST_LINE)?;
        let starts = Vec::with_capacity(alloc, LONGEST_LINE)?;
        Ok(Words { octets, starts })
    }

    /// Forgets the words.
    pub(crate) fn clear(&mut self)
        ensures { self.new ≡ [] }
    {
        self.octets.clear();
        self.starts.clear();
    }

    /// The number of words.
    pub fn len(&self) -> u32
        ensures len { result ≡ length self.now }
        ensures bound { result ≤ longest_line }
    {
        self.starts.len() as u32
    }

    /// Whether there is no word.
    pub fn is_empty(&self) -> bool
        ensures { IsTrue result ↔ (self.now ≡ []) }
    {
        self.len() == 0
    }

    /// The word at place `k`.
    pub fn word(&self, k: u32) -> &[u8]
        requires { k < length self.now }
        ensures word { slice_get self.now k ≡ Some result.now }
        ensures bound { length result.now ≤ longest_line }
    {
        piece(&self.octets, &self.starts, k as usize)
    }

    /// The room in octets that `write_line` asks for these words: at most 49,155.
    pub fn room(&self) -> u32
        ensures room { result ≡ line_room self.now }
        ensures bound { result ≤ most_line_room }
    {
        3 * (self.octets.len() + self.starts.len()) as u32 + 3
    }

    /// Begins an empty word behind the others.
    pub(crate) fn begin(&mut self)
        requires { length self.old < longest_line }
        ensures { self.new ≡ with_word self.old }
    {
        self.starts.push(self.octets.len() as u32).unwrap();
    }

    /// Appends an octet to the last word.
    pub(crate) fn push(&mut self, octet: u8)
        requires begun { 0 < length self.old }
        requires room { total self.old < longest_line }
        ensures { self.new ≡ with_octet self.old octet }
    {
        self.octets.push(octet).unwrap();
    }

    /// Appends octets to the last word.
    pub(crate) fn extend(&mut self, octets: &[u8])
        requires begun { 0 < length self.old }
        requires room { total self.old + length octets.now ≤ longest_line }
        ensures { self.new ≡ fold with_octet self.old octets.now }
    {
        self.octets.extend_from_slice(octets).unwrap();
    }
}

/// The piece that begins at the place `starts[k]`, up to where the next one begins.
fn piece<'a>(octets: &'a [u8], starts: &[u32], k: usize) -> &'a [u8]
    requires within { k < length starts.now }
    requires in_order { InOrder starts.now (length octets.now) }
    ensures { slice_get (cut starts.now octets.now) k ≡ Some result.now }
{
    let start = starts[k] as usize;
    if k + 1 < starts.len() {
        &octets[start..starts[k + 1] as usize]
    } else {
        &octets[start..]
    }
}
