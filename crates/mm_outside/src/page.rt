//! Octets that are appended, in room that is taken beforehand.

ghost use Rattle.std.specs.Prelude.{◌≡◌, ◌+◌, ◌-◌, ◌≤◌, ◌++◌, [], length, take, IfOk};

use crate::Memory;
use std::alloc::Global;
use std::marker::Model;

/// Octets that are appended one piece behind the other, in room that is taken when it is made. Contracts see the
/// octets so far, and how many more there is room for.
#[derive(Drop)]
pub(crate) struct Page {
    octets: Vec<u8>,
    filled: usize,
}

impl Model for Page {
    ghost use Rattle.std.specs.Prelude.{take, vec_len, ◌-◌, ◌≤◌};
    ghost use Rattle.mm_outside.specs.Page.{Filled};

    ghost Value = { Filled };

    ghost view = { λ page. record { octets = take page.filled page.octets.items; spare = vec_len page.octets - page.filled } };

    ghost invariant = { λ page. page.filled ≤ vec_len page.octets };
}

impl Page {
    /// No octets, and room for so many.
    pub fn new(alloc: Global, room: usize) -> Result<Page, Memory>
        ensures { IfOk result (λ page. page ≡ record { octets = []; spare = room }) }
    {
        let octets = vec![in alloc; 0; room]?;
        Ok(Page { octets, filled: 0 })
    }

    /// How many more octets there is room for.
    pub fn spare(&self) -> usize
        ensures { result ≡ self.now.spare }
    {
        self.octets.len() - self.filled
    }

    /// Appends the octets, which have to fit.
    pub fn append(&mut self, piece: &[u8])
        requires { length piece.now ≤ self.old.spare }
        ensures { self.new ≡ record {
          octets = self.old.octets ++ piece.now;
          spare = self.old.spare - length piece.now;
        } }
    {
        put(&mut self.octets, self.filled, piece);
        self.filled += piece.len();
    }

    /// The octets so far.
    pub fn octets(&self) -> &[u8]
        ensures { result.now ≡ self.now.octets }
    {
        &self.octets[..self.filled]
    }
}

fn put(octets: &mut [u8], at: usize, piece: &[u8])
    requires { at + length piece.now ≤ length octets.old }
    ensures { take (at + length piece.now) octets.new ≡ take at octets.old ++ piece.now }
{
    octets[at..at + piece.len()].copy_from_slice(piece);
}
