//! A buffer of fixed size that lines are written to.

ghost use Rattle.std.specs.Prelude.{◌≡◌, ◌+◌, ◌<◌, ◌≤◌, ◌∷◌, [], length, IfOk};
ghost use Rattle.cody_words.specs.Buffers.{Appends};

use mm_outside::Memory;
use std::alloc::Global;
use std::marker::Model;

/// A buffer of fixed size. Contracts see its octets and its spare room.
#[derive(Debug, Drop)]
pub struct LineBuf {
    octets: Vec<u8>,
    capacity: u32,
}

impl Model for LineBuf {
    ghost use Rattle.std.specs.Prelude.{◌-◌, ◌≤◌, vec_len};
    ghost use Rattle.std.specs.Vec.{vec_capacity};
    ghost use Rattle.cody_words.specs.Buffers.{Buffer};

    ghost Value = { Buffer };

    ghost view = { λ b. record { octets = b.octets.items; spare = b.capacity - vec_len b.octets } };

    ghost invariant = { λ b. (vec_len b.octets ≤ b.capacity) × (b.capacity ≤ vec_capacity b.octets) };
}

impl LineBuf {
    /// An empty buffer with room for `capacity` octets. It takes all its memory here.
    pub fn new(alloc: Global, capacity: u32) -> Result<LineBuf, Memory>
        ensures { IfOk result (λ buffer. buffer ≡ record { octets = []; spare = capacity }) }
    {
        let octets = Vec::with_capacity(alloc, capacity as usize)?;
        Ok(LineBuf { octets, capacity })
    }

    /// Forgets the octets. Their room is spare again.
    pub fn clear(&mut self)
        ensures { self.new ≡ record { octets = []; spare = self.old.spare + length self.old.octets } }
    {
        self.octets.clear();
    }

    /// The octets written.
    pub fn octets(&self) -> &[u8]
        ensures { result.now ≡ self.now.octets }
    {
        &self.octets
    }

    /// How many more octets there is room for.
    pub fn spare(&self) -> u32
        ensures { result ≡ self.now.spare }
    {
        self.capacity - self.octets.len() as u32
    }

    /// Appends an octet.
    pub fn push(&mut self, octet: u8)
        requires { 0 < self.old.spare }
        ensures { Appends self.old self.new (octet ∷ []) }
    {
        self.octets.push(octet).unwrap();
    }

    /// Appends octets.
    pub fn extend(&mut self, octets: &[u8])
        requires { length octets.now ≤ self.old.spare }
        ensures { Appends self.old self.new octets.now }
    {
        self.octets.extend_from_slice(octets).unwrap();
    }
}
