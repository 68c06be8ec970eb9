//! Octets that are read from the front.

ghost use Rattle.std.specs.Prelude.{◌≡◌, ◌+◌, ◌-◌, ◌<◌, ◌≤◌, ◌++◌, [], length, take, drop, min, IfOk};

use crate::Memory;
use std::alloc::Global;
use std::marker::Model;

/// Octets that are read from the front, each once. Contracts see those that were read and those to come.
#[derive(Drop)]
pub(crate) struct Tape {
    octets: Vec<u8>,
    taken: usize,
}

impl Model for Tape {
    ghost use Rattle.std.specs.Prelude.{take, drop, vec_len, ◌≤◌};
    ghost use Rattle.mm_outside.specs.Tape.{Unread};

    ghost Value = { Unread };

    ghost view = { λ tape. record { read = take tape.taken tape.octets.items; to_come = drop tape.taken tape.octets.items } };

    ghost invariant = { λ tape. tape.taken ≤ vec_len tape.octets };
}

impl Tape {
    /// These octets, of which none was read.
    pub fn new(alloc: Global, octets: &[u8]) -> Result<Tape, Memory>
        ensures { IfOk result (λ tape. tape ≡ record { read = []; to_come = octets.now }) }
    {
        let octets = Vec::from_slice(alloc, octets)?;
        Ok(Tape { octets, taken: 0 })
    }

    /// Moves at most `size` octets to the front of `room`; none only at the end, or
    /// where `size` is 0.
    pub fn read(&mut self, size: usize, room: &mut [u8]) -> usize
        requires { size ≤ length room.old }
        ensures count { result ≡ min size (length self.old.to_come) }
        ensures read { self.new.read ≡ self.old.read ++ take result room.new }
        ensures to_come { self.old.to_come ≡ take result room.new ++ self.new.to_come }
        ensures end { result ≡ 0 → 0 < size → self.old.to_come ≡ [] }
    {
        let count = copy(&self.octets, self.taken, size, room);
        self.taken += count;
        count
    }
}

/// Copies what stands behind the first `taken` octets, at most `size` octets.
fn copy(octets: &[u8], taken: usize, size: usize, room: &mut [u8]) -> usize
    requires taken { taken ≤ length octets.now }
    requires size { size ≤ length room.old }
    ensures count { result ≡ min size (length octets.now - taken) }
    ensures read { take (taken + result) octets.now ≡
        take taken octets.now ++ take result room.new }
    ensures to_come { drop taken octets.now ≡ take result room.new ++ drop
        (taken + result) octets.now }
    ensures end { result ≡ 0 → 0 < size → drop taken octets.now ≡ [] }
{
    let (_, rest) = octets.split_at(taken);
    fill(rest, size, room)
}

fn fill(rest: &[u8], size: usize, room: &mut [u8]) -> usize
    requires { size ≤ length room.old }
    ensures count { result ≡ min size (length rest.now) }
    ensures copied { take result room.new ≡ take result rest.now }
{
    let count = size.min(rest.len());
    room[..count].copy_from_slice(&rest[..count]);
    count
}
