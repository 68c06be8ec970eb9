ghost use Rattle.std.specs.Prelude.{◌≡◌, ◌≤◌, ◌<◌, ◌↔◌, [], All, IfOk, IsErr, Some, length, min};

use crate::page::Page;
use crate::script::Script;
use crate::tape::Tape;
use crate::{Failed, Link, Memory};
use std::alloc::Global;

/// A link in memory, which tells everything.
///
/// It counts its reads and its writes, each from 0, and a call fails where its number was listed.
/// Call k handles at most the k-th of the sizes, and behind the end of the sizes all.
/// A write past its room fails too.
#[derive(Drop)]
pub struct MemLink {
    input: Tape,
    output: Page,
    reads: Script,
    writes: Script,
    read_faults: u64,
    write_faults: u64,
}

impl MemLink {
    ghost use Rattle.mm_outside.specs.Plan.{planned};
    ghost use Rattle.mm_outside.specs.MemLink.{octets_of, plan_of, HasNoFaults};

    /// A link that gives the octets of `input`, and takes at most `room` octets.
    pub fn new(
        alloc: Global,
        input: &[u8],
        room: u32,
        read_sizes: &[u32],
        write_sizes: &[u32],
        failing_reads: &[u64],
        failing_writes: &[u64],
    ) -> Result<MemLink, Memory>
        requires read_sizes { All (λ size. 1 ≤ size) read_sizes.now }
        requires write_sizes { All (λ size. 1 ≤ size) write_sizes.now }
        ensures octets { IfOk result (λ link. octets_of link ≡
            record { read = []; to_come = input.now; written = [] }) }
        ensures plan { IfOk result (λ link. plan_of link ≡
            record {
              reads = planned read_sizes.now failing_reads.now;
              writes = planned write_sizes.now failing_writes.now;
              spare = room;
            }) }
        ensures faults { IfOk result HasNoFaults }
    {
        Ok(MemLink {
            input: Tape::new(alloc, input)?,
            output: Page::new(alloc, room as usize)?,
            reads: Script::new(alloc, read_sizes, failing_reads)?,
            writes: Script::new(alloc, write_sizes, failing_writes)?,
            read_faults: 0,
            write_faults: 0,
        })
    }

    /// The octets that were written.
    pub fn written(&self) -> &[u8]
        ensures { result.now ≡ (octets_of self.now).written }
    {
        self.output.octets()
    }
}

impl Link for MemLink {
    ghost use Rattle.std.specs.Io.{ReadsAtMost};
    ghost use Rattle.mm_outside.specs.Causes.{HasCause};
    ghost use Rattle.mm_outside.specs.Octets.{Reads, Writes, WritesSome};
    ghost use Rattle.mm_outside.specs.Told.{Told};
    ghost use Rattle.mm_outside.specs.Plan.{IsDue, next_size, handled};
    ghost use Rattle.mm_outside.specs.MemLink.{octets_of, read_faults_of, write_faults_of, plan_of, LacksWrite, read_once, write_once};

    ghost octets = { λ link. Some (octets_of link) };

    ghost read_faults = { read_faults_of };

    ghost write_faults = { write_faults_of };

    fn read(&mut self, room: &mut [u8]) -> Result<usize, Failed>
        requires { 0 < length room.old }
        ensures bound { ReadsAtMost result room.new }
        ensures octets { Told (Reads result room.new) (Some (octets_of self.old))
            (Some (octets_of self.new)) }
        ensures cause { HasCause (read_faults_of self.old) (read_faults_of self.new) result }
        ensures write_faults { write_faults_of self.new ≡ write_faults_of self.old }
        ensures fails { IsErr result ↔ IsDue (plan_of self.old).reads }
        ensures amount { IfOk result (λ count. count ≡
            min (next_size (plan_of self.old).reads (length room.old))
            (length (octets_of self.old).to_come)) }
        ensures plan { plan_of self.new ≡ read_once (plan_of self.old) }
    {
        match self.reads.next(room.len()) {
            Some(size) => Ok(self.input.read(size, room)),
            None => {
                self.read_faults = self.read_faults.saturating_add(1);
                Err(Failed)
            }
        }
    }

    fn write(&mut self, piece: &[u8]) -> Result<usize, Failed>
        requires { 0 < length piece.now }
        ensures bound { WritesSome result piece.now }
        ensures octets { Told (Writes result piece.now) (Some (octets_of self.old))
            (Some (octets_of self.new)) }
        ensures cause { HasCause (write_faults_of self.old) (write_faults_of self.new) result }
        ensures read_faults { read_faults_of self.new ≡ read_faults_of self.old }
        ensures fails { IsErr result ↔ LacksWrite (plan_of self.old) (length piece.now) }
        ensures amount { IfOk result (λ count. count ≡
            next_size (plan_of self.old).writes (length piece.now)) }
        ensures plan { plan_of self.new ≡ write_once (handled result) (plan_of self.old) }
    {
        match self.writes.next(piece.len()) {
            Some(count) if count <= self.output.spare() => {
                self.output.append(&piece[..count]);
                Ok(count)
            }
            _ => {
                self.write_faults = self.write_faults.saturating_add(1);
                Err(Failed)
            }
        }
    }
}
