ghost use Rattle.std.specs.Prelude.{◌≡◌, ◌<◌, ◌↔◌, [], IfOk, IsErr, Some, length};

use crate::page::Page;
use crate::script::Script;
use crate::{Failed, Memory, Sink};
use std::alloc::Global;

/// A sink in memory, which tells everything.
///
/// It counts its writes from 0, and a write fails where its number was listed, or past the room.
#[derive(Drop)]
pub struct MemSink {
    output: Page,
    writes: Script,
    faults: u64,
}

impl MemSink {
    ghost use Rattle.mm_outside.specs.Plan.{planned};
    ghost use Rattle.mm_outside.specs.MemSink.{written_of, faults_of, plan_of};

    /// A sink that takes at most `room` octets.
    pub fn new(alloc: Global, room: u32, failing_writes: &[u64]) -> Result<MemSink, Memory>
        ensures written { IfOk result (λ sink. written_of sink ≡ []) }
        ensures plan { IfOk result (λ sink. plan_of sink ≡
            record { writes = planned [] failing_writes.now; spare = room }) }
        ensures faults { IfOk result (λ sink. faults_of sink ≡ 0) }
    {
        Ok(MemSink {
            output: Page::new(alloc, room as usize)?,
            writes: Script::new(alloc, &[], failing_writes)?,
            faults: 0,
        })
    }

    /// The octets that were written.
    pub fn written(&self) -> &[u8]
        ensures { result.now ≡ written_of self.now }
    {
        self.output.octets()
    }
}

impl Sink for MemSink {
    ghost use Rattle.mm_outside.specs.Causes.{HasCause};
    ghost use Rattle.mm_outside.specs.Octets.{Appends, WritesSome};
    ghost use Rattle.mm_outside.specs.Told.{Told};
    ghost use Rattle.mm_outside.specs.Plan.{handled};
    ghost use Rattle.mm_outside.specs.MemSink.{written_of, faults_of, plan_of, LacksWrite, write_once};

    ghost written = { λ sink. Some (written_of sink) };

    ghost faults = { faults_of };

    fn write(&mut self, piece: &[u8]) -> Result<usize, Failed>
        requires { 0 < length piece.now }
        ensures bound { WritesSome result piece.now }
        ensures written { Told (Appends result piece.now) (Some (written_of self.old))
            (Some (written_of self.new)) }
        ensures cause { HasCause (faults_of self.old) (faults_of self.new) result }
        ensures fails { IsErr result ↔ LacksWrite (plan_of self.old) (length piece.now) }
        ensures amount { IfOk result (λ count. count ≡ length piece.now) }
        ensures plan { plan_of self.new ≡ write_once (handled result) (plan_of self.old) }
    {
        let due = self.writes.is_due();
        self.writes.count();
        if due || piece.len() > self.output.spare() {
            self.faults = self.faults.saturating_add(1);
            return Err(Failed);
        }
        self.output.append(piece);
        Ok(piece.len())
    }
}
