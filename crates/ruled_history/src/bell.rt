//! A bell at which threads wait, and the gate at which desks do.

use std::sync::{Condvar, Mutex, MutexGuard, Wait};

/// A count that threads raise and wait for. It promises nothing: not that a ring wakes anybody, nor that a wait ends.
#[derive(Drop)]
pub struct Bell {
    count: Mutex<u64>,
    rung: Condvar,
    gate: Mutex<()>,
}

impl Bell {
    /// A bell that was never rung.
    pub fn new() -> Bell {
        Bell {
            count: Mutex::new(0),
            rung: Condvar::new(),
            gate: Mutex::new(()),
        }
    }

    /// Waits until no other desk of this bell has a turn or waits for one. Desks come to the gate before they draw a ticket,
    /// since a thread that sleeps here costs the others nothing, and one that looks for its turn again and again does.
    pub(crate) fn come_in<R: Wait>(&self, rt: &R) -> MutexGuard<'_, ()> {
        self.gate.lock(rt)
    }

    /// Raises the count by one, modulo 2^64, and wakes those that wait.
    pub fn ring<R: Wait>(&self, rt: &R) {
        let mut count = self.count.lock(rt);
        *count = count.wrapping_add(1);
        self.rung.notify_all();
    }

    /// How often it was rung, modulo 2^64.
    pub fn count<R: Wait>(&self, rt: &R) -> u64 {
        *self.count.lock(rt)
    }

    /// Waits while the count is this one.
    pub fn wait_past<R: Wait>(&self, rt: &R, count: u64) {
        let _count = self
            .rung
            .wait_while(rt, self.count.lock(rt), |now| *now == count);
    }
}
