//! Which calls of one method fail, and in what sizes its octets are cut.

ghost use Rattle.std.specs.Prelude.{◌≡◌, ◌<◌, ◌≤◌, ◌↔◌, All, IsTrue, IsNone, IfSome, IfOk, min, slice_index_or};
ghost use Rattle.mm_outside.specs.Plan.{planned, IsDue, next_size, called};

use crate::Memory;
use std::alloc::Global;
use std::marker::Model;

/// The plan of the calls of one method: the numbers of those that fail, counted from 0, and how many octets each handles
/// at most. Behind the last size a call handles as many as it may.
#[derive(Drop)]
pub(crate) struct Script {
    calls: u64,
    failing: Vec<u64>,
    sizes: Vec<u32>,
}

impl Model for Script {
    ghost use Rattle.std.specs.Prelude.{All, ◌≤◌};
    ghost use Rattle.mm_outside.specs.Plan.{Plan};

    ghost Value = { Plan };

    ghost view = { λ script. record { calls = script.calls; failing = script.failing.items; sizes = script.sizes.items } };

    ghost invariant = { λ script. All (λ size. 1 ≤ size) script.sizes.items };
}

impl Script {
    /// The plan with these sizes, a call each, and these numbers of calls that fail.
    pub fn new(alloc: Global, sizes: &[u32], failing: &[u64]) -> Result<Script, Memory>
        requires { All (λ size. 1 ≤ size) sizes.now }
        ensures { IfOk result (λ script. script ≡ planned sizes.now failing.now) }
    {
        Ok(Script {
            calls: 0,
            failing: Vec::from_slice(alloc, failing)?,
            sizes: Vec::from_slice(alloc, sizes)?,
        })
    }

    /// Whether the next call is to fail.
    pub fn is_due(&self) -> bool
        ensures { IsTrue result ↔ IsDue self.now }
    {
        self.failing.contains(&self.calls)
    }

    /// How many octets the next call handles, of this many at most.
    pub fn size(&self, most: usize) -> usize
        ensures size { result ≡ next_size self.now most }
        ensures some { 0 < most → 0 < result }
        ensures within { result ≤ most }
    {
        cut(&self.sizes, self.calls, most)
    }

    /// Counts a call.
    pub fn count(&mut self)
        ensures { self.new ≡ called self.old }
    {
        self.calls = self.calls.saturating_add(1);
    }

    /// Counts a call, and says how many octets it handles, where it isn't to fail.
    pub fn next(&mut self, most: usize) -> Option<usize>
        ensures fails { IsNone result ↔ IsDue self.old }
        ensures size { IfSome result (λ size. size ≡ next_size self.old most) }
        ensures some { IfSome result (λ size. (0 < most → 0 < size) × (size ≤ most)) }
        ensures after { self.new ≡ called self.old }
    {
        let due = self.is_due();
        let size = self.size(most);
        self.count();
        if due { None } else { Some(size) }
    }
}

fn cut(sizes: &[u32], call: u64, most: usize) -> usize
    requires { All (λ size. 1 ≤ size) sizes.now }
    ensures size { result ≡ min (slice_index_or sizes.now call most) most }
    ensures some { 0 < most → 0 < result }
    ensures within { result ≤ most }
{
    if call < sizes.len() as u64 {
        let size = sizes[call as usize] as usize;
        if size < most { size } else { most }
    } else {
        most
    }
}
