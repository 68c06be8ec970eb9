//! The counts of a history, which say whether one more entry is legal.

ghost use Rattle.std.specs.Prelude.{◌≡◌, ◌<◌, ◌^◌, is_some, slice_set, IfOk, [], false};
ghost use Rattle.unit_registry.specs.Acts.{hello_of, is_open_act, unit_of};
ghost use Rattle.unit_registry.specs.Projects.{is_plain, unit_count};
ghost use Rattle.histories.specs.Histories.{is_out_of_range, is_unit_out_of_range, takes_worker};
ghost use Rattle.trace_text.specs.Tallies.{counts_with, is_full_house, is_open_in, is_past_limit, table_with, tally_fault};

use crate::trace::Trace;
use histories::{Entry, IllegalReason};
use mm_outside::Memory;
use std::alloc::Global;
use unit_registry::{Act, Kind, Project};

/// How many connections are open, and how many workers are done.
#[derive(Clone, Copy, Debug)]
pub(crate) struct Counts {
    /// The connections that are open.
    pub open_now: u32,
    /// The workers that are done.
    pub done: u32,
}

/// What is kept of the entries so far.
#[derive(Debug, Drop)]
pub(crate) struct Tally {
    /// Whether each connection that was opened is open.
    pub table: Vec<bool>,
    /// The counts.
    pub counts: Counts,
}

/// Whether a connection begins with the act.
fn is_open_act(act: &Act) -> bool
    ensures { result ≡ is_open_act act.now }
{
    matches!(act, Act::Open)
}

/// Whether the act needs a worker of its own.
fn takes_worker(act: &Act) -> bool
    ensures { result ≡ takes_worker act.now }
{
    matches!(act, Act::Open | Act::Done)
}

/// Whether the act is a Hello.
fn is_hello(act: &Act) -> bool
    ensures { result ≡ is_some (hello_of act.now) }
{
    matches!(act, Act::Hello { .. })
}

/// The unit that the act names.
fn unit_of(act: &Act) -> Option<u32>
    ensures { result ≡ unit_of act.now }
{
    match act {
        Act::Hello { unit, .. }
        | Act::Export { unit }
        | Act::Import { unit, .. }
        | Act::Compiled { unit, .. } => *unit,
        _ => None,
    }
}

/// Whether the unit is one without a name.
fn is_plain(project: &Project, unit: u32) -> bool
    requires { unit < unit_count project.now }
    ensures { result ≡ is_plain project.now unit }
{
    project.kind(unit) == Kind::Plain
}

/// Whether the project doesn't have the unit, or the act can't name it.
fn is_unit_out_of_range(project: &Project, act: &Act, unit: u32) -> bool
    ensures { result ≡ is_unit_out_of_range project.now act.now unit }
{
    if unit >= project.unit_count() {
        return true;
    }
    !is_hello(act) && is_plain(project, unit)
}

/// Whether the act names such a unit.
fn is_out_of_range(project: &Project, act: &Act) -> bool
    ensures { result ≡ is_out_of_range project.now act.now }
{
    match unit_of(act) {
        Some(unit) => is_unit_out_of_range(project, act, unit),
        None => false,
    }
}

/// Whether the connection is open, by a table of those that were opened.
fn is_open_in(table: &[bool], conn: u32) -> bool
    ensures { result ≡ is_open_in table.now conn }
{
    (conn as usize) < table.len() && table[conn as usize]
}

/// Lets the connection go.
fn close(table: &mut [bool], conn: u32)
    ensures { table.new ≡ slice_set table.old conn false }
{
    if (conn as usize) < table.len() {
        table[conn as usize] = false;
    }
}

impl Counts {
    /// The counts after one more act.
    fn with(self, act: &Act) -> Counts
        requires few_open { self.open_now < 4294967295 }
        requires few_done { self.done < 4294967295 }
        ensures { result ≡ counts_with self act.now }
    {
        let Counts { open_now, done } = self;
        match act {
            Act::Open => Counts {
                open_now: open_now + 1,
                done,
            },
            Act::Left | Act::Lost => Counts {
                open_now: open_now.saturating_sub(1),
                done,
            },
            Act::Done => Counts {
                open_now,
                done: done + 1,
            },
            _ => Counts { open_now, done },
        }
    }

    /// Whether so many entries, with the ends that are still to come, are more than the limit.
    fn is_past_limit(self, workers: u32, limit: u32, count: u64) -> bool
        requires { count < 2 ^ 33 }
        ensures { result ≡ is_past_limit workers limit count self }
    {
        let ends = (u64::from(self.open_now) + u64::from(workers)).saturating_sub(u64::from(
            self.done,
        ));
        u64::from(limit) < count + ends
    }

    /// Whether no worker is free.
    fn is_full_house(self, workers: u32) -> bool
        ensures { result ≡ is_full_house workers self }
    {
        u64::from(self.open_now) + u64::from(self.done) == u64::from(workers)
    }
}

impl Tally {
    /// Of no entries. It takes no memory.
    pub(crate) fn new(alloc: Global) -> Tally
        ensures table { result.table.items ≡ [] }
        ensures counts { result.counts ≡ record { open_now = 0; done = 0 } }
    {
        Tally {
            table: Vec::new(alloc),
            counts: Counts {
                open_now: 0,
                done: 0,
            },
        }
    }

    /// Why the entry at this place of the trace isn't legal behind those so far, if it isn't.
    pub(crate) fn fault(
        &self,
        project: &Project,
        trace: &Trace,
        place: u32,
        entry: &Entry,
    ) -> Option<IllegalReason>
        requires few_open { self.now.counts.open_now < 4294967295 }
        requires few_done { self.now.counts.done < 4294967295 }
        ensures { result ≡ tally_fault project.now trace.now.workers trace.now.limit place
            self.now.table.items self.now.counts entry.now }
    {
        let act = &entry.act;
        let counts = self.counts.with(act);
        if is_open_act(act) && entry.conn as usize != self.table.len() {
            Some(IllegalReason::OutOfOrder)
        } else if !takes_worker(act) && !is_open_in(&self.table, entry.conn) {
            Some(IllegalReason::NotOpen)
        } else if takes_worker(act) && self.counts.is_full_house(trace.workers) {
            Some(IllegalReason::Crowded)
        } else if is_out_of_range(project, act) {
            Some(IllegalReason::OutOfRange)
        } else if counts.is_past_limit(trace.workers, trace.limit, u64::from(place) + 1) {
            Some(IllegalReason::Full)
        } else {
            None
        }
    }

    /// The tally with one more entry.
    pub(crate) fn with(self, entry: &Entry) -> Result<Tally, Memory>
        requires few_open { self.counts.open_now < 4294967295 }
        requires few_done { self.counts.done < 4294967295 }
        ensures table { IfOk result (λ next.
            next.table.items ≡ table_with self.table.items entry.now.conn entry.now.act) }
        ensures counts { IfOk result (λ next. next.counts ≡ counts_with self.counts entry.now.act) }
    {
        let counts = self.counts.with(&entry.act);
        let mut table = self.table;
        match entry.act {
            Act::Open => table.push(true)?,
            Act::Left | Act::Lost => close(&mut table, entry.conn),
            _ => {}
        }
        Ok(Tally { table, counts })
    }
}
