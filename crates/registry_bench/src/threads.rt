//! All threads over one registry.

ghost use Rattle.std.specs.Prelude.{◌≡◌, ◌<◌, IsFalse};
ghost use Rattle.std.specs.Thread.{IsSync};
ghost use Rattle.ruled_history.specs.Views.{IsBare};
ghost use Rattle.registry_bench.specs.Plans.{IsWithin};

use crate::blocks::serve;
use crate::plan::Plan;
use mm_outside::Memory;
use registry_core::{Book, NoShelf};
use ruled_history::{Bell, Registry, Seat, SharedDesk};
use std::alloc::Global;
use std::sync::Wait;
use std::thread::{Threads, join};
use unit_registry::Project;

/// Serves at one seat.
fn serve_seat<R: Wait>(
    rt: &R,
    alloc: Global,
    registry: &Registry<NoShelf>,
    bell: &Bell,
    seat: Seat,
    plan: &Plan,
) -> (Seat, bool)
    requires seat { seat.registry ≡ registry.now.name }
    requires share { 0 < seat.knows.share }
    requires bare { IsBare seat.knows }
    requires loose { IsFalse registry.now.metered }
    ensures registry { result.0.registry ≡ seat.registry }
    ensures first { result.0.knows.first ≡ seat.knows.first }
    ensures share { result.0.knows.share ≡ seat.knows.share }
{
    let mut desk = SharedDesk::new(rt, registry, seat, bell);
    let served = serve(alloc, &mut desk, plan);
    (desk.into_seat(), served)
}

/// Serves at so many seats at once, each a part of this one, and joins them again.
fn serve_many<R: Threads + Wait + Sync>(
    rt: &R,
    alloc: Global,
    registry: &Registry<NoShelf>,
    bell: &Bell,
    seat: Seat,
    threads: u32,
    plan: &Plan,
) -> (Seat, bool)
    requires sync { IsSync R.row }
    requires seat { seat.registry ≡ registry.now.name }
    requires share { (seat.knows.share ≡ threads) × (0 < threads) }
    requires bare { IsBare seat.knows }
    requires loose { IsFalse registry.now.metered }
    ensures registry { result.0.registry ≡ seat.registry }
    ensures first { result.0.knows.first ≡ seat.knows.first }
    ensures share { result.0.knows.share ≡ seat.knows.share }
{
    if threads == 1 {
        return serve_seat(rt, alloc, registry, bell, seat, plan);
    }
    let half = threads / 2;
    let rest = threads - half;
    let (left, right) = registry.split(seat, half, 0);
    let ((left, left_served), (right, right_served)) = join(
        rt,
        || -> (Seat, bool)
            requires seat { IsSync R.row × (left.registry ≡ registry.now.name) }
            requires share { (left.knows.share ≡ rest) × (0 < rest) }
            requires bare { IsBare left.knows }
            requires loose { IsFalse registry.now.metered }
            ensures registry { result.0.registry ≡ left.registry }
            ensures first { result.0.knows.first ≡ left.knows.first }
            ensures share { result.0.knows.share ≡ left.knows.share }
        { serve_many(rt, alloc, registry, bell, left, rest, plan) },
        || -> (Seat, bool)
            requires seat { IsSync R.row × (right.registry ≡ registry.now.name) }
            requires share { (right.knows.share ≡ half) × (0 < half) }
            requires bare { IsBare right.knows }
            requires loose { IsFalse registry.now.metered }
            ensures registry { result.0.registry ≡ right.registry }
            ensures first { result.0.knows.first ≡ right.knows.first }
            ensures share { result.0.knows.share ≡ right.knows.share }
        { serve_many(rt, alloc, registry, bell, right, half, plan) },
    );
    (registry.join(left, right), left_served && right_served)
}

/// How many entries all threads made, and whether each entered all its blocks and had all their replies.
pub fn run<R: Threads + Wait + Sync>(
    rt: &R,
    alloc: Global,
    project: &Project,
    plan: &Plan,
) -> Result<(usize, bool), Memory>
    requires { IsWithin plan.now }
{
    project.unit_count();
    let book = Book::new(alloc, project, plan.threads, plan.limit, NoShelf::new())?;
    let (registry, seat) = Registry::new(alloc, book, false)?;
    let bell = Bell::new();
    let (seat, served) = serve_many(rt, alloc, &registry, &bell, seat, plan.threads, plan);
    let book = registry.close(seat);
    Ok((book.entries().len(), served))
}
