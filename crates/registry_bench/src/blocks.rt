//! One thread's part: a connection that enters blocks at a desk.

ghost use Rattle.std.specs.Prelude.{◌≡◌, None, IfSome, IsTrue, IsFalse};
ghost use Rattle.histories.specs.Answered.{stored_unit};
ghost use Rattle.histories.specs.Entries.{has_its_unit};
ghost use Rattle.histories.specs.Histories.{is_out_of_range};
ghost use Rattle.histories.specs.Counts.{Asks, effect_of};
ghost use Rattle.registry_core.specs.Desks.{GoesOn};
ghost use Rattle.registry_bench.specs.Blocks.{IsFresh, HasOpen, StaysOpen};

use crate::plan::Plan;
use registry_core::{Desk, Leaving};
use std::alloc::Global;
use unit_registry::Act;

/// The place of one more act of the connection.
#[tactic(auto, using(crate::proofs::Steps::asked))]
fn enters_act<D: Desk<Item = ()>>(desk: &mut D, conn: u32, act: Act) -> Option<u32>
    requires has_open { HasOpen conn (D.tells desk.old) }
    requires act { effect_of act ≡ Asks }
    requires unit { IsFalse (is_out_of_range (D.tells desk.old).seen.project act) }
    requires whole { IsTrue (has_its_unit act) }
    requires bare { stored_unit act ≡ None }
    ensures { StaysOpen conn (D.tells desk.old) (D.tells desk.new) }
{
    match desk.ask(conn, act, None) {
        Ok(place) => Some(place),
        Err(_) => None,
    }
}

/// Whether the request at the place has its reply.
#[tactic(auto, using(crate::proofs::Steps::looked))]
fn hears_one<D: Desk<Item = ()>>(desk: &mut D, _conn: u32, place: u32) -> bool
    requires { HasOpen _conn (D.tells desk.old) }
    ensures { StaysOpen _conn (D.tells desk.old) (D.tells desk.new) }
{
    desk.look(place).is_some()
}

/// Whether so many requests were entered, and a pause. The requests' places are put at the end.
#[tactic(auto, using(crate::proofs::Steps::same, crate::proofs::Steps::further))]
fn enters<D: Desk<Item = ()>>(desk: &mut D, conn: u32, count: u32, places: &mut Vec<u32>) -> bool
    requires { HasOpen conn (D.tells desk.old) }
    ensures { StaysOpen conn (D.tells desk.old) (D.tells desk.new) }
{
    for _asked in 0..count {
        let Some(place) = enters_act(desk, conn, Act::Repo) else {
            return false;
        };
        if places.push(place).is_err() {
            return false;
        }
    }
    enters_act(desk, conn, Act::Pause).is_some()
}

/// Whether all requests at these places have their replies.
#[tactic(auto, using(crate::proofs::Steps::same, crate::proofs::Steps::further))]
fn hears<D: Desk<Item = ()>>(desk: &mut D, conn: u32, places: &[u32]) -> bool
    requires { HasOpen conn (D.tells desk.old) }
    ensures { StaysOpen conn (D.tells desk.old) (D.tells desk.new) }
{
    for place in places.iter() {
        if !hears_one(desk, conn, *place) {
            return false;
        }
    }
    true
}

/// Keeps the next turn, if turns are kept.
fn holds<D: Desk<Item = ()>>(desk: &mut D, kept: bool)
    ensures { D.tells desk.new ≡ D.tells desk.old }
{
    if kept {
        desk.hold();
    }
}

/// Whether a block was entered, and all its replies came.
#[tactic(auto, using(crate::proofs::Steps::further))]
fn enters_block<D: Desk<Item = ()>>(
    desk: &mut D,
    conn: u32,
    plan: &Plan,
    places: &mut Vec<u32>,
) -> bool
    requires { HasOpen conn (D.tells desk.old) }
    ensures { StaysOpen conn (D.tells desk.old) (D.tells desk.new) }
{
    places.clear();
    holds(desk, plan.kept);
    let entered = enters(desk, conn, plan.block, places);
    let heard = hears(desk, conn, places.as_slice());
    desk.release();
    entered && heard
}

/// Whether all blocks were entered, and all their replies came.
#[tactic(auto, using(crate::proofs::Steps::same, crate::proofs::Steps::further))]
fn enters_blocks<D: Desk<Item = ()>>(alloc: Global, desk: &mut D, conn: u32, plan: &Plan) -> bool
    requires { HasOpen conn (D.tells desk.old) }
    ensures { StaysOpen conn (D.tells desk.old) (D.tells desk.new) }
{
    let mut places = Vec::new(alloc);
    for _entered in 0..plan.rounds {
        if !enters_block(desk, conn, plan, &mut places) {
            return false;
        }
    }
    true
}

/// Opens a connection.
#[tactic(auto, using(crate::proofs::Steps::opened))]
fn opens<D: Desk<Item = ()>>(desk: &mut D) -> Option<u32>
    requires { IsFresh (D.tells desk.old) }
    ensures some { IfSome result (λ conn. StaysOpen conn (D.tells desk.old) (D.tells desk.new)) }
    ensures none { GoesOn (D.tells desk.old) (D.tells desk.new) }
{
    match desk.open() {
        Ok(conn) => Some(conn),
        Err(_) => None,
    }
}

/// Whether the open connection was greeted, entered all its blocks, and had all their replies.
#[tactic(auto, using(crate::proofs::Steps::further))]
fn works<D: Desk<Item = ()>>(alloc: Global, desk: &mut D, conn: u32, plan: &Plan) -> bool
    requires { HasOpen conn (D.tells desk.old) }
    ensures { StaysOpen conn (D.tells desk.old) (D.tells desk.new) }
{
    let hello = Act::Hello {
        version: 1,
        unit: None,
    };
    if enters_act(desk, conn, hello).is_none() {
        return false;
    }
    enters_blocks(alloc, desk, conn, plan)
}

/// The same, and then the connection leaves.
fn works_and_leaves<D: Desk<Item = ()>>(alloc: Global, desk: &mut D, conn: u32, plan: &Plan) -> bool
    requires { HasOpen conn (D.tells desk.old) }
    ensures { GoesOn (D.tells desk.old) (D.tells desk.new) }
{
    let worked = works(alloc, desk, conn, plan);
    desk.leave(conn, Leaving::Left);
    worked
}

/// Whether a connection opened, was greeted, entered all its blocks, had all their replies, and left.
#[tactic(auto, using(crate::proofs::Steps::from_open))]
pub fn serve<D: Desk<Item = ()>>(alloc: Global, desk: &mut D, plan: &Plan) -> bool
    requires { IsFresh (D.tells desk.old) }
    ensures { GoesOn (D.tells desk.old) (D.tells desk.new) }
{
    let Some(conn) = opens(desk) else {
        return false;
    };
    works_and_leaves(alloc, desk, conn, plan)
}
