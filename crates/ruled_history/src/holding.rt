//! What tests show of a turn that is kept: a call of another thread waits meanwhile, and goes on after it; and all
//! entries that are made in it ring once, when it is passed.

ghost use Rattle.std.specs.Prelude.{◌≡◌, IsFalse};
ghost use Rattle.std.specs.Thread.{IsSync};
ghost use Rattle.ruled_history.specs.Examples.{IsFresh, IsFreshSeat};

use crate::bell::Bell;
use crate::examples::divided;
use crate::registry::{Registry, Seat};
use crate::shared::SharedDesk;
use registry_core::{Desk, NoShelf};
use std::alloc::Global;
use std::sync::Wait;
use std::thread::{Threads, join, yield_now};

/// Keeps the turn of an Open for so many yields that a call of another thread would go through, and passes it. Whether
/// that call hadn't ended before.
fn keeps_turn<D: Desk<Item = ()>, R: Wait>(rt: &R, desk: &mut D, begun: &Bell, ended: &Bell) -> bool
    requires fresh { IsFresh (D.tells desk.old) }
{
    desk.hold();
    let opened = desk.open().is_ok();
    begun.ring(rt);
    for _yielded in 0..20_000 {
        yield_now();
    }
    let waited = ended.count(rt) == 0;
    desk.release();
    ended.wait_past(rt, 0);
    opened && waited
}

/// Looks once the other thread has its turn, and says when the look has ended.
fn follows<D: Desk<Item = ()>, R: Wait>(rt: &R, desk: &mut D, begun: &Bell, ended: &Bell) {
    begun.wait_past(rt, 0);
    let _none = desk.look(0);
    ended.ring(rt);
}

/// The bell of a registry, and those by which two threads tell each other how far they are.
#[derive(Drop)]
struct Bells {
    registry: Bell,
    begun: Bell,
    ended: Bell,
}

/// Keeps a turn at one seat.
fn keeps_at<R: Wait>(rt: &R, registry: &Registry<NoShelf>, bells: &Bells, seat: Seat) -> bool
    requires seat { seat.registry ≡ registry.now.name }
    requires fresh { IsFreshSeat seat.knows }
    requires loose { IsFalse registry.now.metered }
{
    let mut desk = SharedDesk::new(rt, registry, seat, &bells.registry);
    keeps_turn(rt, &mut desk, &bells.begun, &bells.ended)
}

/// Looks at another seat.
fn follows_at<R: Wait>(rt: &R, registry: &Registry<NoShelf>, bells: &Bells, seat: Seat)
    requires seat { seat.registry ≡ registry.now.name }
{
    let mut desk = SharedDesk::new(rt, registry, seat, &bells.registry);
    follows(rt, &mut desk, &bells.begun, &bells.ended);
}

/// Keeps a turn at one seat, and looks at the other.
fn runs_both<R: Threads + Wait + Sync>(
    rt: &R,
    registry: &Registry<NoShelf>,
    bells: &Bells,
    one: Seat,
    two: Seat,
) -> bool
    requires one { one.registry ≡ registry.now.name }
    requires two { two.registry ≡ registry.now.name }
    requires one_fresh { IsFreshSeat one.knows }
    requires loose { IsFalse registry.now.metered }
{
    let (waited, _followed) = join(
        rt,
        || -> bool
            requires seat { IsSync R.row × (one.registry ≡ registry.now.name) }
            requires fresh { IsFreshSeat one.knows }
            requires loose { IsFalse registry.now.metered }
        { keeps_at(rt, registry, bells, one) },
        || -> ()
            requires seat { IsSync R.row × (two.registry ≡ registry.now.name) }
        { follows_at(rt, registry, bells, two) },
    );
    waited
}

/// Whether a look at the second seat waited while the first kept its turn. It went on after it, or this doesn't end.
pub(crate) fn waits_its_turn<R: Threads + Wait + Sync>(rt: &R, alloc: Global) -> bool {
    let Some((registry, one, two)) = divided(alloc, 40) else {
        return false;
    };
    let bells = Bells {
        registry: Bell::new(),
        begun: Bell::new(),
        ended: Bell::new(),
    };
    runs_both(rt, &registry, &bells, one, two)
}
