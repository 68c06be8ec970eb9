ghost use Rattle.std.specs.Prelude.{◌≡◌, ◌+◌, ◌<◌, ◌≤◌, IfSome, length};

use super::*;
use std::alloc::Global;
use std::test::*;

/// A graph with no pairs.
fn empty(alloc: Global, units: u32, edges: u32) -> Option<Waits>
    ensures units { IfSome result (λ waits. waits.units ≡ units) }
    ensures edges { IfSome result (λ waits. waits.edges ≡ edges) }
    ensures pairs { IfSome result (λ waits. length waits.pairs ≡ 0) }
{
    Waits::new(alloc, units, edges).ok()
}

/// Adds the pair where no walk leads back, and tells whether it did.
fn adds(waits: &mut Waits, from: u32, to: u32) -> bool
    requires from { from < waits.old.units }
    requires to { to < waits.old.units }
    requires room { length waits.old.pairs < waits.old.edges }
    ensures units { waits.new.units ≡ waits.old.units }
    ensures edges { waits.new.edges ≡ waits.old.edges }
    ensures pairs { length waits.new.pairs ≤ length waits.old.pairs + 1 }
{
    let free = !waits.reaches(to, from);
    if free {
        waits.add(from, to);
    }
    free
}

/// Whether a walk leads from 0, from 1 and from 2 to 0, to 1 and to 2.
fn walks(waits: &mut Waits) -> [[bool; 3]; 3]
    requires { 3 ≤ waits.old.units }
    ensures { waits.new ≡ waits.old }
{
    [
        [
            waits.reaches(0, 0),
            waits.reaches(0, 1),
            waits.reaches(0, 2),
        ],
        [
            waits.reaches(1, 0),
            waits.reaches(1, 1),
            waits.reaches(1, 2),
        ],
        [
            waits.reaches(2, 0),
            waits.reaches(2, 1),
            waits.reaches(2, 2),
        ],
    ]
}

/// The pairs of 0 and 1, and of 1 and 2.
fn chain(alloc: Global) -> Option<Waits>
    ensures { IfSome result (λ waits. waits.units ≡ 3) }
{
    let mut waits = empty(alloc, 3, 2)?;
    if adds(&mut waits, 0, 1) && adds(&mut waits, 1, 2) {
        Some(waits)
    } else {
        None
    }
}

/// No walk but those of one unit.
const NONE: [[bool; 3]; 3] = [
    [true, false, false],
    [false, true, false],
    [false, false, true],
];

/// The walks along both pairs.
const BOTH: [[bool; 3]; 3] = [
    [true, true, true],
    [false, true, true],
    [false, false, true],
];

/// The walks along the pair of 0 and 1.
const FIRST: [[bool; 3]; 3] = [
    [true, true, false],
    [false, true, false],
    [false, false, true],
];

/// The walks along the pair of 1 and 2.
const SECOND: [[bool; 3]; 3] = [
    [true, false, false],
    [false, true, true],
    [false, false, true],
];

#[test]
fn few_units(rt: HostRuntime) -> Result<(), Fail> {
    assert!(rt; Waits::new(rt.alloc(), 0, 0).is_ok());
    let mut waits = empty(rt.alloc(), 3, 3).ok_or("memory")?;
    assert!(rt; walks(&mut waits) == NONE);
    assert!(rt; adds(&mut waits, 1, 2));
    assert!(rt; walks(&mut waits) == SECOND);
    assert!(rt; adds(&mut waits, 0, 1));
    assert!(rt; walks(&mut waits) == BOTH);
    assert!(rt; !adds(&mut waits, 2, 0));
    assert!(rt; waits.reaches(7, 7) && !waits.reaches(0, 7) && !waits.reaches(7, 0));
    Ok(())
}

#[test]
fn settled_and_dropped(rt: HostRuntime) -> Result<(), Fail> {
    let settled = [(0, BOTH), (1, SECOND), (2, FIRST)];
    for (unit, left) in settled {
        let mut waits = chain(rt.alloc()).ok_or("memory")?;
        waits.settle(unit);
        assert!(rt; walks(&mut waits) == left, "settled {unit}");
    }
    let dropped = [(0, SECOND), (1, FIRST), (2, BOTH)];
    for (unit, left) in dropped {
        let mut waits = chain(rt.alloc()).ok_or("memory")?;
        waits.drop_from(unit);
        assert!(rt; walks(&mut waits) == left, "dropped {unit}");
    }
    Ok(())
}

#[test]
fn long_chain(rt: HostRuntime) -> Result<(), Fail> {
    let mut waits = empty(rt.alloc(), 1000, 999).ok_or("memory")?;
    for unit in 0..999 {
        assert!(rt; adds(&mut waits, unit, unit + 1));
    }
    assert!(rt; waits.reaches(0, 999));
    assert!(rt; !waits.reaches(999, 0));
    waits.settle(500);
    assert!(rt; !waits.reaches(0, 999));
    assert!(rt; waits.reaches(500, 999));
    Ok(())
}
