//! Stalls: nothing can come any more, and the units that no connection holds are given up.
ghost use Rattle.std.specs.Prelude.{◌≡◌, ◌==◌, ◌&&◌, ◌||◌, not, ℕ, ◌<◌, ◌≤◌, ◌^◌, true, false, length, get_or, reverse, is_none};
ghost use Rattle.std.specs.List.{list_all, list_any};
ghost use Rattle.histories.specs.Answered.{is_paused, open_connections};
ghost use Rattle.histories.specs.Members.{In};
ghost use Rattle.registry_tables.specs.declared.imports.Waiting.{Waiting};
ghost use Rattle.registry_tables.specs.Tabled.{fate_in};
ghost use Rattle.registry_tables.specs.Stalled.{AreWithin, is_waiting_in, all_wait_in, is_stalled_in, gives_up};

use crate::imports::{Imports, Waiting};
use crate::tables::Tables;

/// Whether the connection waits for a unit that has not ended. Where no unit of an import has ended, each of its imports
/// is of such a unit, and none of them is looked at.
fn is_waiting(imports: &Imports, tables: &Tables, ends: bool, conn: u32) -> bool
    requires within { AreWithin tables.now imports.now.waiting }
    requires idle { ends ≡ false → (waiter : Waiting) → In waiter imports.now.waiting → is_none (fate_in tables.now waiter.unit) ≡ true }
    ensures { result ≡ is_waiting_in tables.now imports.now.waiting conn }
{
    if ends {
        return is_among(imports.waiting(), tables, conn);
    }
    imports.waits(conn)
}

/// Whether one of the imports is of the connection, and of a unit that has not ended.
fn is_among(waiting: &[Waiting], tables: &Tables, conn: u32) -> bool
    requires { AreWithin tables.now waiting.now }
    ensures { result ≡ is_waiting_in tables.now (reverse waiting.now) conn }
{
    for waiter in waiting {
        if waiter.conn == conn && tables.fate(waiter.unit).is_none() {
            return true;
        }
    }
    false
}

/// Whether each open connection has paused.
fn all_paused(tables: &Tables) -> bool
    ensures { result ≡ list_all (is_paused tables.now.answered) (open_connections tables.now.answered) }
{
    for conn in tables.open() {
        if !tables.is_paused(*conn) {
            return false;
        }
    }
    true
}

/// Whether each open connection has paused and waits. One that has not paused is looked for first, since behind most
/// entries there is one.
fn all_wait(imports: &Imports, tables: &Tables, ends: bool) -> bool
    requires within { AreWithin tables.now imports.now.waiting }
    requires idle { ends ≡ false → (waiter : Waiting) → In waiter imports.now.waiting → is_none (fate_in tables.now waiter.unit) ≡ true }
    ensures { result ≡ all_wait_in tables.now imports.now.waiting }
{
    if !all_paused(tables) {
        return false;
    }
    for conn in tables.open() {
        if !is_waiting(imports, tables, ends, *conn) {
            return false;
        }
    }
    true
}

/// Whether nothing can come any more.
fn is_stalled(imports: &Imports, tables: &Tables, workers: u32, ends: bool) -> bool
    requires within { AreWithin tables.now imports.now.waiting }
    requires idle { ends ≡ false → (waiter : Waiting) → In waiter imports.now.waiting → is_none (fate_in tables.now waiter.unit) ≡ true }
    ensures { result ≡ is_stalled_in tables.now workers imports.now.waiting }
{
    let count = tables.open_count();
    count != 0 && count + tables.done_count() == workers && all_wait(imports, tables, ends)
}

/// Gives up the units that an open connection waits for and none holds.
fn give_up(waiting: &[Waiting], tables: &mut Tables)
    requires { AreWithin tables.old waiting.now }
    ensures same { tables.new ≡ record tables.old { given = tables.new.given } }
    ensures given { (unit : ℕ) → get_or tables.new.given unit false ≡ (get_or tables.old.given unit false || list_any (λ waiter. waiter.unit == unit && gives_up tables.old waiter) (reverse waiting.now)) }
{
    for waiter in waiting {
        if !tables.has_gone(waiter.conn) && tables.is_free(waiter.unit) {
            tables.give_up(waiter.unit);
        }
    }
}

/// After one more entry: where nothing can come any more, the awaited units that no connection holds are given up.
/// Answers whether that is so. `ends` is whether a unit may have ended with the entry. The imports are looked at only
/// there, and where nothing can come any more.
pub fn settle_stall(imports: &Imports, tables: &mut Tables, workers: u32, ends: bool) -> bool
    requires within { AreWithin tables.old imports.now.waiting }
    requires idle { ends ≡ false → (waiter : Waiting) → In waiter imports.now.waiting → is_none (fate_in tables.old waiter.unit) ≡ true }
    ensures stalled { result ≡ is_stalled_in tables.old workers imports.now.waiting }
    ensures same { tables.new ≡ record tables.old { given = tables.new.given } }
    ensures given { (unit : ℕ) → get_or tables.new.given unit false ≡ (get_or tables.old.given unit false || (is_stalled_in tables.old workers imports.now.waiting && list_any (λ waiter. waiter.unit == unit && gives_up tables.old waiter) imports.now.waiting)) }
{
    let stalled = is_stalled(imports, tables, workers, ends);
    if stalled {
        give_up(imports.waiting(), tables);
    }
    stalled
}
