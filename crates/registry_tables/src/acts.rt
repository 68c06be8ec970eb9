//! Tests of acts and of what was said to them.
ghost use Rattle.std.specs.Prelude.{◌≡◌, ◌||◌};
ghost use Rattle.unit_registry.specs.Acts.{hello_of, unit_of, is_export_of, is_compiled_of, goes, is_open_act, is_done, is_pause};
ghost use Rattle.histories.specs.Answered.{is_accepted};
ghost use Rattle.histories.specs.Answered.{accepted_hello, takes};
ghost use Rattle.registry_tables.specs.Imported.{is_report, may_end_unit};

use histories::{Answer, Answered, Said};
use unit_registry::Act;

pub(crate) fn is_accepted(said: Said) -> bool
    ensures { result ≡ is_accepted said }
{
    match said {
        Said::Reply(Answer::Refused(_)) => false,
        Said::Reply(_) => true,
        Said::Waits(_) | Said::Nothing => false,
    }
}

pub(crate) fn hello_of(act: Act) -> Option<Option<u32>>
    ensures { result ≡ hello_of act }
{
    match act {
        Act::Hello { version: _, unit } => Some(unit),
        _ => None,
    }
}

pub(crate) fn goes(act: Act) -> bool
    ensures { result ≡ goes act }
{
    matches!(act, Act::Left | Act::Lost)
}

pub(crate) fn is_pause(act: Act) -> bool
    ensures { result ≡ is_pause act }
{
    matches!(act, Act::Pause)
}

pub(crate) fn is_compiled_of(unit: u32, act: Act) -> bool
    ensures { result ≡ is_compiled_of unit act }
{
    match act {
        Act::Compiled {
            unit: Some(named),
            stored: _,
        } => named == unit,
        _ => false,
    }
}

pub(crate) fn accepted_hello(newest: Answered) -> Option<Option<u32>>
    ensures { result ≡ accepted_hello newest }
{
    if is_accepted(newest.said) {
        hello_of(newest.act)
    } else {
        None
    }
}

pub(crate) fn takes(unit: u32, newest: Answered) -> bool
    ensures { result ≡ takes unit newest }
{
    match accepted_hello(newest) {
        Some(Some(named)) => named == unit,
        _ => false,
    }
}

pub(crate) fn is_done(act: Act) -> bool
    ensures { result ≡ is_done act }
{
    matches!(act, Act::Done)
}

pub(crate) fn is_export_of(unit: u32, act: Act) -> bool
    ensures { result ≡ is_export_of unit act }
{
    match act {
        Act::Export { unit: Some(named) } => named == unit,
        _ => false,
    }
}

pub(crate) fn is_open_act(act: Act) -> bool
    ensures { result ≡ is_open_act act }
{
    matches!(act, Act::Open)
}

/// The unit that an act names.
pub(crate) fn unit_of(act: Act) -> Option<u32>
    ensures { result ≡ unit_of act }
{
    match act {
        Act::Hello { version: _, unit } => unit,
        Act::Export { unit } => unit,
        Act::Import { unit, name_only: _ } => unit,
        Act::Compiled { unit, stored: _ } => unit,
        _ => None,
    }
}

/// Whether a unit may end with the entry, or has been given up with it.
pub fn may_end(newest: Answered, stalled: bool) -> bool
    ensures { result ≡ (stalled || may_end_unit newest) }
{
    stalled || goes(newest.act) || (is_accepted(newest.said) && is_report(newest.act))
}

/// Whether the act reports an interface as compiled.
fn is_report(act: Act) -> bool
    ensures { result ≡ is_report act }
{
    matches!(act, Act::Compiled { .. })
}
