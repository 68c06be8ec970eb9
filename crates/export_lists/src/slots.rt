//! The table of a project's units, each of which is left or over.

ghost use Rattle.std.specs.Prelude.{◌≡◌, ◌<◌, ◌≤◌, length, filter_map, IfOk};
ghost use Rattle.std.specs.List.{All};
ghost use Rattle.unit_registry.specs.Projects.{unit_count};
ghost use Rattle.export_lists.specs.Listings.{built_count, built_before};
ghost use Rattle.export_lists.specs.Slots.{outcome_in, IsFirstSlot, IsSourceSlot, AreFirstSlots};

use crate::cmi::Cmi;
use crate::copies::copy_cmi;
use crate::outcome::{Outcome, Verdict};
use crate::source::unit_for;
use mm_outside::{List, Memory, Text};
use module_units::{SourceError, Unit};
use std::alloc::Global;
use unit_registry::Project;

/// The most outcomes of a list.
const MOST_OUTCOMES: usize = 2_147_483_648;

/// How many units of the project were built before.
pub(crate) fn built_count(project: &Project) -> u32
    ensures { result ≡ built_count project.now }
{
    let mut count: u32 = 0;
    for number in 0..project.unit_count() {
        count += u32::from(project.is_built(number));
    }
    count
}

/// A unit of a project.
#[derive(Drop)]
pub(crate) enum Slot {
    /// It isn't compiled yet.
    Left(Unit),
    /// What became of it.
    Over(Outcome),
}

/// The slot of a unit with this source, before any round.
fn source_slot(alloc: Global, project: &Project, number: u32, text: &[u8]) -> Result<Slot, Memory>
    requires number { number < unit_count project.now }
    requires short { length text.now ≤ 2147483648 }
    ensures { IfOk result (IsSourceSlot project.now number text.now) }
{
    match unit_for(alloc, project, number, text) {
        Ok(unit) => Ok(Slot::Left(unit)),
        Err(SourceError::Text { line, reason }) => {
            Ok(Slot::Over(Outcome::Failed(Verdict::Source { line, reason })))
        }
        Err(SourceError::Memory) => Err(Memory),
    }
}

/// The slot of a unit before any round. Its interface, where it was built before, stands at the place.
fn first_slot(
    alloc: Global,
    project: &Project,
    sources: &[Text],
    built: &[Cmi],
    number: u32,
    place: u32,
) -> Result<Slot, Memory>
    requires number { number < unit_count project.now }
    requires sources { length sources.now ≡ unit_count project.now }
    requires short { All (λ text. length text ≤ 2147483648) sources.now }
    requires built { length built.now ≡ built_count project.now }
    requires place { place ≡ built_before project.now number }
    ensures { IfOk result (IsFirstSlot project.now sources.now built.now number) }
{
    if project.is_built(number) {
        let cmi = copy_cmi(alloc, &built[place as usize])?;
        return Ok(Slot::Over(Outcome::Built(cmi)));
    }
    source_slot(alloc, project, number, sources[number as usize].octets())
}

/// The slots of a project's units before any round.
pub(crate) fn first_slots(
    alloc: Global,
    project: &Project,
    sources: &[Text],
    built: &[Cmi],
) -> Result<Vec<Slot>, Memory>
    requires sources { length sources.now ≡ unit_count project.now }
    requires short { All (λ text. length text ≤ 2147483648) sources.now }
    requires built { length built.now ≡ built_count project.now }
    ensures { IfOk result (λ slots. AreFirstSlots project.now sources.now built.now (unit_count project.now) slots.items) }
{
    let mut slots = Vec::new(alloc);
    let mut place: u32 = 0;
    for number in 0..project.unit_count() {
        let slot = first_slot(alloc, project, sources, built, number, place)?;
        slots.push(slot)?;
        place += u32::from(project.is_built(number));
    }
    Ok(slots)
}

/// The outcome in a slot, if there is one.
fn outcome_in(slot: Slot) -> Option<Outcome>
    ensures { result ≡ outcome_in slot }
{
    match slot {
        Slot::Left(_) => None,
        Slot::Over(outcome) => Some(outcome),
    }
}

/// The outcomes in slots, in their order.
pub(crate) fn outcomes_of(alloc: Global, slots: Vec<Slot>) -> Result<List<Outcome>, Memory>
    ensures { IfOk result (λ outcomes. outcomes ≡ filter_map outcome_in slots.items) }
{
    let outcomes: Vec<Outcome> = slots.into_iter().filter_map(outcome_in).collect(alloc)?;
    if outcomes.len() > MOST_OUTCOMES {
        return Err(Memory);
    }
    Ok(List::from_vec(outcomes))
}
