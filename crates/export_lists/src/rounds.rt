//! Rounds over the units of a project, in each of which those are compiled whose imports are.

ghost use Rattle.std.specs.Prelude.{◌≡◌, ◌<◌, length, option_copied, Some, IfOk, OnOk, is_some};
ghost use Rattle.unit_registry.specs.Projects.{unit_count};
ghost use Rattle.export_lists.specs.Lent.{lent};
ghost use Rattle.export_lists.specs.Compiling.{compiled};
ghost use Rattle.export_lists.specs.Outcomes.{gathered, imported_cmi, as_outcome};
ghost use Rattle.export_lists.specs.Slots.{seen, slot_cmi, has_of, left_count, finished, settled_at, lacking, left_over_at, with_outcome, IsStuck, LeadsTo, IsRound};

use crate::cmi::Cmi;
use crate::compile::compile_over;
use crate::outcome::{Outcome, Verdict};
use crate::slots::Slot;
use mm_outside::{Memory, Text};
use module_units::{Import, SourceError, Unit};
use std::alloc::Global;
use unit_registry::Project;

/// The interfaces of imports.
#[derive(Drop)]
enum Gathered<'a> {
    /// One for each import, in order.
    All(Vec<&'a Cmi>),
    /// The name of the first import whose unit has none.
    Lacking(&'a [u8]),
}

/// The interface in a slot, if there is one.
fn slot_cmi(slot: &Slot) -> Option<&Cmi>
    ensures { option_copied result ≡ slot_cmi (Some slot.now) }
{
    match slot {
        Slot::Over(Outcome::Compiled(cmi)) => Some(cmi),
        Slot::Over(Outcome::Built(cmi)) => Some(cmi),
        Slot::Over(Outcome::Failed(_)) => None,
        Slot::Left(_) => None,
    }
}

/// The interface of the unit that an import names, if there is one.
fn imported_cmi<'a>(project: &Project, slots: &'a [Slot], import: &Import) -> Option<&'a Cmi>
    requires { length slots.now ≡ unit_count project.now }
    ensures { option_copied result ≡ imported_cmi project.now (has_of slots.now) import.now }
{
    match project.find_unit(import.name.octets()) {
        Some(unit) => slot_cmi(&slots[unit as usize]),
        None => None,
    }
}

/// The interfaces of imports, or the first import that has none.
fn gather<'a>(
    alloc: Global,
    project: &Project,
    slots: &'a [Slot],
    imports: &'a [Import],
) -> Result<Gathered<'a>, Memory>
    requires { length slots.now ≡ unit_count project.now }
    ensures { IfOk result (λ found. gathered project.now (has_of slots.now) imports.now ≡ seen found) }
{
    let mut cmis = Vec::new(alloc);
    for import in imports {
        match imported_cmi(project, slots, import) {
            Some(cmi) => cmis.push(cmi)?,
            None => return Ok(Gathered::Lacking(import.name.octets())),
        }
    }
    Ok(Gathered::All(cmis))
}

/// What a unit comes to over the interfaces of its imports.
fn outcome_over(alloc: Global, unit: &Unit, name: &[u8], cmis: &[&Cmi]) -> Result<Outcome, Memory>
    requires { length cmis.now ≡ length unit.now.imports }
    ensures { IfOk result (λ outcome. outcome ≡ as_outcome (compiled name.now unit.now (lent cmis.now))) }
{
    match compile_over(alloc, unit, name, cmis) {
        Ok(cmi) => Ok(Outcome::Compiled(cmi)),
        Err(SourceError::Text { line, reason }) => {
            Ok(Outcome::Failed(Verdict::Source { line, reason }))
        }
        Err(SourceError::Memory) => Err(Memory),
    }
}

/// What a unit comes to, where each of its imports has an interface.
fn unit_outcome(
    alloc: Global,
    project: &Project,
    slots: &[Slot],
    name: &[u8],
    unit: &Unit,
) -> Result<Option<Outcome>, Memory>
    requires { length slots.now ≡ unit_count project.now }
    ensures { IfOk result (λ outcome. outcome ≡ finished name.now unit.now (gathered project.now (has_of slots.now) unit.now.imports)) }
{
    match gather(alloc, project, slots, unit.imports.as_slice())? {
        Gathered::All(cmis) => Ok(Some(outcome_over(alloc, unit, name, &cmis)?)),
        Gathered::Lacking(_) => Ok(None),
    }
}

/// What a unit comes to, where it is left and each of its imports has an interface.
fn settled_at(
    alloc: Global,
    project: &Project,
    slots: &[Slot],
    number: u32,
) -> Result<Option<Outcome>, Memory>
    requires number { number < unit_count project.now }
    requires count { length slots.now ≡ unit_count project.now }
    ensures { IfOk result (λ outcome. outcome ≡ settled_at project.now slots.now number) }
{
    match &slots[number as usize] {
        Slot::Left(unit) => unit_outcome(alloc, project, slots, project.name(number), unit),
        Slot::Over(_) => Ok(None),
    }
}

/// Writes what became of a unit, where that is told, and tells whether it is.
fn write_outcome(slots: &mut [Slot], number: u32, outcome: Option<Outcome>) -> bool
    requires { number < length slots.old }
    ensures slots { slots.new ≡ with_outcome slots.old number outcome }
    ensures written { result ≡ is_some outcome }
{
    match outcome {
        Some(outcome) => {
            slots[number as usize] = Slot::Over(outcome);
            true
        }
        None => false,
    }
}

/// A round: compiles each unit that is left and whose imports have interfaces, and tells whether there
/// is one.
fn round(alloc: Global, project: &Project, slots: &mut [Slot]) -> Result<bool, Memory>
    requires { length slots.old ≡ unit_count project.now }
    ensures { IfOk result (IsRound project.now slots.old slots.new) }
{
    let mut changed = false;
    for number in 0..project.unit_count() {
        let outcome = settled_at(alloc, project, slots, number)?;
        let written = write_outcome(slots, number, outcome);
        changed = changed || written;
    }
    Ok(changed)
}

/// Rounds, up to one that compiles no unit.
fn run_rounds(alloc: Global, project: &Project, slots: &mut [Slot]) -> Result<(), Memory>
    requires { length slots.old ≡ unit_count project.now }
    ensures leads { OnOk result (LeadsTo project.now slots.old slots.new) }
    ensures stuck { OnOk result (IsStuck project.now slots.new) }
{
    for _round in 0..project.unit_count() {
        if !round(alloc, project, slots)? {
            return Ok(());
        }
    }
    Ok(())
}

/// The outcome of a unit with an import that has no interface.
fn lacking(
    alloc: Global,
    project: &Project,
    slots: &[Slot],
    unit: &Unit,
) -> Result<Option<Outcome>, Memory>
    requires { length slots.now ≡ unit_count project.now }
    ensures { IfOk result (λ outcome. outcome ≡ lacking (gathered project.now (has_of slots.now) unit.now.imports)) }
{
    match gather(alloc, project, slots, unit.imports.as_slice())? {
        Gathered::All(_) => Ok(None),
        Gathered::Lacking(name) => {
            let name = Text::of(alloc, name)?;
            Ok(Some(Outcome::Failed(Verdict::Import { name })))
        }
    }
}

/// The outcome of a unit that stays left.
fn left_over_at(
    alloc: Global,
    project: &Project,
    slots: &[Slot],
    number: u32,
) -> Result<Option<Outcome>, Memory>
    requires number { number < unit_count project.now }
    requires count { length slots.now ≡ unit_count project.now }
    ensures { IfOk result (λ outcome. outcome ≡ left_over_at project.now slots.now number) }
{
    match &slots[number as usize] {
        Slot::Left(unit) => lacking(alloc, project, slots, unit),
        Slot::Over(_) => Ok(None),
    }
}

/// Writes the outcomes of the units that stay left.
fn end_rounds(alloc: Global, project: &Project, slots: &mut [Slot]) -> Result<(), Memory>
    requires count { length slots.old ≡ unit_count project.now }
    requires stuck { IsStuck project.now slots.old }
    ensures leads { OnOk result (LeadsTo project.now slots.old slots.new) }
    ensures over { OnOk result (left_count slots.new ≡ 0) }
{
    for number in 0..project.unit_count() {
        let outcome = left_over_at(alloc, project, slots, number)?;
        write_outcome(slots, number, outcome);
    }
    Ok(())
}

/// Rounds, up to one that compiles no unit, and then the outcomes of the units that stay left.
pub(crate) fn settle_all(alloc: Global, project: &Project, slots: &mut [Slot]) -> Result<(), Memory>
    requires { length slots.old ≡ unit_count project.now }
    ensures leads { OnOk result (LeadsTo project.now slots.old slots.new) }
    ensures over { OnOk result (left_count slots.new ≡ 0) }
{
    run_rounds(alloc, project, slots)?;
    end_rounds(alloc, project, slots)?;
    Ok(())
}
