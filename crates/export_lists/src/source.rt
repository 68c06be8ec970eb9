//! The unit that a source is in a project.

ghost use Rattle.std.specs.Prelude.{◌≡◌, ◌<◌, ◌≤◌, length, IfOk, IfErr};
ghost use Rattle.module_units.specs.FaultRuns.{first_fault};
ghost use Rattle.module_units.specs.declared.unit.SourceError.TheVariants as errors;
ghost use Rattle.unit_registry.specs.Projects.{unit_count};
ghost use Rattle.export_lists.specs.Sources.{unit_name, may_be, has_name, header_faults, project_faults, IsUnitFor, RefusesFor};

use mm_outside::{Memory, Text};
use module_lexer::SourceReason;
use module_units::{Fault, SourceError, Unit, UnitKind};
use std::alloc::Global;
use unit_registry::{Kind, Project};

/// The name of a unit: its module's, with its partition behind a colon.
fn unit_name(alloc: Global, unit: &Unit) -> Result<Text, Memory>
    ensures { IfOk result (λ name. name ≡ unit_name unit.now) }
{
    let mut name = Text::of(alloc, unit.module.octets())?;
    if !unit.partition.octets().is_empty() {
        name.extend(b":")?;
        name.extend(unit.partition.octets())?;
    }
    Ok(name)
}

/// Whether a project may declare units of the kind so.
fn may_be(declared: Kind, kind: UnitKind) -> bool
    ensures { result ≡ may_be declared kind }
{
    match (declared, kind) {
        (Kind::Module, UnitKind::Interface) => true,
        (Kind::Module, UnitKind::PartitionInterface) => true,
        (Kind::Module, UnitKind::PartitionImplementation) => true,
        (Kind::Header, UnitKind::Plain) => true,
        (Kind::Plain, UnitKind::Plain) => true,
        (Kind::Plain, UnitKind::Implementation) => true,
        _ => false,
    }
}

/// Whether a unit has the name that its project declares, where it declares a module or a partition.
fn has_name(alloc: Global, declared: Kind, name: &[u8], unit: &Unit) -> Result<bool, Memory>
    ensures { IfOk result (λ has. has ≡ has_name declared name.now unit.now) }
{
    if declared != Kind::Module {
        return Ok(true);
    }
    let own = unit_name(alloc, unit)?;
    Ok(own.octets() == name)
}

/// The fault of the first import of a header unit.
fn header_fault(declared: Kind, unit: &Unit) -> Option<Fault>
    ensures { result ≡ first_fault (header_faults declared unit.now.imports) }
{
    match (declared, unit.imports.as_slice()) {
        (Kind::Header, [import, ..]) => Some(Fault {
            line: import.line,
            reason: SourceReason::ImportInHeader,
        }),
        _ => None,
    }
}

/// The first fault of a unit in a project that declares a unit of this kind and name.
fn project_fault(
    alloc: Global,
    declared: Kind,
    name: &[u8],
    unit: &Unit,
) -> Result<Option<Fault>, Memory>
    ensures { IfOk result (λ fault. fault ≡ first_fault (project_faults declared name.now unit.now)) }
{
    let named = has_name(alloc, declared, name, unit)?;
    if may_be(declared, unit.kind) && named {
        return Ok(header_fault(declared, unit));
    }
    Ok(Some(Fault {
        line: unit.module_line,
        reason: SourceReason::UnitDiffers,
    }))
}

/// The error of a source with this first fault.
pub(crate) fn source_error(fault: Fault) -> SourceError
    ensures { result ≡ errors.Text fault.line fault.reason }
{
    SourceError::Text {
        line: fault.line,
        reason: fault.reason,
    }
}

/// The unit that the source of a unit of the project is, or the source's first fault.
///
/// The faults of `Unit::read` come first. Then `UnitDiffers` is told on the line of the module
/// declaration, or on line 1 without one, where the unit isn't what the project declares: a module or a
/// partition of the declared name, for a header unit a unit without a module declaration, and for a
/// plain unit that or an implementation unit. `ImportInHeader` is told on the line of the first import
/// of a header unit. `Memory` may come for any source. The text has at most 2,147,483,648 octets.
pub fn unit_for(
    alloc: Global,
    project: &Project,
    unit: u32,
    text: &[u8],
) -> Result<Unit, SourceError>
    requires unit { unit < unit_count project.now }
    requires small { length text.now ≤ 2147483648 }
    ensures unit { IfOk result (IsUnitFor project.now unit text.now) }
    ensures refused { IfErr result (RefusesFor project.now unit text.now) }
{
    let found = Unit::read(alloc, text)?;
    match project_fault(alloc, project.kind(unit), project.name(unit), &found)? {
        Some(fault) => Err(source_error(fault)),
        None => Ok(found),
    }
}
