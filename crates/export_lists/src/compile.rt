//! One step of the lists: what a unit exports and sees over the interfaces of its imports.

ghost use Rattle.std.specs.Prelude.{◌≡◌, ◌≤◌, ◌==◌, length, flat_map, slice_get, IfOk, IfErr, Ok};
ghost use Rattle.std.specs.List.{position_or_len};
ghost use Rattle.header_units.specs.Octets.{colon};
ghost use Rattle.export_lists.specs.Entries.{with_entries};
ghost use Rattle.export_lists.specs.Lists.{imported, module_in, brings, brought, passes_on, exports, view};
ghost use Rattle.export_lists.specs.Compiling.{is_header, own_exports, is_interface, owner_of, types_in, unknown_lines, is_bad_export, export_lines, is_too_long, compiled, whole, TellsFault};
ghost use Rattle.export_lists.specs.Lent.{lent};
ghost use Rattle.export_lists.specs.Types.{Knows};

use crate::cmi::Cmi;
use crate::entries::Entries;
use crate::listed::{Listed, MOST_NAMES, Own};
use crate::source::source_error;
use crate::types::Types;
use mm_outside::{List, Memory, Text};
use module_lexer::SourceReason;
use module_units::{Fault, Import, SourceError, Unit, UnitKind, can_export};
use std::alloc::Global;

/// How many octets stand before the first colon.
fn before_colon(name: &[u8]) -> usize
    ensures len { result ≡ position_or_len (λ octet. octet == colon) name.now }
    ensures within { result ≤ length name.now }
{
    name.iter().take_while(|octet| **octet != b':').count()
}

/// The module in a unit's name: what stands before a colon.
fn module_in(name: &[u8]) -> &[u8]
    ensures { result.now ≡ module_in name.now }
{
    let (module, _) = name.split_at(before_colon(name));
    module
}

/// What an import brings: what its unit sees, where that is one of the same module, and else what it
/// exports.
fn brings<'a>(unit: &Unit, import: &Import, cmi: &'a Cmi) -> &'a [Listed]
    ensures { result.now ≡ brings unit.now (import.now, cmi.now) }
{
    if module_in(import.name.octets()) == unit.module.octets() {
        cmi.view.as_slice()
    } else {
        cmi.exports.as_slice()
    }
}

/// What an import passes on: where it is exported, what its unit exports.
fn passes_on<'a>(import: &Import, cmi: &'a Cmi) -> &'a [Listed]
    ensures { result.now ≡ passes_on (import.now, cmi.now) }
{
    if import.exported {
        cmi.exports.as_slice()
    } else {
        &[]
    }
}

/// The entries with what each import brings.
fn with_brought<'a>(
    alloc: Global,
    entries: Entries<'a>,
    unit: &Unit,
    cmis: &[&'a Cmi],
) -> Result<Entries<'a>, Memory>
    requires { length cmis.now ≡ length unit.now.imports }
    ensures { IfOk result (λ after. after ≡ with_entries entries.entry (brought unit.now (lent cmis.now))) }
{
    let mut entries = entries;
    for k in 0..unit.imports.len() {
        let listed = brings(unit, unit.imports.get(k), cmis[k as usize]);
        entries = entries.add_all(alloc, listed)?;
    }
    Ok(entries)
}

/// The entries with what each import passes on.
fn with_passed<'a>(
    alloc: Global,
    entries: Entries<'a>,
    unit: &Unit,
    cmis: &[&'a Cmi],
) -> Result<Entries<'a>, Memory>
    requires { length cmis.now ≡ length unit.now.imports }
    ensures { IfOk result (λ after. after ≡ with_entries entries.entry (flat_map passes_on (imported unit.now (lent cmis.now)))) }
{
    let mut entries = entries;
    for k in 0..unit.imports.len() {
        let listed = passes_on(unit.imports.get(k), cmis[k as usize]);
        entries = entries.add_all(alloc, listed)?;
    }
    Ok(entries)
}

/// What a unit exports.
fn exports_over<'a>(
    alloc: Global,
    own: Own,
    owner: &'a [u8],
    unit: &'a Unit,
    cmis: &[&'a Cmi],
) -> Result<List<Listed>, Memory>
    requires { length cmis.now ≡ length unit.now.imports }
    ensures { IfOk result (λ list. list ≡ exports own owner.now unit.now (lent cmis.now)) }
{
    let entries = Entries::new(alloc).add_decls(alloc, own, owner, unit.decls.as_slice())?;
    let entries = with_passed(alloc, entries, unit, cmis)?;
    Ok(entries.into_list())
}

/// What a unit sees.
fn view_over<'a>(
    alloc: Global,
    owner: &'a [u8],
    unit: &'a Unit,
    cmis: &[&'a Cmi],
) -> Result<List<Listed>, Memory>
    requires { length cmis.now ≡ length unit.now.imports }
    ensures { IfOk result (λ list. list ≡ view owner.now unit.now (lent cmis.now)) }
{
    let entries = Entries::new(alloc).add_decls(alloc, Own::All, owner, unit.decls.as_slice())?;
    let entries = with_brought(alloc, entries, unit, cmis)?;
    Ok(entries.into_list())
}

/// Whether an import is exported although its unit is no interface.
fn is_bad_export(import: &Import, cmi: &Cmi) -> bool
    ensures { result ≡ is_bad_export (import.now, cmi.now) }
{
    import.exported && !cmi.interface
}

/// The line of the first exported import of a unit that is no interface.
fn first_bad_export(unit: &Unit, cmis: &[&Cmi]) -> Option<u32>
    requires { length cmis.now ≡ length unit.now.imports }
    ensures { result ≡ slice_get (export_lines (imported unit.now (lent cmis.now))) 0 }
{
    for k in 0..unit.imports.len() {
        let import = unit.imports.get(k);
        if is_bad_export(import, cmis[k as usize]) {
            return Some(import.line);
        }
    }
    None
}

/// The names of the types among what the imports bring.
fn types_brought<'a>(alloc: Global, unit: &Unit, cmis: &[&'a Cmi]) -> Result<Types<'a>, Memory>
    requires { length cmis.now ≡ length unit.now.imports }
    ensures { IfOk result (λ types. Knows types (types_in (brought unit.now (lent cmis.now)))) }
{
    let mut types = Types::new(alloc);
    for k in 0..unit.imports.len() {
        let listed = brings(unit, unit.imports.get(k), cmis[k as usize]);
        types.add_listed(listed)?;
    }
    Ok(types)
}

/// The line of the first use of a type that is neither declared before nor brought by an import.
fn first_unknown<'a>(alloc: Global, unit: &'a Unit, cmis: &[&'a Cmi]) -> Result<Option<u32>, Memory>
    requires { length cmis.now ≡ length unit.now.imports }
    ensures { IfOk result (λ line. line ≡ slice_get (unknown_lines (types_in (brought unit.now (lent cmis.now))) unit.now.decls) 0) }
{
    let types = types_brought(alloc, unit, cmis)?;
    types.first_undeclared(unit.decls.as_slice())
}

/// Whether it is a header unit: it has a name and no module declaration.
fn is_header(kind: UnitKind, name: &[u8]) -> bool
    ensures { result ≡ is_header kind name.now }
{
    match kind {
        UnitKind::Plain => !name.is_empty(),
        _ => false,
    }
}

/// Which of its own declarations a unit exports: a header unit all of them, and another those that are
/// exported.
fn own_exports(kind: UnitKind, name: &[u8]) -> Own
    ensures { result ≡ own_exports kind name.now }
{
    if is_header(kind, name) {
        Own::All
    } else {
        Own::Exported
    }
}

/// Whether a unit is an interface: a module's, a partition's, or a header unit.
fn is_interface(kind: UnitKind, name: &[u8]) -> bool
    ensures { result ≡ is_interface kind name.now }
{
    can_export(kind) || is_header(kind, name)
}

/// The owner of a unit's own declarations: its module, or of one without a module declaration its
/// name.
fn owner_of<'a>(unit: &'a Unit, name: &'a [u8]) -> &'a [u8]
    ensures { result.now ≡ owner_of unit.now.kind name.now unit.now.module }
{
    match unit.kind {
        UnitKind::Plain => name,
        _ => unit.module.octets(),
    }
}

/// Whether a list has too many names.
fn is_too_long(list: &List<Listed>) -> bool
    ensures { result ≡ is_too_long list.now }
{
    list.len() > MOST_NAMES
}

/// The interface of a unit without faults, unless it has too many names.
fn interface_over(
    alloc: Global,
    unit: &Unit,
    name: &[u8],
    cmis: &[&Cmi],
) -> Result<Cmi, SourceError>
    requires { length cmis.now ≡ length unit.now.imports }
    ensures cmi { IfOk result (λ cmi. whole name.now unit.now (lent cmis.now) ≡ Ok cmi) }
    ensures refused { IfErr result (TellsFault (whole name.now unit.now (lent cmis.now))) }
{
    let owner = owner_of(unit, name);
    let exports = exports_over(alloc, own_exports(unit.kind, name), owner, unit, cmis)?;
    let view = view_over(alloc, owner, unit, cmis)?;
    if is_too_long(&view) || is_too_long(&exports) {
        return Err(source_error(Fault {
            line: 1,
            reason: SourceReason::TooManyNames,
        }));
    }
    Ok(Cmi {
        unit: Text::of(alloc, name)?,
        interface: is_interface(unit.kind, name),
        exports,
        view,
    })
}

/// What a unit of this name compiles to over the interfaces of its imports, which are lent.
pub(crate) fn compile_over(
    alloc: Global,
    unit: &Unit,
    name: &[u8],
    cmis: &[&Cmi],
) -> Result<Cmi, SourceError>
    requires { length cmis.now ≡ length unit.now.imports }
    ensures cmi { IfOk result (λ cmi. compiled name.now unit.now (lent cmis.now) ≡ Ok cmi) }
    ensures refused { IfErr result (TellsFault (compiled name.now unit.now (lent cmis.now))) }
{
    if let Some(line) = first_bad_export(unit, cmis) {
        return Err(source_error(Fault {
            line,
            reason: SourceReason::ExportedImplementation,
        }));
    }
    if let Some(line) = first_unknown(alloc, unit, cmis)? {
        return Err(source_error(Fault {
            line,
            reason: SourceReason::UnknownType,
        }));
    }
    interface_over(alloc, unit, name, cmis)
}

/// The interfaces, lent one by one.
fn lend<'a>(alloc: Global, cmis: &'a [Cmi]) -> Result<Vec<&'a Cmi>, Memory>
    ensures { IfOk result (λ some. lent some.items ≡ cmis.now) }
{
    let some = cmis.iter().collect(alloc)?;
    Ok(some)
}

/// What a unit sees: all its own declarations, then what its imports bring, in order. An import brings
/// what its unit sees, where that is a unit of the same module, and else what it exports (ISO C++20
/// [module.import]). Of equal entries the first is kept.
///
/// There is one interface for each import, in order, of the import's unit. `owner` is the owner of the
/// unit's own declarations. `Memory` may come for any unit.
pub fn view_of(
    alloc: Global,
    unit: &Unit,
    owner: &[u8],
    cmis: &[Cmi],
) -> Result<List<Listed>, Memory>
    requires { length cmis.now ≡ length unit.now.imports }
    ensures { IfOk result (λ list. list ≡ view owner.now unit.now cmis.now) }
{
    let some = lend(alloc, cmis)?;
    view_over(alloc, owner, unit, &some)
}

/// The interface of a unit of this name, or its first fault. An empty name is that of a plain unit.
///
/// There is one interface for each import, in order, of the import's unit. The faults are tried in
/// this order: `ExportedImplementation` on the line of an exported import whose unit is no interface,
/// `UnknownType` on the line of an identifier that is used as a type and is neither a type that the
/// unit declares before nor one that its imports bring, and `TooManyNames` on line 1 where the exports
/// or the view have more than 65,536 names. Of each the first by place counts. `Memory` may come for
/// any unit.
pub fn compile_unit(
    alloc: Global,
    unit: &Unit,
    name: &[u8],
    cmis: &[Cmi],
) -> Result<Cmi, SourceError>
    requires { length cmis.now ≡ length unit.now.imports }
    ensures cmi { IfOk result (λ cmi. compiled name.now unit.now cmis.now ≡ Ok cmi) }
    ensures refused { IfErr result (TellsFault (compiled name.now unit.now cmis.now)) }
{
    let some = lend(alloc, cmis)?;
    compile_over(alloc, unit, name, &some)
}
