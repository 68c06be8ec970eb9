//! The checks on a unit, terminal by terminal.

ghost use Rattle.std.specs.Prelude.{◌≡◌, ◌++◌, [], ◌∷◌, nat_lt, length, option_copied, Some};
ghost use Rattle.module_units.specs.Machine.{item_step};
ghost use Rattle.module_units.specs.Rules.{can_export, is_header_name, export_faults, fault_if, length_faults};
ghost use Rattle.header_units.specs.Names.{longest_name};
ghost use Rattle.header_units.specs.Octets.{colon};
ghost use Rattle.module_units.specs.Unit.{UnitOf};
ghost use Rattle.module_units.specs.FaultRuns.{line_in, is_semicolon, behind, import_length, too_many, ended, ended_ident, exported_faults, after_import_faults, fault_step, first_fault, names_of};
ghost use Rattle.module_lexer.specs.declared.reason.SourceReason.TheVariants.{NameTooLong};

use crate::names::Names;
use crate::parts::UnitKind;
use crate::places::{ItemPlace, NamePlace, Owner, Place, TypePlace};
use crate::terminal::{Ident, Key, Terminal};
use crate::unit::Unit;
use header_units::{Name, NameKind};
use module_lexer::SourceReason;

/// The most octets of a name.
const LONGEST_NAME: usize = 512;

/// The most imports of a unit, an implementation's own module counted.
const MOST_IMPORTS: u32 = 1000;

/// The line of a token at fault, and why it is refused.
#[derive(Clone, Copy, Debug)]
pub struct Fault {
    /// The line, counted from 1.
    pub line: u32,
    /// The reason.
    pub reason: SourceReason,
}

/// The terminal behind the last `module` or `import`.
#[derive(Clone, Copy, Debug)]
pub(crate) struct Behind {
    /// Its line.
    pub(crate) line: u32,
    /// Whether it is a `:`.
    pub(crate) is_colon: bool,
}

/// A fault on the line, where a rule is broken.
fn fault_if(broken: bool, line: u32, reason: SourceReason) -> Option<Fault>
    ensures { result ≡ first_fault (fault_if broken line reason) }
{
    if broken {
        Some(Fault { line, reason })
    } else {
        None
    }
}

/// The line of a terminal, where it has one.
fn line_in(terminal: &Terminal) -> u32
    ensures { result ≡ line_in terminal.now }
{
    match terminal {
        Terminal::Name(_, line) | Terminal::Quoted(_, line) => *line,
        Terminal::Export(line)
        | Terminal::Module(line)
        | Terminal::Import(line)
        | Terminal::Colon(line) => *line,
        Terminal::Plain(_) => 0,
    }
}

/// What stands behind the last `module` or `import`, with one terminal more.
pub(crate) fn behind_of(before: Behind, place: &Place, terminal: &Terminal) -> Behind
    ensures { result ≡ behind before place.now terminal.now }
{
    match place {
        Place::AfterImport(_, _) => Behind {
            line: line_in(terminal),
            is_colon: matches!(terminal, Terminal::Colon(_)),
        },
        Place::InModule(_, _, NamePlace::Wants(so_far)) if so_far.octets().is_empty() => Behind {
            line: line_in(terminal),
            is_colon: false,
        },
        _ => before,
    }
}

/// Whether units of the kind may export: the interface of a module or of a partition.
pub fn can_export(kind: UnitKind) -> bool
    ensures { result ≡ can_export kind }
{
    matches!(kind, UnitKind::Interface | UnitKind::PartitionInterface)
}

/// The fault of an `export` that begins no module declaration.
fn export_fault(kind: UnitKind, line: u32) -> Option<Fault>
    ensures { result ≡ first_fault (export_faults kind (Some line)) }
{
    fault_if(!can_export(kind), line, SourceReason::ExportOutside)
}

/// The fault of a name that is too long.
fn length_fault(line: u32, len: usize) -> Option<Fault>
    ensures { result ≡ first_fault (fault_if (nat_lt longest_name len) line NameTooLong) }
{
    fault_if(len > LONGEST_NAME, line, SourceReason::NameTooLong)
}

/// The fault of a partition's name that is too long, its module's name counted.
fn partition_fault(line: u32, module: &[u8], partition: &[u8]) -> Option<Fault>
    ensures { result ≡ first_fault (length_faults line («module».now ++ colon ∷ [] ++ partition.now)) }
{
    length_fault(line, module.len() + 1 + partition.len())
}

/// Whether the terminal is `;`.
fn is_semicolon(terminal: &Terminal) -> bool
    ensures { result ≡ is_semicolon terminal.now }
{
    matches!(terminal, Terminal::Plain(Key::Semicolon))
}

/// The fault of one import too many.
fn import_fault(unit: &Unit, line: u32) -> Option<Fault>
    ensures { result ≡ first_fault (too_many unit.now line) }
{
    fault_if(
        unit.imports.len() >= MOST_IMPORTS,
        line,
        SourceReason::TooManyImports,
    )
}

/// Whether the octets are the name of a header.
fn is_header_name(octets: &[u8]) -> bool
    ensures { result ≡ is_header_name octets.now }
{
    match Name::read(octets) {
        Ok(name) => name.kind() == NameKind::Header,
        Err(_) => false,
    }
}

/// The fault of a terminal behind `export`.
fn exported_fault(unit: &Unit, export: u32, terminal: &Terminal) -> Option<Fault>
    ensures { result ≡ first_fault (exported_faults unit.now export terminal.now) }
{
    match terminal {
        Terminal::Module(_) => None,
        Terminal::Import(line) => {
            let fault = export_fault(unit.kind, export);
            if fault.is_some() {
                fault
            } else {
                import_fault(unit, *line)
            }
        }
        _ => export_fault(unit.kind, export),
    }
}

/// The fault of a terminal behind `import`.
fn after_import_fault(kind: UnitKind, terminal: &Terminal) -> Option<Fault>
    ensures { result ≡ first_fault (after_import_faults kind terminal.now) }
{
    match terminal {
        Terminal::Colon(line) => fault_if(
            kind == UnitKind::Plain,
            *line,
            SourceReason::PartitionOutside,
        ),
        Terminal::Quoted(name, line) => fault_if(
            !is_header_name(name.octets()),
            *line,
            SourceReason::BadHeaderName,
        ),
        _ => None,
    }
}

/// The fault of an import's name, which a `:` of a plain unit has none of.
fn import_length_fault(kind: UnitKind, behind: Behind, name: &[u8]) -> Option<Fault>
    ensures { result ≡ first_fault (import_length kind behind name.now) }
{
    if kind == UnitKind::Plain && behind.is_colon {
        None
    } else {
        length_fault(behind.line, name.len())
    }
}

/// The identifier of the item that the terminal ends, if it ends one.
pub(crate) fn ended_ident<'a>(place: &'a ItemPlace, terminal: &Terminal) -> Option<&'a Ident>
    ensures { option_copied result ≡ ended_ident (item_step place.now terminal.now) }
{
    if !is_semicolon(terminal) {
        return None;
    }
    match place {
        ItemPlace::InType(Owner::OfAlias(ident), _, TypePlace::AfterBase)
        | ItemPlace::InType(Owner::OfAlias(ident), _, TypePlace::AfterReference)
        | ItemPlace::AfterName(_, ident)
        | ItemPlace::WantsEnd(_, ident, _) => Some(ident),
        _ => None,
    }
}

/// The fault of a terminal in an item.
fn item_fault(names: &Names, place: &ItemPlace, terminal: &Terminal) -> Option<Fault>
    ensures { (unit : UnitOf) → names.now ≡ names_of unit → result ≡ first_fault (ended unit (item_step place.now terminal.now)) }
{
    let ident = ended_ident(place, terminal)?;
    fault_if(
        names.has(ident.name.octets()),
        ident.line,
        SourceReason::DuplicateName,
    )
}

/// The first fault that a terminal adds where a unit is read so far.
pub(crate) fn fault_of(
    names: &Names,
    behind: Behind,
    unit: &Unit,
    place: &Place,
    terminal: &Terminal,
) -> Option<Fault>
    requires { names.now ≡ names_of unit.now }
    ensures { result ≡ first_fault (fault_step behind unit.now place.now terminal.now) }
{
    match (place, terminal) {
        (Place::Between(_), Terminal::Import(line)) => import_fault(unit, *line),
        (Place::Exported(_, line), _) => exported_fault(unit, *line, terminal),
        (Place::InModule(_, _, NamePlace::Has(name)), Terminal::Plain(Key::Semicolon)) => {
            length_fault(behind.line, name.octets().len())
        }
        (Place::InPartition(_, _, module, NamePlace::Has(name)), Terminal::Plain(Key::Semicolon)) =>
            { partition_fault(behind.line, module.octets(), name.octets()) }
        (Place::AfterImport(_, _), _) => after_import_fault(unit.kind, terminal),
        (Place::InImport(_, _, NamePlace::Has(name)), Terminal::Plain(Key::Semicolon)) => {
            import_length_fault(unit.kind, behind, name.octets())
        }
        (Place::InItem(_, place), _) => item_fault(names, place, terminal),
        _ => None,
    }
}
