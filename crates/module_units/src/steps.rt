//! Reading the parts of a unit, terminal by terminal.

ghost use Rattle.std.specs.Prelude.{◌≡◌, ◌<◌, length, IfOk};
ghost use Rattle.module_units.specs.Machine.{lift, StepAnswer, NameAnswer, name_step, between, after_import, in_import, exported, in_module, in_partition, after_header, in_group, step, ParserHasRoom};
ghost use Rattle.module_units.specs.Unit.{kind_of, headed};

use crate::items::{item_start, item_step};
use crate::parts::{Decl, Import, UnitKind};
use crate::places::{Context, ItemStep, NamePlace, Parser, Place, Stage, StepError};
use crate::terminal::{Ident, Key, Terminal};
use crate::unit::Unit;
use mm_outside::{List, Memory, Text};
use std::alloc::Global;

/// Adds what an item came to.
fn lift(mut unit: Unit, context: Context, step: ItemStep) -> Result<Parser, StepError>
    requires { length unit.decls < 2147483648 }
    ensures { StepAnswer result (lift unit context step) }
{
    match step {
        ItemStep::Fails => Err(StepError::Syntax),
        ItemStep::Goes(place) => Ok(Parser {
            unit,
            place: Place::InItem(context, place),
        }),
        ItemStep::Ends(kind, ident, types) => {
            let exported = match context {
                Context::Alone(export) => export.is_some(),
                Context::Grouped(_) => true,
            };
            let place = match context {
                Context::Alone(_) => Place::Between(Stage::AtDecls),
                Context::Grouped(line) => Place::InGroup(line),
            };
            let Ident { name, line } = ident;
            unit.decls.push(Decl {
                exported,
                kind,
                name,
                line,
                types,
            })?;
            Ok(Parser { unit, place })
        }
    }
}

/// A step of a dotted name.
fn name_step(at: NamePlace, terminal: Terminal) -> Result<NamePlace, StepError>
    ensures { NameAnswer result (name_step at terminal) }
{
    match (at, terminal) {
        (NamePlace::Wants(mut so_far), Terminal::Name(name, _)) => {
            so_far.extend(name.octets())?;
            Ok(NamePlace::Has(so_far))
        }
        (NamePlace::Has(mut so_far), Terminal::Plain(Key::Dot)) => {
            so_far.extend(b".")?;
            Ok(NamePlace::Wants(so_far))
        }
        _ => Err(StepError::Syntax),
    }
}

/// A step between the parts of a unit.
fn between(alloc: Global, unit: Unit, stage: Stage, terminal: Terminal) -> Result<Parser, StepError>
    requires { length unit.decls < 2147483648 }
    ensures { StepAnswer result (between unit stage terminal) }
{
    match (stage, terminal) {
        (_, Terminal::Export(line)) => Ok(Parser {
            unit,
            place: Place::Exported(stage, line),
        }),
        (Stage::AtHead, Terminal::Module(line)) => Ok(Parser {
            unit,
            place: Place::InModule(None, line, NamePlace::Wants(Text::new(alloc))),
        }),
        (Stage::AtHead | Stage::AtImports, Terminal::Import(line)) => Ok(Parser {
            unit,
            place: Place::AfterImport(None, line),
        }),
        (_, terminal) => {
            let step = item_start(alloc, terminal)?;
            lift(unit, Context::Alone(None), step)
        }
    }
}

/// A step behind `import`.
fn after_import(
    alloc: Global,
    unit: Unit,
    exported: Option<u32>,
    line: u32,
    terminal: Terminal,
) -> Result<Parser, StepError>
    ensures { StepAnswer result (after_import unit exported line terminal) }
{
    let place = match terminal {
        Terminal::Name(name, _) => Place::InImport(exported, line, NamePlace::Has(name)),
        Terminal::Colon(_) => {
            let mut name = Text::of(alloc, unit.module.octets())?;
            name.extend(b":")?;
            Place::InImport(exported, line, NamePlace::Wants(name))
        }
        Terminal::Quoted(name, _) => Place::AfterHeader(exported, line, name),
        _ => return Err(StepError::Syntax),
    };
    Ok(Parser { unit, place })
}

/// A step in the name of an import.
fn in_import(
    mut unit: Unit,
    exported: Option<u32>,
    line: u32,
    at: NamePlace,
    terminal: Terminal,
) -> Result<Parser, StepError>
    requires { length unit.imports < 2147483648 }
    ensures { StepAnswer result (in_import unit exported line at terminal) }
{
    match (at, terminal) {
        (NamePlace::Has(name), Terminal::Plain(Key::Semicolon)) => {
            unit.imports.push(Import {
                exported: exported.is_some(),
                name,
                line: exported.unwrap_or(line),
            })?;
            Ok(Parser {
                unit,
                place: Place::Between(Stage::AtImports),
            })
        }
        (at, terminal) => {
            let at = name_step(at, terminal)?;
            Ok(Parser {
                unit,
                place: Place::InImport(exported, line, at),
            })
        }
    }
}

/// A step behind an `export` at the top.
fn exported(
    alloc: Global,
    unit: Unit,
    stage: Stage,
    export: u32,
    terminal: Terminal,
) -> Result<Parser, StepError>
    requires { length unit.decls < 2147483648 }
    ensures { StepAnswer result (exported unit stage export terminal) }
{
    match terminal {
        Terminal::Module(line) => match stage {
            Stage::AtHead => Ok(Parser {
                unit,
                place: Place::InModule(Some(export), line, NamePlace::Wants(Text::new(alloc))),
            }),
            Stage::AtImports | Stage::AtDecls => Err(StepError::Syntax),
        },
        Terminal::Import(line) => match stage {
            Stage::AtHead | Stage::AtImports => Ok(Parser {
                unit,
                place: Place::AfterImport(Some(export), line),
            }),
            Stage::AtDecls => Err(StepError::Syntax),
        },
        Terminal::Plain(Key::LeftBrace) => Ok(Parser {
            unit,
            place: Place::InGroup(export),
        }),
        terminal => {
            let step = item_start(alloc, terminal)?;
            lift(unit, Context::Alone(Some(export)), step)
        }
    }
}

/// The kind of a unit of a module.
fn kind_of(is_exported: bool, is_partition: bool) -> UnitKind
    ensures { result ≡ kind_of is_exported is_partition }
{
    match (is_exported, is_partition) {
        (true, false) => UnitKind::Interface,
        (true, true) => UnitKind::PartitionInterface,
        (false, false) => UnitKind::Implementation,
        (false, true) => UnitKind::PartitionImplementation,
    }
}

/// A unit of a module before its imports.
fn headed(
    alloc: Global,
    kind: UnitKind,
    module: Text,
    partition: Text,
    module_line: u32,
) -> Result<Unit, Memory>
    ensures { IfOk result (λ unit. unit ≡ headed kind «module» partition module_line) }
{
    let mut imports = List::new(alloc);
    if kind == UnitKind::Implementation {
        imports.push(Import {
            exported: false,
            name: Text::of(alloc, module.octets())?,
            line: module_line,
        })?;
    }
    Ok(Unit {
        kind,
        module,
        partition,
        module_line,
        imports,
        decls: List::new(alloc),
    })
}

/// A step in the name behind `module`.
fn in_module(
    alloc: Global,
    unit: Unit,
    exported: Option<u32>,
    line: u32,
    at: NamePlace,
    terminal: Terminal,
) -> Result<Parser, StepError>
    ensures { StepAnswer result (in_module unit exported line at terminal) }
{
    match (at, terminal) {
        (NamePlace::Has(name), Terminal::Colon(_)) => Ok(Parser {
            unit,
            place: Place::InPartition(exported, line, name, NamePlace::Wants(Text::new(alloc))),
        }),
        (NamePlace::Has(name), Terminal::Plain(Key::Semicolon)) => {
            let kind = kind_of(exported.is_some(), false);
            let unit = headed(
                alloc,
                kind,
                name,
                Text::new(alloc),
                exported.unwrap_or(line),
            )?;
            Ok(Parser {
                unit,
                place: Place::Between(Stage::AtImports),
            })
        }
        (at, terminal) => {
            let at = name_step(at, terminal)?;
            Ok(Parser {
                unit,
                place: Place::InModule(exported, line, at),
            })
        }
    }
}

/// A step in the name of a partition.
fn in_partition(
    alloc: Global,
    unit: Unit,
    exported: Option<u32>,
    line: u32,
    module: Text,
    at: NamePlace,
    terminal: Terminal,
) -> Result<Parser, StepError>
    ensures { StepAnswer result (in_partition unit exported line «module» at terminal) }
{
    match (at, terminal) {
        (NamePlace::Has(name), Terminal::Plain(Key::Semicolon)) => {
            let kind = kind_of(exported.is_some(), true);
            let unit = headed(alloc, kind, module, name, exported.unwrap_or(line))?;
            Ok(Parser {
                unit,
                place: Place::Between(Stage::AtImports),
            })
        }
        (at, terminal) => {
            let at = name_step(at, terminal)?;
            Ok(Parser {
                unit,
                place: Place::InPartition(exported, line, module, at),
            })
        }
    }
}

/// A step behind the string of an import.
fn after_header(
    mut unit: Unit,
    exported: Option<u32>,
    line: u32,
    name: Text,
    terminal: Terminal,
) -> Result<Parser, StepError>
    requires { length unit.imports < 2147483648 }
    ensures { StepAnswer result (after_header unit exported line name terminal) }
{
    match terminal {
        Terminal::Plain(Key::Semicolon) => {
            unit.imports.push(Import {
                exported: exported.is_some(),
                name,
                line: exported.unwrap_or(line),
            })?;
            Ok(Parser {
                unit,
                place: Place::Between(Stage::AtImports),
            })
        }
        _ => Err(StepError::Syntax),
    }
}

/// A step between the items of a group.
fn in_group(alloc: Global, unit: Unit, export: u32, terminal: Terminal) -> Result<Parser, StepError>
    requires { length unit.decls < 2147483648 }
    ensures { StepAnswer result (in_group unit export terminal) }
{
    match terminal {
        Terminal::Plain(Key::RightBrace) => Ok(Parser {
            unit,
            place: Place::Between(Stage::AtDecls),
        }),
        terminal => {
            let step = item_start(alloc, terminal)?;
            lift(unit, Context::Grouped(export), step)
        }
    }
}

/// One token more.
pub(crate) fn step(alloc: Global, parser: Parser, terminal: Terminal) -> Result<Parser, StepError>
    requires { ParserHasRoom parser }
    ensures { StepAnswer result (step parser.unit parser.place terminal) }
{
    let Parser { unit, place } = parser;
    match place {
        Place::Between(stage) => between(alloc, unit, stage, terminal),
        Place::Exported(stage, line) => exported(alloc, unit, stage, line, terminal),
        Place::InModule(export, line, at) => in_module(alloc, unit, export, line, at, terminal),
        Place::InPartition(export, line, module, at) => {
            in_partition(alloc, unit, export, line, module, at, terminal)
        }
        Place::AfterImport(export, line) => after_import(alloc, unit, export, line, terminal),
        Place::InImport(export, line, at) => in_import(unit, export, line, at, terminal),
        Place::AfterHeader(export, line, name) => after_header(unit, export, line, name, terminal),
        Place::InItem(context, place) => {
            let step = item_step(alloc, place, terminal)?;
            lift(unit, context, step)
        }
        Place::InGroup(line) => in_group(alloc, unit, line, terminal),
    }
}
