//! A reader of a unit, with the checks.

ghost use Rattle.std.specs.Prelude.{◌≡◌, ◌++◌, ◌∷◌, [], None, IfOk, OnOk, List, ℕ, false};
ghost use Rattle.std.specs.List.{list_any};
ghost use Rattle.std.specs.Str.{bytes_eq};
ghost use Rattle.module_units.specs.Machine.{start, ParserHasRoom};
ghost use Rattle.module_units.specs.FaultRuns.{behind_at, fault_step, or_first, names_ended, names_of};
ghost use Rattle.module_units.specs.Readers.{IsReader, TakesOrStops};

use crate::faults::{Behind, Fault, behind_of, ended_ident, fault_of};
use crate::names::Names;
use crate::parts::UnitKind;
use crate::places::{Parser, Place, Stage, StepError};
use crate::steps::step;
use crate::terminal::Terminal;
use crate::unit::Unit;
use mm_outside::{List, Memory, Text};
use std::alloc::Global;

/// A reader of a unit: what it has read, and the first fault of the checks so far.
#[derive(Drop)]
pub(crate) struct Reader {
    /// What was read.
    pub(crate) parser: Parser,
    /// What stands behind the last `module` or `import`.
    pub(crate) behind: Behind,
    /// The first fault of the checks so far.
    pub(crate) fault: Option<Fault>,
    /// The names of the declarations, until the first fault.
    pub(crate) names: Names,
}

/// A parser that has read nothing.
fn new_parser(alloc: Global) -> Parser
    ensures { result ≡ start }
{
    Parser {
        unit: Unit {
            kind: UnitKind::Plain,
            module: Text::new(alloc),
            partition: Text::new(alloc),
            module_line: 1,
            imports: List::new(alloc),
            decls: List::new(alloc),
        },
        place: Place::Between(Stage::AtHead),
    }
}

/// Adds the name of the item that the terminal ends, where one ends.
fn note_name(
    alloc: Global,
    names: &mut Names,
    place: &Place,
    terminal: &Terminal,
) -> Result<(), Memory>
    requires { (name : List ℕ) → names_ended place.now terminal.now ≡ name ∷ [] → list_any (bytes_eq name) names.old ≡ false }
    ensures { OnOk result (names.new ≡ names.old ++ names_ended place.now terminal.now) }
{
    if let Place::InItem(_, place) = place {
        if let Some(ident) = ended_ident(place, terminal) {
            names.add(alloc, ident.name.octets())?;
        }
    }
    Ok(())
}

/// The first fault with one terminal more. Until there is one, the names go on.
fn judge(
    alloc: Global,
    fault: Option<Fault>,
    behind: Behind,
    names: &mut Names,
    parser: &Parser,
    terminal: &Terminal,
) -> Result<Option<Fault>, Memory>
    requires { fault ≡ None → names.old ≡ names_of parser.now.unit }
    ensures fault { IfOk result (λ found. found ≡ or_first fault (fault_step behind parser.now.unit parser.now.place terminal.now)) }
    ensures names { IfOk result (λ found. found ≡ None → names.new ≡ names.old ++ names_ended parser.now.place terminal.now) }
{
    if fault.is_some() {
        return Ok(fault);
    }
    let found = fault_of(names, behind, &parser.unit, &parser.place, terminal);
    if found.is_none() {
        note_name(alloc, names, &parser.place, terminal)?;
    }
    Ok(found)
}

impl Reader {
    /// A reader that has read nothing.
    pub(crate) fn new(alloc: Global) -> Reader
        ensures reader { IsReader result }
        ensures parser { result.parser ≡ start }
        ensures behind { result.behind ≡ behind_at 0 false }
        ensures fault { result.fault ≡ None }
    {
        Reader {
            parser: new_parser(alloc),
            behind: Behind {
                line: 0,
                is_colon: false,
            },
            fault: None,
            names: Names::new(alloc),
        }
    }

    /// One terminal more.
    pub(crate) fn take(self, alloc: Global, terminal: Terminal) -> Result<Reader, StepError>
        requires reader { IsReader self }
        requires room { ParserHasRoom self.parser }
        ensures { TakesOrStops self terminal result }
    {
        let Reader {
            parser,
            behind,
            fault,
            mut names,
        } = self;
        let behind = behind_of(behind, &parser.place, &terminal);
        let fault = judge(alloc, fault, behind, &mut names, &parser, &terminal)?;
        let parser = step(alloc, parser, terminal)?;
        Ok(Reader {
            parser,
            behind,
            fault,
            names,
        })
    }
}
