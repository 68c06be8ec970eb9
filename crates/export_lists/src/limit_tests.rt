//! Lists of as many names as there may be, and of one more.

use super::*;
use crate::lines::digits_of;
use mm_outside::{List, Text};
use module_lexer::SourceReason;
use module_units::DeclKind::Variable;
use module_units::{Fault, SourceError, Unit};
use std::alloc::Global;
use std::test::*;

/// As many names as a list may have.
const MOST: u32 = 65_536;

/// One more.
const TOO_MANY: u32 = 65_537;

/// A unit over an interface with so many exports, and the fault that it has, if it has one.
#[derive(Clone, Copy)]
struct Row {
    /// The source, with one import.
    source: &'static [u8],
    /// How many names the unit of its import exports.
    names: u32,
    /// The first fault.
    fault: Option<Fault>,
}

/// A list of exports and a view at the limit, and past it, together and each alone.
const ROWS: [Row; 6] = [
    Row {
        source: b"export module b;\nexport import a;",
        names: MOST,
        fault: None,
    },
    Row {
        source: b"export module b;\nexport import a;",
        names: TOO_MANY,
        fault: Some(Fault {
            line: 1,
            reason: SourceReason::TooManyNames,
        }),
    },
    Row {
        source: b"export module b;\nimport a;\nvoid f(int);",
        names: MOST,
        fault: Some(Fault {
            line: 1,
            reason: SourceReason::TooManyNames,
        }),
    },
    Row {
        source: b"export module b;\nimport :p;",
        names: TOO_MANY,
        fault: None,
    },
    Row {
        source: b"export module b;\nexport import :p;",
        names: TOO_MANY,
        fault: Some(Fault {
            line: 1,
            reason: SourceReason::TooManyNames,
        }),
    },
    Row {
        source: b"export module b;\nimport a;\nT x;",
        names: TOO_MANY,
        fault: Some(Fault {
            line: 3,
            reason: SourceReason::UnknownType,
        }),
    },
];

/// Adds the variable of this number.
fn push_variable(alloc: Global, number: u32, entries: &mut List<Listed>) -> Option<()> {
    if entries.len() > TOO_MANY {
        return None;
    }
    let mut name = Text::of(alloc, b"v").ok()?;
    name.extend(digits_of(alloc, number).ok()?.octets()).ok()?;
    let owner = Text::of(alloc, b"a").ok()?;
    entries
        .push(Listed {
            kind: Variable,
            name,
            owner,
        })
        .ok()
}

/// So many variables.
fn variables(alloc: Global, count: u32) -> Option<List<Listed>> {
    let mut entries = List::new(alloc);
    for number in 0..count {
        push_variable(alloc, number, &mut entries)?;
    }
    Some(entries)
}

/// The interface of a module that exports and sees so many variables.
fn wide(alloc: Global, exported: u32, seen: u32) -> Option<Cmi> {
    Some(Cmi {
        unit: Text::of(alloc, b"a").ok()?,
        interface: true,
        exports: variables(alloc, exported)?,
        view: variables(alloc, seen)?,
    })
}

/// Whether a unit over an interface compiles, or has this first fault.
fn comes_to(alloc: Global, unit: &Unit, cmis: &[Cmi], fault: Option<Fault>) -> Option<bool> {
    if unit.imports.len() as usize != cmis.len() {
        return None;
    }
    Some(match (compile_unit(alloc, unit, b"b", cmis), fault) {
        (Ok(_), None) => true,
        (Err(SourceError::Text { line, reason }), Some(fault)) => {
            line == fault.line && reason == fault.reason
        }
        _ => false,
    })
}

/// Whether the unit of a row compiles, or has the row's fault.
fn is_right(alloc: Global, row: &Row) -> Option<bool> {
    if row.source.len() > 1000 {
        return None;
    }
    let unit = Unit::read(alloc, row.source).ok()?;
    let mut cmis = Vec::new(alloc);
    cmis.push(wide(alloc, row.names, 0)?).ok()?;
    comes_to(alloc, &unit, &cmis, row.fault)
}

/// What reading a text comes to.
#[derive(Clone, Copy, Debug, PartialEq, Eq)]
enum Answer {
    /// It is read.
    Read,
    /// It is refused on this line.
    RefusedOn(u32),
}

/// What reading the text of an interface with so many names comes to.
fn read_wide(alloc: Global, exported: u32, seen: u32) -> Option<Answer> {
    let text = wide(alloc, exported, seen)?.write(alloc).ok()?;
    if text.octets().len() > 100_000_000 {
        return None;
    }
    match Cmi::read(alloc, text.octets()) {
        Ok(_) => Some(Answer::Read),
        Err(CmiError::Text { line }) => Some(Answer::RefusedOn(line)),
        Err(CmiError::Memory) => None,
    }
}

#[test]
fn units_with_many_names(rt: HostRuntime) {
    for row in ROWS {
        assert!(rt;
            is_right(rt.alloc(), &row) == Some(true),
            "{:?}",
            row.source
        );
    }
}

#[test]
fn texts_with_many_names(rt: HostRuntime) {
    assert_eq!(rt; read_wide(rt.alloc(), MOST, MOST), Some(Answer::Read));
    assert_eq!(rt;
        read_wide(rt.alloc(), TOO_MANY, 0),
        Some(Answer::RefusedOn(65_539))
    );
    assert_eq!(rt;
        read_wide(rt.alloc(), 1, TOO_MANY),
        Some(Answer::RefusedOn(65_540))
    );
}
