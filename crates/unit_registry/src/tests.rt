//! Project files by their forms and their faults, and requests turned into acts.

use super::*;
use crate::project::MOST_UNITS;
use mapper_requests::{Bad, Request};
use std::alloc::Global;

/// A project of two modules, a header unit and a plain unit.
const PROJECT: &[u8] = b"modmap-project 1
repo gcm.cache
module a a.cc
module b b.cc
header ./x.h x.h
plain main.cc
end
";

/// The project of the text, or where it is at fault.
fn read(alloc: Global, octets: &[u8]) -> Result<Project, ProjectError> {
    if octets.len() > 2147483648 {
        return Err(ProjectError::Memory);
    }
    Project::read(alloc, octets)
}

/// Whether the text is refused at this line, for this reason.
fn refuses(alloc: Global, octets: &[u8], at: u32, why: ProjectReason) -> bool {
    match read(alloc, octets) {
        Err(ProjectError::Text { line, reason }) => line == at && reason == why,
        _ => false,
    }
}

/// Whether the lines of units behind the head are refused at this line, for this reason.
fn refuses_units(alloc: Global, units: &[u8], at: u32, why: ProjectReason) -> bool {
    match text_of(alloc, units) {
        Some(text) => refuses(alloc, &text, at, why),
        None => false,
    }
}

/// A head of two lines with these lines behind it.
fn text_of(alloc: Global, units: &[u8]) -> Option<Vec<u8>> {
    let mut text = Vec::from_slice(alloc, b"modmap-project 1\nrepo r\n").ok()?;
    text.extend_from_slice(units).ok()?;
    Some(text)
}

/// Whether the project has this unit at the number, found by its name and its ident.
fn has_unit(
    project: &Project,
    unit: u32,
    kind: Kind,
    name: &[u8],
    ident: &[u8],
    built: bool,
) -> bool {
    unit < project.unit_count()
        && project.kind(unit) == kind
        && project.name(unit) == name
        && project.ident(unit) == ident
        && project.is_built(unit) == built
        && project.find_ident(ident) == Some(unit)
        && project.find_unit(name) == if name.is_empty() { None } else { Some(unit) }
}

/// Whether the project is read as it is written.
fn is_worked(alloc: Global) -> bool {
    let Ok(project) = read(alloc, PROJECT) else {
        return false;
    };
    project.unit_count() == 4
        && project.workspace_repo() == b"gcm.cache".as_slice()
        && has_unit(&project, 0, Kind::Module, b"a", b"a.cc", false)
        && has_unit(&project, 1, Kind::Module, b"b", b"b.cc", false)
        && has_unit(&project, 2, Kind::Header, b"./x.h", b"x.h", false)
        && has_unit(&project, 3, Kind::Plain, b"", b"main.cc", false)
        && project.find_unit(b"c").is_none()
        && project.find_ident(b"").is_none()
}

/// Whether the text declares one unit, of this kind, name, ident and mark built.
fn declares(
    alloc: Global,
    octets: &[u8],
    kind: Kind,
    name: &[u8],
    ident: &[u8],
    built: bool,
) -> bool {
    match read(alloc, octets) {
        Ok(project) => project.unit_count() == 1 && has_unit(&project, 0, kind, name, ident, built),
        Err(_) => false,
    }
}

/// Whether the request is the act in the worked project.
fn acts(alloc: Global, request: Request<'_>, stored: bool, act: Act) -> bool {
    match read(alloc, PROJECT) {
        Ok(project) => project.act_of(&request, stored) == act,
        Err(_) => false,
    }
}

#[test]
fn worked_project(rt: HostRuntime) {
    assert!(rt; is_worked(rt.alloc()));
}

#[test]
fn lenient_spellings(rt: HostRuntime) {
    let alloc = rt.alloc();
    assert!(rt;
        declares(
            alloc,
            b"\n'modmap-project' 1\n \t\nrepo 'a b'\n\nbuilt module m:p p.cc\nend",
            Kind::Module,
            b"m:p",
            b"p.cc",
            true
        )
    );
    assert!(rt;
        declares(
            alloc,
            b"modmap-project 1\nrepo r\nplain end\nend\n\n",
            Kind::Plain,
            b"",
            b"end",
            false
        )
    );
    assert!(rt;
        declares(
            alloc,
            b"modmap-project '1'\nrepo r\nbuilt header /x x\n'end'\n",
            Kind::Header,
            b"/x",
            b"x",
            true
        )
    );
}

/// Texts with the line at which each is at fault, and why.
const FAULTS_OF_PLACES: [(&[u8], u32, ProjectReason); 9] = [
    (b"", 1, ProjectReason::NoEnd),
    (b"\n", 2, ProjectReason::NoEnd),
    (b"modmap-project 2\n", 1, ProjectReason::Syntax),
    (b"repo r\n", 1, ProjectReason::Syntax),
    (b"modmap-project 1\nend\n", 2, ProjectReason::Syntax),
    (b"modmap-project 1\nrepo ''\n", 2, ProjectReason::BadText),
    (b"modmap-project 1\r\n", 1, ProjectReason::Words),
    (b"modmap-project 1 ;\n", 1, ProjectReason::Syntax),
    (b";\nmodmap-project 1\n", 1, ProjectReason::Syntax),
];

#[test]
fn faults_of_places(rt: HostRuntime) {
    for (text, line, reason) in FAULTS_OF_PLACES {
        assert!(rt; refuses(rt.alloc(), text, line, reason));
    }
}

/// Lines behind a head of two lines, with the line at which each text is at fault, and why.
const FAULTS_OF_UNITS: [(&[u8], u32, ProjectReason); 11] = [
    (b"plain a", 4, ProjectReason::NoEnd),
    (b"end\nplain a\n", 4, ProjectReason::Syntax),
    (b"end\n\nplain 'a\n", 5, ProjectReason::Words),
    (b"built plain a\n", 3, ProjectReason::Syntax),
    (b"module ./a ''\n", 3, ProjectReason::BadText),
    (b"plain 'a\\7f'", 3, ProjectReason::BadText),
    (b"module ./a a\n", 3, ProjectReason::BadName),
    (b"header a a\n", 3, ProjectReason::BadName),
    (
        b"module a a.cc\nmodule a c.cc\n",
        4,
        ProjectReason::TwiceName,
    ),
    (
        b"module a a.cc\nmodule a a.cc\n",
        4,
        ProjectReason::TwiceName,
    ),
    (b"module a a.cc\nplain a.cc\n", 4, ProjectReason::TwiceIdent),
];

#[test]
fn faults_of_units(rt: HostRuntime) {
    for (units, line, reason) in FAULTS_OF_UNITS {
        assert!(rt; refuses_units(rt.alloc(), units, line, reason));
    }
}

/// Whether one unit more than a project may have is refused at its line, and one less isn't.
fn bounds_units(alloc: Global) -> bool {
    let Some(mut text) = text_of(alloc, b"") else {
        return false;
    };
    for number in 0..MOST_UNITS {
        if add_unit(&mut text, number).is_none() {
            return false;
        }
    }
    let begun = refuses(alloc, &text, 3 + MOST_UNITS, ProjectReason::NoEnd);
    add_unit(&mut text, MOST_UNITS).is_some()
        && begun
        && refuses(alloc, &text, 3 + MOST_UNITS, ProjectReason::TooMany)
}

/// Appends the line of a plain unit whose ident is four letters.
fn add_unit(text: &mut Vec<u8>, number: u32) -> Option<()> {
    text.extend_from_slice(b"plain ").ok()?;
    for shift in [0, 4, 8, 12] {
        text.push(b'a' + ((number >> shift) % 16) as u8).ok()?;
    }
    text.push(if number < MOST_UNITS { b'\n' } else { b'x' })
        .ok()
}

#[test]
fn most_units(rt: HostRuntime) {
    assert!(rt; bounds_units(rt.alloc()));
}

/// Hellos of a version, a compiler and an ident, whether an item is handed in, and the unit of the ident.
const HELLOS: [(u32, &[u8], &[u8], bool, Option<u32>); 3] = [
    (2, b"c", b"main.cc", true, Some(3)),
    (1, b"main.cc", b"", false, None),
    (1, b"a.cc", b"a", false, None),
];

#[test]
fn hellos_as_acts(rt: HostRuntime) {
    for (version, compiler, ident, stored, unit) in HELLOS {
        let request = Request::Hello {
            version,
            compiler,
            ident,
        };
        assert!(rt; acts(rt.alloc(), request, stored, Act::Hello { version, unit }));
    }
}

/// Imports by name and flags, with the unit of the name and whether only the name is wanted.
const IMPORTS: [(&[u8], u32, Option<u32>, bool); 3] = [
    (b"a", 3, Some(0), true),
    (b"", 2, None, false),
    (b"./x.h", 0, Some(2), false),
];

#[test]
fn imports_as_acts(rt: HostRuntime) {
    for (name, flags, unit, name_only) in IMPORTS {
        let request = Request::Import { name, flags };
        assert!(rt; acts(rt.alloc(), request, false, Act::Import { unit, name_only }));
    }
}

/// Names, with their units and whether they are those of header units.
const NAMES: [(&[u8], Option<u32>, bool); 4] = [
    (b"a", Some(0), false),
    (b"./x.h", Some(2), true),
    (b"c", None, false),
    (b"", None, false),
];

#[test]
fn names_as_acts(rt: HostRuntime) {
    let alloc = rt.alloc();
    for (name, unit, header) in NAMES {
        let export = Request::Export { name, flags: 1 };
        assert!(rt; acts(alloc, export, true, Act::Export { unit }));

        let stored = unit.is_some();
        let compiled = Request::Compiled { name, flags: 0 };
        assert!(rt; acts(alloc, compiled, true, Act::Compiled { unit, stored }));

        let translate = Request::Translate { name, flags: 0 };
        assert!(rt; acts(alloc, translate, false, Act::Translate { header }));
    }
}

/// The requests that have no name, and a report without an item, with their acts.
const OTHERS: [(Request<'static>, bool, Act); 3] = [
    (Request::Repo, true, Act::Repo),
    (
        Request::Bad {
            why: Bad::WrongWords,
        },
        false,
        Act::Bad {
            why: Bad::WrongWords,
        },
    ),
    (
        Request::Compiled {
            name: b"a",
            flags: 0,
        },
        false,
        Act::Compiled {
            unit: Some(0),
            stored: false,
        },
    ),
];

#[test]
fn other_acts(rt: HostRuntime) {
    for (request, stored, act) in OTHERS {
        assert!(rt; acts(rt.alloc(), request, stored, act));
    }
}

/// The reasons with their texts.
const REASONS: [(ProjectReason, &[u8]); 8] = [
    (ProjectReason::Words, b"malformed line"),
    (ProjectReason::Syntax, b"syntax"),
    (ProjectReason::BadText, b"bad text"),
    (ProjectReason::BadName, b"bad name"),
    (ProjectReason::TwiceName, b"name declared twice"),
    (ProjectReason::TwiceIdent, b"ident declared twice"),
    (ProjectReason::TooMany, b"too many units"),
    (ProjectReason::NoEnd, b"no end"),
];

#[test]
fn reason_texts(rt: HostRuntime) {
    for (reason, text) in REASONS {
        assert!(rt; reason.text() == text);
    }
}
