//! What units of a worked project export and see, and the faults of sources and units.

use super::*;
use mm_outside::List;
use module_lexer::SourceReason;
use module_units::DeclKind::{Alias, Function, Struct};
use module_units::{DeclKind, SourceError, Unit};
use std::alloc::Global;
use std::test::*;
use unit_registry::Project;

/// A project with a module in parts, a header unit, a module above it and a plain unit.
const PROJECT: &[u8] = b"modmap-project 1
repo gcm.cache
module m m.cc
module m:p p.cc
module m:q q.cc
header ./h.h h.h
module n n.cc
plain mi.cc
end
";

/// The sources of its units.
const M: &[u8] =
    b"export module m; export import :p; import :q; import \"./h.h\"; export P make(H);";

const P: &[u8] = b"export module m:p; export struct P; struct Hidden;";

const Q: &[u8] = b"module m:q; struct Q;";

const H: &[u8] = b"struct H;";

const N: &[u8] = b"export module n; export import m; export using N = P;";

const MI: &[u8] = b"module m; Q helper(Hidden);";

/// An entry of a test.
#[derive(Clone, Copy)]
struct Row {
    kind: DeclKind,
    name: &'static [u8],
    owner: &'static [u8],
}

/// A source of a test, for the unit of this number, and how it is refused.
#[derive(Clone, Copy)]
struct Refused {
    number: u32,
    source: &'static [u8],
    line: u32,
    reason: SourceReason,
}

const M_EXPORTS: [Row; 2] = [
    Row {
        kind: Function,
        name: b"make",
        owner: b"m",
    },
    Row {
        kind: Struct,
        name: b"P",
        owner: b"m",
    },
];

const M_VIEW: [Row; 5] = [
    Row {
        kind: Function,
        name: b"make",
        owner: b"m",
    },
    Row {
        kind: Struct,
        name: b"P",
        owner: b"m",
    },
    Row {
        kind: Struct,
        name: b"Hidden",
        owner: b"m",
    },
    Row {
        kind: Struct,
        name: b"Q",
        owner: b"m",
    },
    Row {
        kind: Struct,
        name: b"H",
        owner: b"./h.h",
    },
];

const N_LISTS: [Row; 3] = [
    Row {
        kind: Alias,
        name: b"N",
        owner: b"n",
    },
    Row {
        kind: Function,
        name: b"make",
        owner: b"m",
    },
    Row {
        kind: Struct,
        name: b"P",
        owner: b"m",
    },
];

const MI_VIEW: [Row; 6] = [
    Row {
        kind: Function,
        name: b"helper",
        owner: b"m",
    },
    Row {
        kind: Function,
        name: b"make",
        owner: b"m",
    },
    Row {
        kind: Struct,
        name: b"P",
        owner: b"m",
    },
    Row {
        kind: Struct,
        name: b"Hidden",
        owner: b"m",
    },
    Row {
        kind: Struct,
        name: b"Q",
        owner: b"m",
    },
    Row {
        kind: Struct,
        name: b"H",
        owner: b"./h.h",
    },
];

/// Whether the list has these entries.
fn has_rows(list: &List<Listed>, rows: &[Row]) -> bool {
    if list.len() as usize != rows.len() {
        return false;
    }
    for k in 0..list.len() {
        let entry = list.get(k);
        let row = rows[k as usize];
        if entry.kind != row.kind
            || entry.name.octets() != row.name
            || entry.owner.octets() != row.owner
        {
            return false;
        }
    }
    true
}

/// The unit of this number, made of a source.
fn unit_of(
    alloc: Global,
    project: &Project,
    number: u32,
    source: &[u8],
) -> Result<Unit, SourceError> {
    if number >= project.unit_count() || source.len() > 1000 {
        return Err(SourceError::Memory);
    }
    unit_for(alloc, project, number, source)
}

/// The interface of the unit of this number, made of a source, over interfaces of its imports.
fn compiled(
    alloc: Global,
    project: &Project,
    number: u32,
    source: &[u8],
    cmis: &[Cmi],
) -> Result<Cmi, SourceError> {
    let unit = unit_of(alloc, project, number, source)?;
    if number >= project.unit_count() || unit.imports.len() as usize != cmis.len() {
        return Err(SourceError::Memory);
    }
    compile_unit(alloc, &unit, project.name(number), cmis)
}

/// Whether what a unit sees has these entries.
fn sees(
    alloc: Global,
    project: &Project,
    number: u32,
    source: &[u8],
    owner: &[u8],
    cmis: &[Cmi],
    rows: &[Row],
) -> bool {
    let Ok(unit) = unit_of(alloc, project, number, source) else {
        return false;
    };
    if unit.imports.len() as usize != cmis.len() {
        return false;
    }
    match view_of(alloc, &unit, owner, cmis) {
        Ok(list) => has_rows(&list, rows),
        Err(_) => false,
    }
}

/// Whether an interface is of this unit, is one or not, and has these exports.
fn exports(cmi: &Cmi, unit: &[u8], interface: bool, rows: &[Row]) -> bool {
    cmi.unit.octets() == unit && cmi.interface == interface && has_rows(&cmi.exports, rows)
}

/// The project of these tests.
fn project(alloc: Global) -> Option<Project> {
    Project::read(alloc, PROJECT).ok()
}

/// The interfaces of the partitions and of the header unit.
fn parts(alloc: Global, project: &Project) -> Option<Vec<Cmi>> {
    let mut cmis = Vec::new(alloc);
    cmis.push(compiled(alloc, project, 1, P, &[]).ok()?).ok()?;
    cmis.push(compiled(alloc, project, 2, Q, &[]).ok()?).ok()?;
    cmis.push(compiled(alloc, project, 3, H, &[]).ok()?).ok()?;
    Some(cmis)
}

/// The interface of the module.
fn module(alloc: Global, project: &Project) -> Option<Vec<Cmi>> {
    let below = parts(alloc, project)?;
    let mut cmis = Vec::new(alloc);
    cmis.push(compiled(alloc, project, 0, M, &below).ok()?)
        .ok()?;
    Some(cmis)
}

/// Whether the only interface has these exports and this view.
fn has_lists(cmis: &[Cmi], unit: &[u8], rows: &[Row], view: &[Row]) -> bool {
    match cmis {
        [cmi] => exports(cmi, unit, true, rows) && has_rows(&cmi.view, view),
        _ => false,
    }
}

/// Whether the interfaces of the partitions and of the header unit are right.
fn parts_are_right(alloc: Global) -> Option<bool> {
    let project = project(alloc)?;
    let cmis = parts(alloc, &project)?;
    match cmis.as_slice() {
        [p, q, h] => Some(
            exports(
                p,
                b"m:p",
                true,
                &[Row {
                    kind: Struct,
                    name: b"P",
                    owner: b"m",
                }],
            ) && exports(q, b"m:q", false, &[])
                && exports(
                    h,
                    b"./h.h",
                    true,
                    &[Row {
                        kind: Struct,
                        name: b"H",
                        owner: b"./h.h",
                    }],
                ),
        ),
        _ => None,
    }
}

/// Whether the interface of the module is right.
fn module_is_right(alloc: Global) -> Option<bool> {
    let project = project(alloc)?;
    let cmis = module(alloc, &project)?;
    Some(has_lists(&cmis, b"m", &M_EXPORTS, &M_VIEW))
}

/// Whether a unit above the module sees these entries.
fn above_sees(
    alloc: Global,
    number: u32,
    source: &[u8],
    owner: &[u8],
    rows: &[Row],
) -> Option<bool> {
    let project = project(alloc)?;
    let cmis = module(alloc, &project)?;
    Some(sees(alloc, &project, number, source, owner, &cmis, rows))
}

/// Whether the interface of the module above is right.
fn above_is_right(alloc: Global) -> Option<bool> {
    let project = project(alloc)?;
    let below = module(alloc, &project)?;
    let mut cmis = Vec::new(alloc);
    cmis.push(compiled(alloc, &project, 4, N, &below).ok()?)
        .ok()?;
    Some(has_lists(&cmis, b"n", &N_LISTS, &N_LISTS))
}

/// The text of the interface of the first partition.
const P_TEXT: &[u8] = b"modmap-cmi 1
unit 'm:p' interface
export struct P m
inner struct P m
inner struct Hidden m
end
";

/// The text of the interface of the second partition.
const Q_TEXT: &[u8] = b"modmap-cmi 1
unit 'm:q' implementation
inner struct Q m
end
";

/// Whether the interface of a unit without imports has this text.
fn writes(alloc: Global, number: u32, source: &[u8], text: &[u8]) -> Option<bool> {
    let project = project(alloc)?;
    let cmi = compiled(alloc, &project, number, source, &[]).ok()?;
    let written = cmi.write(alloc).ok()?;
    Some(written.octets() == text)
}

/// The project file of a generated project of three units.
const GENERATED: &[u8] = b"modmap-project 1
repo d/cache
module g0 d/u0.cc
module g1 d/u1.cc
module g2 d/u2.cc
end
";

/// The sources of its first and its last unit.
const FIRST: &[u8] = b"export module g0;
export struct S0;
export S0 f0();
";

const LAST: &[u8] = b"export module g2;
import g0;
export import g1;
export struct S2;
export S2 f2(S0, S1);
";

/// Whether the project that begins with the seed 7 is generated.
fn generates(alloc: Global) -> bool {
    let Ok(made) = generate(alloc, b"d", 3, 7) else {
        return false;
    };
    if made.sources.len() != 3 {
        return false;
    }
    made.project.octets() == GENERATED
        && made.sources.get(0).octets() == FIRST
        && made.sources.get(2).octets() == LAST
}

/// Whether a unit over interfaces is refused on this line, for this reason.
fn is_refused(made: Result<Cmi, SourceError>, line: u32, reason: SourceReason) -> bool {
    match made {
        Err(
            SourceError::Text {
                line: told,
                reason: why,
            },
        ) => told == line && why == reason,
        _ => false,
    }
}

/// Whether a source without imports is refused so.
fn refuses_source(alloc: Global, refused: Refused) -> bool {
    match project(alloc) {
        Some(project) => is_refused(
            compiled(alloc, &project, refused.number, refused.source, &[]),
            refused.line,
            refused.reason,
        ),
        None => false,
    }
}

/// Whether a source over the interface of the second partition is refused so.
fn refuses_over(alloc: Global, refused: Refused) -> Option<bool> {
    let project = project(alloc)?;
    let q = compiled(alloc, &project, 2, Q, &[]).ok()?;
    let mut cmis = Vec::new(alloc);
    cmis.push(q).ok()?;
    let made = compiled(alloc, &project, refused.number, refused.source, &cmis);
    Some(is_refused(made, refused.line, refused.reason))
}

#[test]
fn lists_of_the_worked_project(rt: HostRuntime) {
    assert!(rt; parts_are_right(rt.alloc()) == Some(true));
    assert!(rt; module_is_right(rt.alloc()) == Some(true));
    assert!(rt; above_is_right(rt.alloc()) == Some(true));
    assert!(rt; above_sees(rt.alloc(), 4, N, b"n", &N_LISTS) == Some(true));
    assert!(rt; above_sees(rt.alloc(), 5, MI, b"m", &MI_VIEW) == Some(true));
}

#[test]
fn texts_of_interfaces(rt: HostRuntime) {
    assert!(rt; writes(rt.alloc(), 1, P, P_TEXT) == Some(true));
    assert!(rt; writes(rt.alloc(), 2, Q, Q_TEXT) == Some(true));
}

#[test]
fn a_generated_project(rt: HostRuntime) {
    assert!(rt; generates(rt.alloc()));
}

/// Sources that differ from the project, or are at fault before that.
const AGAINST: [Refused; 10] = [
    Refused {
        number: 0,
        source: b"export module n;",
        line: 1,
        reason: SourceReason::UnitDiffers,
    },
    Refused {
        number: 0,
        source: b"\nmodule m;",
        line: 2,
        reason: SourceReason::UnitDiffers,
    },
    Refused {
        number: 0,
        source: b"",
        line: 1,
        reason: SourceReason::UnitDiffers,
    },
    Refused {
        number: 1,
        source: b"export module m;",
        line: 1,
        reason: SourceReason::UnitDiffers,
    },
    Refused {
        number: 2,
        source: b"module m:q; int",
        line: 1,
        reason: SourceReason::Syntax,
    },
    Refused {
        number: 3,
        source: b"\nexport module h;",
        line: 2,
        reason: SourceReason::UnitDiffers,
    },
    Refused {
        number: 3,
        source: b"\nimport a;\nimport b;",
        line: 2,
        reason: SourceReason::ImportInHeader,
    },
    Refused {
        number: 3,
        source: b"\nmodule h;\nimport a;",
        line: 2,
        reason: SourceReason::UnitDiffers,
    },
    Refused {
        number: 5,
        source: b"export module m;",
        line: 1,
        reason: SourceReason::UnitDiffers,
    },
    Refused {
        number: 5,
        source: b"int",
        line: 1,
        reason: SourceReason::Syntax,
    },
];

/// Units without imports that use unknown types.
const ALONE: [Refused; 3] = [
    Refused {
        number: 5,
        source: b"int x; T y;",
        line: 1,
        reason: SourceReason::UnknownType,
    },
    Refused {
        number: 5,
        source: b"struct T;\nvoid f(T, U);\nV v;",
        line: 2,
        reason: SourceReason::UnknownType,
    },
    Refused {
        number: 5,
        source: b"int T;\nT y;",
        line: 2,
        reason: SourceReason::UnknownType,
    },
];

/// Units over the second partition.
const OVER: [Refused; 2] = [
    Refused {
        number: 0,
        source: b"export module m;\nexport import :q;\nT y;",
        line: 2,
        reason: SourceReason::ExportedImplementation,
    },
    Refused {
        number: 0,
        source: b"export module m;\nimport :q;\nP y;",
        line: 3,
        reason: SourceReason::UnknownType,
    },
];

#[test]
fn sources_against_the_project(rt: HostRuntime) {
    for refused in AGAINST {
        assert!(rt; refuses_source(rt.alloc(), refused), "{:?}", refused.source);
    }
}

#[test]
fn units_without_imports(rt: HostRuntime) {
    for refused in ALONE {
        assert!(rt; refuses_source(rt.alloc(), refused), "{:?}", refused.source);
    }
}

#[test]
fn units_over_their_imports(rt: HostRuntime) {
    for refused in OVER {
        assert!(rt;
            refuses_over(rt.alloc(), refused) == Some(true),
            "{:?}",
            refused.source
        );
    }
}
