//! The outcomes of whole projects, and the reports on them.

ghost use Rattle.std.specs.Prelude.{◌≡◌, length, nat_le, IfSome};
ghost use Rattle.std.specs.List.{list_all};
ghost use Rattle.unit_registry.specs.Projects.{unit_count};

use super::*;
use crate::slots::built_count;
use mm_outside::{List, Text};
use module_lexer::SourceReason;
use module_units::DeclKind::Struct;
use std::alloc::Global;
use std::test::*;
use unit_registry::Project;

/// A project with a module in parts, a header unit, modules above it, a plain unit and a ring of two.
const WORKED: &[u8] = b"modmap-project 1
repo gcm.cache
module m m.cc
module m:p p.cc
module m:q q.cc
header ./h.h h.h
module n n.cc
module o o.cc
plain mi.cc
module r r.cc
module s s.cc
end
";

const WORKED_SOURCES: [&[u8]; 9] = [
    b"export module m; export import :p; import :q; import \"./h.h\"; export P make(H);",
    b"export module m:p; export struct P; struct Hidden;",
    b"module m:q; struct Q;",
    b"struct H;",
    b"export module n; export import m; export using N = P;",
    b"export module o; export import n; export N f(P*);",
    b"module m; Q helper(Hidden);",
    b"export module r; import s;",
    b"export module s; import r; import m;",
];

const WORKED_REPORT: &[u8] = b"ok m.cc 2
name function make m
name struct P m
ok p.cc 1
name struct P m
ok q.cc 0
ok h.h 1
name struct H ./h.h
ok n.cc 3
name alias N n
name function make m
name struct P m
ok o.cc 4
name function f o
name alias N n
name function make m
name struct P m
ok mi.cc 0
failed r.cc import s
failed s.cc import r
";

/// A project of three modules and a plain unit.
const ABC: &[u8] = b"modmap-project 1
repo gcm.cache
module a a.cc
module b b.cc
module c c.cc
plain e.cc
end
";

/// The same, where the second module was built before.
const ABC_BUILT: &[u8] = b"modmap-project 1
repo gcm.cache
module a a.cc
built module b b.cc
module c c.cc
plain e.cc
end
";

/// Sources of a project of four units, and the report on it.
#[derive(Clone, Copy)]
struct Row {
    /// The sources, in the order of the project.
    sources: [&'static [u8]; 4],
    /// The report.
    report: &'static [u8],
}

/// Imports of units that stand behind, of units that failed, and of units that aren't declared.
const IMPORTS: [Row; 4] = [
    Row {
        sources: [
            b"export module a; export import b;",
            b"export module b; export import c;",
            b"export module c; export struct S;",
            b"import a; S x;",
        ],
        report: b"ok a.cc 1
name struct S c
ok b.cc 1
name struct S c
ok c.cc 1
name struct S c
ok e.cc 0
",
    },
    Row {
        sources: [
            b"export module a; import z; import y;",
            b"export module b; import :p;",
            b"export module c; import b;",
            b"int x; T y;",
        ],
        report: b"failed a.cc import z
failed b.cc import 'b:p'
failed c.cc import b
failed e.cc line 1 'unknown type'
",
    },
    Row {
        sources: [
            b"export module a; export struct A; export A f(A);",
            b"export module b; import a; export A g();",
            b"export module c; import b;\nexport A h();",
            b"import a;\nimport b;\n\nB x;",
        ],
        report: b"ok a.cc 2
name struct A a
name function f a
ok b.cc 1
name function g b
failed c.cc line 2 'unknown type'
failed e.cc line 4 'unknown type'
",
    },
    Row {
        sources: [
            b"export module a; export struct A; export class A2; export int n;",
            b"export module b; export import a; import c; export import a;",
            b"export module c; export import a; export using C = A;",
            b"import c; import b; C f(A, A2*);",
        ],
        report: b"ok a.cc 3
name struct A a
name class A2 a
name variable n a
ok b.cc 3
name struct A a
name class A2 a
name variable n a
ok c.cc 4
name alias C c
name struct A a
name class A2 a
name variable n a
ok e.cc 0
",
    },
];

/// Imports that lead round in a ring of one, two and three units.
const RINGS: [Row; 3] = [
    Row {
        sources: [
            b"export module a; import a;",
            b"export module b;",
            b"export module c;",
            b"import b; import a; import z;",
        ],
        report: b"failed a.cc import a
ok b.cc 0
ok c.cc 0
failed e.cc import a
",
    },
    Row {
        sources: [
            b"export module a; import b;",
            b"export module b; import a;",
            b"export module c;",
            b"",
        ],
        report: b"failed a.cc import b
failed b.cc import a
ok c.cc 0
ok e.cc 0
",
    },
    Row {
        sources: [
            b"export module a; import b;",
            b"export module b; import c;",
            b"export module c; import a;",
            b"import c;",
        ],
        report: b"failed a.cc import b
failed b.cc import c
failed c.cc import a
failed e.cc import c
",
    },
];

/// Faults of sources, before those of their imports, and those before unknown types.
const FAULTS: [Row; 2] = [
    Row {
        sources: [
            b"export module a;",
            b"\nexport module a;",
            b"export module c; struct S;",
            b"int",
        ],
        report: b"ok a.cc 0
failed b.cc line 2 'unit differs from project'
ok c.cc 0
failed e.cc line 1 syntax
",
    },
    Row {
        sources: [
            b"export module a; import z; int x, y;",
            b"export module b; import z;\nint x; struct x;",
            b"export module c; import z; T x;",
            b"import z;\n\n\"",
        ],
        report: b"failed a.cc line 1 syntax
failed b.cc line 2 'duplicate name'
failed c.cc import z
failed e.cc line 3 'unclosed string'
",
    },
];

/// A project with a module in two parts and a module above it.
const PARTS: &[u8] = b"modmap-project 1
repo gcm.cache
module n n.cc
module m m.cc
module m:q q.cc
module m:p p.cc
end
";

/// An exported partition that is no interface, names that stay in their module, a ring of a module and its
/// partition, and an import of another module's partition.
const IN_PARTS: [Row; 4] = [
    Row {
        sources: [
            b"export module n; import m;",
            b"export module m;\nexport import :q;",
            b"module m:q;",
            b"export module m:p; import m;",
        ],
        report: b"failed n.cc import m
failed m.cc line 2 'exported implementation unit'
ok q.cc 0
failed p.cc import m
",
    },
    Row {
        sources: [
            b"export module n; import m; Q f();",
            b"export module m; import :p; Q f(I); export P g();",
            b"module m:q; struct Q; struct R;",
            b"export module m:p; import :q; export struct P; struct I; R f();",
        ],
        report: b"failed n.cc line 1 'unknown type'
ok m.cc 1
name function g m
ok q.cc 0
ok p.cc 1
name struct P m
",
    },
    Row {
        sources: [
            b"export module n; import m;",
            b"export module m; import :q; import :p;",
            b"module m:q;",
            b"export module m:p; import m;",
        ],
        report: b"failed n.cc import m
failed m.cc import 'm:p'
ok q.cc 0
failed p.cc import m
",
    },
    Row {
        sources: [
            b"export module n; import m; import :q;",
            b"export module m; export import :p;",
            b"module m:q; import m; P f();",
            b"export module m:p; export using P = int;",
        ],
        report: b"failed n.cc import 'n:q'
ok m.cc 1
name alias P m
ok q.cc 0
ok p.cc 1
name alias P m
",
    },
];

/// The texts of these sources.
fn texts(alloc: Global, sources: &[&[u8]]) -> Option<Vec<Text>> {
    let mut texts = Vec::new(alloc);
    for source in sources {
        texts.push(Text::of(alloc, source).ok()?).ok()?;
    }
    Some(texts)
}

/// Whether each of the texts is short enough for a source.
fn are_short(texts: &[Text]) -> bool
    ensures { result ≡ list_all (λ text. nat_le (length text) 2147483648) texts.now }
{
    texts
        .iter()
        .all(|text| text.octets().len() <= 2_147_483_648)
}

/// The listing of a project with these sources.
fn listed(alloc: Global, project: &Project, sources: &[&[u8]], built: &[Cmi]) -> Option<Listing>
    ensures { IfSome result (λ listing. length listing ≡ unit_count project.now) }
{
    let texts = texts(alloc, sources)?;
    if texts.len() != project.unit_count() as usize {
        return None;
    }
    if !are_short(&texts) {
        return None;
    }
    if built.len() != built_count(project) as usize {
        return None;
    }
    match list_project(alloc, project, &texts, built) {
        Ok(listing) => Some(listing),
        Err(_) => None,
    }
}

/// Whether the report on a project is this text.
fn reports(
    alloc: Global,
    project: &Project,
    sources: &[&[u8]],
    built: &[Cmi],
    report: &[u8],
) -> Option<bool> {
    let listing = listed(alloc, project, sources, built)?;
    let text = listing.write(alloc, project).ok()?;
    Some(text.octets() == report)
}

/// Whether the report on a project of which no unit was built before is this text.
fn reports_of(alloc: Global, project: &[u8], sources: &[&[u8]], report: &[u8]) -> Option<bool> {
    if project.len() > 1000 {
        return None;
    }
    let project = Project::read(alloc, project).ok()?;
    reports(alloc, &project, sources, &[], report)
}

/// The report of the first row that isn't the one on its sources, if there is one.
fn first_wrong(alloc: Global, project: &[u8], rows: &[Row]) -> Option<&'static [u8]> {
    for row in rows {
        if reports_of(alloc, project, &row.sources, row.report) != Some(true) {
            return Some(row.report);
        }
    }
    None
}

/// The interface of a module with one struct, which was built before.
fn built_before(alloc: Global) -> Option<Vec<Cmi>> {
    let mut exports = List::new(alloc);
    let name = Text::of(alloc, b"T").ok()?;
    let owner = Text::of(alloc, b"b").ok()?;
    exports
        .push(Listed {
            kind: Struct,
            name,
            owner,
        })
        .ok()?;
    let mut cmis = Vec::new(alloc);
    cmis.push(Cmi {
        unit: Text::of(alloc, b"b").ok()?,
        interface: true,
        exports,
        view: List::new(alloc),
    })
    .ok()?;
    Some(cmis)
}

/// Whether a unit above one that was built before sees what that exports.
fn reports_over_built(alloc: Global, sources: &[&[u8]], report: &[u8]) -> Option<bool> {
    let project = Project::read(alloc, ABC_BUILT).ok()?;
    let built = built_before(alloc)?;
    reports(alloc, &project, sources, &built, report)
}

/// Whether the outcome of a unit is a fault of its source on this line, for this reason.
fn fails(
    alloc: Global,
    sources: &[&[u8]],
    unit: u32,
    line: u32,
    reason: SourceReason,
) -> Option<bool> {
    let project = Project::read(alloc, ABC).ok()?;
    if unit >= project.unit_count() {
        return None;
    }
    let listing = listed(alloc, &project, sources, &[])?;
    Some(match listing.outcome(unit) {
        Outcome::Failed(
            Verdict::Source {
                line: told,
                reason: why,
            },
        ) => *told == line && *why == reason,
        _ => false,
    })
}

#[test]
fn the_report_on_the_worked_project(rt: HostRuntime) {
    assert!(rt; reports_of(rt.alloc(), WORKED, &WORKED_SOURCES, WORKED_REPORT) == Some(true));
}

#[test]
fn units_above_and_below(rt: HostRuntime) {
    assert_eq!(rt; first_wrong(rt.alloc(), ABC, &IMPORTS), None);
    assert_eq!(rt; first_wrong(rt.alloc(), ABC, &RINGS), None);
    assert_eq!(rt; first_wrong(rt.alloc(), ABC, &FAULTS), None);
}

#[test]
fn units_of_a_module_in_parts(rt: HostRuntime) {
    assert_eq!(rt; first_wrong(rt.alloc(), PARTS, &IN_PARTS), None);
}

#[test]
fn a_unit_that_was_built_before(rt: HostRuntime) {
    let sources: [&[u8]; 4] = [
        b"export module a; export import b; T f();",
        b"@",
        b"export module c; import b;",
        b"import a; T x;",
    ];
    let report =
        b"ok a.cc 1\nname struct T b\nbuilt b.cc 1\nname struct T b\nok c.cc 0\nok e.cc 0\n";
    assert!(rt; reports_over_built(rt.alloc(), &sources, report) == Some(true));
}

#[test]
fn the_outcome_of_a_unit(rt: HostRuntime) {
    let sources: [&[u8]; 4] = [
        b"export module a;\n\nT f();",
        b"export module a;",
        b"export module c;",
        b"",
    ];
    assert!(rt; fails(rt.alloc(), &sources, 0, 3, SourceReason::UnknownType) == Some(true));
    assert!(rt; fails(rt.alloc(), &sources, 1, 1, SourceReason::UnitDiffers) == Some(true));
    assert!(rt; fails(rt.alloc(), &sources, 2, 1, SourceReason::UnitDiffers) == Some(false));
}
