//! Worked examples of reports on the units of projects, by tables of files and outputs.

use crate::alone::run_alone;
use crate::trace_tests::words_of;
use cody_words::{LineBuf, write_number};
use mm_outside::{Files, MemFiles, MemLink, MemSink, Text};
use std::alloc::Global;
use std::test::Fail;

/// A file, by its name and its text.
type Named<'a> = (&'a [u8], &'a [u8]);

/// A project with a module in parts, a header unit, modules above it, a plain unit and a ring of two.
const WORKED: [Named<'static>; 10] = [
    (
        b"p",
        b"modmap-project 1
repo gcm.cache
module m m.cc
module m:p p.cc
module m:q q.cc
header ./h.h h.h
module n n.cc
module o o.cc
plain mi.cc
module r r.cc
module s s.cc
end
",
    ),
    (
        b"m.cc",
        b"export module m; export import :p; import :q; import \"./h.h\"; export P make(H);",
    ),
    (
        b"p.cc",
        b"export module m:p; export struct P; struct Hidden;",
    ),
    (b"q.cc", b"module m:q; struct Q;"),
    (b"h.h", b"struct H;"),
    (
        b"n.cc",
        b"export module n; export import m; export using N = P;",
    ),
    (
        b"o.cc",
        b"export module o; export import n; export N f(P*);",
    ),
    (b"mi.cc", b"module m; Q helper(Hidden);"),
    (b"r.cc", b"export module r; import s;"),
    (b"s.cc", b"export module s; import r; import m;"),
];

const WORKED_REPORT: &[u8] = b"ok m.cc 2
name function make m
name struct P m
ok p.cc 1
name struct P m
ok q.cc 0
ok h.h 1
name struct H ./h.h
ok n.cc 3
name alias N n
name function make m
name struct P m
ok o.cc 4
name function f o
name alias N n
name function make m
name struct P m
ok mi.cc 0
failed r.cc import s
failed s.cc import r
";

/// What is said where the read of this number fails: the project file is read first, and then the sources in its order.
const WORKED_FAULTS: [&[u8]; 10] = [
    b"modmap: cannot read p\n",
    b"modmap: cannot read m.cc\n",
    b"modmap: cannot read p.cc\n",
    b"modmap: cannot read q.cc\n",
    b"modmap: cannot read h.h\n",
    b"modmap: cannot read n.cc\n",
    b"modmap: cannot read o.cc\n",
    b"modmap: cannot read mi.cc\n",
    b"modmap: cannot read r.cc\n",
    b"modmap: cannot read s.cc\n",
];

/// A project of one plain unit.
const PLAIN: &[u8] = b"modmap-project 1\nrepo r\nplain e.cc\nend\n";

/// The text of one file, and what a report over it comes to.
#[derive(Drop)]
struct Case {
    text: &'static [u8],
    status: u8,
    output: &'static [u8],
}

/// Sources of the plain unit, and the reports on it. The name of a partition is spelled out nowhere.
const PLAINS: [Case; 4] = [
    Case {
        text: b"int x; T y;",
        status: 1,
        output: b"failed e.cc line 1 'unknown type'\n",
    },
    Case {
        text: b"int",
        status: 1,
        output: b"failed e.cc line 1 syntax\n",
    },
    Case {
        text: b"",
        status: 0,
        output: b"ok e.cc 0\n",
    },
    Case {
        text: b"import m;\nimport m:p;",
        status: 1,
        output: b"failed e.cc line 2 syntax\n",
    },
];

/// A project of a module that was built before and a module above it.
const BUILT: &[u8] = b"modmap-project 1\nrepo gcm.cache\nbuilt module b b.cc\nmodule c c.cc\nend\n";

/// The source of the module above.
const ABOVE: &[u8] = b"export module c; import b; T f();";

/// Texts in the file of the interface of the unit that was built before, the status and what is printed: its own
/// interface; another unit's; a text at fault at each of the lines; and another unit's that is at fault on a later
/// line.
const CMIS: [Case; 10] = [
    Case {
        text: b"modmap-cmi 1\nunit b interface\nexport struct T b\ninner struct T b\nend\n",
        status: 0,
        output: b"built b.cc 1\nname struct T b\nok c.cc 0\n",
    },
    Case {
        text: b"modmap-cmi 1\nunit a interface\nexport struct A a\ninner struct A a\nend\n",
        status: 6,
        output: b"modmap: gcm.cache/b.gcm:2: unit differs from project\n",
    },
    Case {
        text: b"modmap-cmi 2\nunit b interface\nexport struct T b\ninner struct T b\nend\n",
        status: 6,
        output: b"modmap: gcm.cache/b.gcm:1: not a cmi\n",
    },
    Case {
        text: b"modmap-cmi 1\nunit 9 interface\nexport struct T b\ninner struct T b\nend\n",
        status: 6,
        output: b"modmap: gcm.cache/b.gcm:2: not a cmi\n",
    },
    Case {
        text: b"modmap-cmi 1\nunit b interface\nexport struct T\ninner struct T b\nend\n",
        status: 6,
        output: b"modmap: gcm.cache/b.gcm:3: not a cmi\n",
    },
    Case {
        text: b"modmap-cmi 1\nunit b interface\nexport struct T b\ninner type T b\nend\n",
        status: 6,
        output: b"modmap: gcm.cache/b.gcm:4: not a cmi\n",
    },
    Case {
        text: b"modmap-cmi 1\nunit b interface\nexport struct T b\ninner struct T b\n",
        status: 6,
        output: b"modmap: gcm.cache/b.gcm:5: not a cmi\n",
    },
    Case {
        text: b"modmap-cmi 1\nunit b interface\nexport struct T b\ninner struct T b\nend\nend\n",
        status: 6,
        output: b"modmap: gcm.cache/b.gcm:6: not a cmi\n",
    },
    Case {
        text: b"modmap-cmi 1\nunit a interface\nexport struct A a\ninner type A a\nend\n",
        status: 6,
        output: b"modmap: gcm.cache/b.gcm:4: not a cmi\n",
    },
    Case {
        text: b"modmap-cmi 1\nunit a interface\nexport struct A a\ninner struct A a\nend\nend\n",
        status: 6,
        output: b"modmap: gcm.cache/b.gcm:6: not a cmi\n",
    },
];

/// A project of a partition and a header unit that were built before and a module above them, with the files of their
/// interfaces under the repository.
const BUILT_PARTS: [Named<'static>; 4] = [
    (
        b"p",
        b"modmap-project 1
repo gcm.cache
built module m:p p.cc
built header ./h.h h.h
module m m.cc
end
",
    ),
    (
        b"gcm.cache/m-p.gcm",
        b"modmap-cmi 1
unit 'm:p' interface
export struct P m
inner struct P m
inner struct Hidden m
end
",
    ),
    (
        b"gcm.cache/,/h.h.gcm",
        b"modmap-cmi 1
unit ./h.h interface
export struct H ./h.h
inner struct H ./h.h
end
",
    ),
    (
        b"m.cc",
        b"export module m; export import :p; import \"./h.h\"; export P make(H, Hidden);",
    ),
];

const BUILT_PARTS_REPORT: &[u8] = b"built p.cc 1
name struct P m
built h.h 1
name struct H ./h.h
ok m.cc 2
name function make m
name struct P m
";

/// What is said where the read of this number fails.
const BUILT_PARTS_FAULTS: [&[u8]; 4] = [
    b"modmap: cannot read p\n",
    b"modmap: cannot read gcm.cache/m-p.gcm\n",
    b"modmap: cannot read 'gcm.cache/,/h.h.gcm'\n",
    b"modmap: cannot read m.cc\n",
];

/// A project of three modules and a plain unit.
const ABC: &[u8] = b"modmap-project 1
repo gcm.cache
module a a.cc
module b b.cc
module c c.cc
plain e.cc
end
";

/// The idents of its units.
const ABC_IDENTS: [&[u8]; 4] = [b"a.cc", b"b.cc", b"c.cc", b"e.cc"];

/// A project with a module in two parts and a module above it.
const PARTS: &[u8] = b"modmap-project 1
repo gcm.cache
module n n.cc
module m m.cc
module m:q q.cc
module m:p p.cc
end
";

/// The idents of its units.
const PARTS_IDENTS: [&[u8]; 4] = [b"n.cc", b"m.cc", b"q.cc", b"p.cc"];

/// A project of four units, their idents and sources, and the report on them.
#[derive(Drop)]
struct Units {
    project: &'static [u8],
    idents: [&'static [u8]; 4],
    sources: [&'static [u8]; 4],
    report: &'static [u8],
}

/// Rings of one, of two and of three, with a unit above each; imports that no unit is declared for; a partition of
/// another module; a partition without an interface that is exported; and a partition whose whole name is spelled out
/// in another module.
const FAILURES: [Units; 6] = [
    Units {
        project: ABC,
        idents: ABC_IDENTS,
        sources: [
            b"export module a; import a;",
            b"export module b;",
            b"export module c;",
            b"import b; import a; import z;",
        ],
        report: b"failed a.cc import a\nok b.cc 0\nok c.cc 0\nfailed e.cc import a\n",
    },
    Units {
        project: ABC,
        idents: ABC_IDENTS,
        sources: [
            b"export module a; import b;",
            b"export module b; import a;",
            b"export module c; import z;",
            b"",
        ],
        report: b"failed a.cc import b\nfailed b.cc import a\nfailed c.cc import z\nok e.cc 0\n",
    },
    Units {
        project: ABC,
        idents: ABC_IDENTS,
        sources: [
            b"export module a; import b;",
            b"export module b; import c;",
            b"export module c; import a;",
            b"import c;",
        ],
        report: b"failed a.cc import b\nfailed b.cc import c\nfailed c.cc import a\nfailed e.cc import c\n",
    },
    Units {
        project: PARTS,
        idents: PARTS_IDENTS,
        sources: [
            b"export module n; import m; import :p;",
            b"export module m; export import :p;",
            b"module m:q;",
            b"export module m:p; export class P;",
        ],
        report: b"failed n.cc import 'n:p'\nok m.cc 1\nname class P m\nok q.cc 0\nok p.cc 1\nname class P m\n",
    },
    Units {
        project: PARTS,
        idents: PARTS_IDENTS,
        sources: [
            b"export module n; import m;",
            b"export module m;\nexport import :q;",
            b"module m:q;",
            b"export module m:p; import m;",
        ],
        report: b"failed n.cc import m\nfailed m.cc line 2 'exported implementation unit'\nok q.cc 0\nfailed p.cc import m\n",
    },
    Units {
        project: PARTS,
        idents: PARTS_IDENTS,
        sources: [
            b"export module n;\nimport m:p;",
            b"export module m; export import :p;",
            b"module m:q;",
            b"export module m:p; export class P;",
        ],
        report: b"failed n.cc line 2 syntax\nok m.cc 1\nname class P m\nok q.cc 0\nok p.cc 1\nname class P m\n",
    },
];

/// Files of these names and texts, with so much room for them. The reads with these numbers fail.
fn files_of(
    alloc: Global,
    named: &[Named<'_>],
    room: u32,
    failing_reads: &[u64],
) -> Option<MemFiles> {
    let none: Vec<Text> = Vec::new(alloc);
    let mut files = MemFiles::new(alloc, &none, &none, 20, room, failing_reads, &[]).ok()?;
    for (name, text) in named {
        files.write_all(name, text).ok()?;
    }
    Some(files)
}

/// Whether a run over the files ends with the status and prints this much. The writes with these numbers fail.
fn ends_so(
    rt: &HostRuntime,
    words: &[&str],
    files: &mut MemFiles,
    failing_writes: &[u64],
    status: u8,
    output: &[u8],
) -> Option<bool> {
    let alloc = rt.alloc();
    let words = words_of(alloc, words)?;
    let mut link = MemLink::new(alloc, b"", 0, &[], &[], &[], &[]).ok()?;
    let mut out = MemSink::new(alloc, 2_000, failing_writes).ok()?;
    let ended = run_alone(rt, alloc, &words, files, &mut link, &mut out);
    Some(ended == status && out.written() == output)
}

/// Whether a report over the files ends with the status and prints this much. The reads with these numbers fail.
fn lists(
    rt: &HostRuntime,
    named: &[Named<'_>],
    failing_reads: &[u64],
    status: u8,
    output: &[u8],
) -> Option<bool> {
    let mut files = files_of(rt.alloc(), named, 4_000, failing_reads)?;
    ends_so(rt, &["list", "p"], &mut files, &[], status, output)
}

/// Whether the report on four units is as it is to be.
fn lists_units(rt: &HostRuntime, units: &Units) -> Option<bool> {
    let [first, second, third, last] = units.idents;
    let [one, two, three, four] = units.sources;
    let named: [Named<'_>; 5] = [
        (b"p", units.project),
        (first, one),
        (second, two),
        (third, three),
        (last, four),
    ];
    lists(rt, &named, &[], 1, units.report)
}

#[test]
fn the_worked_project(rt: HostRuntime) -> Result<(), Fail> {
    assert!(rt; lists(&rt, &WORKED, &[], 1, WORKED_REPORT) == Some(true));
    Ok(())
}

#[test]
fn plain_units(rt: HostRuntime) -> Result<(), Fail> {
    for case in &PLAINS {
        let named: [Named<'_>; 2] = [(b"p", PLAIN), (b"e.cc", case.text)];
        assert!(rt; lists(&rt, &named, &[], case.status, case.output) == Some(true));
    }
    Ok(())
}

#[test]
fn units_that_were_built_before(rt: HostRuntime) -> Result<(), Fail> {
    for case in &CMIS {
        let named: [Named<'_>; 3] = [
            (b"p", BUILT),
            (b"gcm.cache/b.gcm", case.text),
            (b"c.cc", ABOVE),
        ];
        assert!(rt; lists(&rt, &named, &[], case.status, case.output) == Some(true));
    }
    Ok(())
}

#[test]
fn parts_that_were_built_before(rt: HostRuntime) -> Result<(), Fail> {
    assert!(rt; lists(&rt, &BUILT_PARTS, &[], 0, BUILT_PARTS_REPORT) == Some(true));
    for (number, output) in BUILT_PARTS_FAULTS.iter().enumerate() {
        assert!(rt; lists(&rt, &BUILT_PARTS, &[number as u64], 4, output) == Some(true));
    }
    Ok(())
}

#[test]
fn units_that_fail(rt: HostRuntime) -> Result<(), Fail> {
    for units in &FAILURES {
        assert!(rt; lists_units(&rt, units) == Some(true));
    }
    Ok(())
}

#[test]
fn failing_reads(rt: HostRuntime) -> Result<(), Fail> {
    for (number, output) in WORKED_FAULTS.iter().enumerate() {
        assert!(rt; lists(&rt, &WORKED, &[number as u64], 4, output) == Some(true));
    }
    Ok(())
}

/// Whether the report on the worked project ends with status 5 and nothing of it is printed where the first write to
/// the sink fails, though the sink would take more after it.
fn is_not_begun(rt: &HostRuntime) -> Option<bool> {
    let mut files = files_of(rt.alloc(), &WORKED, 4_000, &[])?;
    ends_so(rt, &["list", "p"], &mut files, &[0], 5, b"")
}

#[test]
fn a_report_that_is_not_begun(rt: HostRuntime) {
    assert!(rt; is_not_begun(&rt) == Some(true));
}

/// Whether a run without files ends with the status and prints this much.
fn ends_without_files(
    rt: &HostRuntime,
    words: &[&str],
    failing_writes: &[u64],
    status: u8,
    output: &[u8],
) -> Option<bool> {
    let mut files = files_of(rt.alloc(), &[], 0, &[])?;
    ends_so(rt, words, &mut files, failing_writes, status, output)
}

#[test]
fn bad_words_and_no_file(rt: HostRuntime) -> Result<(), Fail> {
    let bad = ends_without_files(&rt, &["list", "x", "y"], &[], 2, b"modmap: bad words\n");
    assert!(rt; bad == Some(true));
    let few = ends_without_files(&rt, &["list"], &[], 2, b"modmap: bad words\n");
    assert!(rt; few == Some(true));
    let none = ends_without_files(&rt, &["list", "q"], &[], 4, b"modmap: cannot read q\n");
    assert!(rt; none == Some(true));
    let unsaid = ends_without_files(&rt, &["list", "q"], &[0], 4, b"");
    assert!(rt; unsaid == Some(true));
    Ok(())
}

#[test]
fn absent_files_of_units(rt: HostRuntime) -> Result<(), Fail> {
    let source = lists(&rt, &[(b"p", PLAIN)], &[], 4, b"modmap: cannot read e.cc\n");
    assert!(rt; source == Some(true));
    let built: [Named<'_>; 3] = [(b"p", BUILT), (b"b.cc", b""), (b"c.cc", ABOVE)];
    let interface = lists(
        &rt,
        &built,
        &[],
        4,
        b"modmap: cannot read gcm.cache/b.gcm\n",
    );
    assert!(rt; interface == Some(true));
    Ok(())
}

/// A source with so many structs.
fn structs(alloc: Global, count: u32) -> Option<Text> {
    let mut source = Text::new(alloc);
    for number in 0..count {
        let mut line = LineBuf::new(alloc, 40).ok()?;
        line.extend(b"struct S");
        write_number(number, &mut line);
        line.push(b';');
        source.extend(line.octets()).ok()?;
    }
    Some(source)
}

/// Whether the report on a plain unit with this source ends with the status and prints this much.
fn lists_plain(
    rt: &HostRuntime,
    source: &[u8],
    room: u32,
    status: u8,
    output: &[u8],
) -> Option<bool> {
    let mut files = files_of(rt.alloc(), &[(b"p", PLAIN), (b"e.cc", source)], room, &[])?;
    ends_so(rt, &["list", "p"], &mut files, &[], status, output)
}

/// Whether a plain unit with so many structs ends with the status and prints this much.
fn lists_structs(
    rt: &HostRuntime,
    count: u32,
    room: u32,
    status: u8,
    output: &[u8],
) -> Option<bool> {
    let source = structs(rt.alloc(), count)?;
    lists_plain(rt, source.octets(), room, status, output)
}

#[test]
fn most_names(rt: HostRuntime) -> Result<(), Fail> {
    let most = lists_structs(&rt, 65_536, 1_100_000, 0, b"ok e.cc 0\n");
    assert!(rt; most == Some(true));
    Ok(())
}

#[test]
fn too_many_names(rt: HostRuntime) -> Result<(), Fail> {
    let more = lists_structs(
        &rt,
        65_537,
        1_100_000,
        1,
        b"failed e.cc line 1 'too many names'\n",
    );
    assert!(rt; more == Some(true));
    Ok(())
}

/// Whether a plain unit with a source of so many spaces ends with the status and prints this much.
fn lists_spaces(
    rt: &HostRuntime,
    count: usize,
    room: u32,
    status: u8,
    output: &[u8],
) -> Option<bool> {
    let source = vec![in rt.alloc(); b' '; count].ok()?;
    lists_plain(rt, &source, room, status, output)
}

#[test]
fn longest_source(rt: HostRuntime) -> Result<(), Fail> {
    let longest = lists_spaces(&rt, 1_048_576, 1_100_000, 0, b"ok e.cc 0\n");
    assert!(rt; longest == Some(true));
    let longer = lists_spaces(
        &rt,
        1_048_577,
        1_100_000,
        6,
        b"modmap: e.cc: file too long\n",
    );
    assert!(rt; longer == Some(true));
    Ok(())
}
