use super::*;
use std::alloc::Global;
use std::test::*;

/// The most octets that a text of these tests may have.
const LONGEST_TEXT: usize = 100_000;

/// What a unit of a test is: its kind, module, partition and the line of its module declaration.
type Head = (UnitKind, &'static [u8], &'static [u8], u32);

/// An import of a test: whether it is exported, its name and its line.
type ImportRow = (bool, &'static [u8], u32);

/// A type use of a test: its name and its line.
type TypeRow = (&'static [u8], u32);

/// A declaration of a test: whether it is exported, its kind, its name, its line and its type uses.
type DeclRow = (bool, DeclKind, &'static [u8], u32, &'static [TypeRow]);

/// Texts, and the heads and imports of their units.
const HEADS: [(&[u8], Head, &[ImportRow]); 10] = [
    (b"", (UnitKind::Plain, b"", b"", 1), &[]),
    (b" \t\r\n// c", (UnitKind::Plain, b"", b"", 1), &[]),
    (
        b"module m;",
        (UnitKind::Implementation, b"m", b"", 1),
        &[(false, b"m", 1)],
    ),
    (
        b"export module m:p;\nimport :q;",
        (UnitKind::PartitionInterface, b"m", b"p", 1),
        &[(false, b"m:q", 2)],
    ),
    (
        b"\nexport\nmodule a.b;export\nimport c.d;",
        (UnitKind::Interface, b"a.b", b"", 2),
        &[(true, b"c.d", 3)],
    ),
    (
        b"module m:p.q;import :r.s;",
        (UnitKind::PartitionImplementation, b"m", b"p.q", 1),
        &[(false, b"m:r.s", 1)],
    ),
    (
        b"import \"./x.h\";\nimport a;import a;/* c */",
        (UnitKind::Plain, b"", b"", 1),
        &[(false, b"./x.h", 1), (false, b"a", 2), (false, b"a", 2)],
    ),
    (
        b"// c\nmodule m;\nimport :q;",
        (UnitKind::Implementation, b"m", b"", 2),
        &[(false, b"m", 2), (false, b"m:q", 3)],
    ),
    (
        b"\r\nmodule\tm\r.\tn\n;import\r\"/h h\x80\"\t;",
        (UnitKind::Implementation, b"m.n", b"", 2),
        &[(false, b"m.n", 2), (false, b"/h h\x80", 3)],
    ),
    (
        b"export module m;\n\nexport\nimport :q;",
        (UnitKind::Interface, b"m", b"", 1),
        &[(true, b"m:q", 3)],
    ),
];

/// Texts of interfaces, and their declarations.
const DECLS: [(&[u8], &[DeclRow]); 8] = [
    (
        b"export module m;struct A;\nexport class B;",
        &[
            (false, DeclKind::Struct, b"A", 1, &[]),
            (true, DeclKind::Class, b"B", 2, &[]),
        ],
    ),
    (
        b"export module m;export { using A = const B*; int\nv; }",
        &[
            (true, DeclKind::Alias, b"A", 1, &[(b"B", 1)]),
            (true, DeclKind::Variable, b"v", 2, &[]),
        ],
    ),
    (b"export module m;export { }", &[]),
    (
        b"export module m;A f();\nvoid g(const B&, C\n**, A, int);",
        &[
            (false, DeclKind::Function, b"f", 1, &[(b"A", 1)]),
            (
                false,
                DeclKind::Function,
                b"g",
                2,
                &[(b"B", 2), (b"C", 2), (b"A", 3)],
            ),
        ],
    ),
    (
        b"export module m;unsigned u; long l; bool b; char c;",
        &[
            (false, DeclKind::Variable, b"u", 1, &[]),
            (false, DeclKind::Variable, b"l", 1, &[]),
            (false, DeclKind::Variable, b"b", 1, &[]),
            (false, DeclKind::Variable, b"c", 1, &[]),
        ],
    ),
    (
        b"export module m;int m;int a;int ab;int A;",
        &[
            (false, DeclKind::Variable, b"m", 1, &[]),
            (false, DeclKind::Variable, b"a", 1, &[]),
            (false, DeclKind::Variable, b"ab", 1, &[]),
            (false, DeclKind::Variable, b"A", 1, &[]),
        ],
    ),
    (
        b"export module m;export\nA\nv;",
        &[(true, DeclKind::Variable, b"v", 3, &[(b"A", 2)])],
    ),
    (
        b"export module m;const A*&r;using T=A&;",
        &[
            (false, DeclKind::Variable, b"r", 1, &[(b"A", 1)]),
            (false, DeclKind::Alias, b"T", 1, &[(b"A", 1)]),
        ],
    ),
];

/// Texts whose first fault is one of syntax, and its line.
const OUTSIDE_THE_GRAMMAR: [(&[u8], u32); 38] = [
    (b"int", 1),
    (b"int // c\n\n", 3),
    (b"int a // c", 1),
    (b"\nimport \"./h\"", 2),
    (b"int a;\nimport m;", 2),
    (b"int a;export\nimport m;", 2),
    (b"export { }\nimport m;", 2),
    (b"import a;\nmodule m;", 2),
    (b"import a;export\nmodule m;", 2),
    (b"module m;\nmodule n;", 2),
    (b"export {\nexport int a; }", 2),
    (b"export {\nimport a; }", 2),
    (b"export { int a;\n", 2),
    (b"export {\n{ } }", 2),
    (b"export\nexport int a;", 2),
    (b"export\n;", 2),
    (b"\n}", 2),
    (b"int a;\n;", 2),
    (b"int a(int,);", 1),
    (b"int a(\nint b);", 2),
    (b"int a(int\n", 2),
    (b"int a\n, b;", 2),
    (b"int\n;", 2),
    (b"A\n= B;", 2),
    (b"unsigned\nlong a;", 2),
    (b"const\nconst int a;", 2),
    (b"int&\n* a;", 2),
    (b"int&\n& a;", 2),
    (b"struct A\n{ };", 2),
    (b"struct\nint;", 2),
    (b"using A\n;", 2),
    (b"using A =\n;", 2),
    (b"module m.\n;", 2),
    (b"module\n:p;", 2),
    (b"module m:p\n:q;", 2),
    (b"import\n;", 2),
    (b"import a\n:b;", 2),
    (b"import \"./h\"\n.a;", 2),
];

/// Texts, and the line and reason of their first fault.
const REFUSED: [(&[u8], u32, &[u8]); 34] = [
    (b"import :q;", 1, b"partition outside a module"),
    (b"import\n:q;", 2, b"partition outside a module"),
    (b"struct A; int A;", 1, b"duplicate name"),
    (b"/* x", 1, b"unclosed comment"),
    (b"int", 1, b"syntax"),
    (b"int a;\n\"", 2, b"unclosed string"),
    (b"int a;\n#", 2, b"octet outside the subset"),
    (b"\nexport int a;", 2, b"export outside an interface"),
    (b"\nexport { }", 2, b"export outside an interface"),
    (
        b"module m;\nexport import a;",
        2,
        b"export outside an interface",
    ),
    (
        b"module m:p;\nexport { int a; }",
        2,
        b"export outside an interface",
    ),
    (b"import\n\"x.h\";", 2, b"bad header name"),
    (b"import \"./\";", 1, b"bad header name"),
    (b"\nimport \"m\";", 2, b"bad header name"),
    (b"\nimport \"\";", 2, b"bad header name"),
    (b"int a;\nint b;\nint a;\nint a;", 3, b"duplicate name"),
    (b"int a;struct\na\n;", 2, b"duplicate name"),
    (
        b"export module m;export { int a;\nint a; }",
        2,
        b"duplicate name",
    ),
    (b"import :q; /* x\n", 1, b"unclosed comment"),
    (b"int;\n$", 2, b"octet outside the subset"),
    (b"import :q;int;\n\"", 2, b"unclosed string"),
    (b"import :q;\nint;", 2, b"syntax"),
    (b"int a;int a;\nint;", 2, b"syntax"),
    (b"module m;\nexport int a;\nimport b;", 3, b"syntax"),
    (b"int;\nint;", 1, b"syntax"),
    (b"import :q;import\n\"", 2, b"unclosed string"),
    (
        b"import :q;\nint a;\nint a;",
        1,
        b"partition outside a module",
    ),
    (b"export\nimport :q;", 1, b"export outside an interface"),
    (b"import \"h\";\nimport :q;", 1, b"bad header name"),
    (
        b"import :q;\nimport \"h\";",
        1,
        b"partition outside a module",
    ),
    (b"int a;\nexport\nint a;", 2, b"export outside an interface"),
    (b"int a;int\na;\nexport int b;", 2, b"duplicate name"),
    (
        b"module m;\nexport\nimport \"h\";",
        2,
        b"export outside an interface",
    ),
    (
        b"module m;\nimport\n\"h\";export import a;",
        3,
        b"bad header name",
    ),
];

/// Texts before so many imports and behind them, and the line and reason of their first fault.
const MOST_IMPORTS: [(&[u8], usize, &[u8], u32, &[u8]); 6] = [
    (b"", 1001, b"", 1001, b"too many imports"),
    (b"module m;", 1000, b"", 1000, b"too many imports"),
    (
        b"export module m;",
        1000,
        b"export\nimport :q;",
        1002,
        b"too many imports",
    ),
    (
        b"module m;",
        999,
        b"export\nimport a;",
        1000,
        b"export outside an interface",
    ),
    (b"", 1000, b"import\n\"h\";", 1001, b"too many imports"),
    (b"", 1001, b"import\n", 1003, b"syntax"),
];

/// Texts before a name, the most octets that it may have there, the octet between its parts, texts
/// behind it, and the line and reason of the first fault with an octet more. The last two texts have
/// a fault of a later step too; the others are units with the longest name.
const LONGEST_NAMES: [(&[u8], usize, u8, &[u8], u32, &[u8]); 9] = [
    (b"import\n", 512, b'.', b";", 2, b"name too long"),
    (b"module\n", 512, b'.', b";", 2, b"name too long"),
    (b"export module\n", 510, b'.', b":\np;", 2, b"name too long"),
    (b"export module\nm:\n", 510, b'.', b";", 2, b"name too long"),
    (
        b"module m;import\n:",
        510,
        b'.',
        b"\n;",
        2,
        b"name too long",
    ),
    (b"import\n\"./", 510, b'.', b"\";", 2, b"bad header name"),
    (b"int ", 255, b'a', b";", 1, b"identifier too long"),
    (b"int;\nint ", 255, b'a', b";", 2, b"identifier too long"),
    (
        b"import :q;\n",
        255,
        b'a',
        b" a;",
        2,
        b"identifier too long",
    ),
];

/// Whether the unit has these imports.
fn has_imports(unit: &Unit, rows: &[ImportRow]) -> bool {
    if unit.imports.len() as usize != rows.len() {
        return false;
    }
    for index in 0..unit.imports.len() {
        let import = unit.imports.get(index);
        let (exported, name, line) = rows[index as usize];
        if import.exported != exported || import.name.octets() != name || import.line != line {
            return false;
        }
    }
    true
}

/// Whether the declaration uses these types.
fn has_types(decl: &Decl, rows: &[TypeRow]) -> bool {
    if decl.types.len() as usize != rows.len() {
        return false;
    }
    for index in 0..decl.types.len() {
        let used = decl.types.get(index);
        let (name, line) = rows[index as usize];
        if used.name.octets() != name || used.line != line {
            return false;
        }
    }
    true
}

/// Whether the declaration is this one.
fn is_decl(decl: &Decl, row: DeclRow) -> bool {
    let (exported, kind, name, line, types) = row;
    decl.exported == exported
        && decl.kind == kind
        && decl.name.octets() == name
        && decl.line == line
        && has_types(decl, types)
}

/// Whether the unit has these declarations.
fn has_decls(unit: &Unit, rows: &[DeclRow]) -> bool {
    if unit.decls.len() as usize != rows.len() {
        return false;
    }
    for index in 0..unit.decls.len() {
        if !is_decl(unit.decls.get(index), rows[index as usize]) {
            return false;
        }
    }
    true
}

/// Whether the text is read as this unit.
fn is_read(
    alloc: Global,
    text: &[u8],
    head: Head,
    imports: &[ImportRow],
    decls: &[DeclRow],
) -> bool {
    if text.len() > LONGEST_TEXT {
        return false;
    }
    let Ok(unit) = Unit::read(alloc, text) else {
        return false;
    };
    let (kind, module, partition, line) = head;
    unit.kind == kind
        && unit.module.octets() == module
        && unit.partition.octets() == partition
        && unit.module_line == line
        && has_imports(&unit, imports)
        && has_decls(&unit, decls)
}

/// Whether the text is refused on this line, for the reason of this text.
fn is_refused(alloc: Global, text: &[u8], line: u32, reason: &[u8]) -> bool {
    if text.len() > LONGEST_TEXT {
        return false;
    }
    match Unit::read(alloc, text) {
        Err(
            SourceError::Text {
                line: told,
                reason: why,
            },
        ) => told == line && why.text() == reason,
        _ => false,
    }
}

/// So many imports between two texts, each on a line of its own.
fn imports_between(alloc: Global, before: &[u8], count: usize, behind: &[u8]) -> Option<Vec<u8>> {
    let mut text = Vec::from_slice(alloc, before).ok()?;
    for _ in 0..count {
        text.extend_from_slice(b"import a;\n").ok()?;
    }
    text.extend_from_slice(behind).ok()?;
    Some(text)
}

/// A name of so many octets, with a dot after each run of 100, between two texts.
fn name_between(
    alloc: Global,
    before: &[u8],
    len: usize,
    dot: u8,
    behind: &[u8],
) -> Option<Vec<u8>> {
    let mut text = Vec::from_slice(alloc, before).ok()?;
    for index in 0..len {
        let octet = if index % 200 == 100 { dot } else { b'a' };
        text.push(octet).ok()?;
    }
    text.extend_from_slice(behind).ok()?;
    Some(text)
}

/// Whether so many imports are read behind the text.
fn reads_imports(alloc: Global, before: &[u8], count: usize) -> bool {
    let Some(text) = imports_between(alloc, before, count, b"") else {
        return false;
    };
    text.len() <= LONGEST_TEXT && Unit::read(alloc, &text).is_ok()
}

/// Whether so many imports between the texts are refused on the line.
fn refuses_imports(
    alloc: Global,
    before: &[u8],
    count: usize,
    behind: &[u8],
    line: u32,
    reason: &[u8],
) -> bool {
    let Some(text) = imports_between(alloc, before, count, behind) else {
        return false;
    };
    is_refused(alloc, &text, line, reason)
}

/// Whether a name of so many octets is read between the texts.
fn reads_name(alloc: Global, before: &[u8], len: usize, dot: u8, behind: &[u8]) -> bool {
    let Some(text) = name_between(alloc, before, len, dot, behind) else {
        return false;
    };
    text.len() <= LONGEST_TEXT && Unit::read(alloc, &text).is_ok()
}

/// Whether a name of so many octets between the texts is refused on the line.
fn refuses_name(
    alloc: Global,
    before: &[u8],
    len: usize,
    dot: u8,
    behind: &[u8],
    line: u32,
    reason: &[u8],
) -> bool {
    let Some(text) = name_between(alloc, before, len, dot, behind) else {
        return false;
    };
    is_refused(alloc, &text, line, reason)
}

#[test]
fn reads_heads(rt: HostRuntime) {
    for (text, head, imports) in HEADS {
        assert!(rt; is_read(rt.alloc(), text, head, imports, &[]), "{text:?}");
    }
}

#[test]
fn reads_declarations(rt: HostRuntime) {
    let head: Head = (UnitKind::Interface, b"m", b"", 1);
    for (text, decls) in DECLS {
        assert!(rt; is_read(rt.alloc(), text, head, &[], decls), "{text:?}");
    }
}

#[test]
fn refuses_at_the_first_fault(rt: HostRuntime) {
    for (text, line) in OUTSIDE_THE_GRAMMAR {
        assert!(rt; is_refused(rt.alloc(), text, line, b"syntax"), "{text:?}");
    }
    for (text, line, reason) in REFUSED {
        assert!(rt; is_refused(rt.alloc(), text, line, reason), "{text:?}");
    }
}

#[test]
fn limits_imports(rt: HostRuntime) {
    assert!(rt; reads_imports(rt.alloc(), b"", 1000));
    assert!(rt; reads_imports(rt.alloc(), b"module m;", 999));
    for (before, count, behind, line, reason) in MOST_IMPORTS {
        assert!(rt;
            refuses_imports(rt.alloc(), before, count, behind, line, reason),
            "{before:?}"
        );
    }
}

#[test]
fn limits_names(rt: HostRuntime) {
    for (before, len, dot, behind, line, reason) in LONGEST_NAMES {
        assert!(rt;
            refuses_name(rt.alloc(), before, len + 1, dot, behind, line, reason),
            "{before:?}"
        );
    }
    for (before, len, dot, behind, _, _) in &LONGEST_NAMES[..7] {
        assert!(rt;
            reads_name(rt.alloc(), before, *len, *dot, behind),
            "{before:?}"
        );
    }
}
