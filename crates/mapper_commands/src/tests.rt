//! Worked examples, by tables of inputs and outputs.

mod faults;
mod limits;

use crate::alone::run_alone;
use crate::trace_tests::{PROJECT, words_of};
use mm_outside::{MemFiles, MemLink, MemSink, Text};
use std::alloc::Global;
use std::test::Fail;

/// The project of two modules, a header unit and a plain unit, with its second module built before.
const BUILT: &[u8] = b"modmap-project 1
repo gcm.cache
module a a.cc
built module b b.cc
header ./x.h x.h
plain main.cc
end
";

/// The project of two modules, a header unit and a plain unit, with one name declared twice.
const TWICE: &[u8] = b"modmap-project 1
repo gcm.cache
module a a.cc
module a c.cc
header ./x.h x.h
plain main.cc
end
";

/// What is given, and what is to come out of it.
#[derive(Clone, Copy)]
struct Row<'a> {
    project: &'a [u8],
    words: &'a [&'a str],
    input: &'a [u8],
    output: &'a [u8],
    status: u8,
    message: &'a [u8],
}

/// The worked examples of one connection.
const ROWS: [Row<'static>; 21] = [
    Row {
        project: PROJECT,
        words: &["pipe", "p"],
        input: b"HELLO 1 GCC a.cc ;\nMODULE-REPO\n",
        output: b"HELLO 1 modmap ;\nPATHNAME gcm.cache\n",
        status: 0,
        message: b"",
    },
    Row {
        project: PROJECT,
        words: &["pipe", "p"],
        input: b"",
        output: b"",
        status: 0,
        message: b"",
    },
    Row {
        project: PROJECT,
        words: &["pipe", "p"],
        input: b"FOO' 'bar\n",
        output: b"ERROR 'unknown request'\n",
        status: 0,
        message: b"",
    },
    Row {
        project: PROJECT,
        words: &["pipe", "p"],
        input: b"HELLO 1 GCC '\\c3\\a9\\1'\nMODULE-EXPORT a\n",
        output: b"HELLO 1 modmap\nERROR 'not your unit'\n",
        status: 0,
        message: b"",
    },
    Row {
        project: PROJECT,
        words: &["pipe", "p"],
        input: b"HELLO 1 GCC a.cc ;\nMODULE-EXPORT 'a ;\nMODULE-REPO\nMODULE-REPO\n",
        output: b"ERROR 'batch refused: line 2' ;\nERROR 'line 2: unclosed quote' ;\nERROR 'batch refused: line 2'\nERROR 'not connected'\n",
        status: 0,
        message: b"",
    },
    Row {
        project: PROJECT,
        words: &["pipe", "p"],
        input: b"HELLO 1 GCC a.cc ;\n;\n\nMODULE-REPO\n",
        output: b"HELLO 1 modmap ;\nPATHNAME gcm.cache\n",
        status: 0,
        message: b"",
    },
    Row {
        project: PROJECT,
        words: &["pipe", "p"],
        input: b"MODULE-IMPORT a\n",
        output: b"ERROR 'not connected'\n",
        status: 0,
        message: b"",
    },
    Row {
        project: PROJECT,
        words: &["pipe", "p"],
        input: b"HELLO 1 GCC a.cc ;\nMODULE-EXPORT a ;\nMODULE-COMPILED a ;\nMODULE-IMPORT a\n",
        output: b"HELLO 1 modmap ;\nPATHNAME a.gcm ;\nOK ;\nPATHNAME a.gcm\n",
        status: 0,
        message: b"",
    },
    Row {
        project: PROJECT,
        words: &["pipe", "p"],
        input: b"HELLO 1 GCC a.cc ;\nMODULE-IMPORT a\n",
        output: b"HELLO 1 modmap ;\nERROR 'import cycle'\n",
        status: 0,
        message: b"",
    },
    Row {
        project: PROJECT,
        words: &["pipe", "p"],
        input: b"HELLO 1 GCC a.cc ;\nMODULE-IMPORT b\n",
        output: b"HELLO 1 modmap ;\nERROR 'unit failed'\n",
        status: 0,
        message: b"",
    },
    Row {
        project: PROJECT,
        words: &["pipe", "p", "6"],
        input: b"HELLO 1 GCC a.cc ;\nMODULE-REPO ;\nMODULE-EXPORT a ;\nMODULE-COMPILED a\n",
        output: b"",
        status: 9,
        message: b"modmap: history full\n",
    },
    Row {
        project: PROJECT,
        words: &["pipe", "p"],
        input: b"HELLO 1 GCC a.cc\nMODULE-REPO ;\n",
        output: b"HELLO 1 modmap\n",
        status: 7,
        message: b"modmap: input ended inside a block of 1 lines\n",
    },
    Row {
        project: PROJECT,
        words: &["pipe", "p"],
        input: b"HELLO 1 GCC main.cc ;\nMODULE-IMPORT b 1 ;\nINCLUDE-TRANSLATE ./x.h ;\nINCLUDE-TRANSLATE /usr/include/c++/14/vector ;\nMODULE-IMPORT b x\n",
        output: b"HELLO 1 modmap ;\nPATHNAME b.gcm ;\nBOOL TRUE ;\nBOOL FALSE ;\nERROR 'bad number'\n",
        status: 0,
        message: b"",
    },
    Row {
        project: BUILT,
        words: &["pipe", "p"],
        input: b"HELLO 1 GCC main.cc ;\nMODULE-REPO\nINCLUDE-TRANSLATE ./x.h\nMODULE-IMPORT b\n",
        output: b"HELLO 1 modmap ;\nPATHNAME gcm.cache\nBOOL TRUE\nPATHNAME b.gcm\n",
        status: 0,
        message: b"",
    },
    Row {
        project: PROJECT,
        words: &["pipe", "p"],
        input: b"HELLO 2 GCC a.cc ;\nMODULE-REPO\n",
        output: b"ERROR 'version not supported' ;\nERROR 'not connected'\n",
        status: 0,
        message: b"",
    },
    Row {
        project: TWICE,
        words: &["pipe", "p"],
        input: b"FOO\n",
        output: b"",
        status: 6,
        message: b"modmap: p:4: name declared twice\n",
    },
    Row {
        project: PROJECT,
        words: &["pipe", "q"],
        input: b"FOO\n",
        output: b"",
        status: 4,
        message: b"modmap: cannot read q\n",
    },
    Row {
        project: PROJECT,
        words: &["pipe", "p", "03"],
        input: b"FOO\n",
        output: b"",
        status: 2,
        message: b"modmap: bad words\n",
    },
    Row {
        project: PROJECT,
        words: &["pipe", "p", "2"],
        input: b"FOO\n",
        output: b"",
        status: 2,
        message: b"modmap: bad words\n",
    },
    Row {
        project: PROJECT,
        words: &["pipe", "p", "1048577"],
        input: b"FOO\n",
        output: b"",
        status: 2,
        message: b"modmap: bad words\n",
    },
    Row {
        project: PROJECT,
        words: &["pipe"],
        input: b"FOO\n",
        output: b"",
        status: 2,
        message: b"modmap: bad words\n",
    },
];

/// Files with a project file `p` and no other.
fn files_of(alloc: Global, project: &[u8]) -> Result<MemFiles, Fail> {
    let names = [Text::of(alloc, b"p")?];
    let contents = [Text::of(alloc, project)?];
    Ok(MemFiles::new(alloc, &names, &contents, 0, 0, &[], &[])?)
}

/// Whether a run over this link comes to what the row says.
fn comes_to(rt: &HostRuntime, alloc: Global, row: &Row<'_>, link: MemLink) -> Result<bool, Fail> {
    let words = words_of(alloc, row.words).ok_or("memory")?;
    let mut files = files_of(alloc, row.project)?;
    let mut link = link;
    let mut out = MemSink::new(alloc, 200, &[])?;
    let status = run_alone(rt, alloc, &words, &mut files, &mut link, &mut out);
    Ok(status == row.status && link.written() == row.output && out.written() == row.message)
}

#[test]
fn worked_examples(rt: HostRuntime) -> Result<(), Fail> {
    for row in &ROWS {
        let link = MemLink::new(rt.alloc(), row.input, 400, &[], &[], &[], &[])?;
        assert!(rt; comes_to(&rt, rt.alloc(), row, link)?, "{:?}", row.input);
    }
    Ok(())
}
