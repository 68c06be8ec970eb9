//! Worked examples of traces, by tables of inputs and outputs.

use crate::alone::run_alone;
use mm_outside::{MemFiles, MemLink, MemSink, Text};
use std::alloc::Global;
use std::test::Fail;

/// A project of two modules, a header unit and a plain unit.
pub const PROJECT: &[u8] = b"modmap-project 1
repo gcm.cache
module a a.cc
module b b.cc
header ./x.h x.h
plain main.cc
end
";

/// A trace of three entries, the last of which isn't legal.
pub const GONE: &[u8] = b"modmap-trace 1 1 9
0 open
0 left
0 repo
end 3
";

/// What is given, and what is to come out of it.
#[derive(Drop)]
pub struct Row {
    pub words: &'static [&'static str],
    pub project: &'static [u8],
    pub trace: &'static [u8],
    pub status: u8,
    pub output: &'static [u8],
}

/// Checks over the project of two modules, each a trace, the status and the output: legal traces, illegal ones for each
/// reason, and a refused one for each reason.
const CHECKS: [(&[u8], u8, &[u8]); 19] = [
    (GONE, 1, b"illegal 2 conn not open\n"),
    (
        b"modmap-trace 1 1 9\n0 open\n0 left\nend 2\n",
        0,
        b"legal 2\n",
    ),
    (
        b"modmap-trace 1 1 9\n0 open\n0 left\nend 2",
        0,
        b"legal 2\n",
    ),
    (b"modmap-trace 1 1 9\nend 0\n", 0, b"legal 0\n"),
    (
        b"modmap-trace 1 1 9\n0 open\n0 left\n0 repo\nend 4\n",
        6,
        b"modmap: t:5: wrong count\n",
    ),
    (
        b"modmap-trace 1 1 9\n1 open\nend 1\n",
        1,
        b"illegal 0 conn out of order\n",
    ),
    (
        b"modmap-trace 1 1 9\n0 open\n1 open\nend 2\n",
        1,
        b"illegal 1 too many open\n",
    ),
    (
        b"modmap-trace 1 1 9\n0 open\n- done\nend 2\n",
        1,
        b"illegal 1 too many open\n",
    ),
    (
        b"modmap-trace 1 2 9\n0 open\n- done\n1 open\nend 3\n",
        1,
        b"illegal 2 too many open\n",
    ),
    (
        b"modmap-trace 1 1 9\n0 open\n0 import 4\nend 2\n",
        1,
        b"illegal 1 unit out of range\n",
    ),
    (
        b"modmap-trace 1 1 9\n0 open\n0 import 3\nend 2\n",
        1,
        b"illegal 1 unit out of range\n",
    ),
    (
        b"modmap-trace 1 1 9\n0 open\n0 hello 1 3\nend 2\n",
        0,
        b"legal 2\n",
    ),
    (
        b"modmap-trace 1 1 3\n0 open\n0 pause\nend 2\n",
        1,
        b"illegal 1 history full\n",
    ),
    (b"modmap-trace 2 1 9\nend 0\n", 6, b"modmap: t:1: syntax\n"),
    (
        b"modmap-trace 1 1 9\n0 open\n\n0 left\nend 2\n",
        6,
        b"modmap: t:3: syntax\n",
    ),
    (
        b"modmap-trace 1 1 9\n0 open\n0 left\n",
        6,
        b"modmap: t:4: no end\n",
    ),
    (b"", 6, b"modmap: t:1: no end\n"),
    (
        b"modmap-trace 1 1 9\n0 open\nend 1\n0",
        6,
        b"modmap: t:4: more text\n",
    ),
    (
        b"modmap-trace 1 1 9\n0 open\nend 1\n\n",
        6,
        b"modmap: t:4: more text\n",
    ),
];

/// Files and words that are at fault before any trace is checked.
const FAULTS: [Row; 6] = [
    Row {
        words: &["check", "p", "q"],
        project: PROJECT,
        trace: GONE,
        status: 4,
        output: b"modmap: cannot read q\n",
    },
    Row {
        words: &["check", "a b", "q"],
        project: PROJECT,
        trace: GONE,
        status: 4,
        output: b"modmap: cannot read 'a b'\n",
    },
    Row {
        words: &["check", "p", "t"],
        project: b"modmap-project 1\nrepo r\nplain a\nplain a\nend\n",
        trace: b"",
        status: 6,
        output: b"modmap: p:4: ident declared twice\n",
    },
    Row {
        words: &["check", "t", "p"],
        project: GONE,
        trace: PROJECT,
        status: 1,
        output: b"illegal 2 conn not open\n",
    },
    Row {
        words: &["check", "p"],
        project: PROJECT,
        trace: GONE,
        status: 2,
        output: b"modmap: bad words\n",
    },
    Row {
        words: &["check", "p", "t", "9"],
        project: PROJECT,
        trace: GONE,
        status: 2,
        output: b"modmap: bad words\n",
    },
];

/// Two files, `p` and `t`. The reads with these numbers fail.
pub fn files_of(
    alloc: Global,
    project: &[u8],
    trace: &[u8],
    failing_reads: &[u64],
) -> Option<MemFiles> {
    let names = [Text::of(alloc, b"p").ok()?, Text::of(alloc, b"t").ok()?];
    let contents = [Text::of(alloc, project).ok()?, Text::of(alloc, trace).ok()?];
    MemFiles::new(alloc, &names, &contents, 0, 0, failing_reads, &[]).ok()
}

/// The words.
pub fn words_of(alloc: Global, words: &[&str]) -> Option<Vec<String>> {
    let mut list = Vec::new(alloc);
    for word in words {
        list.push(String::from_str(alloc, word).ok()?).ok()?;
    }
    Some(list)
}

/// Whether a run over the two files ends with the status and prints this much. The reads and the writes with
/// these numbers fail.
pub fn ends_so(
    rt: &HostRuntime,
    alloc: Global,
    row: &Row,
    failing_reads: &[u64],
    failing_writes: &[u64],
) -> Option<bool> {
    let words = words_of(alloc, row.words)?;
    let mut files = files_of(alloc, row.project, row.trace, failing_reads)?;
    let mut link = MemLink::new(alloc, b"", 0, &[], &[], &[], &[]).ok()?;
    let mut out = MemSink::new(alloc, 2_000, failing_writes).ok()?;
    let status = run_alone(rt, alloc, &words, &mut files, &mut link, &mut out);
    Some(status == row.status && out.written() == row.output)
}

/// A check of a trace over the project of two modules.
fn check(trace: &'static [u8], status: u8, output: &'static [u8]) -> Row {
    Row {
        words: &["check", "p", "t"],
        project: PROJECT,
        trace,
        status,
        output,
    }
}

#[test]
fn checked_traces(rt: HostRuntime) -> Result<(), Fail> {
    for (trace, status, output) in &CHECKS {
        let row = check(trace, *status, output);
        assert!(rt; ends_so(&rt, rt.alloc(), &row, &[], &[]) == Some(true));
    }
    Ok(())
}

#[test]
fn faulty_files_and_words(rt: HostRuntime) -> Result<(), Fail> {
    for row in &FAULTS {
        assert!(rt; ends_so(&rt, rt.alloc(), row, &[], &[]) == Some(true));
    }
    Ok(())
}

#[test]
fn failing_reads_and_writes(rt: HostRuntime) -> Result<(), Fail> {
    let alloc = rt.alloc();
    let project_fails = check(GONE, 4, b"modmap: cannot read p\n");
    assert!(rt; ends_so(&rt, alloc, &project_fails, &[0], &[]) == Some(true));
    let trace_fails = check(GONE, 4, b"modmap: cannot read t\n");
    assert!(rt; ends_so(&rt, alloc, &trace_fails, &[1], &[]) == Some(true));
    let report_fails = check(GONE, 5, b"");
    assert!(rt; ends_so(&rt, alloc, &report_fails, &[], &[0]) == Some(true));
    let good_report_fails = check(b"modmap-trace 1 1 9\nend 0\n", 5, b"");
    assert!(rt; ends_so(&rt, alloc, &good_report_fails, &[], &[0]) == Some(true));
    let message_fails = check(GONE, 4, b"");
    assert!(rt; ends_so(&rt, alloc, &message_fails, &[0], &[0]) == Some(true));
    Ok(())
}
