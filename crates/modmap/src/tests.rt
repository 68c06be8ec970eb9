//! A command over the adapters.

use crate::adapters::WriterSink;
use mapper_commands::run_alone;
use mm_outside::{MemFiles, MemLink, Text};
use std::alloc::Global;

/// The report on a project whose one unit fails.
const REPORT: &[u8] = b"failed e.cc line 1 'unknown type'\n";

/// A project of one unit, which fails.
fn files(alloc: Global) -> Option<MemFiles> {
    let names = [Text::of(alloc, b"p").ok()?, Text::of(alloc, b"e.cc").ok()?];
    let project = Text::of(alloc, b"modmap-project 1\nrepo r\nplain e.cc\nend\n").ok()?;
    let source = Text::of(alloc, b"T y;").ok()?;
    MemFiles::new(alloc, &names, &[project, source], 0, 0, &[], &[]).ok()
}

/// The words to list the project.
fn words(alloc: Global) -> Option<Vec<String>> {
    let mut words = Vec::new(alloc);
    for word in ["list", "p"] {
        words.push(String::from_str(alloc, word).ok()?).ok()?;
    }
    Some(words)
}

/// The status of the report over a writer that takes so many octets, where the writer holds just these.
fn status_within(rt: &HostRuntime, octets: usize) -> Option<u8> {
    let alloc = rt.alloc();
    let words = words(alloc)?;
    let mut files = files(alloc)?;
    let mut link = MemLink::new(alloc, b"", 0, &[], &[], &[], &[]).ok()?;
    let mut place = vec![in alloc; 0u8; octets].ok()?;
    let mut out = WriterSink::new(place.as_mut_slice());
    let status = run_alone(rt, alloc, &words, &mut files, &mut link, &mut out);
    drop(out);
    if Some(place.as_slice()) == REPORT.get(..octets) {
        Some(status)
    } else {
        None
    }
}

#[test]
fn a_report_that_is_cut_short(rt: HostRuntime) {
    for octets in 0..REPORT.len() {
        assert!(rt; status_within(&rt, octets) == Some(5), "{octets}");
    }
    assert_eq!(rt; status_within(&rt, REPORT.len()), Some(1));
}
