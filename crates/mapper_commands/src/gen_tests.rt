//! Worked examples of generated projects.

use crate::alone::run_alone;
use crate::trace_tests::words_of;
use cody_words::{LineBuf, write_number};
use mm_outside::{MemFiles, MemLink, MemSink, Text};
use std::alloc::Global;
use std::test::Fail;

/// The files of a project of three units, in the order in which they are written.
const FILES: [(&[u8], &[u8]); 4] = [
    (
        b"d/project",
        b"modmap-project 1
repo d/cache
module g0 d/u0.cc
module g1 d/u1.cc
module g2 d/u2.cc
end
",
    ),
    (
        b"d/u0.cc",
        b"export module g0;\nexport struct S0;\nexport S0 f0();\n",
    ),
    (
        b"d/u1.cc",
        b"export module g1;\nexport struct S1;\nexport S1 f1();\n",
    ),
    (
        b"d/u2.cc",
        b"export module g2;\nimport g0;\nexport import g1;\nexport struct S2;\nexport S2 f2(S0, S1);\n",
    ),
];

/// No files, with so much room for some. The writes with these numbers fail.
fn no_files(alloc: Global, room: u32, failing_writes: &[u64]) -> Option<MemFiles> {
    let none: Vec<Text> = Vec::new(alloc);
    MemFiles::new(alloc, &none, &none, 300, room, &[], failing_writes).ok()
}

/// Two of the sources of a project of 200 units.
const LATE: [(&[u8], &[u8]); 2] = [
    (
        b"d/u198.cc",
        b"export module g198;\nexport struct S198;\nexport S198 f198();\n",
    ),
    (
        b"d/u199.cc",
        b"export module g199;\nimport g100;\nexport import g95;\nimport g171;\nexport struct S199;\nexport S199 f199(S100, S95, S171);\n",
    ),
];

/// The status of a run over the files, where it prints this much into a sink that takes so many octets. The writes to
/// the sink with these numbers fail.
fn status_of(
    rt: &HostRuntime,
    words: &[&str],
    files: &mut MemFiles,
    room: u32,
    failing_prints: &[u64],
    output: &[u8],
) -> Option<u8> {
    let alloc = rt.alloc();
    let words = words_of(alloc, words)?;
    let mut link = MemLink::new(alloc, b"", 0, &[], &[], &[], &[]).ok()?;
    let mut out = MemSink::new(alloc, room, failing_prints).ok()?;
    let status = run_alone(rt, alloc, &words, files, &mut link, &mut out);
    if out.written() == output {
        Some(status)
    } else {
        None
    }
}

/// Whether the files of these numbers are the project's, and there are no others of it.
fn holds(files: &MemFiles, written: usize) -> bool {
    for (number, (name, text)) in FILES.iter().enumerate() {
        let is_due = match files.content(name) {
            Some(held) => number < written && held == *text,
            None => number >= written,
        };
        if !is_due {
            return false;
        }
    }
    true
}

/// Whether generating three units ends so, where the writes of files and those to the sink with these numbers fail.
fn generates(
    rt: &HostRuntime,
    failing_writes: &[u64],
    room: u32,
    failing_prints: &[u64],
    status: u8,
    output: &[u8],
    written: usize,
) -> Option<bool> {
    let mut files = no_files(rt.alloc(), 4_000, failing_writes)?;
    let words = &["gen", "d", "3", "7"];
    let ended = status_of(rt, words, &mut files, room, failing_prints, output)?;
    Some(ended == status && holds(&files, written))
}

/// The status of a run of words that are of no form.
fn bad_status(rt: &HostRuntime, words: &[&str]) -> Option<u8> {
    let mut files = no_files(rt.alloc(), 0, &[])?;
    status_of(rt, words, &mut files, 99, &[], b"modmap: bad words\n")
}

/// The status of a report on a generated project of 200 units, whatever it prints, with so much room for its files and
/// for what is printed.
fn large_status(rt: &HostRuntime, room: u32) -> Option<u8> {
    let alloc = rt.alloc();
    let mut files = no_files(alloc, room, &[])?;
    let generated = &["gen", "d", "200", "7"];
    status_of(rt, generated, &mut files, 99, &[], b"wrote 201 files\n")?;
    let words = words_of(alloc, &["list", "d/project"])?;
    let mut link = MemLink::new(alloc, b"", 0, &[], &[], &[], &[]).ok()?;
    let mut out = MemSink::new(alloc, room, &[]).ok()?;
    Some(run_alone(rt, alloc, &words, &mut files, &mut link, &mut out))
}

/// How many octets the sources of so many units have together.
fn sources_octets(alloc: Global, files: &MemFiles, units: u32) -> Option<usize> {
    let mut octets = 0usize;
    for unit in 0..units {
        let mut name = LineBuf::new(alloc, 40).ok()?;
        name.extend(b"d/u");
        write_number(unit, &mut name);
        name.extend(b".cc");
        octets = octets.checked_add(files.content(name.octets())?.len())?;
    }
    Some(octets)
}

/// Whether a generated project of 200 units has the two sources, and so many octets of sources and of its project file
/// in all.
fn large_project_is_due(rt: &HostRuntime) -> Option<bool> {
    let alloc = rt.alloc();
    let mut files = no_files(alloc, 1_000_000, &[])?;
    let generated = &["gen", "d", "200", "7"];
    status_of(rt, generated, &mut files, 99, &[], b"wrote 201 files\n")?;
    for (name, text) in &LATE {
        if files.content(name)? != *text {
            return Some(false);
        }
    }
    let sources = sources_octets(alloc, &files, 200)?;
    Some(sources == 17_505 && files.content(b"d/project")?.len() == 4_214)
}

/// The status of generating a project of one unit in a folder whose name has so many octets.
fn folder_status(rt: &HostRuntime, octets: usize, output: &[u8]) -> Option<u8> {
    let alloc = rt.alloc();
    let folder = "f".repeat(alloc, octets).ok()?;
    let mut files = no_files(alloc, 4_000, &[])?;
    status_of(rt, &["gen", &folder, "1", "0"], &mut files, 99, &[], output)
}

#[test]
fn three_units(rt: HostRuntime) -> Result<(), Fail> {
    assert!(rt; generates(&rt, &[], 99, &[], 0, b"wrote 4 files\n", 4) == Some(true));
    assert!(rt; generates(&rt, &[], 6, &[], 5, b"", 4) == Some(true));
    assert!(rt; generates(&rt, &[], 99, &[0], 5, b"", 4) == Some(true));
    Ok(())
}

#[test]
fn failing_writes(rt: HostRuntime) -> Result<(), Fail> {
    for number in 0..4usize {
        assert!(rt;
            generates(
                &rt,
                &[number as u64],
                99,
                &[],
                5,
                b"modmap: write failed\n",
                number
            ) == Some(true)
        );
        assert!(rt; generates(&rt, &[number as u64], 99, &[0], 5, b"", number) == Some(true));
    }
    Ok(())
}

#[test]
fn a_large_project_is_listed(rt: HostRuntime) -> Result<(), Fail> {
    assert!(rt; large_status(&rt, 1_000_000) == Some(0));
    Ok(())
}

#[test]
fn sources_of_a_large_project(rt: HostRuntime) -> Result<(), Fail> {
    assert!(rt; large_project_is_due(&rt) == Some(true));
    Ok(())
}

#[test]
fn bad_words(rt: HostRuntime) -> Result<(), Fail> {
    let table: [[&str; 4]; 7] = [
        ["gen", "", "3", "7"],
        ["gen", "a\tb", "3", "7"],
        ["gen", "d", "3", "-1"],
        ["gen", "d", "0", "7"],
        ["gen", "d", "2001", "7"],
        ["gen", "d", "3", "2147483648"],
        ["gen", "d", "03", "7"],
    ];
    for words in table {
        assert!(rt; bad_status(&rt, &words) == Some(2));
    }
    Ok(())
}

#[test]
fn longest_folder(rt: HostRuntime) -> Result<(), Fail> {
    assert!(rt; folder_status(&rt, 400, b"wrote 2 files\n") == Some(0));
    assert!(rt; folder_status(&rt, 401, b"modmap: bad words\n") == Some(2));
    Ok(())
}
