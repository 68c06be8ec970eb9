//! Lines, blocks and files at their limits and one past them.

use super::{Row, comes_to};
use crate::alone::run_alone;
use crate::trace_tests::{PROJECT, words_of};
use mm_outside::{MemFiles, MemLink, MemSink, Text};
use std::alloc::Global;
use std::test::Fail;

/// A request of one line, with so many octets in the name that it exports.
fn exporting(alloc: Global, octets: usize) -> Result<Vec<u8>, Fail> {
    let mut line = b"MODULE-EXPORT ".to_vec(alloc)?;
    for _ in 0..octets {
        line.push(b'x')?;
    }
    line.push(b'\n')?;
    Ok(line)
}

/// So many lines that go on, and one that ends them.
fn lines(alloc: Global, going_on: &[u8], count: usize, last: &[u8]) -> Result<Vec<u8>, Fail> {
    let mut block = going_on.repeat(alloc, count)?;
    block.extend_from_slice(last)?;
    Ok(block)
}

/// So many octets, all the same. It has no clause, so that a proof of its callers doesn't spell them out.
fn octets(alloc: Global, count: usize) -> Result<Vec<u8>, Fail> {
    Ok(vec![in alloc; b'x'; count]?)
}

/// Whether `pipe p` over the project comes to this.
fn pipe_comes_to(
    rt: &HostRuntime,
    input: &[u8],
    output: &[u8],
    status: u8,
    message: &[u8],
) -> Result<bool, Fail> {
    let row = Row {
        project: PROJECT,
        words: &["pipe", "p"],
        input,
        output,
        status,
        message,
    };
    let link = MemLink::new(rt.alloc(), input, 30_000, &[], &[], &[], &[])?;
    comes_to(rt, rt.alloc(), &row, link)
}

#[test]
fn longest_line(rt: HostRuntime) -> Result<(), Fail> {
    let longest = exporting(rt.alloc(), 8178)?;
    assert!(rt; pipe_comes_to(&rt, &longest, b"ERROR 'not connected'\n", 0, b"")?);
    let longer = exporting(rt.alloc(), 8179)?;
    assert!(rt; pipe_comes_to(&rt, &longer, b"ERROR 'line 1: line too long'\n", 0, b"")?);
    Ok(())
}

#[test]
fn longest_block(rt: HostRuntime) -> Result<(), Fail> {
    let longest = lines(rt.alloc(), b"FOO ;\n", 1023, b"FOO\n")?;
    let replies = lines(
        rt.alloc(),
        b"ERROR 'unknown request' ;\n",
        1023,
        b"ERROR 'unknown request'\n",
    )?;
    assert!(rt; pipe_comes_to(&rt, &longest, &replies, 0, b"")?);
    let longer = lines(rt.alloc(), b"FOO ;\n", 1024, b"FOO\n")?;
    assert!(rt; pipe_comes_to(&rt, &longer, b"", 8, b"modmap: block too long\n")?);
    Ok(())
}

/// Whether `pipe p` over a project file of so many octets ends with status 6, a message and no reply.
fn is_refused(rt: &HostRuntime, count: usize, message: &[u8]) -> Result<bool, Fail> {
    let project = octets(rt.alloc(), count)?;
    let row = Row {
        project: &project,
        words: &["pipe", "p"],
        input: b"FOO\n",
        output: b"",
        status: 6,
        message,
    };
    let link = MemLink::new(rt.alloc(), row.input, 400, &[], &[], &[], &[])?;
    comes_to(rt, rt.alloc(), &row, link)
}

#[test]
fn longest_project(rt: HostRuntime) -> Result<(), Fail> {
    assert!(rt; is_refused(&rt, 16_777_216, b"modmap: p:1: malformed line\n")?);
    assert!(rt; is_refused(&rt, 16_777_217, b"modmap: p: file too long\n")?);
    Ok(())
}

/// Whether `check p t` over a trace of these octets ends with status 6 and prints this.
fn check_comes_to(rt: &HostRuntime, trace: Vec<u8>, message: &[u8]) -> Option<bool> {
    let alloc = rt.alloc();
    let names = [Text::of(alloc, b"p").ok()?, Text::of(alloc, b"t").ok()?];
    let contents = [Text::of(alloc, PROJECT).ok()?, Text::from_vec(trace)];
    let mut files = MemFiles::new(alloc, &names, &contents, 0, 0, &[], &[]).ok()?;
    let words = words_of(alloc, &["check", "p", "t"])?;
    let mut link = MemLink::new(alloc, b"", 0, &[], &[], &[], &[]).ok()?;
    let mut out = MemSink::new(alloc, 200, &[]).ok()?;
    let status = run_alone(rt, alloc, &words, &mut files, &mut link, &mut out);
    Some(status == 6 && out.written() == message)
}

#[test]
fn longest_trace(rt: HostRuntime) -> Result<(), Fail> {
    let trace = octets(rt.alloc(), 67_108_864)?;
    let refused = check_comes_to(&rt, trace, b"modmap: t:1: syntax\n");
    assert!(rt; refused == Some(true));
    Ok(())
}

#[test]
fn trace_too_long(rt: HostRuntime) -> Result<(), Fail> {
    let trace = octets(rt.alloc(), 67_108_865)?;
    let refused = check_comes_to(&rt, trace, b"modmap: t: file too long\n");
    assert!(rt; refused == Some(true));
    Ok(())
}
