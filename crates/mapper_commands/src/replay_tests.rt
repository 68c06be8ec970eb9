//! Worked examples of replays, by tables of traces and what is printed of them.

use crate::alone::run_alone;
use crate::trace_tests::{GONE, PROJECT, Row, ends_so, files_of, words_of};
use mm_outside::{MemLink, MemSink, Sink};
use std::alloc::Global;
use std::test::Fail;

/// A project of three modules.
const THREE: &[u8] = b"modmap-project 1
repo gcm.cache
module x x.cc
module y y.cc
module z z.cc
end
";

/// Replays over the project of two modules, each a trace, the status and the output: an import that waits until its
/// unit is compiled; a ring of two, whose second import is refused; a holder that goes, so that its unit fails; no
/// entries; the greatest limit that a trace may name; a trace that isn't legal.
const REPLAYS: [(&[u8], u8, &[u8]); 6] = [
    (
        b"modmap-trace 1 2 40
0 open
0 hello 1 0
0 import 1
0 pause
1 open
1 hello 1 1
1 export 1
1 compiled 1
end 8
",
        0,
        b"0: 0 open
1: 0 hello 1 0
  1 HELLO 1 modmap
2: 0 import 1
3: 0 pause
4: 1 open
5: 1 hello 1 1
  5 HELLO 1 modmap
6: 1 export 1
  6 PATHNAME b.gcm
7: 1 compiled 1
  2 PATHNAME b.gcm
  7 OK
open 2 waiting 0
",
    ),
    (
        b"modmap-trace 1 2 40
0 open
0 hello 1 0
1 open
1 hello 1 1
1 import 0
1 pause
0 export 0
0 import 1
0 compiled 0
0 pause
end 10
",
        0,
        b"0: 0 open
1: 0 hello 1 0
  1 HELLO 1 modmap
2: 1 open
3: 1 hello 1 1
  3 HELLO 1 modmap
4: 1 import 0
5: 1 pause
6: 0 export 0
  6 PATHNAME a.gcm
7: 0 import 1
  7 ERROR 'import cycle'
8: 0 compiled 0
  4 PATHNAME a.gcm
  8 OK
9: 0 pause
open 2 waiting 0
",
    ),
    (
        b"modmap-trace 1 3 40
0 open
0 hello 1 0
0 import 1
0 pause
1 open
1 hello 1 3
1 import 1
1 pause
2 open
2 hello 1 1
2 left
end 11
",
        0,
        b"0: 0 open
1: 0 hello 1 0
  1 HELLO 1 modmap
2: 0 import 1
3: 0 pause
4: 1 open
5: 1 hello 1 3
  5 HELLO 1 modmap
6: 1 import 1
7: 1 pause
8: 2 open
9: 2 hello 1 1
  9 HELLO 1 modmap
10: 2 left
  2 ERROR 'unit failed'
  6 ERROR 'unit failed'
open 2 waiting 0
",
    ),
    (b"modmap-trace 1 1 9\nend 0\n", 0, b"open 0 waiting 0\n"),
    (
        b"modmap-trace 1 1 67108864\n0 open\n0 repo\n0 left\nend 3\n",
        0,
        b"0: 0 open\n1: 0 repo\n  1 ERROR 'not connected'\n2: 0 left\nopen 0 waiting 0\n",
    ),
    (GONE, 1, b"illegal 2 conn not open\n"),
];

/// A replay of a trace that isn't legal at which something is at fault, with the numbers of the reads and the writes
/// that fail.
#[derive(Drop)]
struct Faulty {
    words: &'static [&'static str],
    failing_reads: &'static [u64],
    failing_writes: &'static [u64],
    status: u8,
    output: &'static [u8],
}

/// An absent trace; the read of the project file and of the trace failing; the write of the report failing, and that of
/// a message, after which the sink would take more; and words of no form.
const FAULTS: [Faulty; 6] = [
    Faulty {
        words: &["replay", "p", "q"],
        failing_reads: &[],
        failing_writes: &[],
        status: 4,
        output: b"modmap: cannot read q\n",
    },
    Faulty {
        words: &["replay", "p", "t"],
        failing_reads: &[0],
        failing_writes: &[],
        status: 4,
        output: b"modmap: cannot read p\n",
    },
    Faulty {
        words: &["replay", "p", "t"],
        failing_reads: &[1],
        failing_writes: &[],
        status: 4,
        output: b"modmap: cannot read t\n",
    },
    Faulty {
        words: &["replay", "p", "t"],
        failing_reads: &[],
        failing_writes: &[0],
        status: 5,
        output: b"",
    },
    Faulty {
        words: &["replay", "p", "q"],
        failing_reads: &[],
        failing_writes: &[0],
        status: 4,
        output: b"",
    },
    Faulty {
        words: &["replay", "p"],
        failing_reads: &[],
        failing_writes: &[0],
        status: 2,
        output: b"",
    },
];

/// What is common to all traces of a ring of three.
const RING: &[u8] = b"modmap-trace 1 4 40
0 open
0 hello 1 0
1 open
1 hello 1 1
2 open
2 hello 1 2
";

/// And to what is printed of them.
const RING_PRINTED: &[u8] = b"0: 0 open
1: 0 hello 1 0
  1 HELLO 1 modmap
2: 1 open
3: 1 hello 1 1
  3 HELLO 1 modmap
4: 2 open
5: 2 hello 1 2
  5 HELLO 1 modmap
";

/// The six orders of the three imports of a ring, and what is printed of them: the third is refused.
const ORDERS: [(&[u8], &[u8]); 6] = [
    (
        b"0 import 1\n1 import 2\n2 import 0\nend 9\n",
        b"6: 0 import 1\n7: 1 import 2\n8: 2 import 0\n  8 ERROR 'import cycle'\nopen 3 waiting 2\n",
    ),
    (
        b"0 import 1\n2 import 0\n1 import 2\nend 9\n",
        b"6: 0 import 1\n7: 2 import 0\n8: 1 import 2\n  8 ERROR 'import cycle'\nopen 3 waiting 2\n",
    ),
    (
        b"1 import 2\n0 import 1\n2 import 0\nend 9\n",
        b"6: 1 import 2\n7: 0 import 1\n8: 2 import 0\n  8 ERROR 'import cycle'\nopen 3 waiting 2\n",
    ),
    (
        b"1 import 2\n2 import 0\n0 import 1\nend 9\n",
        b"6: 1 import 2\n7: 2 import 0\n8: 0 import 1\n  8 ERROR 'import cycle'\nopen 3 waiting 2\n",
    ),
    (
        b"2 import 0\n0 import 1\n1 import 2\nend 9\n",
        b"6: 2 import 0\n7: 0 import 1\n8: 1 import 2\n  8 ERROR 'import cycle'\nopen 3 waiting 2\n",
    ),
    (
        b"2 import 0\n1 import 2\n0 import 1\nend 9\n",
        b"6: 2 import 0\n7: 1 import 2\n8: 0 import 1\n  8 ERROR 'import cycle'\nopen 3 waiting 2\n",
    ),
];

/// The status of a replay over the two files, and what it prints. The writes with these numbers fail.
fn replay(
    rt: &HostRuntime,
    alloc: Global,
    project: &[u8],
    trace: &[u8],
    failing_writes: &[u64],
) -> Option<(u8, MemSink)> {
    let words = words_of(alloc, &["replay", "p", "t"])?;
    let mut files = files_of(alloc, project, trace, &[])?;
    let mut link = MemLink::new(alloc, b"", 0, &[], &[], &[], &[]).ok()?;
    let mut out = MemSink::new(alloc, 200_000, failing_writes).ok()?;
    let status = run_alone(rt, alloc, &words, &mut files, &mut link, &mut out);
    Some((status, out))
}

/// Two texts, one after the other.
fn joined(alloc: Global, first: &[u8], second: &[u8]) -> Option<Vec<u8>> {
    let mut text = Vec::new(alloc);
    text.extend_from_slice(first).ok()?;
    text.extend_from_slice(second).ok()?;
    Some(text)
}

/// Whether the replay of a ring of three in this order prints so.
fn ring_prints(rt: &HostRuntime, alloc: Global, order: &[u8], output: &[u8]) -> Option<bool> {
    let trace = joined(alloc, RING, order)?;
    let printed = joined(alloc, RING_PRINTED, output)?;
    let (status, out) = replay(rt, alloc, THREE, &trace, &[])?;
    Some(status == 0 && out.written() == printed.as_slice())
}

/// A trace of one connection that pauses 13,000 times, whose replay takes three writes.
fn long_trace(alloc: Global) -> Option<Vec<u8>> {
    let mut text = joined(alloc, b"modmap-trace 1 1 20000\n", b"0 open\n")?;
    for _ in 0..13_000 {
        text.extend_from_slice(b"0 pause\n").ok()?;
    }
    text.extend_from_slice(b"end 13001\n").ok()?;
    Some(text)
}

/// How many octets a replay of the long trace prints, where the writes with these numbers fail. It ends with status 5,
/// and what it prints is a front of the whole text.
fn printed_before(
    rt: &HostRuntime,
    alloc: Global,
    whole: &[u8],
    failing_writes: &[u64],
) -> Option<usize> {
    let trace = long_trace(alloc)?;
    let (status, part) = replay(rt, alloc, PROJECT, &trace, failing_writes)?;
    if status == 5 && whole.starts_with(part.written()) {
        Some(part.written().len())
    } else {
        None
    }
}

/// Whether a replay of the long trace at which one write fails ends with status 5 and has printed what the writes
/// before it took, which is so many octets at least, though the sink would take the writes after it. The second list
/// has the number of that write, and all later ones.
fn is_cut(
    rt: &HostRuntime,
    alloc: Global,
    one: &[u64],
    all_from: &[u64],
    least: usize,
) -> Option<bool> {
    let trace = long_trace(alloc)?;
    let (done, whole) = replay(rt, alloc, PROJECT, &trace, &[])?;
    let once = printed_before(rt, alloc, whole.written(), one)?;
    let always = printed_before(rt, alloc, whole.written(), all_from)?;
    Some(done == 0 && once == always && once >= least && once < whole.written().len())
}

#[test]
fn replayed_traces(rt: HostRuntime) -> Result<(), Fail> {
    for (trace, status, output) in &REPLAYS {
        let row = Row {
            words: &["replay", "p", "t"],
            project: PROJECT,
            trace,
            status: *status,
            output,
        };
        assert!(rt; ends_so(&rt, rt.alloc(), &row, &[], &[]) == Some(true));
    }
    Ok(())
}

#[test]
fn replays_at_fault(rt: HostRuntime) -> Result<(), Fail> {
    for fault in &FAULTS {
        let row = Row {
            words: fault.words,
            project: PROJECT,
            trace: GONE,
            status: fault.status,
            output: fault.output,
        };
        let ended = ends_so(
            &rt,
            rt.alloc(),
            &row,
            fault.failing_reads,
            fault.failing_writes,
        );
        assert!(rt; ended == Some(true));
    }
    Ok(())
}

#[test]
fn rings_of_three(rt: HostRuntime) -> Result<(), Fail> {
    for (order, output) in &ORDERS {
        assert!(rt; ring_prints(&rt, rt.alloc(), order, output) == Some(true));
    }
    Ok(())
}

#[test]
fn writes_that_fail(rt: HostRuntime) -> Result<(), Fail> {
    assert!(rt; is_cut(&rt, rt.alloc(), &[0], &[0, 1, 2, 3], 0) == Some(true));
    assert!(rt; is_cut(&rt, rt.alloc(), &[1], &[1, 2, 3], 60_000) == Some(true));
    assert!(rt; is_cut(&rt, rt.alloc(), &[2], &[2, 3], 120_000) == Some(true));
    Ok(())
}
