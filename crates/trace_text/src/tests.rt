//! Traces by their lines, their faults and their legality.

ghost use Rattle.histories.specs.Entries.{IsEntry};

use super::*;
use cody_words::LineBuf;
use histories::Entry;
use mapper_requests::Bad;
use std::alloc::Global;
use unit_registry::{Act, Project};

/// A trace in which an import waits until its unit is compiled.
const WAIT: &[u8] = b"modmap-trace 1 2 40
0 open
0 hello 1 0
0 import 1
0 pause
1 open
1 hello 1 1
1 export 1
1 compiled 1
end 8
";

/// Its entries.
const WAIT_ENTRIES: [Entry; 8] = [
    Entry {
        conn: 0,
        act: Act::Open,
    },
    Entry {
        conn: 0,
        act: Act::Hello {
            version: 1,
            unit: Some(0),
        },
    },
    Entry {
        conn: 0,
        act: Act::Import {
            unit: Some(1),
            name_only: false,
        },
    },
    Entry {
        conn: 0,
        act: Act::Pause,
    },
    Entry {
        conn: 1,
        act: Act::Open,
    },
    Entry {
        conn: 1,
        act: Act::Hello {
            version: 1,
            unit: Some(1),
        },
    },
    Entry {
        conn: 1,
        act: Act::Export { unit: Some(1) },
    },
    Entry {
        conn: 1,
        act: Act::Compiled {
            unit: Some(1),
            stored: false,
        },
    },
];

/// A project of two modules, a header unit and a plain unit.
const PROJECT: &[u8] = b"modmap-project 1
repo gcm.cache
module a a.cc
module b b.cc
header ./x.h x.h
plain main.cc
end
";

/// The trace of the text, or where it is at fault.
fn read_text(alloc: Global, octets: &[u8]) -> Result<Trace, TraceError> {
    if octets.len() > 2147483648 {
        return Err(TraceError::Memory);
    }
    read(alloc, octets)
}

/// Whether the text is read as these numbers and entries.
fn reads(alloc: Global, octets: &[u8], workers: u32, limit: u32, entries: &[Entry]) -> bool {
    match read_text(alloc, octets) {
        Ok(trace) => {
            trace.workers == workers && trace.limit == limit && trace.entries.as_slice() == entries
        }
        Err(_) => false,
    }
}

/// Whether the text is refused at this line, for this reason.
fn refuses(alloc: Global, octets: &[u8], at: u32, why: TraceReason) -> bool {
    match read_text(alloc, octets) {
        Err(TraceError::Text { line, reason }) => line == at && reason == why,
        _ => false,
    }
}

/// Whether the line is an entry's, behind a head and before an end.
fn has_form(alloc: Global, line: &[u8]) -> bool {
    match with_line(alloc, line) {
        Some(text) => read_text(alloc, &text).is_ok(),
        None => false,
    }
}

/// Whether the line is refused as syntax, behind a head and before an end.
fn lacks_form(alloc: Global, line: &[u8]) -> bool {
    match with_line(alloc, line) {
        Some(text) => refuses(alloc, &text, 2, TraceReason::Syntax),
        None => false,
    }
}

/// A trace with this line for its entry.
fn with_line(alloc: Global, line: &[u8]) -> Option<Vec<u8>> {
    let mut text = Vec::from_slice(alloc, b"modmap-trace 1 1 9\n").ok()?;
    text.extend_from_slice(line).ok()?;
    text.extend_from_slice(b"\nend 1\n").ok()?;
    Some(text)
}

/// What the check says of a trace, behind its head and without its end.
fn checked(alloc: Global, octets: &[u8]) -> Option<Result<(), CheckError>> {
    if octets.len() > 2147483648 {
        return None;
    }
    let project = Project::read(alloc, PROJECT).ok()?;
    let trace = read(alloc, octets).ok()?;
    Some(check_legal(alloc, &project, &trace))
}

/// Whether the trace is illegal at this place, for this reason.
fn is_illegal(alloc: Global, octets: &[u8], at: u32, why: IllegalReason) -> bool {
    match checked(alloc, octets) {
        Some(Err(CheckError::Illegal { place, reason })) => place == at && reason == why,
        _ => false,
    }
}

/// Whether the trace is legal.
fn is_legal(alloc: Global, octets: &[u8]) -> bool {
    match checked(alloc, octets) {
        Some(Ok(())) => true,
        _ => false,
    }
}

/// Whether the entry is written as this line.
fn writes(alloc: Global, entry: &Entry, line: &[u8]) -> bool
    requires { IsEntry entry.now }
{
    let Ok(mut out) = LineBuf::new(alloc, 64) else {
        return false;
    };
    write_entry(entry, &mut out);
    out.octets() == line
}

/// Whether the first and the last line are written so.
fn writes_ends(alloc: Global) -> bool {
    let Ok(mut out) = LineBuf::new(alloc, 128) else {
        return false;
    };
    write_head(2, 40, &mut out);
    write_end(8, &mut out);
    out.octets() == b"modmap-trace 1 2 40\nend 8\n".as_slice()
}

/// Texts with the first line at fault.
const FAULTS: [(&[u8], u32, TraceReason); 10] = [
    (b"", 1, TraceReason::NoEnd),
    (b"\n", 1, TraceReason::Syntax),
    (b"modmap-trace 1 1 9", 2, TraceReason::NoEnd),
    (b"modmap-trace 1 1 9\n0 open\n", 3, TraceReason::NoEnd),
    (
        b"modmap-trace 1 1 9\n0 open\n0 left\n0 repo\nend 4\n",
        5,
        TraceReason::WrongCount,
    ),
    (
        b"modmap-trace 1 1 9\n0 open\nend 01\n",
        3,
        TraceReason::Syntax,
    ),
    (
        b"modmap-trace 1 1 9\nend 1\nx\n",
        2,
        TraceReason::WrongCount,
    ),
    (b"modmap-trace 1 1 9\nend 0\nx", 3, TraceReason::MoreText),
    (b"modmap-trace 1 1 9\nend 0\n\n", 3, TraceReason::MoreText),
    (b"modmap-trace 1 1 9\n\nend 0\n", 2, TraceReason::Syntax),
];

/// Texts whose first line is at fault.
const HEADS: [&[u8]; 8] = [
    b"modmap-trace 2 1 9\nend 0\n",
    b"modmap-trace 1 0 9\nend 0\n",
    b"modmap-trace 1 01 9\nend 0\n",
    b"modmap-trace 1 16385 16385\nend 0\n",
    b"modmap-trace 1 9 8\nend 0\n",
    b"modmap-trace 1 1 67108865\nend 0\n",
    b"modmap-trace 1 1 9 \nend 0\n",
    b"modmap-trace  1 1 9\nend 0\n",
];

/// Lines of entries.
const FORMS: [&[u8]; 8] = [
    b"4294967294 hello 4294967295 4294967295",
    b"0 hello 2 guest",
    b"0 export ?",
    b"0 name 3",
    b"0 stored 3",
    b"0 translate yes",
    b"0 bad number",
    b"- done",
];

/// Lines that aren't entries'.
const NO_FORMS: [&[u8]; 12] = [
    b"4294967295 open",
    b"00 open",
    b"- open",
    b"0 done",
    b"0 stored ?",
    b"0 hello 1 ?",
    b"0 export guest",
    b"0 import 4294967296",
    b"0  open",
    b"0 open ",
    b"0 Open",
    b"0 hello 1 0 0",
];

/// Legal traces.
const LEGAL: [&[u8]; 5] = [
    WAIT,
    b"modmap-trace 1 1 9\n0 open\n0 left\nend 2\n",
    b"modmap-trace 1 1 9\n0 open\n0 hello 1 3\nend 2\n",
    b"modmap-trace 1 1 4\n0 open\n0 repo\n0 left\n- done\nend 4\n",
    b"modmap-trace 1 1 2\n- done\nend 1\n",
];

/// Illegal traces, with the first place and its reason.
const ILLEGAL: [(&[u8], u32, IllegalReason); 8] = [
    (
        b"modmap-trace 1 1 9\n0 open\n0 left\n0 repo\nend 3\n",
        2,
        IllegalReason::NotOpen,
    ),
    (
        b"modmap-trace 1 1 9\n1 open\nend 1\n",
        0,
        IllegalReason::OutOfOrder,
    ),
    (
        b"modmap-trace 1 1 9\n0 open\n- done\nend 2\n",
        1,
        IllegalReason::Crowded,
    ),
    (
        b"modmap-trace 1 1 9\n0 open\n1 open\nend 2\n",
        1,
        IllegalReason::Crowded,
    ),
    (
        b"modmap-trace 1 1 9\n0 open\n0 hello 1 4\nend 2\n",
        1,
        IllegalReason::OutOfRange,
    ),
    (
        b"modmap-trace 1 1 9\n0 open\n0 import 3\nend 2\n",
        1,
        IllegalReason::OutOfRange,
    ),
    (
        b"modmap-trace 1 1 4\n0 open\n0 repo\n0 repo\nend 3\n",
        2,
        IllegalReason::Full,
    ),
    (
        b"modmap-trace 1 1 2\n0 open\nend 1\n",
        0,
        IllegalReason::Full,
    ),
];

#[test]
fn worked_trace(rt: HostRuntime) {
    let alloc = rt.alloc();
    assert!(rt; reads(alloc, WAIT, 2, 40, &WAIT_ENTRIES));
    assert!(rt; writes_ends(alloc));
}

#[test]
fn last_newline(rt: HostRuntime) {
    let alloc = rt.alloc();
    let entries = [Entry {
        conn: 0,
        act: Act::Open,
    }];
    assert!(rt;
        reads(
            alloc,
            b"modmap-trace 1 1 9\n0 open\nend 1\n",
            1,
            9,
            &entries
        )
    );
    assert!(rt; reads(alloc, b"modmap-trace 1 1 9\n0 open\nend 1", 1, 9, &entries));
    assert!(rt;
        reads(
            alloc,
            b"modmap-trace 1 16384 67108864\nend 0",
            16384,
            67108864,
            &[]
        )
    );
}

#[test]
fn faults(rt: HostRuntime) {
    for (text, line, reason) in FAULTS {
        assert!(rt; refuses(rt.alloc(), text, line, reason));
    }
    for text in HEADS {
        assert!(rt; refuses(rt.alloc(), text, 1, TraceReason::Syntax));
    }
}

#[test]
fn forms_of_entries(rt: HostRuntime) {
    for line in FORMS {
        assert!(rt; has_form(rt.alloc(), line));
    }
    for line in NO_FORMS {
        assert!(rt; lacks_form(rt.alloc(), line));
    }
}

#[test]
fn written_lines(rt: HostRuntime) {
    let alloc = rt.alloc();
    let done = Entry {
        conn: 4294967295,
        act: Act::Done,
    };
    assert!(rt; writes(alloc, &done, b"- done\n"));
    let stored = Entry {
        conn: 7,
        act: Act::Compiled {
            unit: Some(12),
            stored: true,
        },
    };
    assert!(rt; writes(alloc, &stored, b"7 stored 12\n"));
    let guest = Entry {
        conn: 4294967294,
        act: Act::Hello {
            version: 4294967295,
            unit: None,
        },
    };
    assert!(rt; writes(alloc, &guest, b"4294967294 hello 4294967295 guest\n"));
    let bad = Entry {
        conn: 0,
        act: Act::Bad {
            why: Bad::WrongWords,
        },
    };
    assert!(rt; writes(alloc, &bad, b"0 bad words\n"));
}

#[test]
fn checked_traces(rt: HostRuntime) {
    for text in LEGAL {
        assert!(rt; is_legal(rt.alloc(), text));
    }
    for (text, place, reason) in ILLEGAL {
        assert!(rt; is_illegal(rt.alloc(), text, place, reason));
    }
}
