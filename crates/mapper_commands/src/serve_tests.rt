//! Serving over a house in memory, each hall by a thread of its own: what each link is told, the trace and the status.

ghost use Rattle.std.specs.Prelude.{All, IfSome};
ghost use Rattle.mm_outside.specs.MemHall.{IsUnused};
ghost use Rattle.mm_outside.specs.MemLink.{octets_of};
ghost use Rattle.mm_outside.specs.Octets.{IsFresh};

use crate::address::Address;
use crate::alone::run_alone;
use crate::shared::{is_shared, run_shared};
use crate::trace_tests::{PROJECT, files_of, words_of};
use mm_outside::{Back, MemFiles, MemHall, MemHouse, MemLink, MemSink};
use std::alloc::Global;
use std::sync::Wait;
use std::test::Fail;
use std::thread::Threads;

/// A link: what it gives, which of its reads fail, what it is told, and the status that it comes back with.
#[derive(Clone, Copy)]
struct LinkRow {
    input: &'static [u8],
    failing_reads: &'static [u64],
    told: &'static [u8],
    status: u8,
}

/// A hall: its links, and which of its accepts fail.
#[derive(Clone, Copy)]
struct HallRow {
    links: &'static [LinkRow],
    failing_accepts: &'static [u64],
}

/// A run: its words, its halls, which writes of the trace fail, its status, and how its trace begins and ends.
#[derive(Clone, Copy)]
struct Row {
    words: &'static [&'static str],
    halls: &'static [HallRow],
    failing_writes: &'static [u64],
    status: u8,
    begins: &'static [u8],
    ends: &'static [u8],
}

/// A connection that exports the module a and reports it.
const EXPORTS: LinkRow = LinkRow {
    input: b"HELLO 1 GCC a.cc ;\nMODULE-EXPORT a ;\nMODULE-COMPILED a\n",
    failing_reads: &[],
    told: b"HELLO 1 modmap ;\nPATHNAME a.gcm ;\nOK\n",
    status: 0,
};

/// A connection that imports the module a, which another one reports.
const IMPORTS: LinkRow = LinkRow {
    input: b"HELLO 1 GCC main.cc ;\nMODULE-IMPORT a\n",
    failing_reads: &[],
    told: b"HELLO 1 modmap ;\nPATHNAME a.gcm\n",
    status: 0,
};

/// A connection that exports the module b and doesn't report it.
const BEGINS: LinkRow = LinkRow {
    input: b"HELLO 1 GCC b.cc ;\nMODULE-EXPORT b\n",
    failing_reads: &[],
    told: b"HELLO 1 modmap ;\nPATHNAME b.gcm\n",
    status: 0,
};

/// A connection that is lost while it holds the module a.
const LOST: LinkRow = LinkRow {
    input: b"HELLO 1 GCC a.cc\n",
    failing_reads: &[1],
    told: b"HELLO 1 modmap\n",
    status: 4,
};

/// A connection that holds the module b and imports a, which nobody reports.
const FAILS: LinkRow = LinkRow {
    input: b"HELLO 1 GCC b.cc ;\nMODULE-IMPORT a\n",
    failing_reads: &[],
    told: b"HELLO 1 modmap ;\nERROR 'unit failed'\n",
    status: 0,
};

/// Another one.
const FAILS_TOO: LinkRow = LinkRow {
    input: b"HELLO 1 GCC main.cc ;\nMODULE-IMPORT a\n",
    failing_reads: &[],
    told: b"HELLO 1 modmap ;\nERROR 'unit failed'\n",
    status: 0,
};

/// A connection that holds the module a and imports b, which nobody holds.
const STALLS: LinkRow = LinkRow {
    input: b"HELLO 1 GCC a.cc ;\nMODULE-IMPORT b\n",
    failing_reads: &[],
    told: b"HELLO 1 modmap ;\nERROR 'unit failed'\n",
    status: 0,
};

/// A connection that greets.
const GREETS: LinkRow = LinkRow {
    input: b"HELLO 1 GCC a.cc\n",
    failing_reads: &[],
    told: b"HELLO 1 modmap\n",
    status: 0,
};

/// A connection that finds no room in the history.
const TURNED_AWAY: LinkRow = LinkRow {
    input: b"HELLO 1 GCC a.cc\n",
    failing_reads: &[],
    told: b"",
    status: 9,
};

/// A connection whose input ends inside a block.
const CUT: LinkRow = LinkRow {
    input: b"HELLO 1 GCC a.cc ;\n",
    failing_reads: &[],
    told: b"",
    status: 7,
};

/// A hall that gives no link.
const EMPTY: HallRow = HallRow {
    links: &[],
    failing_accepts: &[],
};

/// A hall that gives one link and then another.
const TWO_LINKS: HallRow = HallRow {
    links: &[EXPORTS, BEGINS],
    failing_accepts: &[],
};

/// A hall whose link imports.
const IMPORTER: HallRow = HallRow {
    links: &[IMPORTS],
    failing_accepts: &[],
};

/// Runs, each with the same end in whatever order its threads go on.
const ROWS: [Row; 9] = [
    // Two halls: the importer is beside its exporter, on either side.
    Row {
        words: &["serve", "p", "unix:s", "2", "2", "64"],
        halls: &[TWO_LINKS, IMPORTER],
        failing_writes: &[],
        status: 0,
        begins: b"modmap-trace 1 2 64\n",
        ends: b"\nend 18\n",
    },
    Row {
        words: &["serve", "p", "unix:s", "2", "2", "64"],
        halls: &[IMPORTER, TWO_LINKS],
        failing_writes: &[],
        status: 0,
        begins: b"modmap-trace 1 2 64\n",
        ends: b"\nend 18\n",
    },
    // The numbers of workers, links and entries are all different.
    Row {
        words: &["serve", "p", "tcp:localhost:1", "3", "2", "70"],
        halls: &[EMPTY, IMPORTER, TWO_LINKS],
        failing_writes: &[],
        status: 0,
        begins: b"modmap-trace 1 3 70\n",
        ends: b"\nend 19\n",
    },
    // The holder of a module is lost, and an import of it fails.
    Row {
        words: &["serve", "p", "unix:s", "2", "1", "64"],
        halls: &[
            HallRow {
                links: &[LOST],
                failing_accepts: &[],
            },
            HallRow {
                links: &[FAILS],
                failing_accepts: &[],
            },
        ],
        failing_writes: &[],
        status: 4,
        begins: b"modmap-trace 1 2 64\n",
        ends: b"\nend 11\n",
    },
    // A hall fails at once, and the end of its worker makes the stall.
    Row {
        words: &["serve", "p", "unix:s", "2", "1", "64"],
        halls: &[
            HallRow {
                links: &[STALLS],
                failing_accepts: &[],
            },
            HallRow {
                links: &[],
                failing_accepts: &[0],
            },
        ],
        failing_writes: &[],
        status: 4,
        begins: b"modmap-trace 1 2 64\n",
        ends: b"\nend 7\n",
    },
    // All workers wait for a unit that nobody holds.
    Row {
        words: &["serve", "p", "unix:s", "2", "1", "64"],
        halls: &[
            HallRow {
                links: &[FAILS],
                failing_accepts: &[],
            },
            HallRow {
                links: &[FAILS_TOO],
                failing_accepts: &[],
            },
        ],
        failing_writes: &[],
        status: 0,
        begins: b"modmap-trace 1 2 64\n",
        ends: b"\nend 12\n",
    },
    // The history has room for one connection.
    Row {
        words: &["serve", "p", "unix:s", "1", "2", "5"],
        halls: &[HallRow {
            links: &[GREETS, TURNED_AWAY],
            failing_accepts: &[],
        }],
        failing_writes: &[],
        status: 9,
        begins: b"modmap-trace 1 1 5\n",
        ends: b"\nend 5\n",
    },
    // Of several statuses the least counts.
    Row {
        words: &["serve", "p", "unix:s", "1", "3", "8"],
        halls: &[HallRow {
            links: &[CUT, GREETS, TURNED_AWAY],
            failing_accepts: &[],
        }],
        failing_writes: &[],
        status: 7,
        begins: b"modmap-trace 1 1 8\n",
        ends: b"\nend 7\n",
    },
    // The printing fails at once.
    Row {
        words: &["serve", "p", "unix:s", "1", "1", "64"],
        halls: &[HallRow {
            links: &[GREETS],
            failing_accepts: &[],
        }],
        failing_writes: &[0],
        status: 5,
        begins: b"",
        ends: b"",
    },
];

/// The link of a row.
fn link_of(alloc: Global, row: &LinkRow) -> Option<MemLink>
    ensures { IfSome result (λ link. IsFresh (octets_of link)) }
{
    MemLink::new(alloc, row.input, 200, &[], &[], row.failing_reads, &[]).ok()
}

/// The hall of a row.
fn hall_of(alloc: Global, row: &HallRow) -> Option<MemHall>
    ensures { IfSome result IsUnused }
{
    let mut links = Vec::new(alloc);
    for row in row.links {
        links.push(link_of(alloc, row)?).ok()?;
    }
    MemHall::new(alloc, links, row.failing_accepts).ok()
}

/// The house that gives the halls of these rows. The calls of `bind` with these numbers fail.
fn house_of(alloc: Global, rows: &[HallRow], failing_binds: &[u64]) -> Option<MemHouse> {
    let mut halls = Vec::new(alloc);
    for row in rows {
        halls.push(hall_of(alloc, row)?).ok()?;
    }
    let room = u32::try_from(halls.len()).ok()?;
    MemHouse::new(alloc, halls, Vec::new(alloc), room, failing_binds, &[]).ok()
}

/// Serves over the house. The status.
fn serve_over<R: Threads + Wait + Sync>(
    rt: &R,
    alloc: Global,
    words: &[&str],
    files: &mut MemFiles,
    house: &mut MemHouse,
    out: &mut MemSink,
) -> Option<u8> {
    let words = words_of(alloc, words)?;
    if !is_shared(&words) {
        return None;
    }
    Some(run_shared(rt, alloc, &words, files, house, out))
}

/// Whether the link came back as the row says.
fn is_back(back: &Back<MemLink>, row: &LinkRow) -> bool {
    back.status == row.status && back.link.written() == row.told
}

/// Whether the hall got its links back as the row says.
fn has_all_back(hall: &MemHall, row: &HallRow) -> bool {
    let mut rows = row.links.iter();
    for back in hall.given_back() {
        let Some(row) = rows.next() else {
            return false;
        };
        if !is_back(back, row) {
            return false;
        }
    }
    rows.next().is_none()
}

/// Whether the house got its halls back, and these their links, as the rows say.
fn is_as_it_should(house: &MemHouse, rows: &[HallRow]) -> bool {
    let mut rows = rows.iter();
    for hall in house.halls_back() {
        let Some(row) = rows.next() else {
            return false;
        };
        if !has_all_back(hall, row) {
            return false;
        }
    }
    rows.next().is_none()
}

/// Whether `check` says that the trace is legal.
fn is_legal<R>(rt: &R, alloc: Global, project: &[u8], trace: &[u8]) -> Option<bool> {
    let words = words_of(alloc, &["check", "p", "t"])?;
    let mut files = files_of(alloc, project, trace, &[])?;
    let mut link = MemLink::new(alloc, b"", 0, &[], &[], &[], &[]).ok()?;
    let mut out = MemSink::new(alloc, 200, &[]).ok()?;
    let status = run_alone(rt, alloc, &words, &mut files, &mut link, &mut out);
    Some(status == 0 && out.written().starts_with(b"legal "))
}

/// What a run left.
#[derive(Drop)]
struct Ran {
    house: MemHouse,
    out: MemSink,
    status: u8,
}

/// Serves the halls of the row over the project.
fn run_row<R: Threads + Wait + Sync>(
    rt: &R,
    alloc: Global,
    project: &[u8],
    row: &Row,
) -> Option<Ran> {
    let mut files = files_of(alloc, project, b"", &[])?;
    let mut house = house_of(alloc, row.halls, &[])?;
    let mut out = MemSink::new(alloc, 2_000, row.failing_writes).ok()?;
    let status = serve_over(rt, alloc, row.words, &mut files, &mut house, &mut out)?;
    Some(Ran { house, out, status })
}

/// Whether the status and the trace are those of the row, and the trace, where it is whole, is legal.
fn is_traced<R>(rt: &R, alloc: Global, project: &[u8], row: &Row, ran: &Ran) -> Option<bool> {
    let printed = ran.out.written();
    let traced = printed.starts_with(row.begins) && printed.ends_with(row.ends);
    let legal = !row.failing_writes.is_empty() || is_legal(rt, alloc, project, printed)?;
    Some(ran.status == row.status && traced && legal)
}

/// Whether a run comes to what the row says.
fn comes_to<R: Threads + Wait + Sync>(rt: &R, alloc: Global, row: &Row) -> Option<bool> {
    let ran = run_row(rt, alloc, PROJECT, row)?;
    Some(is_traced(rt, alloc, PROJECT, row, &ran)? && is_as_it_should(&ran.house, row.halls))
}

/// Each run, twenty times over.
#[test]
fn runs_over_halls(rt: HostRuntime) -> Result<(), Fail> {
    let alloc = rt.alloc();
    for _run in 0..20 {
        for row in ROWS {
            assert!(rt;
                comes_to(&rt, alloc, &row) == Some(true),
                "a run of {:?}",
                row.words
            );
        }
    }
    Ok(())
}

/// The project of a ring of three modules, of which the first two import each other too.
const RING: &[u8] = b"modmap-project 1
repo gcm.cache
module x x.cc
module y y.cc
module z z.cc
end
";

/// A connection that holds the module x and imports y, which fails.
const X_TO_Y: LinkRow = LinkRow {
    input: b"HELLO 1 GCC x.cc ;\nMODULE-EXPORT x ;\nMODULE-IMPORT y\n",
    failing_reads: &[],
    told: b"HELLO 1 modmap ;\nPATHNAME x.gcm ;\nERROR 'unit failed'\n",
    status: 0,
};

/// A connection that holds the module y and imports x, which fails.
const Y_TO_X: LinkRow = LinkRow {
    input: b"HELLO 1 GCC y.cc ;\nMODULE-EXPORT y ;\nMODULE-IMPORT x\n",
    failing_reads: &[],
    told: b"HELLO 1 modmap ;\nPATHNAME y.gcm ;\nERROR 'unit failed'\n",
    status: 0,
};

/// A connection that holds the module y and imports z, which fails.
const Y_TO_Z: LinkRow = LinkRow {
    input: b"HELLO 1 GCC y.cc ;\nMODULE-EXPORT y ;\nMODULE-IMPORT z\n",
    failing_reads: &[],
    told: b"HELLO 1 modmap ;\nPATHNAME y.gcm ;\nERROR 'unit failed'\n",
    status: 0,
};

/// A connection that holds the module z and imports x, which fails.
const Z_TO_X: LinkRow = LinkRow {
    input: b"HELLO 1 GCC z.cc ;\nMODULE-EXPORT z ;\nMODULE-IMPORT x\n",
    failing_reads: &[],
    told: b"HELLO 1 modmap ;\nPATHNAME z.gcm ;\nERROR 'unit failed'\n",
    status: 0,
};

/// A hall that gives the first link of each ring.
const X_IMPORTS_Y: HallRow = HallRow {
    links: &[X_TO_Y],
    failing_accepts: &[],
};

/// Rings of two and of three modules over three halls.
const RINGS: [Row; 2] = [
    Row {
        words: &["serve", "p", "unix:s", "3", "1", "64"],
        halls: &[
            X_IMPORTS_Y,
            HallRow {
                links: &[Y_TO_X],
                failing_accepts: &[],
            },
            EMPTY,
        ],
        failing_writes: &[],
        status: 0,
        begins: b"modmap-trace 1 3 64\n",
        ends: b"\nend 15\n",
    },
    Row {
        words: &["serve", "p", "unix:s", "3", "1", "64"],
        halls: &[
            X_IMPORTS_Y,
            HallRow {
                links: &[Y_TO_Z],
                failing_accepts: &[],
            },
            HallRow {
                links: &[Z_TO_X],
                failing_accepts: &[],
            },
        ],
        failing_writes: &[],
        status: 0,
        begins: b"modmap-trace 1 3 64\n",
        ends: b"\nend 21\n",
    },
];

/// Whether a link was told that its import closes a cycle, where its row says that the import fails.
fn is_refused(back: &Back<MemLink>, row: &LinkRow) -> bool {
    let refused = back.link.written().strip_suffix(b"ERROR 'import cycle'\n");
    let failed = row.told.strip_suffix(b"ERROR 'unit failed'\n");
    match (refused, failed) {
        (Some(refused), Some(failed)) => refused == failed && back.status == row.status,
        _ => false,
    }
}

/// Whether the link of the hall was refused; `None` where it came back neither so nor as its row says.
fn closes(hall: &MemHall, row: &HallRow) -> Option<bool> {
    match (hall.given_back(), row.links) {
        ([], []) => Some(false),
        ([back], [row]) if is_back(back, row) => Some(false),
        ([back], [row]) if is_refused(back, row) => Some(true),
        _ => None,
    }
}

/// How many links were refused.
fn count_refused(house: &MemHouse, rows: &[HallRow]) -> Option<u32> {
    let mut refused: u32 = 0;
    let mut rows = rows.iter();
    for hall in house.halls_back() {
        if closes(hall, rows.next()?)? {
            refused = refused.saturating_add(1);
        }
    }
    Some(refused)
}

/// Whether one link of a ring is refused, and the imports of all others fail with it.
fn ends_ring<R: Threads + Wait + Sync>(rt: &R, alloc: Global, row: &Row) -> Option<bool> {
    let ran = run_row(rt, alloc, RING, row)?;
    Some(is_traced(rt, alloc, RING, row, &ran)? && count_refused(&ran.house, row.halls)? == 1)
}

/// Each ring, twenty times over.
#[test]
fn rings_end(rt: HostRuntime) -> Result<(), Fail> {
    let alloc = rt.alloc();
    for _run in 0..20 {
        for row in RINGS {
            assert!(rt; ends_ring(&rt, alloc, &row) == Some(true));
        }
    }
    Ok(())
}

/// A run that accepts no link: its words, its project, which calls of `bind` fail, its status and its message.
#[derive(Clone, Copy)]
struct Stopped {
    words: &'static [&'static str],
    project: &'static [u8],
    failing_binds: &'static [u64],
    status: u8,
    message: &'static [u8],
}

/// Runs over a house that has one hall to give.
const STOPPED: [Stopped; 6] = [
    Stopped {
        words: &["serve", "p", "unix:s", "0", "1", "64"],
        project: PROJECT,
        failing_binds: &[],
        status: 2,
        message: b"modmap: bad words\n",
    },
    Stopped {
        words: &["serve", "p", "unix:", "1", "1", "64"],
        project: PROJECT,
        failing_binds: &[],
        status: 2,
        message: b"modmap: bad words\n",
    },
    Stopped {
        words: &["serve", "q", "unix:s", "1", "1", "64"],
        project: PROJECT,
        failing_binds: &[],
        status: 4,
        message: b"modmap: cannot read q\n",
    },
    Stopped {
        words: &["serve", "p", "unix:s", "1", "1", "64"],
        project: b"modmap-project 1\nrepo gcm.cache\n",
        failing_binds: &[],
        status: 6,
        message: b"modmap: p:3: no end\n",
    },
    Stopped {
        words: &["serve", "p", "unix:s", "1", "1", "64"],
        project: PROJECT,
        failing_binds: &[0],
        status: 4,
        message: b"modmap: cannot open unix:s\n",
    },
    Stopped {
        words: &["serve", "p", "tcp:localhost:1", "2", "1", "64"],
        project: PROJECT,
        failing_binds: &[],
        status: 4,
        message: b"modmap: cannot open tcp:localhost:1\n",
    },
];

/// Whether a run stops as the row says.
fn stops<R: Threads + Wait + Sync>(rt: &R, alloc: Global, row: &Stopped) -> Option<bool> {
    let mut files = files_of(alloc, row.project, b"", &[])?;
    let mut house = house_of(alloc, &[IMPORTER], row.failing_binds)?;
    let mut out = MemSink::new(alloc, 200, &[]).ok()?;
    let status = serve_over(rt, alloc, row.words, &mut files, &mut house, &mut out)?;
    let none = house.halls_back().is_empty();
    Some(status == row.status && out.written() == row.message && none)
}

#[test]
fn runs_that_accept_no_link(rt: HostRuntime) -> Result<(), Fail> {
    let alloc = rt.alloc();
    for row in STOPPED {
        assert!(rt;
            stops(&rt, alloc, &row) == Some(true),
            "a run of {:?}",
            row.words
        );
    }
    Ok(())
}

/// The trace of a run with one connection, which greets.
const GREETED: &[u8] = b"modmap-trace 1 1 64
0 open
0 hello 1 0
0 pause
0 left
- done
end 5
";

/// A hall whose link greets.
const GREETER: HallRow = HallRow {
    links: &[GREETS],
    failing_accepts: &[],
};

/// What a run with that connection prints where the write of this number fails, and its status.
fn print_to<R: Threads + Wait + Sync>(
    rt: &R,
    alloc: Global,
    failing: u64,
) -> Option<(MemSink, u8)> {
    let mut files = files_of(alloc, PROJECT, b"", &[])?;
    let mut house = house_of(alloc, &[GREETER], &[])?;
    let mut out = MemSink::new(alloc, 200, &[failing]).ok()?;
    let words = ["serve", "p", "unix:s", "1", "1", "64"];
    let status = serve_over(rt, alloc, &words, &mut files, &mut house, &mut out)?;
    Some((out, status))
}

/// Each line is a write. The one that fails ends the printing, and the run with 5.
#[test]
fn each_write_of_the_trace_fails(rt: HostRuntime) -> Result<(), Fail> {
    let alloc = rt.alloc();
    for failing in 0..7 {
        let (out, status) = print_to(&rt, alloc, failing).ok_or("memory")?;
        let printed = out.written();
        assert!(rt; status == 5 && printed.len() < GREETED.len() && GREETED.starts_with(printed));
    }
    let (out, status) = print_to(&rt, alloc, 7).ok_or("memory")?;
    assert!(rt; status == 0 && out.written() == GREETED);
    Ok(())
}

/// An address as octets, and as what it is read.
#[derive(Clone, Copy)]
struct Spelling {
    text: &'static [u8],
    place: &'static [u8],
    port: Option<u16>,
}

/// Addresses.
const SPELLINGS: [Spelling; 4] = [
    Spelling {
        text: b"unix:s",
        place: b"s",
        port: None,
    },
    Spelling {
        text: b"unix:tcp:localhost:1",
        place: b"tcp:localhost:1",
        port: None,
    },
    Spelling {
        text: b"tcp:localhost:1",
        place: b"localhost",
        port: Some(1),
    },
    Spelling {
        text: b"tcp:::1:65535",
        place: b"::1",
        port: Some(65_535),
    },
];

/// Octets that spell none.
const UNSPELLED: [&[u8]; 9] = [
    b"",
    b"unix:",
    b"socket",
    b"udp:localhost:1",
    b"tcp:localhost",
    b"tcp::1",
    b"tcp:localhost:0",
    b"tcp:localhost:01",
    b"tcp:localhost:65536",
];

/// Whether the octets are read as the row says.
fn is_read(row: &Spelling) -> bool {
    match (Address::read(row.text), row.port) {
        (Some(Address::Unix(path)), None) => path == row.place,
        (Some(Address::Tcp(host, port)), Some(expected)) => host == row.place && port == expected,
        _ => false,
    }
}

#[test]
fn addresses(rt: HostRuntime) -> Result<(), Fail> {
    for row in SPELLINGS {
        assert!(rt; is_read(&row), "{:?}", row.text);
    }
    for text in UNSPELLED {
        assert!(rt; Address::read(text).is_none(), "{:?}", text);
    }
    Ok(())
}
