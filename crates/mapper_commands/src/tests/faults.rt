//! Inputs that end early, reads and writes that move one octet, and each read and write failing in turn.

use super::{BUILT, Row, comes_to};
use crate::trace_tests::PROJECT;
use mm_outside::MemLink;
use std::alloc::Global;
use std::test::Fail;

/// More calls that move one octet than any run of these tables makes.
const ONES: [u32; 256] = [1; 256];

/// One block of five lines.
const FLAGS: Row<'static> = Row {
    project: PROJECT,
    words: &["pipe", "p"],
    input: b"HELLO 1 GCC main.cc ;\nMODULE-IMPORT b 1 ;\nINCLUDE-TRANSLATE ./x.h ;\nINCLUDE-TRANSLATE /usr/include/c++/14/vector ;\nMODULE-IMPORT b x\n",
    output: b"HELLO 1 modmap ;\nPATHNAME b.gcm ;\nBOOL TRUE ;\nBOOL FALSE ;\nERROR 'bad number'\n",
    status: 0,
    message: b"",
};

/// Three blocks of an ordinary compilation.
const ORDINARY: Row<'static> = Row {
    project: BUILT,
    words: &["pipe", "p"],
    input: b"HELLO 1 GCC main.cc ;\nMODULE-REPO\nINCLUDE-TRANSLATE ./x.h\nMODULE-IMPORT b\n",
    output: b"HELLO 1 modmap ;\nPATHNAME gcm.cache\nBOOL TRUE\nPATHNAME b.gcm\n",
    status: 0,
    message: b"",
};

/// What the block of five lines comes to, cut to so many octets.
fn flags_cut_to(octets: usize) -> Row<'static> {
    let message: &'static [u8] = match octets {
        0 => b"",
        1..=22 => b"modmap: input ended inside a block of 1 lines\n",
        23..=42 => b"modmap: input ended inside a block of 2 lines\n",
        43..=68 => b"modmap: input ended inside a block of 3 lines\n",
        69..=115 => b"modmap: input ended inside a block of 4 lines\n",
        _ => b"modmap: input ended inside a block of 5 lines\n",
    };
    Row {
        input: FLAGS.input.get(..octets).unwrap_or(b""),
        output: b"",
        status: if octets == 0 { 0 } else { 7 },
        message,
        ..FLAGS
    }
}

/// What the ordinary compilation comes to where the read of this number fails, counted from 0, at one octet a read.
fn ordinary_up_to_read(read: u64) -> Row<'static> {
    let output: &'static [u8] = match read {
        0..=33 => b"",
        34..=57 => b"HELLO 1 modmap ;\nPATHNAME gcm.cache\n",
        58..=73 => b"HELLO 1 modmap ;\nPATHNAME gcm.cache\nBOOL TRUE\n",
        _ => b"HELLO 1 modmap ;\nPATHNAME gcm.cache\nBOOL TRUE\nPATHNAME b.gcm\n",
    };
    Row {
        output,
        status: 4,
        message: b"modmap: link read failed\n",
        ..ORDINARY
    }
}

/// What the ordinary compilation comes to where the write of this number fails, counted from 0, at one octet a write.
fn ordinary_up_to_write(write: usize) -> Row<'static> {
    Row {
        output: ORDINARY.output.get(..write).unwrap_or(b""),
        status: 5,
        message: b"modmap: write failed\n",
        ..ORDINARY
    }
}

/// Whether a run comes to what the row says, over a link that moves one octet at each call and fails at these.
fn comes_to_by_octets(
    rt: &HostRuntime,
    alloc: Global,
    row: &Row<'_>,
    failing_reads: &[u64],
    failing_writes: &[u64],
) -> Result<bool, Fail> {
    let link = MemLink::new(
        alloc,
        row.input,
        400,
        &ONES,
        &ONES,
        failing_reads,
        failing_writes,
    )?;
    comes_to(rt, alloc, row, link)
}

#[test]
fn ends_at_each_octet(rt: HostRuntime) -> Result<(), Fail> {
    assert_eq!(rt; FLAGS.input.len(), 133);
    for octets in 0..133 {
        let row = flags_cut_to(octets);
        assert!(rt;
            comes_to_by_octets(&rt, rt.alloc(), &row, &[], &[])?,
            "{octets}"
        );
    }
    Ok(())
}

#[test]
fn parted_at_each_octet(rt: HostRuntime) -> Result<(), Fail> {
    for octets in 1..134 {
        let link = MemLink::new(rt.alloc(), FLAGS.input, 400, &[octets], &[octets], &[], &[])?;
        assert!(rt; comes_to(&rt, rt.alloc(), &FLAGS, link)?, "{octets}");
    }
    assert!(rt; comes_to_by_octets(&rt, rt.alloc(), &FLAGS, &[], &[])?);
    Ok(())
}

#[test]
fn each_read_fails(rt: HostRuntime) -> Result<(), Fail> {
    for read in 0..75 {
        let row = ordinary_up_to_read(read);
        assert!(rt;
            comes_to_by_octets(&rt, rt.alloc(), &row, &[read], &[])?,
            "{read}"
        );
    }
    Ok(())
}

#[test]
fn each_write_fails(rt: HostRuntime) -> Result<(), Fail> {
    assert_eq!(rt; ORDINARY.output.len(), 61);
    for write in 0..61 {
        let row = ordinary_up_to_write(write);
        assert!(rt;
            comes_to_by_octets(&rt, rt.alloc(), &row, &[], &[write as u64])?,
            "{write}"
        );
    }
    Ok(())
}
