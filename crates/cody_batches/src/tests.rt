ghost use Rattle.std.specs.Prelude.{◌≢◌, All, IsTrue};
ghost use Rattle.cody_words.specs.Octets.{newline};

use super::*;
use cody_words::{Reason, Words};
use std::alloc::Global;
use std::test::*;

/// The longest line, and one octet more.
const LONG: usize = 8193;

/// A line of words, not the last of its block.
const MIDDLE: Step = Step::Message { last: false };

/// A line of words that ends its block.
const LAST: Step = Step::Message { last: true };

/// A line that is too long and ends its block.
const TOO_LONG: Step = Step::Malformed {
    at: 8192,
    reason: Reason::LineTooLong,
    last: true,
};

/// Whether the octets bring these answers, in order, and `More` besides.
fn brings(intake: &mut Intake, octets: &[u8], answers: &[Step]) -> bool {
    let mut next = 0;
    for octet in octets {
        let step = intake.feed(*octet);
        if step != Step::More {
            if next >= answers.len() || answers[next] != step {
                return false;
            }
            next += 1;
        }
    }
    next == answers.len()
}

/// Whether these are the same words.
fn are(words: &Words, others: &Words) -> bool {
    if words.len() != others.len() {
        return false;
    }
    for k in 0..words.len() {
        if words.word(k) != others.word(k) {
            return false;
        }
    }
    true
}

/// Whether there are so many words, and this is the first.
fn begin_with(words: &Words, count: u32, first: &[u8]) -> bool {
    words.len() == count && count > 0 && words.word(0) == first
}

/// Whether no octet is a NEWLINE.
fn is_run(octets: &[u8]) -> bool
    ensures { IsTrue result → All (λ octet. octet ≢ newline) octets.now }
{
    octets.iter().all(|octet| *octet != b'\n')
}

/// The answer to a line of which each octet is fed.
fn answer(intake: &mut Intake, line: &[u8]) -> Step {
    for octet in line {
        let _ = intake.feed(*octet);
    }
    intake.feed(b'\n')
}

/// The answer to a line that is fed in two runs.
fn answer_in_two(intake: &mut Intake, line: &[u8], place: usize) -> Option<Step> {
    let (front, back) = line.split_at_checked(place)?;
    if !is_run(front) || !is_run(back) {
        return None;
    }
    intake.feed_run(front);
    intake.feed_run(back);
    Some(intake.feed(b'\n'))
}

/// Whether a line brings the same answer and the same words, fed octet by octet or in two runs, cut at each place.
fn same_however_cut(alloc: Global, line: &[u8]) -> Option<bool> {
    let mut each = Intake::new(alloc).ok()?;
    let mut runs = Intake::new(alloc).ok()?;
    for place in 0..=line.len() {
        let step = answer(&mut each, line);
        if answer_in_two(&mut runs, line, place)? != step || !are(runs.words(), each.words()) {
            return Some(false);
        }
        each.reset();
        runs.reset();
    }
    Some(true)
}

#[test]
fn blocks_of_lines(rt: HostRuntime) -> Result<(), Fail> {
    let unclosed = Step::Malformed {
        at: 16,
        reason: Reason::UnclosedQuote,
        last: false,
    };
    let stray = Step::Malformed {
        at: 4,
        reason: Reason::StraySemicolon,
        last: true,
    };
    let table: [(&[u8], &[Step]); 6] = [
        (b"HELLO 1 GCC a.cc ;\n;\n\nMODULE-REPO\n", &[MIDDLE, LAST]),
        (
            b"HELLO 1 GCC a.cc ;\nMODULE-EXPORT 'a ;\nMODULE-REPO\n",
            &[MIDDLE, unclosed, LAST],
        ),
        (b"FOO ; \n", &[stray]),
        (b"\n ;\n\t\n;\n", &[]),
        (b"FOO\nFOO ;\n;\nFOO\n", &[LAST, MIDDLE, LAST]),
        (b"';'\na;b ;\n\t;\n;;\n", &[LAST, MIDDLE, LAST]),
    ];
    let mut intake = Intake::new(rt.alloc()).ok().ok_or("memory")?;
    for (octets, answers) in table {
        assert!(rt; brings(&mut intake, octets, answers));
        assert!(rt; intake.at_boundary());
    }
    Ok(())
}

#[test]
fn lines_that_are_held(rt: HostRuntime) -> Result<(), Fail> {
    let table: [(&[u8], u32); 6] = [
        (b"", 0),
        (b"MODULE-REPO ;\nFO", 2),
        (b"FOO ;\n;\n", 1),
        (b"FOO\n", 0),
        (b" ", 1),
        (b"FOO ;\nFOO ;\n \n\t", 3),
    ];
    let mut intake = Intake::new(rt.alloc()).ok().ok_or("memory")?;
    for (octets, held) in table {
        for octet in octets {
            let _ = intake.feed(*octet);
        }
        assert_eq!(rt; intake.lines_held(), held);
        assert_eq!(rt; intake.at_boundary(), held == 0);
        intake.reset();
    }
    Ok(())
}

#[test]
fn longest_block(rt: HostRuntime) -> Result<(), Fail> {
    let mut intake = Intake::new(rt.alloc()).ok().ok_or("memory")?;
    for _ in 0..1023 {
        assert!(rt; brings(&mut intake, b"FOO ;\n", &[MIDDLE]));
    }
    assert!(rt; brings(&mut intake, b"FOO\n", &[LAST]));
    for _ in 0..1024 {
        assert!(rt; brings(&mut intake, b"FOO ;\n", &[MIDDLE]));
    }
    let over = Step::BatchTooLong;
    assert!(rt; brings(&mut intake, b"\n ;\nFOO\n", &[over]));
    assert!(rt; brings(&mut intake, b"F\n;\n", &[over, over, over, over]));
    intake.reset();
    assert!(rt; brings(&mut intake, b"FOO\n", &[LAST]));
    Ok(())
}

#[test]
fn lines_in_runs(rt: HostRuntime) {
    let table: [&[u8]; 9] = [
        b"",
        b";",
        b" ;",
        b"FOO' 'bar",
        b"HELLO 1 GCC '\\c3\\a9\\1' ;",
        b"MODULE-EXPORT 'a ;",
        b"FOO ; ",
        b"a ;b ';' '' ; ;",
        b"\t'\\q' \\ \x7f;",
    ];
    for line in table {
        assert!(rt; same_however_cut(rt.alloc(), line) == Some(true));
    }
}

#[test]
fn longest_line(rt: HostRuntime) -> Result<(), Fail> {
    let mut line = [b'x'; LONG];
    line[..14].copy_from_slice(b"MODULE-EXPORT ");
    let mut intake = Intake::new(rt.alloc()).ok().ok_or("memory")?;
    assert!(rt; answer(&mut intake, &line[..8192]) == LAST);
    assert!(rt; begin_with(intake.words(), 2, b"MODULE-EXPORT"));
    for place in 0..=line.len() {
        if place < 40 || place % 100 == 0 || place > 8150 {
            assert!(rt;
                answer_in_two(&mut intake, &line, place) == Some(TOO_LONG),
                "{place}"
            );
        }
    }
    assert!(rt; intake.at_boundary());
    assert!(rt; answer(&mut intake, &line[1..]) == LAST);
    Ok(())
}
