ghost use Rattle.std.specs.Prelude.{◌≤◌, length};

use super::*;
use cody_words::Reason;
use histories::Answer;
use mapper_replies::Refusal;
use mm_outside::MemLink;
use std::alloc::Global;
use std::test::*;
use unit_registry::Project;

/// A project with a module, a header and a plain unit.
const PROJECT: &[u8] =
    b"modmap-project 1\nrepo gcm.cache\nmodule a a.cc\nheader ./x/../y.h y.h\nplain main.cc\nend\n";

/// A project with a repository of 80 octets.
const LONG: &[u8] =
    b"modmap-project 1\nrepo abcdefghijabcdefghijabcdefghijabcdefghijabcdefghijabcdefghijabcdefghijabcdefghij\nend\n";

/// The line of that repository with the mark, 92 octets.
const MARKED: &[u8] =
    b"PATHNAME abcdefghijabcdefghijabcdefghijabcdefghijabcdefghijabcdefghijabcdefghijabcdefghij ;\n";

/// The same line without the mark.
const LAST: &[u8] =
    b"PATHNAME abcdefghijabcdefghijabcdefghijabcdefghijabcdefghijabcdefghijabcdefghijabcdefghij\n";

/// How lines are answered, and the lines in which they are.
const LINES: [(LineReply, bool, &[u8]); 8] = [
    (
        LineReply::Answer(Answer::Hello),
        true,
        b"HELLO 1 modmap ;\n",
    ),
    (
        LineReply::Answer(Answer::Repo),
        false,
        b"PATHNAME gcm.cache\n",
    ),
    (
        LineReply::Answer(Answer::Path(0)),
        false,
        b"PATHNAME a.gcm\n",
    ),
    (
        LineReply::Answer(Answer::Path(1)),
        true,
        b"PATHNAME ',/x/,,/y.h.gcm' ;\n",
    ),
    (LineReply::Answer(Answer::Bool(true)), false, b"BOOL TRUE\n"),
    (
        LineReply::Answer(Answer::Refused(Refusal::ImportCycle)),
        false,
        b"ERROR 'import cycle'\n",
    ),
    (
        LineReply::Malformed {
            number: 2,
            reason: Reason::UnclosedQuote,
        },
        true,
        b"ERROR 'line 2: unclosed quote' ;\n",
    ),
    (
        LineReply::Refused { first: 2 },
        false,
        b"ERROR 'batch refused: line 2'\n",
    ),
];

fn project_of(alloc: Global, text: &[u8]) -> Option<Project>
    requires { length text.now ≤ 1000 }
{
    Project::read(alloc, text).ok()
}

/// Whether the line is written so.
fn writes(
    buffer: &mut ReplyBuf,
    project: &Project,
    reply: LineReply,
    more: bool,
    text: &[u8],
) -> bool {
    buffer.clear();
    buffer.write(project, reply, more);
    buffer.octets() == text
}

#[test]
fn lines(rt: HostRuntime) -> Result<(), Fail> {
    let project = project_of(rt.alloc(), PROJECT).ok_or("memory")?;
    let mut buffer = ReplyBuf::new(rt.alloc(), 1).ok().ok_or("memory")?;
    for (reply, more, text) in LINES {
        assert!(rt;
            writes(&mut buffer, &project, reply, more, text),
            "{text:?}"
        );
    }
    Ok(())
}

/// Whether the replies go out so over the link.
fn sends(
    alloc: Global,
    project: &Project,
    replies: &[LineReply],
    mut link: MemLink,
    written: &[u8],
) -> bool {
    if replies.len() > 1024 {
        return false;
    }
    let Ok(mut buffer) = ReplyBuf::new(alloc, 1024) else {
        return false;
    };
    buffer.send(project, replies, &mut link).is_ok() && link.written() == written
}

/// Whether so many replies and one more, the repository each, go out in one write: the link takes the first write
/// whole, and refuses a second one.
fn is_one_write(alloc: Global, project: &Project, count: usize) -> bool {
    let Ok(link) = MemLink::new(alloc, b"", 100_000, &[], &[], &[], &[1]) else {
        return false;
    };
    let Ok(mut written) = MARKED.repeat(alloc, count) else {
        return false;
    };
    let Ok(mut replies) = vec![in alloc; LineReply::Answer(Answer::Repo); count] else {
        return false;
    };
    replies.push(LineReply::Answer(Answer::Repo)).is_ok()
        && written.extend_from_slice(LAST).is_ok()
        && sends(alloc, project, &replies, link, &written)
}

#[test]
fn sent_lines(rt: HostRuntime) -> Result<(), Fail> {
    let project = project_of(rt.alloc(), PROJECT).ok_or("memory")?;
    let link = MemLink::new(rt.alloc(), b"", 1024, &[], &[5], &[], &[])
        .ok()
        .ok_or("memory")?;
    let replies = [
        LineReply::Answer(Answer::Hello),
        LineReply::Answer(Answer::Repo),
    ];
    let written = b"HELLO 1 modmap ;\nPATHNAME gcm.cache\n";
    assert!(rt; sends(rt.alloc(), &project, &replies, link, written));
    Ok(())
}

#[test]
fn answers_in_one_write(rt: HostRuntime) -> Result<(), Fail> {
    let project = project_of(rt.alloc(), LONG).ok_or("memory")?;
    assert!(rt; is_one_write(rt.alloc(), &project, 0));
    assert!(rt; is_one_write(rt.alloc(), &project, 1));
    assert!(rt; is_one_write(rt.alloc(), &project, 1023));
    Ok(())
}
