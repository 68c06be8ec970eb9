ghost use Rattle.std.specs.Prelude.{◌≤◌};
ghost use Rattle.mapper_replies.specs.Values.{value_of, reply_room};

use super::*;
use cody_words::{Line, LineBuf, Scanner, lex_line};
use std::alloc::Global;
use std::test::*;

/// Whether the line's words are this reply, or no reply.
fn reads(alloc: Global, line: &[u8], reply: Result<Reply<'_>, NotAReply>) -> bool {
    match lex_line(alloc, line) {
        Ok(Line::Words { words, .. }) => read(&words) == reply,
        _ => false,
    }
}

/// Whether the reply is written as this line, and read back from it.
fn writes(alloc: Global, reply: &Reply<'_>, more: bool, line: &[u8]) -> bool
    requires { reply_room (value_of reply.now) ≤ 200 }
{
    let Ok(mut out) = LineBuf::new(alloc, 200) else {
        return false;
    };
    write_into(reply, more, &mut out);
    match out.octets() {
        [text @ .., b'\n'] => text == line && reads(alloc, text, Ok(*reply)),
        _ => false,
    }
}

#[test]
fn replies(rt: HostRuntime) {
    let alloc = rt.alloc();
    let builder: &[u8] = b"x y";
    let path: &[u8] = b"gcm.cache";
    let message: &[u8] = b"";
    for (line, reply) in [
        (
            b"HELLO 1 'x y'".as_slice(),
            Reply::Hello { builder, flags: 0 },
        ),
        (
            b"HELLO 1 'x y' 0000000007 ;",
            Reply::Hello { builder, flags: 7 },
        ),
        (
            b"'HELLO' 1 'x y' 4294967295",
            Reply::Hello {
                builder,
                flags: u32::MAX,
            },
        ),
        (b"PATHNAME gcm.cache ;", Reply::Pathname(path)),
        (b"\tOK ", Reply::Done),
        (b"BOOL TRUE", Reply::Bool(true)),
        (b"BOOL FALSE ;", Reply::Bool(false)),
        (b"ERROR ''", Reply::Error(message)),
    ] {
        assert!(rt; reads(alloc, line, Ok(reply)), "{line:?}");
    }
}

#[test]
fn no_replies(rt: HostRuntime) {
    let alloc = rt.alloc();
    for line in [
        b"OK x".as_slice(),
        b"ok",
        b"HELLO",
        b"HELLO 1",
        b"HELLO 01 x",
        b"HELLO 2 x",
        b"HELLO 1 b ''",
        b"HELLO 1 b 4294967296",
        b"HELLO 1 b 00000000007",
        b"HELLO 1 b +7",
        b"HELLO 1 b 7 7",
        b"PATHNAME",
        b"PATHNAME a b",
        b"BOOL",
        b"BOOL true",
        b"BOOL TRUE TRUE",
        b"ERROR",
        b"ERROR unknown request",
        b"MODULE-REPO",
    ] {
        assert!(rt; reads(alloc, line, Err(NotAReply)), "{line:?}");
    }
    assert!(rt; matches!(Scanner::new(alloc), Ok(scan) if read(scan.words()) == Err(NotAReply)));
}

#[test]
fn written(rt: HostRuntime) {
    let alloc = rt.alloc();
    let builder: &[u8] = b"modmap";
    let hello = Reply::Hello { builder, flags: 0 };
    assert!(rt; writes(alloc, &hello, true, b"HELLO 1 modmap ;"));
    let flagged = Reply::Hello {
        builder,
        flags: u32::MAX,
    };
    let path = Reply::Pathname(b"gcm.cache");
    let error = Reply::Error(b"bad number");
    assert!(rt; writes(alloc, &flagged, false, b"HELLO 1 modmap 4294967295"));
    assert!(rt; writes(alloc, &path, false, b"PATHNAME gcm.cache"));
    assert!(rt; writes(alloc, &Reply::Done, true, b"OK ;"));
    assert!(rt; writes(alloc, &Reply::Bool(true), true, b"BOOL TRUE ;"));
    assert!(rt; writes(alloc, &Reply::Bool(false), false, b"BOOL FALSE"));
    assert!(rt; writes(alloc, &error, false, b"ERROR 'bad number'"));
}

#[test]
fn refusal_texts(rt: HostRuntime) {
    for (refusal, text) in [
        (Refusal::NotConnected, b"not connected".as_slice()),
        (Refusal::AlreadyConnected, b"already connected"),
        (Refusal::Version, b"version not supported"),
        (Refusal::UnitTaken, b"unit taken"),
        (Refusal::UnknownRequest, b"unknown request"),
        (Refusal::WrongWords, b"wrong number of words"),
        (Refusal::BadNumber, b"bad number"),
        (Refusal::UnknownUnit, b"unknown unit"),
        (Refusal::NotYourUnit, b"not your unit"),
        (Refusal::AlreadyExported, b"already exported"),
        (Refusal::NotExported, b"not exported"),
        (Refusal::AlreadyCompiled, b"already compiled"),
        (Refusal::UnitFailed, b"unit failed"),
        (Refusal::ImportCycle, b"import cycle"),
    ] {
        assert_eq!(rt; refusal.text(), text);
    }
}
