ghost use Rattle.std.specs.Prelude.{◌≤◌};
ghost use Rattle.mapper_requests.specs.Asked.{asked_by, IsGood};
ghost use Rattle.mapper_requests.specs.Writing.{request_room};

use super::*;
use cody_words::{Line, LineBuf, Words, lex_line};
use std::alloc::Global;
use std::test::*;

/// Room for the lines of these tests.
const ROOM: u32 = 1024;

/// The words of the line, which is to have no mark.
fn words_of(alloc: Global, line: &[u8]) -> Option<Words> {
    match lex_line(alloc, line) {
        Ok(Line::Words { words, more: false }) => Some(words),
        _ => None,
    }
}

/// Whether the line is read as this request.
fn reads(alloc: Global, line: &[u8], request: Request<'_>) -> bool {
    match words_of(alloc, line) {
        Some(words) if !words.is_empty() => read(&words) == request,
        _ => false,
    }
}

/// Whether each line is bad for this reason.
fn are_bad(alloc: Global, lines: &[&[u8]], why: Bad) -> bool {
    for line in lines {
        if !reads(alloc, line, Request::Bad { why }) {
            return false;
        }
    }
    true
}

/// Whether the request is written as this line, with the mark and without it, and the line is read back as the
/// request.
fn writes(alloc: Global, request: Request<'_>, line: &[u8]) -> bool
    requires good { IsGood (asked_by request) }
    requires room { request_room (asked_by request) ≤ 512 }
{
    let Ok(mut out) = LineBuf::new(alloc, ROOM) else {
        return false;
    };
    write_into(&request, false, &mut out);
    let ends = matches!(out.octets(), [text @ .., b'\n'] if text == line);
    out.clear();
    write_into(&request, true, &mut out);
    let goes_on = matches!(out.octets(), [text @ .., b' ', b';', b'\n'] if text == line);
    ends && goes_on && reads(alloc, line, request)
}

#[test]
fn unknown_verbs(rt: HostRuntime) {
    let lines: [&[u8]; 7] = [
        b"FOO",
        b"''",
        b"hello 1 GCC",
        b"HELLO1 1 GCC",
        b"MODULE-REP",
        b"MODULE-EXPORTS a",
        b"INVOKE a",
    ];
    assert!(rt; are_bad(rt.alloc(), &lines, Bad::UnknownVerb));
}

#[test]
fn wrong_counts(rt: HostRuntime) {
    let lines: [&[u8]; 12] = [
        b"HELLO",
        b"HELLO 1",
        b"HELLO x GCC a.cc b.cc",
        b"MODULE-REPO x",
        b"MODULE-EXPORT",
        b"MODULE-EXPORT a x y",
        b"MODULE-IMPORT",
        b"MODULE-IMPORT a x y",
        b"MODULE-COMPILED",
        b"MODULE-COMPILED a x y",
        b"INCLUDE-TRANSLATE",
        b"INCLUDE-TRANSLATE a x y",
    ];
    assert!(rt; are_bad(rt.alloc(), &lines, Bad::WrongWords));
}

#[test]
fn bad_numbers(rt: HostRuntime) {
    let lines: [&[u8]; 29] = [
        b"HELLO '' GCC a.cc",
        b"HELLO 00000000001 GCC a.cc",
        b"HELLO 4294967296 GCC a.cc",
        b"HELLO +1 GCC a.cc",
        b"HELLO 1a GCC a.cc",
        b"MODULE-EXPORT a ''",
        b"MODULE-EXPORT a 00000000001",
        b"MODULE-EXPORT a 4294967296",
        b"MODULE-EXPORT a +1",
        b"MODULE-EXPORT a 1a",
        b"MODULE-IMPORT b ''",
        b"MODULE-IMPORT b 00000000001",
        b"MODULE-IMPORT b 4294967296",
        b"MODULE-IMPORT b +1",
        b"MODULE-IMPORT b 1a",
        b"MODULE-IMPORT b x",
        b"MODULE-COMPILED a ''",
        b"MODULE-COMPILED a 00000000001",
        b"MODULE-COMPILED a 4294967296",
        b"MODULE-COMPILED a +1",
        b"MODULE-COMPILED a 1a",
        b"MODULE-COMPILED a 9999999999",
        b"INCLUDE-TRANSLATE ./x.h ''",
        b"INCLUDE-TRANSLATE ./x.h 00000000001",
        b"INCLUDE-TRANSLATE ./x.h 4294967296",
        b"INCLUDE-TRANSLATE ./x.h +1",
        b"INCLUDE-TRANSLATE ./x.h 1a",
        b"INCLUDE-TRANSLATE ./x.h '1 '",
        b"INCLUDE-TRANSLATE ./x.h 1:",
    ];
    assert!(rt; are_bad(rt.alloc(), &lines, Bad::BadNumber));
}

/// Whether numbers with leading zeros, and flags that are given as 0, are read.
fn reads_zeros(alloc: Global) -> bool {
    let hello = Request::Hello {
        version: 1,
        compiler: b"GCC",
        ident: b"",
    };
    let import = Request::Import {
        name: b"b",
        flags: u32::MAX,
    };
    let export = Request::Export {
        name: b"",
        flags: 0,
    };
    reads(alloc, b"HELLO 0000000001 GCC ''", hello)
        && reads(alloc, b"MODULE-IMPORT b 4294967295", import)
        && reads(alloc, b"MODULE-EXPORT '' 00", export)
}

#[test]
fn leading_zeros(rt: HostRuntime) {
    assert!(rt; reads_zeros(rt.alloc()));
}

#[test]
fn written_and_read(rt: HostRuntime) {
    let alloc = rt.alloc();
    let hello = Request::Hello {
        version: 1,
        compiler: b"GCC",
        ident: b"a.cc",
    };
    assert!(rt; writes(alloc, hello, b"HELLO 1 GCC a.cc"));
    let guest = Request::Hello {
        version: 2,
        compiler: b"my compiler",
        ident: b"",
    };
    assert!(rt; writes(alloc, guest, b"HELLO 2 'my compiler'"));
    assert!(rt; writes(alloc, Request::Repo, b"MODULE-REPO"));
    let export = Request::Export {
        name: b"a:p",
        flags: 0,
    };
    assert!(rt; writes(alloc, export, b"MODULE-EXPORT 'a:p'"));
    let import = Request::Import {
        name: b"b",
        flags: 1,
    };
    assert!(rt; writes(alloc, import, b"MODULE-IMPORT b 1"));
    let compiled = Request::Compiled {
        name: b"",
        flags: u32::MAX,
    };
    assert!(rt; writes(alloc, compiled, b"MODULE-COMPILED '' 4294967295"));
    let translate = Request::Translate {
        name: b"./x.h",
        flags: 10,
    };
    assert!(rt; writes(alloc, translate, b"INCLUDE-TRANSLATE ./x.h 10"));
}
