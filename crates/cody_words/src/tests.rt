ghost use Rattle.std.specs.Prelude.{◌+◌, ◌*◌, ◌≤◌, ◌++◌, ◌∷◌, [], length, codes};
ghost use Rattle.cody_words.specs.Octets.{newline};
ghost use Rattle.cody_words.specs.Buffers.{Appends};
ghost use Rattle.cody_words.specs.Canonical.{quote};

use super::*;
use std::alloc::Global;
use std::test::*;

/// Whether the line says these words, with this mark.
fn says(alloc: Global, raw: &[u8], words: &[&[u8]], marked: bool) -> bool {
    match lex_line(alloc, raw) {
        Ok(Line::Words { words: found, more }) => more == marked && are(&found, words),
        _ => false,
    }
}

/// Whether the words are these.
fn are(found: &Words, words: &[&[u8]]) -> bool {
    if found.len() as usize != words.len() {
        return false;
    }
    for k in 0..found.len() {
        if found.word(k) != words[k as usize] {
            return false;
        }
    }
    true
}

/// Whether the line is blank, with this mark.
fn is_blank(alloc: Global, raw: &[u8], marked: bool) -> bool {
    matches!(lex_line(alloc, raw), Ok(Line::Blank { more }) if more == marked)
}

/// Whether the line is refused at this place, for this reason.
fn refuses(alloc: Global, raw: &[u8], place: u32, why: Reason, marked: bool) -> bool {
    match lex_line(alloc, raw) {
        Err(LexError::Malformed { at, reason, more }) => {
            at == place && reason == why && more == marked
        }
        _ => false,
    }
}

/// Room for the words of any line.
const MOST_ROOM: u32 = 49_155;

/// Whether the line's words are written as this canonical line.
fn rewrites(alloc: Global, raw: &[u8], canonical: &[u8]) -> bool {
    let Ok(Line::Words { words, more }) = lex_line(alloc, raw) else {
        return false;
    };
    let Ok(mut out) = LineBuf::new(alloc, MOST_ROOM) else {
        return false;
    };
    if out.spare() < words.room() {
        return false;
    }
    write_line(&words, more, &mut out);
    out.octets() == canonical
}

/// Appends a refusal with this message.
#[tactic(auto, unfolding(crate::specs::Canonical::is_bare_letter))]
fn write_refusal(message: &[u8], out: &mut LineBuf)
    requires { 3 * length message.now + 24 ≤ out.old.spare }
    ensures text { Appends out.old out.new (codes "ERROR " ++ quote message.now ++ newline ∷ []) }
    ensures room { out.old.spare ≤ out.new.spare + (3 * length message.now + 24) }
{
    write_words(&[b"ERROR", message], false, out);
}

/// Whether the number is written so.
fn writes_number(alloc: Global, number: u32, digits: &[u8]) -> bool {
    match LineBuf::new(alloc, 10) {
        Ok(mut out) => {
            write_number(number, &mut out);
            out.octets() == digits
        }
        Err(_) => false,
    }
}

#[test]
fn words_of_lines(rt: HostRuntime) {
    let alloc = rt.alloc();
    assert!(rt; says(alloc, b"FOO' 'bar", &[b"FOO bar"], false));
    let ident: &[u8] = b"\xc3\xa9\x01";
    assert!(rt;
        says(
            alloc,
            br"HELLO 1 GCC '\c3\a9\1'",
            &[b"HELLO", b"1", b"GCC", ident],
            false
        )
    );
    assert!(rt;
        says(
            alloc,
            b"HELLO 1 GCC a.cc ;",
            &[b"HELLO", b"1", b"GCC", b"a.cc"],
            true
        )
    );
    assert!(rt; says(alloc, b"\t a;b  ';' ''\t;", &[b"a;b", b";", b""], true));
    assert!(rt;
        says(
            alloc,
            br"'\n\t\'\\\_\1x\1f'",
            &[b"\n\t'\\ \x01x\x1f"],
            false
        )
    );
}

#[test]
fn blank_lines(rt: HostRuntime) {
    let alloc = rt.alloc();
    assert!(rt; is_blank(alloc, b"", false));
    assert!(rt; is_blank(alloc, b" \t ", false));
    assert!(rt; is_blank(alloc, b";", true));
    assert!(rt; is_blank(alloc, b"\t  ;", true));
}

#[test]
fn malformed_lines(rt: HostRuntime) {
    let alloc = rt.alloc();
    assert!(rt;
        refuses(
            alloc,
            b"MODULE-EXPORT 'a ;",
            16,
            Reason::UnclosedQuote,
            true
        )
    );
    assert!(rt; refuses(alloc, b"FOO ; ", 4, Reason::StraySemicolon, false));
    assert!(rt; refuses(alloc, b"; ;", 0, Reason::StraySemicolon, true));
    assert!(rt; refuses(alloc, br"a\n", 1, Reason::BackslashOutside, false));
    assert!(rt; refuses(alloc, br"'a\", 2, Reason::UnknownEscape, false));
    assert!(rt; refuses(alloc, br"'\x", 1, Reason::UnknownEscape, false));
    assert!(rt; refuses(alloc, b"a\x01'", 1, Reason::ControlOctet, false));
    assert!(rt; refuses(alloc, b"'a\x7f", 2, Reason::ControlOctet, false));
}

#[test]
fn long_lines(rt: HostRuntime) -> Result<(), Fail> {
    let alloc = rt.alloc();
    let mut raw = Vec::from_slice(alloc, b"MODULE-EXPORT ")
        .ok()
        .ok_or("memory")?;
    for _ in 0..8178 {
        raw.push(b'x').ok().ok_or("memory")?;
    }
    assert!(rt; matches!(lex_line(alloc, &raw), Ok(Line::Words { .. })));
    raw.push(b'x').ok().ok_or("memory")?;
    assert!(rt; refuses(alloc, &raw, 8192, Reason::LineTooLong, false));
    Ok(())
}

#[test]
fn canonical_words(rt: HostRuntime) -> Result<(), Fail> {
    let alloc = rt.alloc();
    let mut out = LineBuf::new(alloc, 300).ok().ok_or("memory")?;
    write_word(b"a.cc", &mut out);
    write_word(b"", &mut out);
    write_word(b"unclosed quote", &mut out);
    write_word(b"\n\t'\\\x01\x7f\xc3", &mut out);
    assert_eq!(rt;
        out.octets(),
        b"a.cc'''unclosed quote''\\n\\t\\'\\\\\\01\\7f\xc3'".as_slice()
    );
    out.clear();
    write_refusal(b"line 2: unclosed quote", &mut out);
    write_words(&[b"MODULE-REPO"], true, &mut out);
    assert_eq!(rt;
        out.octets(),
        b"ERROR 'line 2: unclosed quote'\nMODULE-REPO ;\n".as_slice()
    );
    assert!(rt; rewrites(alloc, b"\tFOO' 'bar  a\t''  ;", b"'FOO bar' a '' ;\n"));
    Ok(())
}

#[test]
fn numbers(rt: HostRuntime) {
    let alloc = rt.alloc();
    assert!(rt; writes_number(alloc, 0, b"0"));
    assert!(rt; writes_number(alloc, 9, b"9"));
    assert!(rt; writes_number(alloc, 10, b"10"));
    assert!(rt; writes_number(alloc, 4294967295, b"4294967295"));
}

#[test]
fn reason_texts(rt: HostRuntime) {
    assert_eq!(rt; Reason::ControlOctet.text(), b"control octet".as_slice());
    assert_eq!(rt;
        Reason::BackslashOutside.text(),
        b"backslash outside quotes".as_slice()
    );
    assert_eq!(rt; Reason::UnknownEscape.text(), b"unknown escape".as_slice());
    assert_eq!(rt;
        Reason::StraySemicolon.text(),
        b"stray semicolon".as_slice()
    );
    assert_eq!(rt; Reason::UnclosedQuote.text(), b"unclosed quote".as_slice());
    assert_eq!(rt; Reason::LineTooLong.text(), b"line too long".as_slice());
}

#[test]
fn ample_memory(rt: HostRuntime) {
    let alloc = rt.alloc();
    assert!(rt; matches!(LineBuf::new(alloc, 8), Ok(out) if out.spare() == 8));
    assert!(rt; matches!(Words::new(alloc), Ok(words) if words.len() == 0));
    assert!(rt; matches!(Scanner::new(alloc), Ok(scanner) if scanner.at() == 0));
    assert!(rt; matches!(lex_line(alloc, b"FOO"), Ok(Line::Words { more: false, .. })));
}
