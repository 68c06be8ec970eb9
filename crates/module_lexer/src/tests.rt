use super::*;
use crate::token::TokenKind::{Identifier, Punctuator, Quoted, Reserved};
use std::alloc::Global;
use std::test::*;

/// The most octets that a text of these tests may have.
const LONGEST_TEXT: usize = 300;

/// A token of a test: its kind, start, end and line.
type TokenRow = (TokenKind, u32, u32, u32);

/// Texts and their tokens.
const WHOLE: [(&[u8], &[TokenRow]); 14] = [
    (b"", &[]),
    (b" \t\r\n", &[]),
    (
        b"export module m;",
        &[
            (Reserved, 0, 6, 1),
            (Reserved, 7, 13, 1),
            (Identifier, 14, 15, 1),
            (Punctuator, 15, 16, 1),
        ],
    ),
    (
        b"a\r\nb\n\nc",
        &[
            (Identifier, 0, 1, 1),
            (Identifier, 3, 4, 2),
            (Identifier, 6, 7, 4),
        ],
    ),
    (b"a\rb", &[(Identifier, 0, 1, 1), (Identifier, 2, 3, 1)]),
    (b"_9\tints", &[(Identifier, 0, 2, 1), (Identifier, 3, 7, 1)]),
    (
        b"\tint\r*\n\r&",
        &[
            (Reserved, 1, 4, 1),
            (Punctuator, 5, 6, 1),
            (Punctuator, 8, 9, 2),
        ],
    ),
    (b"\"./h h\"", &[(Quoted, 0, 7, 1)]),
    (b"\"\"\"/*\"", &[(Quoted, 0, 2, 1), (Quoted, 2, 6, 1)]),
    (b"x// y\r /* z", &[(Identifier, 0, 1, 1)]),
    (b"// \x01\"\ny", &[(Identifier, 6, 7, 2)]),
    (
        b"/**/a/*\n/* * / */b",
        &[(Identifier, 4, 5, 1), (Identifier, 17, 18, 2)],
    ),
    (b"/*/ */c/***/", &[(Identifier, 6, 7, 1)]),
    (
        b"export/**/import//",
        &[(Reserved, 0, 6, 1), (Reserved, 10, 16, 1)],
    ),
];

/// Texts of one token, or of tokens of one octet each, and the kind of all of them.
const ALIKE: [(&[u8], TokenKind, u32); 18] = [
    (b"export", Reserved, 1),
    (b"module", Reserved, 1),
    (b"import", Reserved, 1),
    (b"struct", Reserved, 1),
    (b"class", Reserved, 1),
    (b"using", Reserved, 1),
    (b"const", Reserved, 1),
    (b"void", Reserved, 1),
    (b"bool", Reserved, 1),
    (b"char", Reserved, 1),
    (b"int", Reserved, 1),
    (b"unsigned", Reserved, 1),
    (b"long", Reserved, 1),
    (b";:.,(){}*&=", Punctuator, 11),
    (b"Export", Identifier, 1),
    (b"exports", Identifier, 1),
    (b"_", Identifier, 1),
    (b"\"//\x80\xff \\\"", Quoted, 1),
];

/// Texts, and the line and reason of their first fault.
const REFUSED: [(&[u8], u32, &[u8]); 27] = [
    (b"a\n#", 2, b"octet outside the subset"),
    (b"9", 1, b"octet outside the subset"),
    (b"\na / b", 2, b"octet outside the subset"),
    (b"\n\n/", 3, b"octet outside the subset"),
    (b"/* /* */ */", 1, b"octet outside the subset"),
    (b"// \n\x0b", 2, b"octet outside the subset"),
    (b"a\x80", 1, b"octet outside the subset"),
    (b"a\n\"b\\\"\nc\"d", 3, b"unclosed string"),
    (b"\n\"a\nb\"", 2, b"octet outside the subset"),
    (b"\"a\t\"", 1, b"octet outside the subset"),
    (b"\n\n\"a\r\"", 3, b"octet outside the subset"),
    (b"\n\"\x7f", 2, b"octet outside the subset"),
    (b"/* x", 1, b"unclosed comment"),
    (b"\n/*/", 2, b"unclosed comment"),
    (b"a\n/*\n\n*", 2, b"unclosed comment"),
    (b"a /*", 1, b"unclosed comment"),
    (b"\n\n\"", 3, b"unclosed string"),
    (b"import \"./h", 1, b"unclosed string"),
    (b"\"a\" \"b", 1, b"unclosed string"),
    (b"\"\n/*", 1, b"octet outside the subset"),
    (b"/*\n*/\"", 2, b"unclosed string"),
    (b"//\"\n$ \"", 2, b"octet outside the subset"),
    (b"$\n\"", 1, b"octet outside the subset"),
    (b"\n/* $ \"", 2, b"unclosed comment"),
    (b"\"/*\n$", 1, b"octet outside the subset"),
    (b"\"//\" \"//", 1, b"unclosed string"),
    (b"\"\"\n\"\"\"", 2, b"unclosed string"),
];

/// Whether the text has these tokens.
fn has_tokens(alloc: Global, text: &[u8], tokens: &[TokenRow]) -> bool {
    if text.len() > LONGEST_TEXT {
        return false;
    }
    let Ok(lexed) = Lexed::read(alloc, text) else {
        return false;
    };
    if lexed.len() as usize != tokens.len() {
        return false;
    }
    for index in 0..lexed.len() {
        let (kind, start, end, line) = tokens[index as usize];
        let expected = Token {
            kind,
            start,
            end,
            line,
        };
        if lexed.token(index) != expected {
            return false;
        }
    }
    true
}

/// Whether the text has so many tokens, all of the kind and on line 1.
fn has_alike(alloc: Global, text: &[u8], kind: TokenKind, count: u32) -> bool {
    if text.len() > LONGEST_TEXT {
        return false;
    }
    let Ok(lexed) = Lexed::read(alloc, text) else {
        return false;
    };
    for index in 0..lexed.len() {
        let token = lexed.token(index);
        if token.kind != kind || token.line != 1 {
            return false;
        }
    }
    lexed.len() == count
}

/// Whether the text is refused on this line, for the reason of this text.
fn is_refused(alloc: Global, text: &[u8], line: u32, reason: &[u8]) -> bool {
    if text.len() > LONGEST_TEXT {
        return false;
    }
    match Lexed::read(alloc, text) {
        Err(
            LexFault::Text {
                line: told,
                reason: why,
            },
        ) => told == line && why.text() == reason,
        _ => false,
    }
}

#[test]
fn cuts_texts_into_tokens(rt: HostRuntime) {
    for (text, tokens) in WHOLE {
        assert!(rt; has_tokens(rt.alloc(), text, tokens), "{text:?}");
    }
    for (text, kind, count) in ALIKE {
        assert!(rt; has_alike(rt.alloc(), text, kind, count), "{text:?}");
    }
}

#[test]
fn refuses_texts_at_their_fault(rt: HostRuntime) {
    for (text, line, reason) in REFUSED {
        assert!(rt; is_refused(rt.alloc(), text, line, reason), "{text:?}");
    }
}

#[test]
fn knows_the_longest_identifier(rt: HostRuntime) {
    let mut text = [b'i'; 258];
    text[0] = b'\n';
    text[257] = b'#';
    assert!(rt; has_tokens(rt.alloc(), &text[..256], &[(Identifier, 1, 256, 2)]));
    assert!(rt; is_refused(rt.alloc(), &text[..257], 2, b"identifier too long"));
    assert!(rt; is_refused(rt.alloc(), &text, 2, b"identifier too long"));
    assert!(rt; is_refused(rt.alloc(), &text[257..], 1, b"octet outside the subset"));
}

#[test]
fn counts_the_lines_of_a_text(rt: HostRuntime) {
    let table: [(&[u8], u32); 4] = [(b"", 1), (b"a", 1), (b"\n", 2), (b"a\r\n\"\n//", 3)];
    for (text, line) in table {
        assert!(rt;
            text.len() <= LONGEST_TEXT && end_line(text) == line,
            "{text:?}"
        );
    }
}
