//! The terminal that a token is.

ghost use Rattle.std.specs.Prelude.{◌≡◌, ◌-◌, ◌≤◌, length, slice_range, IfOk};
ghost use Rattle.module_units.specs.Reading.{seen, spelled_as, words, marks};
ghost use Rattle.module_units.specs.declared.terminal.Key.TheVariants.{BuiltIn, Equals};

use crate::terminal::{Key, Terminal};
use mm_outside::{Memory, Text};
use module_lexer::{Token, TokenKind};
use std::alloc::Global;

/// The terminal that a reserved word is. Those that name a type are one terminal.
fn word_terminal(word: &[u8], line: u32) -> Terminal
    ensures { result ≡ spelled_as words BuiltIn word.now line }
{
    if word == b"export".as_slice() {
        Terminal::Export(line)
    } else if word == b"module".as_slice() {
        Terminal::Module(line)
    } else if word == b"import".as_slice() {
        Terminal::Import(line)
    } else if word == b"struct".as_slice() {
        Terminal::Plain(Key::Struct)
    } else if word == b"class".as_slice() {
        Terminal::Plain(Key::Class)
    } else if word == b"using".as_slice() {
        Terminal::Plain(Key::Using)
    } else if word == b"const".as_slice() {
        Terminal::Plain(Key::Const)
    } else {
        Terminal::Plain(Key::BuiltIn)
    }
}

/// The terminal that a punctuator is. The last of them is `=`.
fn mark_terminal(mark: &[u8], line: u32) -> Terminal
    ensures { result ≡ spelled_as marks Equals mark.now line }
{
    if mark == b";".as_slice() {
        Terminal::Plain(Key::Semicolon)
    } else if mark == b":".as_slice() {
        Terminal::Colon(line)
    } else if mark == b".".as_slice() {
        Terminal::Plain(Key::Dot)
    } else if mark == b",".as_slice() {
        Terminal::Plain(Key::Comma)
    } else if mark == b"(".as_slice() {
        Terminal::Plain(Key::LeftParen)
    } else if mark == b")".as_slice() {
        Terminal::Plain(Key::RightParen)
    } else if mark == b"{".as_slice() {
        Terminal::Plain(Key::LeftBrace)
    } else if mark == b"}".as_slice() {
        Terminal::Plain(Key::RightBrace)
    } else if mark == b"*".as_slice() {
        Terminal::Plain(Key::Star)
    } else if mark == b"&".as_slice() {
        Terminal::Plain(Key::Ampersand)
    } else {
        Terminal::Plain(Key::Equals)
    }
}

/// The octets of a string between its marks.
fn between_marks(octets: &[u8]) -> &[u8]
    ensures { result.now ≡ slice_range octets.now 1 (length octets.now - 1) }
{
    if octets.len() < 2 {
        b""
    } else {
        &octets[1..octets.len() - 1]
    }
}

/// The terminal that a token of the text is.
pub(crate) fn terminal_of(alloc: Global, text: &[u8], token: Token) -> Result<Terminal, Memory>
    requires start { token.start ≤ token.end }
    requires end { token.end ≤ length text.now }
    ensures { IfOk result (λ terminal. terminal ≡ seen token.kind (slice_range text.now token.start token.end) token.line) }
{
    let octets = &text[token.start as usize..token.end as usize];
    match token.kind {
        TokenKind::Identifier => Ok(Terminal::Name(Text::of(alloc, octets)?, token.line)),
        TokenKind::Reserved => Ok(word_terminal(octets, token.line)),
        TokenKind::Punctuator => Ok(mark_terminal(octets, token.line)),
        TokenKind::Quoted => Ok(Terminal::Quoted(
            Text::of(alloc, between_marks(octets))?,
            token.line,
        )),
    }
}
