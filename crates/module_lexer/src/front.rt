//! The piece at the front of what is left of a source.

ghost use Rattle.std.specs.Prelude.{◌≡◌, ◌<◌, length, slice_index, true};
ghost use Rattle.module_lexer.specs.Octets.{is_letter};
ghost use Rattle.module_lexer.specs.Fronts.{FrontAnswer};

use crate::lengths::{close_at, line_len, string_len, word_len};
use crate::octets::{is_letter, is_punctuator, is_reserved, is_white};
use crate::reason::SourceReason;
use crate::token::TokenKind;

/// The most octets of an identifier.
const LONGEST_IDENTIFIER: usize = 255;

/// How many octets the piece has, and what token it is, if it is one.
#[derive(Clone, Copy)]
pub(crate) struct Front {
    pub(crate) kind: Option<TokenKind>,
    pub(crate) len: usize,
}

/// Why no piece stands at the front, and how many octets behind the front the fault stands.
#[derive(Clone, Copy)]
pub(crate) struct Stop {
    pub(crate) reason: SourceReason,
    pub(crate) ahead: usize,
}

/// The piece at the front where it begins with a letter.
fn word_front(rest: &[u8]) -> Result<Front, Stop>
    requires some { 0 < length rest.now }
    requires letter { is_letter (slice_index rest.now 0) ≡ true }
    ensures { FrontAnswer result rest.now }
{
    let len = word_len(rest);
    if len > LONGEST_IDENTIFIER {
        return Err(Stop {
            reason: SourceReason::IdentifierTooLong,
            ahead: 0,
        });
    }
    let kind = if is_reserved(&rest[..len]) {
        TokenKind::Reserved
    } else {
        TokenKind::Identifier
    };
    Ok(Front {
        kind: Some(kind),
        len,
    })
}

/// The piece at the front where it begins with a quote.
fn quoted_front(rest: &[u8]) -> Result<Front, Stop>
    requires some { 0 < length rest.now }
    requires quote { slice_index rest.now 0 ≡ 34 }
    ensures { FrontAnswer result rest.now }
{
    let body = string_len(&rest[1..]);
    if 1 + body == rest.len() {
        Err(Stop {
            reason: SourceReason::UnclosedString,
            ahead: 0,
        })
    } else if rest[1 + body] == b'"' {
        Ok(Front {
            kind: Some(TokenKind::Quoted),
            len: body + 2,
        })
    } else {
        Err(Stop {
            reason: SourceReason::OctetOutside,
            ahead: 1 + body,
        })
    }
}

/// The piece at the front where it begins with a slash and a star.
fn block_front(rest: &[u8]) -> Result<Front, Stop>
    requires some { 1 < length rest.now }
    requires slash { slice_index rest.now 0 ≡ 47 }
    requires star { slice_index rest.now 1 ≡ 42 }
    ensures { FrontAnswer result rest.now }
{
    match close_at(&rest[2..]) {
        Some(body) => Ok(Front {
            kind: None,
            len: body + 4,
        }),
        None => Err(Stop {
            reason: SourceReason::UnclosedComment,
            ahead: 0,
        }),
    }
}

/// The piece at the front where it begins with a slash.
fn comment_front(rest: &[u8]) -> Result<Front, Stop>
    requires some { 0 < length rest.now }
    requires slash { slice_index rest.now 0 ≡ 47 }
    ensures { FrontAnswer result rest.now }
{
    let outside = Stop {
        reason: SourceReason::OctetOutside,
        ahead: 0,
    };
    if rest.len() == 1 {
        return Err(outside);
    }
    if rest[1] == b'/' {
        let body = line_len(&rest[2..]);
        Ok(Front {
            kind: None,
            len: body + 2,
        })
    } else if rest[1] == b'*' {
        block_front(rest)
    } else {
        Err(outside)
    }
}

/// The piece at the front, or why none begins there.
pub(crate) fn front_of(rest: &[u8]) -> Result<Front, Stop>
    requires { 0 < length rest.now }
    ensures { FrontAnswer result rest.now }
{
    let first = rest[0];
    if is_letter(first) {
        word_front(rest)
    } else if first == b'"' {
        quoted_front(rest)
    } else if first == b'/' {
        comment_front(rest)
    } else if is_white(first) {
        Ok(Front { kind: None, len: 1 })
    } else if is_punctuator(first) {
        Ok(Front {
            kind: Some(TokenKind::Punctuator),
            len: 1,
        })
    } else {
        Err(Stop {
            reason: SourceReason::OctetOutside,
            ahead: 0,
        })
    }
}
