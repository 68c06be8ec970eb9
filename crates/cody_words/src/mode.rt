//! Where the scan of a body stands, and how one octet moves it.

ghost use Rattle.std.specs.Prelude.{◌≡◌, ◌<◌, IfSome};
ghost use Rattle.cody_words.specs.Room.{HasRoom, BeginsRoom, CanStep};
ghost use Rattle.cody_words.specs.Scan.{is_white, is_control, hex_value, letter_value, goes, step_outside, step_between, step_semicolon, step_inside, step_escape, step_digit, step_in};

use crate::reason::Reason;
use crate::words::Words;

/// Where the scan of a body stands.
#[derive(Clone, Copy, Debug)]
pub(crate) enum Mode {
    /// No word is begun.
    Between,
    /// The word so far is one semicolon without quotes.
    Semicolon,
    /// In a word, outside quotes.
    Outside,
    /// In a word, between quotes.
    Inside,
    /// Behind a quoted backslash.
    Escape,
    /// Behind a quoted backslash and one hexadecimal digit of this value.
    Digit(u8),
    /// The first offence stands at this place.
    Refused { at: u32, reason: Reason },
}

/// Whether the octet is white space, SPACE or TAB, which separates words (libcody's protocol text).
pub fn is_white(octet: u8) -> bool
    ensures { result ≡ is_white octet }
{
    octet == b' ' || octet == b'\t'
}

/// Whether the octet is a control octet, which may stand nowhere.
fn is_control(octet: u8) -> bool
    ensures { result ≡ is_control octet }
{
    octet < b' ' && octet != b'\t' || octet == 0x7f
}

/// The value of a hexadecimal digit.
fn hex_value(octet: u8) -> Option<u8>
    ensures value { result ≡ hex_value octet }
    ensures bound { IfSome result (λ value. value < 16) }
{
    match octet {
        b'0'..=b'9' => Some(octet - b'0'),
        b'a'..=b'f' => Some(octet - b'a' + 10),
        _ => None,
    }
}

/// The octet that an escape of one letter stands for.
fn letter_value(octet: u8) -> Option<u8>
    ensures { result ≡ letter_value octet }
{
    match octet {
        b'n' => Some(b'\n'),
        b't' => Some(b'\t'),
        b'\'' => Some(b'\''),
        b'\\' => Some(b'\\'),
        b'_' => Some(b' '),
        _ => None,
    }
}

/// The mode behind an octet that stands outside quotes.
fn outside(octet: u8, at: u32, words: &mut Words) -> Mode
    requires { HasRoom words.old 1 }
    ensures { goes words.new at result ≡ step_outside words.old at octet }
{
    if is_white(octet) {
        Mode::Between
    } else if octet == b'\'' {
        Mode::Inside
    } else if is_control(octet) {
        Mode::Refused {
            at,
            reason: Reason::ControlOctet,
        }
    } else if octet == b'\\' {
        Mode::Refused {
            at,
            reason: Reason::BackslashOutside,
        }
    } else {
        words.push(octet);
        Mode::Outside
    }
}

/// The mode behind an octet that stands between words, or begins one.
fn between(octet: u8, at: u32, words: &mut Words) -> Mode
    requires { BeginsRoom words.old }
    ensures { goes words.new at result ≡ step_between words.old at octet }
{
    if is_white(octet) {
        return Mode::Between;
    }
    words.begin();
    if octet == b';' {
        words.push(octet);
        return Mode::Semicolon;
    }
    outside(octet, at, words)
}

/// The mode behind an octet that follows a semicolon which began a word.
fn semicolon(octet: u8, at: u32, words: &mut Words) -> Mode
    requires room { HasRoom words.old 1 }
    requires behind { 0 < at }
    ensures { goes words.new at result ≡ step_semicolon words.old at octet }
{
    if is_white(octet) {
        Mode::Refused {
            at: at - 1,
            reason: Reason::StraySemicolon,
        }
    } else {
        outside(octet, at, words)
    }
}

/// The mode behind an octet that stands between quotes.
fn inside(octet: u8, at: u32, words: &mut Words) -> Mode
    requires { HasRoom words.old 1 }
    ensures { goes words.new at result ≡ step_inside words.old at octet }
{
    if octet == b'\'' {
        Mode::Outside
    } else if octet == b'\\' {
        Mode::Escape
    } else if is_control(octet) {
        Mode::Refused {
            at,
            reason: Reason::ControlOctet,
        }
    } else {
        words.push(octet);
        Mode::Inside
    }
}

/// The mode behind an octet that follows a quoted backslash.
fn escape(octet: u8, at: u32, words: &mut Words) -> Mode
    requires room { HasRoom words.old 1 }
    requires behind { 0 < at }
    ensures { goes words.new at result ≡ step_escape words.old at (letter_value octet) (hex_value octet) }
{
    if let Some(value) = letter_value(octet) {
        words.push(value);
        return Mode::Inside;
    }
    match hex_value(octet) {
        Some(value) => Mode::Digit(value),
        None => Mode::Refused {
            at: at - 1,
            reason: Reason::UnknownEscape,
        },
    }
}

/// The mode behind an octet that follows the first digit of an escape.
fn digit(first: u8, octet: u8, at: u32, words: &mut Words) -> Mode
    requires room { HasRoom words.old 2 }
    requires value { first < 16 }
    ensures { goes words.new at result ≡ step_digit words.old at first octet (hex_value octet) }
{
    match hex_value(octet) {
        Some(second) => {
            words.push(16 * first + second);
            Mode::Inside
        }
        None => {
            words.push(first);
            inside(octet, at, words)
        }
    }
}

impl Mode {
    /// The mode behind one more octet, the one at place `at`.
    pub(crate) fn after(self, octet: u8, at: u32, words: &mut Words) -> Mode
        requires { CanStep self words.old at }
        ensures { goes words.new at result ≡ step_in self words.old at octet }
    {
        match self {
            Mode::Between => between(octet, at, words),
            Mode::Semicolon => semicolon(octet, at, words),
            Mode::Outside => outside(octet, at, words),
            Mode::Inside => inside(octet, at, words),
            Mode::Escape => escape(octet, at, words),
            Mode::Digit(first) => digit(first, octet, at, words),
            Mode::Refused { .. } => self,
        }
    }
}
