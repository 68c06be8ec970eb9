//! Reading one line.

ghost use Rattle.std.specs.Prelude.{◌≡◌, ◌≤◌, length, IfOk};
ghost use Rattle.std.specs.List.{fold};
ghost use Rattle.cody_words.specs.Lines.{HasBody, longest_line};
ghost use Rattle.cody_words.specs.Scan.{start, step};
ghost use Rattle.cody_words.specs.declared.reader.LexError.TheVariants as error;
ghost use Rattle.cody_words.specs.Reading.{Answers};

use crate::mode::is_white;
use crate::reason::Reason;
use crate::scanner::Scanner;
use crate::words::{LONGEST_LINE, Words};
use mm_outside::Memory;
use std::alloc::Global;

/// A line that isn't malformed, and whether it has the mark that more of its block follows.
#[derive(Debug, Drop)]
pub enum Line {
    /// White space alone, or nothing.
    Blank { more: bool },
    /// At least one word.
    Words { words: Words, more: bool },
}

/// Why a line wasn't read.
#[derive(Clone, Copy, Debug, PartialEq, Eq)]
pub enum LexError {
    /// The line's first offence, its place counted in octets from 0, and whether the line has the
    /// mark.
    Malformed { at: u32, reason: Reason, more: bool },
    /// Memory ran out. This may come for any line.
    Memory,
}

impl From<Memory> for LexError {
    ghost from_gives = { λ _ e. e ≡ error.Memory };

    fn from(_memory: Memory) -> LexError {
        LexError::Memory
    }
}

/// The body of a line, and whether the line carries the mark that more follows.
fn split_mark(raw: &[u8]) -> (&[u8], bool)
    ensures { HasBody raw.now result.1 result.0.now }
{
    match raw {
        b";" => (&[], true),
        [body @ .., white, b';'] if is_white(*white) => (body, true),
        _ => (raw, false),
    }
}

/// What a line says beside its words, and whether it has the mark.
#[derive(Clone, Copy, Debug, PartialEq, Eq)]
pub enum Reading {
    /// White space alone, or nothing.
    Blank { more: bool },
    /// At least one word. The words stand in the scan that was read.
    Words { more: bool },
    /// The first offence, and its place.
    Malformed { at: u32, reason: Reason, more: bool },
}

/// Reads one line, without its NEWLINE: what it says, and whether it has the mark.
pub fn lex_line(alloc: Global, raw: &[u8]) -> Result<Line, LexError>
    ensures { Answers raw.now result }
{
    let (body, more) = split_mark(raw);
    if raw.len() > LONGEST_LINE {
        return Err(LexError::Malformed {
            at: LONGEST_LINE as u32,
            reason: Reason::LineTooLong,
            more,
        });
    }
    let scanner = scan(alloc, body)?;
    match scanner.end(more) {
        Reading::Blank { more } => Ok(Line::Blank { more }),
        Reading::Words { more } => Ok(Line::Words {
            words: scanner.into_words(),
            more,
        }),
        Reading::Malformed { at, reason, more } => Err(LexError::Malformed { at, reason, more }),
    }
}

/// The scan of a whole body.
fn scan(alloc: Global, body: &[u8]) -> Result<Scanner, Memory>
    requires { length body.now ≤ longest_line }
    ensures { IfOk result (λ scanner. scanner ≡ fold step start body.now) }
{
    let mut scanner = Scanner::new(alloc)?;
    for octet in body {
        scanner.push(*octet);
    }
    Ok(scanner)
}
