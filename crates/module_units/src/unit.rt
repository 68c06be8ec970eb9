//! A unit, and the reading of a source.

ghost use Rattle.std.specs.Prelude.{◌≡◌, ◌<◌, ◌≤◌, length, slice_range, IfOk, IfErr};
ghost use Rattle.module_lexer.specs.Tokens.{HasTokens};
ghost use Rattle.module_units.specs.Machine.{ParserHasRoom};
ghost use Rattle.module_units.specs.Reading.{seen, ReadsUnit, RefusesSource};
ghost use Rattle.module_units.specs.Readers.{IsReader, TakesOnLine, HasRead, finished};

use crate::parts::{Decl, Import, UnitKind};
use crate::places::{Parser, Place, StepError};
use crate::reader::Reader;
use crate::spelling::terminal_of;
use mm_outside::{List, Memory, Text};
use module_lexer::{LexFault, Lexed, SourceReason, Token, end_line};
use std::alloc::Global;

/// A unit of the subset.
#[derive(Debug, Drop)]
pub struct Unit {
    /// Its kind.
    pub kind: UnitKind,
    /// The name of its module, without the partition. It is empty for a plain unit.
    pub module: Text,
    /// The name of its partition. It is empty where the unit is no partition.
    pub partition: Text,
    /// The line of the first token of its module declaration, and 1 without one.
    pub module_line: u32,
    /// Its imports in order. The first of an implementation unit is its own module.
    pub imports: List<Import>,
    /// Its declarations in order.
    pub decls: List<Decl>,
}

/// Why a source is no unit.
#[derive(Clone, Copy, Debug, PartialEq, Eq)]
pub enum SourceError {
    /// The source's first fault, and its line, counted from 1.
    Text {
        /// The line of the place at fault.
        line: u32,
        /// Why the source is no unit there.
        reason: SourceReason,
    },
    /// Memory ran out. This may come for any source.
    Memory,
}

impl From<Memory> for SourceError {
    ghost use Rattle.std.specs.Prelude.{◌≡◌};
    ghost use Rattle.module_units.specs.declared.unit.SourceError.TheVariants as errors;

    ghost from_gives = { λ _ error. error ≡ errors.Memory };

    fn from(_memory: Memory) -> SourceError {
        SourceError::Memory
    }
}

impl From<LexFault> for SourceError {
    ghost use Rattle.std.specs.Prelude.{◌≡◌};
    ghost use Rattle.module_units.specs.Reading.{of_lexical};

    ghost from_gives = { λ fault error. error ≡ of_lexical fault };

    fn from(fault: LexFault) -> SourceError {
        match fault {
            LexFault::Text { line, reason } => SourceError::Text { line, reason },
            LexFault::Memory => SourceError::Memory,
        }
    }
}

/// One token more of the text.
fn read_token(
    alloc: Global,
    text: &[u8],
    reader: Reader,
    token: Token,
) -> Result<Reader, SourceError>
    requires start { token.start ≤ token.end }
    requires end { token.end ≤ length text.now }
    requires reader { IsReader reader }
    requires room { ParserHasRoom reader.parser }
    ensures { TakesOnLine reader (seen token.kind (slice_range text.now token.start token.end) token.line) token.line result }
{
    let terminal = terminal_of(alloc, text, token)?;
    match reader.take(alloc, terminal) {
        Ok(reader) => Ok(reader),
        Err(StepError::Syntax) => Err(SourceError::Text {
            line: token.line,
            reason: SourceReason::Syntax,
        }),
        Err(StepError::Memory) => Err(SourceError::Memory),
    }
}

/// Reads all tokens of the text.
fn read_tokens(alloc: Global, text: &[u8], lexed: &Lexed) -> Result<Reader, SourceError>
    requires small { length text.now ≤ 2147483648 }
    requires tokens { HasTokens text.now lexed.now }
    ensures read { IfOk result (HasRead text.now lexed.now (length lexed.now)) }
    ensures refused { IfErr result (RefusesSource text.now) }
{
    let mut reader = Reader::new(alloc);
    for index in 0..lexed.len() {
        reader = read_token(alloc, text, reader, lexed.token(index))?;
    }
    Ok(reader)
}

/// The unit that was read, where the text ends on this line.
fn finish(reader: Reader, line: u32) -> Result<Unit, SourceError>
    ensures { result ≡ finished reader.parser.place reader.fault reader.parser.unit line }
{
    let Reader { parser, fault, .. } = reader;
    let Parser { unit, place } = parser;
    match (place, fault) {
        (Place::Between(_), None) => Ok(unit),
        (Place::Between(_), Some(fault)) => Err(SourceError::Text {
            line: fault.line,
            reason: fault.reason,
        }),
        _ => Err(SourceError::Text {
            line,
            reason: SourceReason::Syntax,
        }),
    }
}

impl Unit {
    /// The unit that a source is, or the source's first fault.
    ///
    /// A source has at most 2,147,483,648 octets. They are read as tokens first, then the tokens as a
    /// unit by the grammar, and the unit is checked last. A fault of an earlier step comes first, and in
    /// a step the first by place. `Syntax` is told on the line of the first token that no unit has after
    /// the tokens before it, or on the line of the text's end. The checks are `ExportOutside` on the line of the `export`,
    /// `PartitionOutside` on that of the `:`, `BadHeaderName` on that of the string, `NameTooLong` on
    /// that of the token behind `module` or `import`, `TooManyImports` on that of the `import`, and
    /// `DuplicateName` on that of the later identifier.
    pub fn read(alloc: Global, text: &[u8]) -> Result<Unit, SourceError>
        requires { length text.now ≤ 2147483648 }
        ensures unit { IfOk result (ReadsUnit text.now) }
        ensures refused { IfErr result (RefusesSource text.now) }
    {
        let lexed = Lexed::read(alloc, text)?;
        let reader = read_tokens(alloc, text, &lexed)?;
        finish(reader, end_line(text))
    }
}
