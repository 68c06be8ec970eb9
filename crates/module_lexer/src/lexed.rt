//! The tokens of a source.

ghost use Rattle.std.specs.Prelude.{◌≡◌, ◌+◌, ◌<◌, ◌≤◌, ◌^◌, ◌++◌, length, slice_get, Some, IfOk, IfErr, OnOk};
ghost use Rattle.module_lexer.specs.Tokens.{tokens_at, HasTokens};
ghost use Rattle.module_lexer.specs.Faults.{Refuses};
ghost use Rattle.module_lexer.specs.declared.lexed.LexFault.TheVariants as fault;

use crate::front::front_of;
use crate::lengths::newline_count;
use crate::reason::SourceReason;
use crate::token::{Token, TokenKind};
use mm_outside::{List, Memory};
use std::alloc::Global;
use std::marker::Model;

/// Why a source has no tokens.
#[derive(Clone, Copy, Debug, PartialEq, Eq)]
pub enum LexFault {
    /// The text's first fault, and its line, counted from 1.
    Text {
        /// The line of the place at fault.
        line: u32,
        /// Why the cut can't go on there.
        reason: SourceReason,
    },
    /// Memory ran out. This may come for any text.
    Memory,
}

impl From<Memory> for LexFault {
    ghost from_gives = { λ _ error. error ≡ fault.Memory };

    fn from(_memory: Memory) -> LexFault {
        LexFault::Memory
    }
}

/// Adds the token of this kind, if there is one.
fn push_token(
    tokens: &mut List<Token>,
    kind: Option<TokenKind>,
    place: usize,
    len: usize,
    line: u32,
) -> Result<(), Memory>
    requires room { length tokens.old < 2147483648 }
    requires low { place + len < 2 ^ 32 }
    ensures ok { OnOk result (tokens.new ≡ tokens.old ++ tokens_at kind place len line) }
{
    if let Some(kind) = kind {
        tokens.push(Token {
            kind,
            start: place as u32,
            end: (place + len) as u32,
            line,
        })?;
    }
    Ok(())
}

/// The tokens of a source, in order. Contracts see them as a list.
#[derive(Debug, Drop)]
pub struct Lexed {
    tokens: List<Token>,
}

impl Model for Lexed {
    ghost use Rattle.std.specs.Prelude.{List};
    ghost use Rattle.module_lexer.specs.declared.token.Token.{Token};

    ghost Value = { List Token };

    ghost view = { λ lexed. lexed.tokens };
}

impl Lexed {
    /// The tokens of a text, or its first fault.
    ///
    /// The text is cut from its front by the rules at the head of this crate. It has at most
    /// 2,147,483,648 octets. `Memory` may come for any text. `Text` comes exactly where the cut can't go
    /// on, with one of four reasons and the line of the place at fault:
    ///
    /// - `OctetOutside`: an octet that begins no token, comment or white space, or the first forbidden
    ///   octet in a string;
    /// - `UnclosedComment`: the beginning of a comment without `*/`;
    /// - `UnclosedString`: the beginning of a string where the text ends before its `"`, and no forbidden
    ///   octet stands in it;
    /// - `IdentifierTooLong`: the beginning of an identifier of more than 255 octets.
    pub fn read(alloc: Global, text: &[u8]) -> Result<Lexed, LexFault>
        requires { length text.now ≤ 2147483648 }
        ensures tokens { IfOk result (HasTokens text.now) }
        ensures refused { IfErr result (Refuses text.now) }
    {
        let mut tokens = List::new(alloc);
        let mut place = 0;
        let mut line = 1;
        while place < text.len() {
            let rest = &text[place..];
            match front_of(rest) {
                Ok(front) => {
                    push_token(&mut tokens, front.kind, place, front.len, line)?;
                    line += newline_count(&rest[..front.len]) as u32;
                    place += front.len;
                }
                Err(stop) => {
                    let line = line + newline_count(&rest[..stop.ahead]) as u32;
                    return Err(LexFault::Text {
                        line,
                        reason: stop.reason,
                    });
                }
            }
        }
        Ok(Lexed { tokens })
    }

    /// How many tokens there are.
    pub fn len(&self) -> u32
        ensures { result ≡ length self.now }
    {
        self.tokens.len()
    }

    /// The token of this index, counted from 0.
    pub fn token(&self, index: u32) -> Token
        requires { index < length self.now }
        ensures { slice_get self.now index ≡ Some result }
    {
        *self.tokens.get(index)
    }
}
