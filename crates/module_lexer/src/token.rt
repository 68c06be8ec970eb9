//! A token of a source.

/// What a token is.
#[derive(Clone, Copy, Debug, PartialEq, Eq)]
pub enum TokenKind {
    /// A word that isn't reserved.
    Identifier,
    /// A reserved word.
    Reserved,
    /// One of `; : . , ( ) { } * & =`.
    Punctuator,
    /// A string, its quotes included.
    Quoted,
}

/// A token. Its text is the slice of the source from `start` to before `end`, counted in octets from
/// 0. `line` is the line of its start, counted from 1.
#[derive(Clone, Copy, Debug, PartialEq, Eq)]
pub struct Token {
    /// What it is.
    pub kind: TokenKind,
    /// The place of its first octet.
    pub start: u32,
    /// The place behind its last octet.
    pub end: u32,
    /// The line of its start.
    pub line: u32,
}
