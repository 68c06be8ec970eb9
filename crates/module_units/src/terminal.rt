//! The terminal symbols of the grammar.

use mm_outside::Text;

/// An identifier of the source.
#[derive(Drop)]
pub(crate) struct Ident {
    /// Its octets.
    pub(crate) name: Text,
    /// Its line.
    pub(crate) line: u32,
}

/// A reserved word or punctuator whose line is never told.
#[derive(Clone, Copy, Debug, PartialEq, Eq)]
pub(crate) enum Key {
    /// `struct`
    Struct,
    /// `class`
    Class,
    /// `using`
    Using,
    /// `const`
    Const,
    /// A reserved word that names a type.
    BuiltIn,
    /// `;`
    Semicolon,
    /// `.`
    Dot,
    /// `,`
    Comma,
    /// `(`
    LeftParen,
    /// `)`
    RightParen,
    /// `{`
    LeftBrace,
    /// `}`
    RightBrace,
    /// `*`
    Star,
    /// `&`
    Ampersand,
    /// `=`
    Equals,
}

/// A token as the grammar sees it, with its line where a unit tells it or a check is made there.
#[derive(Drop)]
pub(crate) enum Terminal {
    /// An identifier.
    Name(Text, u32),
    /// The octets between the marks of a string.
    Quoted(Text, u32),
    /// `export`
    Export(u32),
    /// `module`
    Module(u32),
    /// `import`
    Import(u32),
    /// `:`
    Colon(u32),
    /// Any other token.
    Plain(Key),
}
