//! Lines of a source.

ghost use Rattle.std.specs.Prelude.{◌≡◌, ◌≤◌, length};
ghost use Rattle.module_lexer.specs.Tokens.{line_of};

use crate::lengths::newline_count;

/// The line of the end of a text, counted from 1: 1 plus the number of its NEWLINEs.
///
/// A text has at most 2,147,483,648 octets.
pub fn end_line(text: &[u8]) -> u32
    requires { length text.now ≤ 2147483648 }
    ensures { result ≡ line_of text.now (length text.now) }
{
    1 + newline_count(text) as u32
}
