//! The classes of octets of the subset, and its reserved words.

ghost use Rattle.std.specs.Prelude.{◌≡◌};
ghost use Rattle.module_lexer.specs.Octets.{is_newline, is_white, is_letter, is_letter_or_digit, is_punctuator, is_string_octet, is_reserved};

/// Whether the octet ends a line.
pub(crate) fn is_newline(octet: u8) -> bool
    ensures { result ≡ is_newline octet }
{
    octet == b'\n'
}

/// Whether the octet is white space.
pub(crate) fn is_white(octet: u8) -> bool
    ensures { result ≡ is_white octet }
{
    matches!(octet, b' ' | b'\t' | b'\r' | b'\n')
}

/// Whether an identifier may begin with the octet.
pub(crate) fn is_letter(octet: u8) -> bool
    ensures { result ≡ is_letter octet }
{
    matches!(octet, b'A'..=b'Z' | b'a'..=b'z' | b'_')
}

/// Whether an identifier may go on with the octet.
pub(crate) fn is_letter_or_digit(octet: u8) -> bool
    ensures { result ≡ is_letter_or_digit octet }
{
    is_letter(octet) || octet.is_ascii_digit()
}

/// Whether the octet is a punctuator.
pub(crate) fn is_punctuator(octet: u8) -> bool
    ensures { result ≡ is_punctuator octet }
{
    b";:.,(){}*&=".contains(&octet)
}

/// Whether the octet may stand in a string.
pub(crate) fn is_string_octet(octet: u8) -> bool
    ensures { result ≡ is_string_octet octet }
{
    octet >= b' ' && octet != b'"' && octet != 0x7f
}

/// Whether the word is reserved.
pub(crate) fn is_reserved(word: &[u8]) -> bool
    ensures { result ≡ is_reserved word.now }
{
    word == b"export".as_slice()
        || word == b"module".as_slice()
        || word == b"import".as_slice()
        || word == b"struct".as_slice()
        || word == b"class".as_slice()
        || word == b"using".as_slice()
        || word == b"const".as_slice()
        || word == b"void".as_slice()
        || word == b"bool".as_slice()
        || word == b"char".as_slice()
        || word == b"int".as_slice()
        || word == b"unsigned".as_slice()
        || word == b"long".as_slice()
}
