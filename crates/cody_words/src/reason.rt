//! Why a line can't be read.

ghost use Rattle.std.specs.Prelude.{◌≡◌};
ghost use Rattle.cody_words.specs.Reasons.{reason_text};

/// The first offence of a malformed line (this project's own reasons).
#[derive(Clone, Copy, Debug, PartialEq, Eq)]
pub enum Reason {
    /// An octet below 0x20 other than TAB, or 0x7f.
    ControlOctet,
    /// A backslash outside quotes.
    BackslashOutside,
    /// A quoted backslash that begins no escape.
    UnknownEscape,
    /// The word `;` without quotes.
    StraySemicolon,
    /// A quote that isn't closed.
    UnclosedQuote,
    /// More octets than a line may have.
    LineTooLong,
}

impl Reason {
    /// The text that a refusal has for the reason.
    pub fn text(self) -> &'static [u8]
        ensures { result.now ≡ reason_text self }
    {
        match self {
            Reason::ControlOctet => b"control octet",
            Reason::BackslashOutside => b"backslash outside quotes",
            Reason::UnknownEscape => b"unknown escape",
            Reason::StraySemicolon => b"stray semicolon",
            Reason::UnclosedQuote => b"unclosed quote",
            Reason::LineTooLong => b"line too long",
        }
    }
}
