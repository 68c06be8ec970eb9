//! Why a request is refused.

ghost use Rattle.std.specs.Prelude.{◌≡◌, ◌≤◌, length};
ghost use Rattle.mapper_replies.specs.Refusals.{refusal_text, longest_refusal};

/// Why a request is answered with an error (this project's own refusals).
#[derive(Clone, Copy, Debug, PartialEq, Eq)]
pub enum Refusal {
    /// The connection has no accepted hello.
    NotConnected,
    /// The connection has an accepted hello already.
    AlreadyConnected,
    /// The hello has another version than 1.
    Version,
    /// The unit of the hello's ident can't be held any more.
    UnitTaken,
    /// The first word is no verb.
    UnknownRequest,
    /// The verb doesn't have so many words.
    WrongWords,
    /// The version or the flags are no number.
    BadNumber,
    /// The project doesn't declare the name.
    UnknownUnit,
    /// The connection doesn't hold the unit.
    NotYourUnit,
    /// An export of the unit was accepted before.
    AlreadyExported,
    /// No export of the unit was accepted.
    NotExported,
    /// The unit was reported as compiled before.
    AlreadyCompiled,
    /// The imported unit has failed.
    UnitFailed,
    /// The importing unit would wait for itself.
    ImportCycle,
}

impl Refusal {
    /// The text of the refusal, the message of its error reply. It has at most 21 octets.
    pub fn text(self) -> &'static [u8]
        ensures text { result.now ≡ refusal_text self }
        ensures short { length result.now ≤ longest_refusal }
    {
        match self {
            Refusal::NotConnected => b"not connected",
            Refusal::AlreadyConnected => b"already connected",
            Refusal::Version => b"version not supported",
            Refusal::UnitTaken => b"unit taken",
            Refusal::UnknownRequest => b"unknown request",
            Refusal::WrongWords => b"wrong number of words",
            Refusal::BadNumber => b"bad number",
            Refusal::UnknownUnit => b"unknown unit",
            Refusal::NotYourUnit => b"not your unit",
            Refusal::AlreadyExported => b"already exported",
            Refusal::NotExported => b"not exported",
            Refusal::AlreadyCompiled => b"already compiled",
            Refusal::UnitFailed => b"unit failed",
            Refusal::ImportCycle => b"import cycle",
        }
    }
}
