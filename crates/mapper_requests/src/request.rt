//! What a request is, and why words may be none.

/// A request, with the texts that it lends. Contracts see what `asked_by` makes of it.
#[derive(Clone, Copy, Debug, PartialEq, Eq)]
pub enum Request<'a> {
    /// `HELLO`: a compiler asks to be connected.
    Hello {
        /// The version of the protocol.
        version: u32,
        /// The compiler's own word for itself.
        compiler: &'a [u8],
        /// Which source is compiled, or nothing where the compiler doesn't say.
        ident: &'a [u8],
    },
    /// `MODULE-REPO`: where compiled interfaces are kept.
    Repo,
    /// `MODULE-EXPORT`: where the interface that is being compiled goes.
    Export {
        /// The module's or header unit's name.
        name: &'a [u8],
        /// Flags, which mean nothing for this request.
        flags: u32,
    },
    /// `MODULE-IMPORT`: where an imported interface stands.
    Import {
        /// The module's or header unit's name.
        name: &'a [u8],
        /// Bit 0 is NameOnly: only the name is wanted and not the contents. Other bits mean nothing.
        flags: u32,
    },
    /// `MODULE-COMPILED`: the exported interface is compiled.
    Compiled {
        /// The module's or header unit's name.
        name: &'a [u8],
        /// Flags, which mean nothing for this request.
        flags: u32,
    },
    /// `INCLUDE-TRANSLATE`: whether an include is to be an import.
    Translate {
        /// The header's name.
        name: &'a [u8],
        /// Flags, which mean nothing for this request.
        flags: u32,
    },
    /// Words that are none of these requests.
    Bad {
        /// Why they are none.
        why: Bad,
    },
}

/// Why words are no request. The first that applies in this order is the cause (this project's own).
#[derive(Clone, Copy, Debug, PartialEq, Eq)]
pub enum Bad {
    /// The first word is no verb of a request.
    UnknownVerb,
    /// The verb has another count of words.
    WrongWords,
    /// The version or the flags are no number.
    BadNumber,
}
