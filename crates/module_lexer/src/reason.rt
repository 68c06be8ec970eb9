//! Reasons for which a source is refused.

ghost use Rattle.std.specs.Prelude.{◌≡◌};
ghost use Rattle.module_lexer.specs.Reasons.{reason_text};

/// Why a source is refused (this project's own reasons).
///
/// A source is read in steps, and a fault of a step comes before any of a later one:
///
/// 1. the text is cut into tokens;
/// 2. the tokens are read as a unit by the grammar;
/// 3. the unit is checked by itself;
/// 4. the unit is compared with what the project says of it;
/// 5. the units that it imports are looked for, and a missing one is told by its name;
/// 6. the unit is checked against what its imports bring;
/// 7. the names of its view and of its list of exports are counted.
#[derive(Clone, Copy, Debug, PartialEq, Eq)]
pub enum SourceReason {
    /// Step 1: an octet that begins no token, comment or white space, or one that no string may hold.
    OctetOutside,
    /// Step 1: a comment that begins with `/*` and isn't closed.
    UnclosedComment,
    /// Step 1: a string that isn't closed.
    UnclosedString,
    /// Step 1: an identifier of more than 255 octets.
    IdentifierTooLong,
    /// Step 2: a token, or the end of the text, that no unit has there.
    Syntax,
    /// Step 3: an `export` in a unit that is no interface.
    ExportOutside,
    /// Step 3: the import of a partition in a unit of no module.
    PartitionOutside,
    /// Step 3: an imported string that isn't a header name.
    BadHeaderName,
    /// Step 3: a name of more than 512 octets.
    NameTooLong,
    /// Step 3: more than 1,000 imports.
    TooManyImports,
    /// Step 3: a name that is declared twice.
    DuplicateName,
    /// Step 4: another unit than the project says.
    UnitDiffers,
    /// Step 4: an import in a header unit.
    ImportInHeader,
    /// Step 6: an implementation unit that is imported and exported.
    ExportedImplementation,
    /// Step 6: a type that is neither declared before nor imported.
    UnknownType,
    /// Step 7: more than 65,536 names in the view or the list of exports.
    TooManyNames,
}

impl SourceReason {
    /// The text that a report has for the reason.
    pub fn text(self) -> &'static [u8]
        ensures { result.now ≡ reason_text self }
    {
        match self {
            SourceReason::OctetOutside => b"octet outside the subset",
            SourceReason::UnclosedComment => b"unclosed comment",
            SourceReason::UnclosedString => b"unclosed string",
            SourceReason::IdentifierTooLong => b"identifier too long",
            SourceReason::Syntax => b"syntax",
            SourceReason::ExportOutside => b"export outside an interface",
            SourceReason::PartitionOutside => b"partition outside a module",
            SourceReason::BadHeaderName => b"bad header name",
            SourceReason::NameTooLong => b"name too long",
            SourceReason::TooManyImports => b"too many imports",
            SourceReason::DuplicateName => b"duplicate name",
            SourceReason::UnitDiffers => b"unit differs from project",
            SourceReason::ImportInHeader => b"import in a header unit",
            SourceReason::ExportedImplementation => b"exported implementation unit",
            SourceReason::UnknownType => b"unknown type",
            SourceReason::TooManyNames => b"too many names",
        }
    }
}
