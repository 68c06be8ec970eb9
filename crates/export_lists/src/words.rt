//! The words for kinds of declarations.

ghost use Rattle.std.specs.Prelude.{◌≡◌};
ghost use Rattle.export_lists.specs.Words.{kind_word};

use module_units::DeclKind;

/// The word for a kind of declaration.
pub(crate) fn kind_word(kind: DeclKind) -> &'static [u8]
    ensures { result.now ≡ kind_word kind }
{
    match kind {
        DeclKind::Struct => b"struct",
        DeclKind::Class => b"class",
        DeclKind::Alias => b"alias",
        DeclKind::Variable => b"variable",
        DeclKind::Function => b"function",
    }
}
