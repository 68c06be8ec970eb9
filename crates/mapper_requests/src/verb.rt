//! The verbs of requests.

ghost use Rattle.std.specs.Prelude.{◌≡◌, find};
ghost use Rattle.std.specs.Str.{bytes_eq};
ghost use Rattle.std.specs.Option.{option_map};
ghost use Rattle.mapper_requests.specs.Requests.{find_row, has_count};
ghost use Rattle.mapper_requests.specs.Working.{row_of};

/// The verb of a request.
#[derive(Clone, Copy, Debug, PartialEq, Eq)]
pub(crate) enum Verb {
    /// `HELLO`
    Hello,
    /// `MODULE-REPO`
    Repo,
    /// `MODULE-EXPORT`
    Export,
    /// `MODULE-IMPORT`
    Import,
    /// `MODULE-COMPILED`
    Compiled,
    /// `INCLUDE-TRANSLATE`
    Translate,
}

/// The verbs, in the order of the table.
const VERBS: [Verb; 6] = [
    Verb::Hello,
    Verb::Repo,
    Verb::Export,
    Verb::Import,
    Verb::Compiled,
    Verb::Translate,
];

/// The first verb that the word is.
fn find_verb(word: &[u8]) -> Option<Verb>
    ensures { result ≡ find (λ verb. bytes_eq word.now (row_of verb).verb) VERBS }
{
    VERBS.iter().copied().find(|verb| word == verb.text())
}

impl Verb {
    /// The verb that the word is.
    pub(crate) fn read(word: &[u8]) -> Option<Verb>
        ensures { option_map row_of result ≡ find_row word.now }
    {
        find_verb(word)
    }

    /// The word that the verb is.
    pub(crate) fn text(self) -> &'static [u8]
        ensures { result.now ≡ (row_of self).verb }
    {
        match self {
            Verb::Hello => b"HELLO",
            Verb::Repo => b"MODULE-REPO",
            Verb::Export => b"MODULE-EXPORT",
            Verb::Import => b"MODULE-IMPORT",
            Verb::Compiled => b"MODULE-COMPILED",
            Verb::Translate => b"INCLUDE-TRANSLATE",
        }
    }

    /// Whether a request with this verb may have so many words, its verb counted.
    pub(crate) fn has_count(self, count: u32) -> bool
        ensures { result ≡ has_count (row_of self) count }
    {
        match self {
            Verb::Hello => count == 3 || count == 4,
            Verb::Repo => count == 1,
            Verb::Export | Verb::Import | Verb::Compiled | Verb::Translate => {
                count == 2 || count == 3
            }
        }
    }
}
