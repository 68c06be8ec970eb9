//! The first words of the commands.

ghost use Rattle.std.specs.Prelude.{◌≡◌, find};
ghost use Rattle.std.specs.Str.{bytes_eq};
ghost use Rattle.mapper_commands.specs.Commands.{verb_text};

/// The first word of a command (this project's own).
#[derive(Clone, Copy, Debug, PartialEq, Eq)]
pub enum Verb {
    /// `pipe`
    Pipe,
    /// `check`
    Check,
    /// `replay`
    Replay,
    /// `list`
    List,
    /// `gen`
    Gen,
}

/// The verbs.
const VERBS: [Verb; 5] = [Verb::Pipe, Verb::Check, Verb::Replay, Verb::List, Verb::Gen];

impl Verb {
    /// The verb that the word is, if it is one.
    pub fn read(word: &[u8]) -> Option<Verb>
        ensures { result ≡ find (λ verb. bytes_eq word.now (verb_text verb)) VERBS }
    {
        VERBS.iter().copied().find(|verb| word == verb.text())
    }

    /// The word that the verb is.
    fn text(self) -> &'static [u8]
        ensures { result.now ≡ verb_text self }
    {
        match self {
            Verb::Pipe => b"pipe",
            Verb::Check => b"check",
            Verb::Replay => b"replay",
            Verb::List => b"list",
            Verb::Gen => b"gen",
        }
    }
}
