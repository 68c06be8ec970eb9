//! The forms of a project file's lines.

ghost use Rattle.std.specs.Prelude.{◌≡◌, ◌≤◌, IfOk};
ghost use Rattle.std.specs.List.{list_all};
ghost use Rattle.std.specs.Option.{option_map};
ghost use Rattle.header_units.specs.Octets.{is_path_octet};
ghost use Rattle.unit_registry.specs.Lines.{declared_by, form, form_of, head_form, is_text, is_word, named_form, repo_form, unit_form};

use crate::kind::Kind;
use crate::unit::Declared;
use cody_words::Words;
use mapper_requests::word_or_empty;
use mm_outside::{Memory, Text};
use std::alloc::Global;

/// The most octets of a path and of an ident.
const LONGEST_TEXT: usize = 512;

/// Which line may come next.
#[derive(Clone, Copy, Debug, PartialEq, Eq)]
pub(crate) enum Stage {
    /// The first one.
    Head,
    /// The repository.
    Repo,
    /// A unit, or the end.
    Units,
    /// None.
    Over,
}

/// The line of a unit.
#[derive(Clone, Copy, Debug)]
pub(crate) struct UnitLine<'a> {
    /// The unit's kind.
    pub kind: Kind,
    /// Its name, empty for a plain unit.
    pub name: &'a [u8],
    /// Its ident.
    pub ident: &'a [u8],
    /// Whether the line begins with `built`.
    pub built: bool,
}

/// What a line is.
#[derive(Clone, Copy, Debug)]
pub(crate) enum Form<'a> {
    /// The first line.
    Heading,
    /// The repository.
    Repository { path: &'a [u8] },
    /// A unit.
    Entry { line: UnitLine<'a> },
    /// The last line.
    Ending,
}

/// Whether the word at the place is this one.
fn is_word(words: &Words, place: u32, word: &[u8]) -> bool
    ensures { result ≡ is_word words.now place word.now }
{
    word_or_empty(words, place) == word
}

/// The form of `module NAME IDENT` or `header NAME IDENT`, from the place on.
fn named_form(built: bool, words: &Words, place: u32) -> Option<Form<'_>>
    requires { place ≤ 1 }
    ensures { option_map form_of result ≡ named_form built words.now place }
{
    let kind = if is_word(words, place, b"module") {
        Kind::Module
    } else if is_word(words, place, b"header") {
        Kind::Header
    } else {
        return None;
    };
    Some(Form::Entry {
        line: UnitLine {
            kind,
            name: word_or_empty(words, place + 1),
            ident: word_or_empty(words, place + 2),
            built,
        },
    })
}

/// The form of the line of a unit, or of the end.
fn unit_form(words: &Words) -> Option<Form<'_>>
    ensures { option_map form_of result ≡ unit_form words.now }
{
    match words.len() {
        1 if is_word(words, 0, b"end") => Some(Form::Ending),
        2 if is_word(words, 0, b"plain") => Some(Form::Entry {
            line: UnitLine {
                kind: Kind::Plain,
                name: b"",
                ident: word_or_empty(words, 1),
                built: false,
            },
        }),
        3 => named_form(false, words, 0),
        4 if is_word(words, 0, b"built") => named_form(true, words, 1),
        _ => None,
    }
}

/// The form of the first line.
fn head_form(words: &Words) -> Option<Form<'_>>
    ensures { option_map form_of result ≡ head_form words.now }
{
    if words.len() == 2 && is_word(words, 0, b"modmap-project") && is_word(words, 1, b"1") {
        Some(Form::Heading)
    } else {
        None
    }
}

/// The form of the line of the repository.
fn repo_form(words: &Words) -> Option<Form<'_>>
    ensures { option_map form_of result ≡ repo_form words.now }
{
    if words.len() == 2 && is_word(words, 0, b"repo") {
        let path = word_or_empty(words, 1);
        Some(Form::Repository { path })
    } else {
        None
    }
}

impl UnitLine<'_> {
    /// The unit of the line.
    pub(crate) fn declared(&self, alloc: Global) -> Result<Declared, Memory>
        ensures { IfOk result (λ unit. unit ≡ declared_by self.now) }
    {
        Ok(Declared {
            kind: self.kind,
            name: Text::of(alloc, self.name)?,
            ident: Text::of(alloc, self.ident)?,
            built: self.built,
        })
    }
}

impl Stage {
    /// The form that the words have at this place in the file.
    pub(crate) fn form(self, words: &Words) -> Option<Form<'_>>
        ensures { option_map form_of result ≡ form self words.now }
    {
        match self {
            Stage::Head => head_form(words),
            Stage::Repo => repo_form(words),
            Stage::Units => unit_form(words),
            Stage::Over => None,
        }
    }
}

/// Whether each octet may stand in a path or an ident.
fn has_text_octets(text: &[u8]) -> bool
    ensures { result ≡ list_all is_path_octet text.now }
{
    text.iter().all(|octet| !octet.is_ascii_control())
}

/// Whether the octets may be a path or an ident: there are 1 to 512, none below 0x20 and none 0x7f.
pub(crate) fn is_text(text: &[u8]) -> bool
    ensures { result ≡ is_text text.now }
{
    !text.is_empty() && text.len() <= LONGEST_TEXT && has_text_octets(text)
}
