//! An interface that is being read, line by line.

ghost use Rattle.std.specs.Prelude.{◌≡◌, ◌++◌, ◌∷◌, [], Some, None, if◌then◌else◌, IfOk};
ghost use Rattle.std.specs.Str.{bytes_eq};
ghost use Rattle.cody_words.specs.Octets.{newline};
ghost use Rattle.export_lists.specs.Words.{line_of};
ghost use Rattle.mapper_requests.specs.Requests.{word_at};
ghost use Rattle.unit_registry.specs.Lines.{is_word};
ghost use Rattle.export_lists.specs.Drafts.{kind_in, role_in, headed, with_role, begun, with_entry_line, with_kind, lists_next, next, Takes, ReadsWords, TakesLine};

use crate::cmi::Cmi;
use crate::cmi_text::role_word;
use crate::distinct::{Distinct, LineError};
use crate::grammar::is_name;
use crate::words::kind_word;
use cody_words::{LexError, Line, LineBuf, Words, lex_line, write_line};
use mapper_requests::word_or_empty;
use mm_outside::{Memory, Text};
use module_units::DeclKind;
use std::alloc::Global;

/// The kinds of declarations.
const KINDS: [DeclKind; 5] = [
    DeclKind::Struct,
    DeclKind::Class,
    DeclKind::Alias,
    DeclKind::Variable,
    DeclKind::Function,
];

/// Whether a unit is an interface, or isn't.
const ROLES: [bool; 2] = [true, false];

/// The lists of an interface so far.
#[derive(Drop)]
pub(crate) struct Lists {
    pub unit: Text,
    pub interface: bool,
    pub exports: Distinct,
    pub view: Distinct,
}

/// What the lines so far are.
#[derive(Drop)]
pub(crate) enum Draft {
    /// There is none yet.
    Start,
    /// The first one.
    Headed,
    /// These and that of the unit, and some of entries.
    Listing { lists: Lists },
    /// All.
    Over { cmi: Cmi },
}

/// Whether the word at the place is this one.
fn is_word(words: &Words, place: u32, word: &[u8]) -> bool
    ensures { result ≡ is_word words.now place word.now }
{
    word_or_empty(words, place) == word
}

/// Whether the words are the same.
fn is_same_word(word: &[u8], other: &[u8]) -> bool
    ensures { result ≡ bytes_eq word.now other.now }
{
    word == other
}

/// The kind of declaration that a word stands for.
fn kind_in(word: &[u8]) -> Option<DeclKind>
    ensures { result ≡ kind_in word.now }
{
    KINDS.iter().copied().find(|kind| word == kind_word(*kind))
}

/// Whether a unit is an interface, by the word for it.
fn role_in(word: &[u8]) -> Option<bool>
    ensures { result ≡ role_in word.now }
{
    ROLES
        .iter()
        .copied()
        .find(|interface| word == role_word(*interface))
}

/// The draft behind the first line.
fn headed(words: &Words) -> Result<Draft, LineError>
    ensures { Takes (headed words.now) result }
{
    if words.len() == 2 && is_word(words, 0, b"modmap-cmi") && is_word(words, 1, b"1") {
        Ok(Draft::Headed)
    } else {
        Err(LineError::Fault)
    }
}

/// The draft behind the line of a unit of this name.
fn with_role(alloc: Global, name: &[u8], role: Option<bool>) -> Result<Draft, LineError>
    ensures { Takes (with_role name.now role) result }
{
    match role {
        Some(interface) if is_name(name) => Ok(Draft::Listing {
            lists: Lists {
                unit: Text::of(alloc, name)?,
                interface,
                exports: Distinct::new(alloc),
                view: Distinct::new(alloc),
            },
        }),
        _ => Err(LineError::Fault),
    }
}

/// The draft behind the line of the unit.
fn begun(alloc: Global, words: &Words) -> Result<Draft, LineError>
    ensures { Takes (begun words.now) result }
{
    if words.len() == 3 && is_word(words, 0, b"unit") {
        with_role(
            alloc,
            word_or_empty(words, 1),
            role_in(word_or_empty(words, 2)),
        )
    } else {
        Err(LineError::Fault)
    }
}

impl Lists {
    ghost use Rattle.export_lists.specs.Drafts.{cmi_of, exported, seen};

    /// The interface of these lists.
    fn into_cmi(self) -> Cmi
        ensures { result ≡ cmi_of self }
    {
        Cmi {
            unit: self.unit,
            interface: self.interface,
            exports: self.exports.into_list(),
            view: self.view.into_list(),
        }
    }

    /// The draft with one entry of the exports more.
    fn with_export(
        self,
        alloc: Global,
        kind: DeclKind,
        name: &[u8],
        owner: &[u8],
    ) -> Result<Draft, LineError>
        ensures { Takes (exported self (record { kind = kind; name = name.now; owner = owner.now })) result }
    {
        if !self.view.is_empty() {
            return Err(LineError::Fault);
        }
        let exports = self.exports.add(alloc, kind, name, owner)?;
        Ok(Draft::Listing {
            lists: Lists {
                unit: self.unit,
                interface: self.interface,
                exports,
                view: self.view,
            },
        })
    }

    /// The draft with one entry of the view more.
    fn with_seen(
        self,
        alloc: Global,
        kind: DeclKind,
        name: &[u8],
        owner: &[u8],
    ) -> Result<Draft, LineError>
        ensures { Takes (seen self (record { kind = kind; name = name.now; owner = owner.now })) result }
    {
        let view = self.view.add(alloc, kind, name, owner)?;
        Ok(Draft::Listing {
            lists: Lists {
                unit: self.unit,
                interface: self.interface,
                exports: self.exports,
                view,
            },
        })
    }

    /// The draft behind an entry's line that begins with this word.
    fn with_entry(
        self,
        alloc: Global,
        first: &[u8],
        kind: DeclKind,
        name: &[u8],
        owner: &[u8],
    ) -> Result<Draft, LineError>
        ensures { Takes (with_entry_line self first.now (record { kind = kind; name = name.now; owner = owner.now })) result }
    {
        if is_same_word(first, b"export") {
            self.with_export(alloc, kind, name, owner)
        } else if is_same_word(first, b"inner") {
            self.with_seen(alloc, kind, name, owner)
        } else {
            Err(LineError::Fault)
        }
    }

    /// The draft behind a line of four words.
    fn with_kind(self, alloc: Global, words: &Words) -> Result<Draft, LineError>
        ensures { Takes (with_kind self (word_at words.now 0) (kind_in (word_at words.now 1)) (word_at words.now 2) (word_at words.now 3)) result }
    {
        match kind_in(word_or_empty(words, 1)) {
            Some(kind) => self.with_entry(
                alloc,
                word_or_empty(words, 0),
                kind,
                word_or_empty(words, 2),
                word_or_empty(words, 3),
            ),
            None => Err(LineError::Fault),
        }
    }

    /// The draft behind one line more.
    fn with_words(self, alloc: Global, words: &Words) -> Result<Draft, LineError>
        ensures { Takes (lists_next self words.now) result }
    {
        if words.len() == 4 {
            return self.with_kind(alloc, words);
        }
        if words.len() == 1 && is_word(words, 0, b"end") {
            return Ok(Draft::Over {
                cmi: self.into_cmi(),
            });
        }
        Err(LineError::Fault)
    }
}

/// Whether the line is the canonical one of these words.
fn is_canonical(alloc: Global, line: &[u8], words: &Words) -> Result<bool, Memory>
    ensures { IfOk result (λ same. same ≡ bytes_eq (line.now ++ newline ∷ []) (line_of words.now)) }
{
    let mut canonical = LineBuf::new(alloc, words.room())?;
    write_line(words, false, &mut canonical);
    let mut whole = Text::of(alloc, line)?;
    whole.extend(b"\n")?;
    Ok(is_same_word(whole.octets(), canonical.octets()))
}

/// The words that a line says, where it is their canonical one.
fn only_canonical(alloc: Global, line: &[u8], words: Words) -> Result<Option<Words>, Memory>
    ensures { IfOk result (λ found. found ≡ (if bytes_eq (line.now ++ newline ∷ []) (line_of words) then Some words else None)) }
{
    if is_canonical(alloc, line, &words)? {
        Ok(Some(words))
    } else {
        Ok(None)
    }
}

/// The words of the line, where it is their canonical one.
fn canonical_words(alloc: Global, line: &[u8]) -> Result<Option<Words>, Memory>
    ensures { ReadsWords result line.now }
{
    match lex_line(alloc, line) {
        Ok(Line::Words { words, more: _ }) => only_canonical(alloc, line, words),
        Ok(Line::Blank { .. }) => Ok(None),
        Err(LexError::Malformed { .. }) => Ok(None),
        Err(LexError::Memory) => Err(Memory),
    }
}

impl Draft {
    /// The draft behind a line of these words.
    fn with_words(self, alloc: Global, words: &Words) -> Result<Draft, LineError>
        ensures { Takes (next self words.now) result }
    {
        match self {
            Draft::Start => headed(words),
            Draft::Headed => begun(alloc, words),
            Draft::Listing { lists } => lists.with_words(alloc, words),
            Draft::Over { .. } => Err(LineError::Fault),
        }
    }

    /// The draft behind one line more, without its NEWLINE.
    pub(crate) fn with_line(self, alloc: Global, line: &[u8]) -> Result<Draft, LineError>
        ensures { TakesLine result self line.now }
    {
        match canonical_words(alloc, line)? {
            Some(words) => self.with_words(alloc, &words),
            None => Err(LineError::Fault),
        }
    }
}
