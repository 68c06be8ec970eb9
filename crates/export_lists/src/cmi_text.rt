//! Writing the text of a compiled module interface.

ghost use Rattle.std.specs.Prelude.{◌≡◌, ◌++◌, ◌∷◌, [], IfOk, OnOk};
ghost use Rattle.export_lists.specs.Words.{line_of, entry_lines};
ghost use Rattle.export_lists.specs.CmiTexts.{role_word, cmi_text};

use crate::cmi::Cmi;
use crate::lines::{append_line, append_three};
use crate::listed::Listed;
use crate::words::kind_word;
use mm_outside::{Bytes, Memory, Text};
use std::alloc::Global;

/// The word for whether a unit is an interface.
pub(crate) fn role_word(interface: bool) -> &'static [u8]
    ensures { result.now ≡ role_word interface }
{
    if interface {
        b"interface"
    } else {
        b"implementation"
    }
}

/// Appends an entry's line, behind a first word and the word for its kind.
fn append_entry<'a>(
    alloc: Global,
    first: &'a [u8],
    kind: &'a [u8],
    entry: &'a Listed,
    text: &mut Text,
) -> Result<(), Memory>
    ensures { OnOk result (text.new ≡ text.old ++ line_of (first.now ∷ kind.now ∷ entry.now.name ∷ entry.now.owner ∷ [])) }
{
    append_line(
        alloc,
        &[first, kind, entry.name.octets(), entry.owner.octets()],
        text,
    )
}

/// Appends the lines of entries, each behind the same first word.
pub(crate) fn append_entries(
    alloc: Global,
    first: &[u8],
    entries: &[Listed],
    text: &mut Text,
) -> Result<(), Memory>
    ensures { OnOk result (text.new ≡ text.old ++ entry_lines first.now entries.now) }
{
    for entry in entries {
        append_entry(alloc, first, kind_word(entry.kind), entry, text)?;
    }
    Ok(())
}

impl Cmi {
    /// The text of the interface: the lines `modmap-cmi 1`, `unit NAME interface` or
    /// `unit NAME implementation`, `export KIND NAME OWNER` for each entry of the exports,
    /// `inner KIND NAME OWNER` for each entry of the view, and `end`. Words are in canonical writing. The
    /// text is this project's own. `Memory` may come for any interface.
    pub fn write(&self, alloc: Global) -> Result<Bytes, Memory>
        ensures { IfOk result (λ text. text ≡ cmi_text self.now) }
    {
        let mut text = Text::new(alloc);
        append_line(
            alloc,
            &[b"modmap-cmi".as_slice(), b"1".as_slice()],
            &mut text,
        )?;
        let role = role_word(self.interface);
        append_three(alloc, b"unit", self.unit.octets(), role, &mut text)?;
        append_entries(alloc, b"export", self.exports.as_slice(), &mut text)?;
        append_entries(alloc, b"inner", self.view.as_slice(), &mut text)?;
        append_line(alloc, &[b"end".as_slice()], &mut text)?;
        Ok(text)
    }
}
