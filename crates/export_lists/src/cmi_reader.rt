//! Reading the text of an interface, line by line.

ghost use Rattle.std.specs.Prelude.{◌≤◌, length, IfOk, IfErr};
ghost use Rattle.export_lists.specs.Drafts.{EndsSo};
ghost use Rattle.export_lists.specs.CmiFaults.{IsCmiText, TellsCmiFault};

use crate::cmi::Cmi;
use crate::cmi_error::CmiError;
use crate::distinct::LineError;
use crate::draft::Draft;
use std::alloc::Global;
use unit_registry::cut_at_newline;

/// The interface, where all its lines were read and nothing follows them.
fn end_draft(draft: Draft, number: u32, rest: &[u8]) -> Result<Cmi, CmiError>
    ensures { EndsSo draft number rest.now result }
{
    match draft {
        Draft::Over { cmi } if rest.is_empty() => Ok(cmi),
        _ => Err(CmiError::Text { line: number }),
    }
}

/// The interface of a text, or its first line at fault.
fn read_cmi(alloc: Global, octets: &[u8]) -> Result<Cmi, CmiError>
    requires { length octets.now ≤ 2147483648 }
    ensures cmi { IfOk result (IsCmiText octets.now) }
    ensures fault { IfErr result (TellsCmiFault octets.now) }
{
    let mut draft = Draft::Start;
    let mut number = 1;
    let mut rest = octets;
    while let Some((line, behind)) = cut_at_newline(rest) {
        draft = match draft.with_line(alloc, line) {
            Ok(next) => next,
            Err(LineError::Fault) => return Err(CmiError::Text { line: number }),
            Err(LineError::Memory) => return Err(CmiError::Memory),
        };
        number += 1;
        rest = behind;
    }
    end_draft(draft, number, rest)
}

impl Cmi {
    /// Reads the text of an interface: what `write` gives for one whose unit has the name of a module, a
    /// partition or a header unit, whose entries have identifiers as names and dotted names or header
    /// names as owners, and whose lists have at most 65,536 entries each, no two of a list equal.
    ///
    /// `Text` is the first line at fault, counted from 1: no such text has the same lines up to that one.
    /// So a text that ends before `end` is at fault on the line whose number is one more than that of its
    /// NEWLINEs, and text after `end` on the line after it. `Memory` may come for any text. The text has
    /// at most 2,147,483,648 octets.
    pub fn read(alloc: Global, octets: &[u8]) -> Result<Cmi, CmiError>
        requires { length octets.now ≤ 2147483648 }
        ensures cmi { IfOk result (IsCmiText octets.now) }
        ensures fault { IfErr result (TellsCmiFault octets.now) }
    {
        read_cmi(alloc, octets)
    }
}
